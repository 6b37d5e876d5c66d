//! How many job files are read.

use crate::stores::{answer, ask, keep};
use rc_jobfiles::resolve;
use rc_mem::MemJobs;
use std::alloc::Global;
use std::test::Fail;

// Keeps files of which each names the next one; the last one, of this number, has no word.
fn keep_chain(alloc: Global, jobs: &mut MemJobs, last: u32) -> Result<(), Fail> {
    for number in 1..last {
        let next = number.saturating_add(1);
        let name = format!(in alloc; "f{number}.RCJ")?;
        let text = format!(in alloc; "/JOB:f{next}")?;
        keep(alloc, jobs, name.as_str(), text.as_bytes())?;
    }
    let name = format!(in alloc; "f{last}.RCJ")?;
    keep(alloc, jobs, name.as_str(), b"/E")
}

// What a source, a target and so many readings of one empty file ask for.
fn ask_often(alloc: Global, times: u32) -> Result<String, Fail> {
    let mut jobs = MemJobs::new(alloc);
    keep(alloc, &mut jobs, "e.RCJ", b"")?;
    let mut words = Vec::new(alloc);
    words.push(String::from_str(alloc, "SRC")?)?;
    words.push(String::from_str(alloc, "DST")?)?;
    for _ in 0..times {
        words.push(String::from_str(alloc, "/JOB:e")?)?;
    }
    answer(alloc, resolve(alloc, words.as_slice(), &mut jobs))
}

#[test]
fn eight_files_may_be_within_one_another(rt: HostRuntime) -> Result<(), Fail> {
    let mut jobs = MemJobs::new(rt.alloc());
    keep_chain(rt.alloc(), &mut jobs, 8)?;
    let eight = ask(rt.alloc(), &mut jobs, "SRC DST /JOB:f1")?;
    assert!(rt; eight.as_str() == "/SD:SRC|/DD:DST|/IF|*.*|/E|");
    let mut jobs = MemJobs::new(rt.alloc());
    keep_chain(rt.alloc(), &mut jobs, 9)?;
    let nine = ask(rt.alloc(), &mut jobs, "SRC DST /JOB:f1")?;
    assert!(rt; nine.as_str() == "deep f9.RCJ");
    Ok(())
}

#[test]
fn the_65th_reading_is_refused(rt: HostRuntime) -> Result<(), Fail> {
    assert!(rt; ask_often(rt.alloc(), 64)?.as_str() == "/SD:SRC|/DD:DST|/IF|*.*|");
    assert!(rt; ask_often(rt.alloc(), 65)?.as_str() == "U14 at 67 of ");
    Ok(())
}
