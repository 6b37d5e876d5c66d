//! The bytes of job files, and the job that is saved.

use crate::stores::{ask, keep, words_in};
use rc_jobfiles::{resolve, save_text};
use rc_mem::MemJobs;
use std::alloc::Global;
use std::test::Fail;

// What a job file of these bytes asks for.
fn asked(alloc: Global, bytes: &[u8]) -> Result<String, Fail> {
    let mut jobs = MemJobs::new(alloc);
    keep(alloc, &mut jobs, "j.RCJ", bytes)?;
    ask(alloc, &mut jobs, "SRC DST /JOB:j")
}

// The bytes that are kept of the job of a line, and the job that is read from them; nothing of words that are refused.
fn saved(alloc: Global, line: &str) -> Result<Option<(Vec<u8>, String)>, Fail> {
    let mut jobs = MemJobs::new(alloc);
    let words = words_in(alloc, line)?;
    let asked = resolve(alloc, words.as_slice(), &mut jobs);
    if let Ok(resolved) = asked {
        let bytes = save_text(alloc, &resolved.job)?;
        keep(alloc, &mut jobs, "j.RCJ", bytes.as_slice())?;
        let read = ask(alloc, &mut jobs, "/JOB:j")?;
        return Ok(Some((bytes, read)));
    }
    Ok(None)
}

// The same text of `/E` and a pattern of an O with two dots, in three spellings, and bytes that are no text.
const SPELLED: &[(&[u8], &str)] = &[
    (b"/E \xC3\x96", "/SD:SRC|/DD:DST|/IF|\u{D6}|/E|"),
    (b"\xEF\xBB\xBF/E \xC3\x96", "/SD:SRC|/DD:DST|/IF|\u{D6}|/E|"),
    (
        b"\xFF\xFE/\x00E\x00 \x00\xD6\x00",
        "/SD:SRC|/DD:DST|/IF|\u{D6}|/E|",
    ),
    (
        b"\xFF\xFEx\x00\x0A\x00\x3D\xD8\x00\xDE",
        "/SD:SRC|/DD:DST|/IF|x|\u{1F600}|",
    ),
    (b"\xFF\xFE", "/SD:SRC|/DD:DST|/IF|*.*|"),
    (b"\xFF\xFEa", "U13 at 1 of j.RCJ"),
    (b"\xFF\xFE\x3D\xD8", "U13 at 1 of j.RCJ"),
    (b"\xFE\xFF\x00/", "U13 at 1 of j.RCJ"),
    (b"/E\n\xC3", "U13 at 1 of j.RCJ"),
    (b"/E \"\n\xC3", "U13 at 1 of j.RCJ"),
];

#[test]
fn bytes_are_utf_8_or_utf_16(rt: HostRuntime) -> Result<(), Fail> {
    for (bytes, wanted) in SPELLED {
        assert!(rt; asked(rt.alloc(), bytes)?.as_str() == *wanted);
    }
    Ok(())
}

#[test]
fn a_saved_job_is_read_back(rt: HostRuntime) -> Result<(), Fail> {
    let line = "SRC DST /MIR /XF *.tmp /SAVE:j /QUIT";
    if let Some((bytes, read)) = saved(rt.alloc(), line)? {
        let text = "/SD:SRC\n/DD:DST\n/IF\n*.*\n/E\n/PURGE\n/XF\n*.tmp\n";
        assert!(rt; bytes.len() == 44);
        assert!(rt; bytes.as_slice() == text.as_bytes());
        assert!(rt; read.as_str() == "/SD:SRC|/DD:DST|/IF|*.*|/E|/PURGE|/XF|*.tmp|");
        return Ok(());
    }
    assert!(rt; false);
    Ok(())
}
