//! A store of which one call fails, and words that have no effect yet.

use crate::stores::{answer, keep, words_in};
use rc_failing::Failing;
use rc_jobfiles::{are_built, resolve};
use rc_mem::MemJobs;
use std::alloc::Global;
use std::test::Fail;

// What the words of a line ask for over two files, where the call of this number fails.
fn ask_failing(alloc: Global, number: u64, line: &str) -> Result<String, Fail> {
    let mut jobs = MemJobs::new(alloc);
    keep(alloc, &mut jobs, "j.RCJ", b"/JOB:k /E")?;
    keep(alloc, &mut jobs, "k.RCJ", b"/R:5")?;
    let mut jobs = Failing::new(jobs);
    jobs.fail_at(number);
    let words = words_in(alloc, line)?;
    answer(alloc, resolve(alloc, words.as_slice(), &mut jobs))
}

const FAILING: &[(u64, &str, &str)] = &[
    (1, "SRC DST /JOB:j", "fault"),
    (2, "SRC DST /JOB:j", "fault"),
    (3, "SRC DST /JOB:j", "/SD:SRC|/DD:DST|/IF|*.*|/E|/R:5|"),
    (2, "SRC DST /JOB:k /JOB:none", "fault"),
    (3, "SRC DST /JOB:k /JOB:none", "missing none.RCJ"),
    (1, "SRC DST", "/SD:SRC|/DD:DST|/IF|*.*|"),
    (1, "SRC /JOB:j /BAD", "U1 at 3 of "),
];

// Lines, and whether their words have their effect.
const BUILT: &[(&str, bool)] = &[
    ("SRC DST", true),
    ("/NOSD /NODD /JOB:j /SAVE:x /QUIT", true),
    ("SRC DST /DROP", false),
    ("/JOB:none /drop /QUIT", false),
    ("SRC DST /DROP /BAD", true),
];

#[test]
fn a_store_that_fails_is_a_fault(rt: HostRuntime) -> Result<(), Fail> {
    for (number, line, wanted) in FAILING {
        assert!(rt; ask_failing(rt.alloc(), *number, line)?.as_str() == *wanted);
    }
    Ok(())
}

#[test]
fn dropping_has_no_effect_yet(rt: HostRuntime) -> Result<(), Fail> {
    for (line, wanted) in BUILT {
        let words = words_in(rt.alloc(), line)?;
        assert!(rt; are_built(rt.alloc(), words.as_slice())? == *wanted);
    }
    Ok(())
}
