//! Job files that a run reads and keeps, over a store and a sink of which a call fails.

use super::{A, NO_FILES, T0, site, site_shown, strings};
use rc_failing::Failing;
use rc_fixture::{Row, flat_tree};
use rc_mem::{FixedClock, MemJobs, MemSink, MemSite};
use rc_run::{Outcome, mirror_alone, outcome_text, status};
use rc_tree::Text;
use rc_volume::JobStore;
use std::alloc::Global;
use std::test::Fail;

const FILE: &[Row] = &[("a.txt", b"hello", T0, A)];

// Words, the number of the store's call that fails, the line, and whether `j.RCJ` is kept.
const ROWS: &[(&[&str], u64, &str, bool)] = &[
    (&["/JOB:j"], 1, "ERROR: job store fault", false),
    (
        &["SRC", "DST", "/SAVE:j"],
        1,
        "ERROR: job store fault",
        false,
    ),
    (
        &["SRC", "DST", "/SAVE:j", "/QUIT"],
        1,
        "ERROR: job store fault",
        false,
    ),
    (&["SRC", "DST", "/SAVE:j", "/QUIT"], 2, "", true),
    (
        &["SRC", "DST", "/JOB:k", "/SAVE:j"],
        0,
        "ERROR: job file missing: k.RCJ",
        false,
    ),
];

fn start(alloc: Global) -> Result<MemSite, Fail> {
    site(alloc, flat_tree(alloc, FILE)?, flat_tree(alloc, NO_FILES)?)
}

// Whether the store has a file of this name.
fn has(alloc: Global, jobs: &mut MemJobs, name: &str) -> Result<bool, Fail> {
    let name = Text::of(alloc, name)?;
    let found = jobs.read(alloc, &name)?;
    Ok(found.is_some())
}

// A run over a store of which the call of this number fails: its line, whether its site is as before, and whether
// `j.RCJ` is kept.
fn runs(alloc: Global, words: &[&str], number: u64) -> Result<(Outcome, bool, bool), Fail> {
    let words = strings(alloc, words)?;
    let start = start(alloc)?;
    let before = site_shown(alloc, &start)?;
    let mut jobs = Failing::new(MemJobs::new(alloc));
    jobs.fail_at(number);
    let mut sink = MemSink::new(alloc);
    let mut clock = FixedClock::new(T0);
    let ended = mirror_alone(
        alloc,
        words.as_slice(),
        start,
        &mut jobs,
        &mut sink,
        &mut clock,
    );
    let after = site_shown(alloc, &ended.site)?;
    let kept = has(alloc, &mut jobs.behind, "J.rcj")?;
    Ok((ended.outcome, after.as_str() == before.as_str(), kept))
}

#[test]
fn a_store_that_fails_changes_nothing(rt: HostRuntime) -> Result<(), Fail> {
    let alloc = rt.alloc();
    for (words, number, line, kept) in ROWS {
        let (outcome, is_same, is_kept) = runs(alloc, words, *number)?;
        assert_eq!(rt; outcome_text(alloc, &outcome)?.text(), *line);
        assert!(rt; is_same);
        assert_eq!(rt; is_kept, *kept);
    }
    Ok(())
}

#[test]
fn a_job_is_kept_where_it_cannot_be_shown(rt: HostRuntime) -> Result<(), Fail> {
    let alloc = rt.alloc();
    let words = strings(alloc, &["SRC", "DST", "/SAVE:j", "/QUIT"])?;
    let mut jobs = MemJobs::new(alloc);
    let mut sink = Failing::new(MemSink::new(alloc));
    sink.fail_at(1);
    let mut clock = FixedClock::new(T0);
    let site = start(alloc)?;
    let ended = mirror_alone(
        alloc,
        words.as_slice(),
        site,
        &mut jobs,
        &mut sink,
        &mut clock,
    );
    assert_eq!(rt;
        outcome_text(alloc, &ended.outcome)?.text(),
        "ERROR: report fault"
    );
    assert_eq!(rt; status(&ended.outcome), 16);
    assert!(rt; has(alloc, &mut jobs, "j.RCJ")?);
    Ok(())
}
