//! Refused runs, in the order of their refusals.

use super::{A, NO_FILES, T0, run, site_shown};
use rc_fixture::{Row, flat_tree};
use rc_mem::{MemSink, MemSite};
use rc_run::{outcome_text, status};
use std::alloc::Global;
use std::test::Fail;

const ROOTS: &[&str] = &["SRC", "DST"];

const BAD: &[&str] = &["SRC", "DST", "/DROP"];

const LISTING: &[&str] = &["SRC", "DST", "/L", "/NJH", "/NJS"];

const FILE: &[Row] = &[("a.txt", b"hello", T0, A)];

// Whether a run is refused with this line and changes, reads and reports nothing.
fn refuses(alloc: Global, words: &[&str], start: MemSite, line: &str) -> Result<bool, Fail> {
    let before = site_shown(alloc, &start)?;
    let mut sink = MemSink::new(alloc);
    let ended = run(alloc, words, start, &mut sink)?;
    let after = site_shown(alloc, &ended.site)?;
    Ok(
        outcome_text(alloc, &ended.outcome)?.text() == line
            && status(&ended.outcome) == 16
            && after.as_str() == before.as_str()
            && sink.bytes().is_empty(),
    )
}

#[test]
fn words_come_before_the_record(rt: HostRuntime) -> Result<(), Fail> {
    let alloc = rt.alloc();
    for (words, line) in [
        (ROOTS, "ERROR: not built yet: 3"),
        (BAD, "ERROR: not built yet: 1"),
    ] {
        let start = MemSite::new(
            alloc,
            flat_tree(alloc, FILE)?,
            flat_tree(alloc, NO_FILES)?,
            b"\xa5".to_vec(alloc)?,
        )?;
        assert!(rt; refuses(alloc, words, start, line)?);
    }
    Ok(())
}

#[test]
fn a_listing_does_not_look_at_the_record(rt: HostRuntime) -> Result<(), Fail> {
    let alloc = rt.alloc();
    let start = MemSite::new(
        alloc,
        flat_tree(alloc, FILE)?,
        flat_tree(alloc, NO_FILES)?,
        b"\xa5".to_vec(alloc)?,
    )?;
    let before = site_shown(alloc, &start)?;
    let mut sink = MemSink::new(alloc);
    let ended = run(alloc, LISTING, start, &mut sink)?;
    assert_eq!(rt; status(&ended.outcome), 1);
    assert_eq!(rt; site_shown(alloc, &ended.site)?.as_str(), before.as_str());
    assert_eq!(rt;
        sink.bytes(),
        b"  New File               5  a.txt\n".as_slice()
    );
    Ok(())
}
