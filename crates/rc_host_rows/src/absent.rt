//! A target root that is not there.

use crate::bench::{Step, miss};
use std::test::Fail;

const ABSENT: &[Step] = &[
    ("host dir", "s", "", "done"),
    ("roots", "s", "p/q/t", "named"),
    ("open", "size", "1", "done"),
    // It is an empty tree, and looks and syncs make nothing.
    ("list", "t", "", "all"),
    ("next", "t", "a", "none"),
    ("stat", "t/f", "", "none"),
    ("stat", "t/d/f", "", "none"),
    ("record len", "", "", "0"),
    ("sync", "t", "", "done"),
    ("record sync", "", "", "done"),
    ("host look", "p", "", "none"),
    ("leave", "", "", "left"),
    ("host look", "", "", "dir s s.rct"),
    ("open", "size", "2", "done"),
    ("put", "t/f", "0 a", "refused"),
    ("set len", "t/f", "1", "refused"),
    ("set props", "t/f", "R 5 6 - - -", "refused"),
    ("remove", "t/f", "", "refused"),
    // The first change makes it, with what is above it.
    ("make dir", "t/d", "", "done"),
    ("host look", "p/q/t", "", "dir d"),
    ("make file", "t/d/f", "", "done"),
    ("set props", "t/d/f", "R 5 6 - - -", "done"),
    ("host look", "p/q/t/d", "", "dir f"),
    ("list", "t", "", "all d/"),
    ("sync", "t", "", "done"),
    ("leave", "", "", "left"),
    ("host look", "p", "", "dir q"),
    ("host look", "p/q", "", "dir t t.rct"),
    ("open", "size", "3", "done"),
    ("props", "t/d/f", "", "R 5 6 - - -"),
];

#[test]
fn an_absent_target_is_made_at_the_first_change(rt: HostRuntime) -> Result<(), Fail> {
    let miss = miss(&rt, "absent", ABSENT)?;
    assert_eq!(rt; miss.as_str(), "");
    Ok(())
}

// The record stands beside the root, also before that is there.
const RECORD_FIRST: &[Step] = &[
    ("host dir", "s", "", "done"),
    ("roots", "s", "p/q/t", "named"),
    ("open", "size", "1", "done"),
    ("record write", "", "0 abc", "done"),
    ("record sync", "", "", "done"),
    ("host look", "p/q", "", "dir t.rcr"),
    ("list", "t", "", "all"),
    ("make file", "t/f", "", "done"),
    ("sync", "t", "", "done"),
    ("host look", "p/q/t", "", "dir f"),
    ("host look", "p/q/t.rcr", "", "file abc"),
];

#[test]
fn a_record_may_come_before_its_root(rt: HostRuntime) -> Result<(), Fail> {
    let miss = miss(&rt, "record-first", RECORD_FIRST)?;
    assert_eq!(rt; miss.as_str(), "");
    Ok(())
}

// Of a root that was taken away no row stays.
const STALE: &[Step] = &[
    ("host dir", "s", "", "done"),
    ("host dir", "t", "", "done"),
    ("host file", "t/f", "abc", "done"),
    ("open", "size", "1", "done"),
    ("leave", "", "", "left"),
    (
        "row",
        "t/f",
        "",
        "3 0000000000000000000000000000000000000000000000000000000000000000",
    ),
    ("host clear", "t", "", "done"),
    ("open", "size", "2", "done"),
    ("list", "t", "", "all"),
    ("leave", "", "", "left"),
    ("row", "t/f", "", "none"),
    ("host look", "t", "", "none"),
];

#[test]
fn rows_of_an_absent_root_are_dropped(rt: HostRuntime) -> Result<(), Fail> {
    let miss = miss(&rt, "stale", STALE)?;
    assert_eq!(rt; miss.as_str(), "");
    Ok(())
}

// Where the host refuses to make it, the change fails.
const BLOCKED: &[Step] = &[
    ("host dir", "s", "", "done"),
    ("host file", "p", "text", "done"),
    ("roots", "s", "p/q/t", "named"),
    ("open", "size", "1", "done"),
    ("list", "t", "", "all"),
    ("make dir", "t/d", "", "refused"),
    ("make file", "t/f", "", "refused"),
    ("record write", "", "0 abc", "refused"),
    ("host look", "p", "", "file text"),
    ("list", "t", "", "all"),
];

#[test]
fn a_root_that_cannot_be_made_is_a_fault(rt: HostRuntime) -> Result<(), Fail> {
    let miss = miss(&rt, "blocked", BLOCKED)?;
    assert_eq!(rt; miss.as_str(), "");
    Ok(())
}
