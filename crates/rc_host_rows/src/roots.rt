//! How roots are named, and which can't be bound.

use crate::bench::{Step, miss};
use std::test::Fail;

// Each `\` is a `/`, and those at the end are none.
const TEXTS: &[Step] = &[
    ("host dir", "p/s", "", "done"),
    ("host dir", "p/t", "", "done"),
    ("host file", "p/s/f", "abc", "done"),
    ("roots", "p\\s\\", "p/t//", "named"),
    ("open", "size", "1", "done"),
    ("list", "s", "", "all f:3"),
    ("make file", "t/g", "", "done"),
    ("record write", "", "0 abc", "done"),
    ("host look", "p/t", "", "dir g"),
    ("host look", "p/s", "", "dir f"),
    ("leave", "", "", "left"),
    ("host look", "p", "", "dir s s.rct t t.rcr t.rct"),
    ("host look", "", "", "dir p"),
    // A root may be a link to a directory.
    ("host link", "l", "p/s", "done"),
    ("host link", "m", "p/t", "done"),
    ("roots", "l", "m", "named"),
    ("open", "size", "2", "done"),
    ("list", "s", "", "all f:3"),
    ("list", "t", "", "all g:0"),
    ("make file", "t/h", "", "done"),
    ("host look", "p/t", "", "dir g h"),
    ("leave", "", "", "left"),
    ("host look", "", "", "dir l l.rct m m.rct p"),
];

#[test]
fn texts_of_roots_are_read(rt: HostRuntime) -> Result<(), Fail> {
    let miss = miss(&rt, "texts", TEXTS)?;
    assert_eq!(rt; miss.as_str(), "");
    Ok(())
}

const UNBOUND: &[Step] = &[
    ("list", "s", "", "refused"),
    ("next", "t", "a", "refused"),
    ("stat", "s/f", "", "refused"),
    ("stat", "t/f", "", "refused"),
    ("make dir", "t/d", "", "refused"),
    ("make file", "t/f", "", "refused"),
    ("put", "t/f", "0 a", "refused"),
    ("set len", "t/f", "0", "refused"),
    ("set props", "t/f", "R 5 6 - - -", "refused"),
    ("remove", "t/f", "", "refused"),
    ("sync", "s", "", "refused"),
    ("sync", "t", "", "refused"),
    ("record len", "", "", "refused"),
    ("record read", "", "0 0", "refused"),
    ("record write", "", "0 a", "refused"),
    ("record cut", "", "0", "refused"),
    ("record sync", "", "", "refused"),
    ("read", "s/f", "0 0", "no reader"),
    ("host look", "", "", "dir"),
];

#[test]
fn nothing_is_done_before_roots_are_bound(rt: HostRuntime) -> Result<(), Fail> {
    let miss = miss(&rt, "unbound", UNBOUND)?;
    assert_eq!(rt; miss.as_str(), "");
    Ok(())
}

const REFUSED: &[Step] = &[
    // A source that is missing, or a file.
    ("open", "size", "1", "source refused"),
    ("host look", "", "", "dir"),
    ("host file", "s", "text", "done"),
    ("open", "size", "1", "source refused"),
    ("list", "s", "", "refused"),
    ("host look", "", "", "dir s"),
    ("host remove", "s", "", "done"),
    ("host link", "s", "nowhere", "done"),
    ("open", "size", "1", "source refused"),
    ("host remove", "s", "", "done"),
    // A target that is a file.
    ("host dir", "s", "", "done"),
    ("host file", "t", "text", "done"),
    ("open", "size", "1", "target refused"),
    ("list", "t", "", "refused"),
    ("record len", "", "", "refused"),
    ("leave", "", "", "left"),
    ("host look", "t", "", "file text"),
    ("host remove", "t", "", "done"),
    ("open", "size", "1", "done"),
    // The same site is bound anew, with the roots' tables free for it; where that fails, it has no
    // roots.
    ("bind", "size", "2", "done"),
    ("list", "s", "", "all"),
    ("roots", "no", "t", "named"),
    ("bind", "size", "3", "source refused"),
    ("list", "s", "", "refused"),
    ("list", "t", "", "refused"),
    ("record len", "", "", "refused"),
    ("roots", "s", "t", "named"),
    ("bind", "size", "4", "done"),
    ("list", "s", "", "all"),
];

#[test]
fn what_is_no_root_is_refused(rt: HostRuntime) -> Result<(), Fail> {
    let miss = miss(&rt, "no-root", REFUSED)?;
    assert_eq!(rt; miss.as_str(), "");
    Ok(())
}

// One root in the other, or the other itself, also where a link leads there.
const JOINED: &[Step] = &[
    ("host dir", "s/d/e", "", "done"),
    ("host file", "s/f", "abc", "done"),
    ("roots", "s", "s", "named"),
    ("open", "size", "1", "source refused"),
    ("roots", "s", "s/d/..", "named"),
    ("open", "size", "1", "source refused"),
    ("roots", "s", "s/d", "named"),
    ("open", "size", "1", "source refused"),
    ("host link", "l", "s", "done"),
    ("roots", "s", "l", "named"),
    ("open", "size", "1", "source refused"),
    ("host link", "m", "s/d", "done"),
    ("roots", "s", "m", "named"),
    ("open", "size", "1", "source refused"),
    ("roots", "m", "s", "named"),
    ("open", "size", "1", "target refused"),
    ("roots", "s/d", "s", "named"),
    ("open", "size", "1", "target refused"),
    // A target that is not there, where it would be made in the source.
    ("roots", "s", "l/new", "named"),
    ("open", "size", "1", "source refused"),
    ("roots", "s", "s/d/../new", "named"),
    ("open", "size", "1", "source refused"),
    ("roots", "s", "m/new/t", "named"),
    ("open", "size", "1", "source refused"),
    // And where it would be made beside it.
    ("roots", "s", "s/../new/t", "named"),
    ("open", "size", "1", "done"),
];

#[test]
fn one_root_in_the_other_is_a_fault(rt: HostRuntime) -> Result<(), Fail> {
    let miss = miss(&rt, "joined", JOINED)?;
    assert_eq!(rt; miss.as_str(), "");
    Ok(())
}

// Further below, it is a fault of the directory that holds it.
const DEEPER: &[Step] = &[
    ("host dir", "s/d/e", "", "done"),
    ("host file", "s/f", "abc", "done"),
    ("host link", "n", "s/d/e", "done"),
    ("roots", "s", "n", "named"),
    ("open", "size", "1", "done"),
    ("list", "s", "", "all d/ f:3"),
    ("list", "s/d", "", "refused"),
    ("roots", "n", "s", "named"),
    ("open", "size", "1", "done"),
    ("list", "t", "", "all d/ f:3"),
    ("list", "t/d", "", "refused"),
];

#[test]
fn a_root_far_below_the_other_is_a_fault(rt: HostRuntime) -> Result<(), Fail> {
    let miss = miss(&rt, "deeper", DEEPER)?;
    assert_eq!(rt; miss.as_str(), "");
    Ok(())
}

// A table's file that is no table is left as it is.
const TABLES: &[Step] = &[
    ("host dir", "s", "", "done"),
    ("host dir", "t", "", "done"),
    ("host file", "s/f", "abc", "done"),
    ("host file", "s.rct", "a text that somebody wrote", "done"),
    ("open", "size", "1", "source refused"),
    ("leave", "", "", "left"),
    ("host look", "s.rct", "", "file a text that somebody wrote"),
    ("host remove", "s.rct", "", "done"),
    ("host file", "t.rct", "a text that somebody wrote", "done"),
    ("open", "size", "1", "target refused"),
    ("leave", "", "", "left"),
    ("host look", "t.rct", "", "file a text that somebody wrote"),
    ("host remove", "t.rct", "", "done"),
    ("host dir", "t.rct", "", "done"),
    ("open", "size", "1", "target refused"),
    ("leave", "", "", "left"),
    ("host look", "t.rct", "", "dir"),
];

#[test]
fn a_file_that_is_no_table_is_a_fault(rt: HostRuntime) -> Result<(), Fail> {
    let miss = miss(&rt, "tables", TABLES)?;
    assert_eq!(rt; miss.as_str(), "");
    Ok(())
}

// A table that another site has is a fault, and the site that has it goes on.
const HELD: &[Step] = &[
    ("host dir", "s", "", "done"),
    ("host file", "s/f", "abc", "done"),
    ("open", "size", "1", "done"),
    ("open beside", "", "", "source refused"),
    ("list", "s", "", "all f:3"),
    ("set props", "s/f", "R 5 6 - - -", "done"),
    ("sync", "s", "", "done"),
    ("leave", "", "", "left"),
    ("open beside", "", "", "done"),
    ("open", "size", "1", "done"),
    ("props", "s/f", "", "R 5 6 - - -"),
];

#[test]
fn a_table_that_another_site_has_is_a_fault(rt: HostRuntime) -> Result<(), Fail> {
    let miss = miss(&rt, "held", HELD)?;
    assert_eq!(rt; miss.as_str(), "");
    Ok(())
}
