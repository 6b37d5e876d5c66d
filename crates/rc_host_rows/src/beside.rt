//! The files beside the roots, where they lie inside one.

use crate::bench::{Bench, Step, miss};
use std::env::{current_dir, set_current_dir};
use std::test::Fail;

// A root that is named with `.` at its end has them in itself: they are no entries of it.
const INSIDE: &[Step] = &[
    ("host dir", "s/d", "", "done"),
    ("host dir", "t", "", "done"),
    ("host file", "s/f", "abc", "done"),
    ("roots", "s/.", "t/.", "named"),
    ("open", "size", "1", "done"),
    ("list", "s", "", "all d/ f:3"),
    ("make file", "t/g", "", "done"),
    ("set props", "t/g", "R 5 6 - - -", "done"),
    ("sync", "t", "", "done"),
    ("record write", "", "0 abc", "done"),
    ("record sync", "", "", "done"),
    ("list", "t", "", "all g:0"),
    ("leave", "", "", "left"),
    ("host look", "", "", "dir s t"),
    ("host look", "s", "", "dir ..rct d f"),
    ("host look", "t", "", "dir ..rcr ..rct g"),
    ("host file", "t/..rch", "a history", "done"),
    // Other files of such names are entries.
    ("host file", "s/..rcr", "", "done"),
    ("host file", "s/d/..rct", "", "done"),
    ("host file", "t/x.rct", "", "done"),
    ("open", "size", "2", "done"),
    ("list", "s", "", "all ..rcr:0 d/ f:3"),
    ("list", "s/d", "", "all ..rct:0"),
    ("list", "t", "", "all g:0 x.rct:0"),
    ("props", "t/g", "", "R 5 6 - - -"),
    ("stat", "t/..rct", "", "none"),
    ("stat", "t/..rcr", "", "none"),
    ("stat", "t/..rch", "", "none"),
    ("record read", "", "0 3", "abc"),
];

#[test]
fn files_beside_a_root_are_no_entries(rt: HostRuntime) -> Result<(), Fail> {
    let miss = miss(&rt, "inside", INSIDE)?;
    assert_eq!(rt; miss.as_str(), "");
    Ok(())
}

const CURRENT: &[Step] = &[
    ("roots", ".", "t", "named"),
    ("open", "size", "1", "done"),
    ("list", "s", "", "all f:3"),
    ("set props", "s/f", "R 5 6 - - -", "done"),
    ("sync", "s", "", "done"),
    ("leave", "", "", "left"),
    ("host look", "s", "", "dir ..rct f"),
    ("roots", "t", ".", "named"),
    ("open", "size", "2", "done"),
    ("list", "t", "", "all f:3"),
    ("props", "t/f", "", "R 5 6 - - -"),
    ("record write", "", "0 abc", "done"),
    ("open", "size", "3", "done"),
    ("list", "t", "", "all f:3"),
    ("leave", "", "", "left"),
    ("host look", "s", "", "dir ..rcr ..rct f"),
];

#[test]
fn the_current_folder_may_be_a_root(rt: HostRuntime) -> Result<(), Fail> {
    let mut bench = Bench::new(&rt, "current")?;
    let alloc = rt.alloc();
    let before = current_dir(&rt)?;
    let made = bench.miss(&[
        ("host dir", "s", "", "done"),
        ("host dir", "t", "", "done"),
        ("host file", "s/f", "abc", "done"),
    ])?;
    let source = format!(in alloc; "{}/s", bench.folder)?;
    set_current_dir(&rt, source.as_str())?;
    let miss = bench.miss(CURRENT)?;
    set_current_dir(&rt, &before)?;
    bench.end()?;
    assert_eq!(rt; made.as_str(), "");
    assert_eq!(rt; miss.as_str(), "");
    Ok(())
}
