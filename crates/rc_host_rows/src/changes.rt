//! What each changing call leaves on the host.

use crate::bench::{Step, miss};
use std::test::Fail;

const MADE: &[Step] = &[
    ("host dir", "s", "", "done"),
    ("host dir", "t", "", "done"),
    ("open", "size", "1", "done"),
    ("make dir", "t/d", "", "done"),
    ("make file", "t/d/f", "", "done"),
    ("host look", "t", "", "dir d"),
    ("host look", "t/d", "", "dir f"),
    ("host look", "t/d/f", "", "file "),
    ("stat", "t/d", "", "d/"),
    ("stat", "t/d/f", "", "f:0"),
    ("list", "t", "", "all d/"),
    ("list", "t/d", "", "all f:0"),
    // Without attributes and security, and with both times 0.
    ("props", "t/d", "", "- 0 0 - - -"),
    ("props", "t/d/f", "", "- 0 0 - - -"),
    // Nothing is made where something stands, in whatever case it is named.
    ("make file", "t/d/F", "", "refused"),
    ("make dir", "t/d/f", "", "refused"),
    ("make dir", "t/D", "", "refused"),
    ("host file", "t/later", "abc", "done"),
    ("make file", "t/later", "", "refused"),
    ("host look", "t/later", "", "file abc"),
    // Nor where there is no directory.
    ("make file", "t/e/f", "", "refused"),
    ("make file", "t/d/f/g", "", "refused"),
    ("host look", "t", "", "dir d later"),
    ("host look", "t/d", "", "dir f"),
    ("sync", "t", "", "done"),
    // The source is changed by the same calls.
    ("make dir", "s/d", "", "done"),
    ("make file", "s/d/\u{c9}", "", "done"),
    ("sync", "s", "", "done"),
    ("host look", "s/d", "", "dir \u{c9}"),
    ("set len", "s/d/\u{c9}", "3", "done"),
    ("put", "s/d/\u{c9}", "1 bc", "done"),
    ("host look", "s/d/\u{c9}", "", "file .bc"),
    ("remove", "s/d", "", "refused"),
    ("remove", "s/d/\u{c9}", "", "done"),
    ("remove", "s/d", "", "done"),
    ("sync", "s", "", "done"),
    ("host look", "s", "", "dir"),
    ("host look", "t", "", "dir d later"),
];

#[test]
fn entries_are_made(rt: HostRuntime) -> Result<(), Fail> {
    let miss = miss(&rt, "made", MADE)?;
    assert_eq!(rt; miss.as_str(), "");
    Ok(())
}

const WRITTEN: &[Step] = &[
    ("host dir", "s", "", "done"),
    ("open", "size", "1", "done"),
    ("make file", "t/f", "", "done"),
    ("put", "t/f", "0 a", "refused"),
    // Bytes that come are 0.
    ("set len", "t/f", "6", "done"),
    ("host look", "t/f", "", "file ......"),
    ("put", "t/f", "0 abc", "done"),
    ("put", "t/F", "3 de", "done"),
    ("host look", "t/f", "", "file abcde."),
    ("stat", "t/f", "", "f:6"),
    ("list", "t", "", "all f:6"),
    // A piece that ends behind the length, at once or by a part, is not written.
    ("put", "t/f", "4 xyz", "refused"),
    ("put", "t/f", "6 x", "refused"),
    ("put", "t/f", "7 x", "refused"),
    ("put", "t/f", "18446744073709551615 x", "refused"),
    ("host look", "t/f", "", "file abcde."),
    ("put", "t/f", "5 f", "done"),
    ("host look", "t/f", "", "file abcdef"),
    ("set len", "t/f", "3", "done"),
    ("host look", "t/f", "", "file abc"),
    ("set len", "t/f", "5", "done"),
    ("host look", "t/f", "", "file abc.."),
    ("list", "t", "", "all f:5"),
    ("set len", "t/f", "0", "done"),
    ("host look", "t/f", "", "file "),
    ("stat", "t/f", "", "f:0"),
    ("put", "t/f", "0 a", "refused"),
    ("sync", "t", "", "done"),
    // What is not there, or is a directory, has no bytes.
    ("put", "t/g", "0 a", "refused"),
    ("set len", "t/g", "3", "refused"),
    ("make dir", "t/d", "", "done"),
    ("put", "t/d", "0 a", "refused"),
    ("host look", "t", "", "dir d f"),
    ("sync", "t", "", "done"),
];

#[test]
fn bytes_are_put_within_a_length(rt: HostRuntime) -> Result<(), Fail> {
    let miss = miss(&rt, "written", WRITTEN)?;
    assert_eq!(rt; miss.as_str(), "");
    Ok(())
}

// A file of more than 2^32 bytes, of which the host keeps few.
const LONG: &[Step] = &[
    ("host dir", "s", "", "done"),
    ("open", "size", "1", "done"),
    ("make file", "t/f", "", "done"),
    ("set len", "t/f", "4294967297", "done"),
    ("host size", "t/f", "", "4294967297"),
    ("put", "t/f", "4294967296 z", "done"),
    ("put", "t/f", "4294967297 z", "refused"),
    ("host size", "t/f", "", "4294967297"),
    ("stat", "t/f", "", "f:4294967297"),
    ("set len", "t/f", "1", "done"),
    ("host look", "t/f", "", "file ."),
];

#[test]
fn a_long_file_is_made(rt: HostRuntime) -> Result<(), Fail> {
    let miss = miss(&rt, "long", LONG)?;
    assert_eq!(rt; miss.as_str(), "");
    Ok(())
}

const GIVEN: &[Step] = &[
    ("host dir", "s", "", "done"),
    ("open", "size", "1", "done"),
    ("make dir", "t/d", "", "done"),
    ("make file", "t/f", "", "done"),
    ("set len", "t/f", "3", "done"),
    ("put", "t/f", "0 abc", "done"),
    ("set props", "t/F", "RHSA 5 6 acc own aud", "done"),
    ("set props", "t/d", "R 7 2650467743999999999 a - c", "done"),
    ("props", "t/f", "", "RHSA 5 6 acc own aud"),
    ("sync", "t", "", "done"),
    ("leave", "", "", "left"),
    ("open", "size", "2", "done"),
    ("props", "t/f", "", "RHSA 5 6 acc own aud"),
    ("props", "t/d", "", "R 7 2650467743999999999 a - c"),
    ("list", "t", "", "all d/ f:3"),
    ("host look", "t/f", "", "file abc"),
    // What no sync comes behind is forgotten with the site; one of the other side keeps nothing of
    // this one.
    ("set props", "t/f", "- 9 9 - - -", "done"),
    ("set props", "t/d", "H 9 9 - - -", "done"),
    ("props", "t/f", "", "- 9 9 - - -"),
    ("props", "t/d", "", "H 9 9 - - -"),
    ("sync", "s", "", "done"),
    ("leave", "", "", "left"),
    ("open", "size", "3", "done"),
    ("props", "t/f", "", "RHSA 5 6 acc own aud"),
    ("props", "t/d", "", "R 7 2650467743999999999 a - c"),
    ("set props", "t/g", "R 5 6 - - -", "refused"),
    ("host look", "t", "", "dir d f"),
];

#[test]
fn properties_come_back_behind_a_sync(rt: HostRuntime) -> Result<(), Fail> {
    let miss = miss(&rt, "given", GIVEN)?;
    assert_eq!(rt; miss.as_str(), "");
    Ok(())
}

// A file that is made and not synced is one without a row.
const UNSYNCED: &[Step] = &[
    ("host dir", "s", "", "done"),
    ("open", "size", "1", "done"),
    ("make file", "t/f", "", "done"),
    ("set props", "t/f", "R 5 6 - - -", "done"),
    ("leave", "", "", "left"),
    ("host look", "t", "", "dir f"),
    ("open", "size", "2", "done"),
    ("props", "t/f", "", "A 2 2 - - -"),
    // One that is made and synced is as it was made.
    ("make file", "t/g", "", "done"),
    ("sync", "t", "", "done"),
    ("open", "size", "3", "done"),
    ("props", "t/f", "", "A 2 2 - - -"),
    ("props", "t/g", "", "- 0 0 - - -"),
];

#[test]
fn what_is_made_is_kept_by_a_sync(rt: HostRuntime) -> Result<(), Fail> {
    let miss = miss(&rt, "unsynced", UNSYNCED)?;
    assert_eq!(rt; miss.as_str(), "");
    Ok(())
}

const REMOVED: &[Step] = &[
    ("host dir", "s", "", "done"),
    ("host dir", "t/d", "", "done"),
    ("host dir", "t/e", "", "done"),
    ("host file", "t/d/f", "abc", "done"),
    ("host file", "t/g", "x", "done"),
    ("open", "size", "1", "done"),
    // A directory that others filled meanwhile stays as it is.
    ("host file", "t/e/f", "abc", "done"),
    ("remove", "t/e", "", "refused"),
    ("host look", "t/e/f", "", "file abc"),
    ("host clear", "t/e", "", "done"),
    ("host dir", "t/e", "", "done"),
    ("remove", "t/e", "", "done"),
    ("host look", "t", "", "dir d g"),
    // A directory that is not empty stays as it is.
    ("remove", "t/d", "", "refused"),
    ("host look", "t", "", "dir d g"),
    ("host look", "t/d/f", "", "file abc"),
    ("list", "t", "", "all d/ g:1"),
    ("list", "t/d", "", "all f:3"),
    ("remove", "t/d/f", "", "done"),
    ("host look", "t/d", "", "dir"),
    ("stat", "t/d/f", "", "none"),
    ("list", "t/d", "", "all"),
    ("remove", "t/D", "", "done"),
    ("host look", "t", "", "dir g"),
    ("stat", "t/d", "", "none"),
    ("stat", "t/d/f", "", "none"),
    ("list", "t", "", "all g:1"),
    ("list", "t/d", "", "refused"),
    ("remove", "t/d", "", "refused"),
    ("remove", "t/no/f", "", "refused"),
    ("remove", "t/G", "", "done"),
    ("host look", "t", "", "dir"),
    ("sync", "t", "", "done"),
    // In the place of a file a directory can be made, and the other way round.
    ("make dir", "t/g", "", "done"),
    ("make file", "t/g/h", "", "done"),
    ("make file", "t/d", "", "done"),
    ("host look", "t", "", "dir d g"),
    ("list", "t", "", "all d:0 g/"),
    // What was made and removed since the last sync does not stop the next one.
    ("remove", "t/g/h", "", "done"),
    ("remove", "t/g", "", "done"),
    ("sync", "t", "", "done"),
    ("host look", "t", "", "dir d"),
];

#[test]
fn entries_are_removed(rt: HostRuntime) -> Result<(), Fail> {
    let miss = miss(&rt, "removed", REMOVED)?;
    assert_eq!(rt; miss.as_str(), "");
    Ok(())
}

// What the host refuses, since others took away what is to be changed.
const TAKEN: &[Step] = &[
    ("host dir", "s", "", "done"),
    ("host dir", "t/d", "", "done"),
    ("host file", "t/f", "abc", "done"),
    ("open", "size", "1", "done"),
    ("host clear", "t/d", "", "done"),
    ("host remove", "t/f", "", "done"),
    ("make file", "t/d/x", "", "refused"),
    ("make dir", "t/d/y", "", "refused"),
    ("list", "t/d", "", "all"),
    ("put", "t/f", "0 a", "refused"),
    ("set len", "t/f", "1", "refused"),
    ("set props", "t/f", "R 5 6 - - -", "refused"),
    ("remove", "t/f", "", "refused"),
    ("remove", "t/d", "", "refused"),
    ("host look", "t", "", "dir"),
];

#[test]
fn what_others_took_away_is_not_changed(rt: HostRuntime) -> Result<(), Fail> {
    let miss = miss(&rt, "taken", TAKEN)?;
    assert_eq!(rt; miss.as_str(), "");
    Ok(())
}
