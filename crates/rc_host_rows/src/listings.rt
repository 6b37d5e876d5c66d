//! Listings and looks.

use crate::bench::{Step, miss};
use std::test::Fail;

// In the order of folded names, whose characters stand by their numbers: a space is 32, `.` 46, `1`
// 49, `_` 95, `a` 97, `~` 126, `\u{e9}` 233.
const ORDER: &[Step] = &[
    ("host dir", "s/Bd", "", "done"),
    ("host file", "s/b", "b", "done"),
    ("host file", "s/A", "", "done"),
    ("host file", "s/_x", "", "done"),
    ("host file", "s/C", "", "done"),
    ("host file", "s/\u{c9}", "", "done"),
    ("host file", "s/~", "", "done"),
    ("host file", "s/2", "", "done"),
    ("host file", "s/10", "", "done"),
    ("host file", "s/ a", "", "done"),
    ("host file", "s/...", "", "done"),
    ("host file", "s/\u{7f}", "", "done"),
    ("open", "size", "1", "done"),
    (
        "list",
        "s",
        "",
        "all  a:0 ...:0 10:0 2:0 _x:0 A:0 b:1 Bd/ C:0 ~:0 \u{7f}:0 \u{c9}:0",
    ),
    ("list", "t", "", "all"),
    // Behind a name, which need not be one of an entry.
    ("next", "s", "B", "Bd/"),
    ("next", "s", "bc", "Bd/"),
    ("next", "s", "bd", "C:0"),
    ("next", "s", "BE", "C:0"),
    ("next", "s", "Z", "~:0"),
    ("next", "s", "~", "\u{7f}:0"),
    ("next", "s", "\u{e9}", "none"),
    ("next", "s/bd", "a", "none"),
    ("next", "t", "a", "none"),
    // A directory is found in whatever case it is named.
    ("list", "s/bD", "", "all"),
    // What is no directory has no listing.
    ("list", "s/b", "", "refused"),
    ("list", "s/no", "", "refused"),
    ("list", "s/bd/no", "", "refused"),
    (
        "list",
        "s",
        "",
        "all  a:0 ...:0 10:0 2:0 _x:0 A:0 b:1 Bd/ C:0 ~:0 \u{7f}:0 \u{c9}:0",
    ),
];

#[test]
fn entries_are_listed_by_folded_names(rt: HostRuntime) -> Result<(), Fail> {
    let miss = miss(&rt, "order", ORDER)?;
    assert_eq!(rt; miss.as_str(), "");
    Ok(())
}

// Binding lists both trees, once: what others make or remove meanwhile is listed by the next
// binding.
const ONCE: &[Step] = &[
    ("host dir", "s/d", "", "done"),
    ("host file", "s/f", "abc", "done"),
    ("open", "size", "1", "done"),
    ("host file", "s/e", "", "done"),
    ("host file", "s/d/g", "", "done"),
    ("host remove", "s/f", "", "done"),
    ("list", "s", "", "all d/ f:3"),
    ("next", "s", "d", "f:3"),
    ("list", "s/d", "", "all"),
    ("stat", "s/f", "", "none"),
    ("open", "size", "2", "done"),
    ("list", "s", "", "all d/ e:0"),
    ("list", "s/d", "", "all g:0"),
];

#[test]
fn a_directory_is_read_once(rt: HostRuntime) -> Result<(), Fail> {
    let miss = miss(&rt, "once", ONCE)?;
    assert_eq!(rt; miss.as_str(), "");
    Ok(())
}

const LOOKS: &[Step] = &[
    ("host dir", "s/Dir/e", "", "done"),
    ("host file", "s/Dir/F", "abc", "done"),
    ("host file", "s/z", "", "done"),
    ("open", "size", "1", "done"),
    ("stat", "s/Dir", "", "Dir/"),
    ("stat", "s/dir/e", "", "e/"),
    ("stat", "s/DIR/f", "", "F:3"),
    ("stat", "s/z", "", "z:0"),
    ("props", "s/z", "", "A 1 1 - - -"),
    ("list", "s/dir", "", "all e/ F:3"),
    ("stat", "s/no", "", "none"),
    ("stat", "s/dir/no", "", "none"),
    ("stat", "s/no/no", "", "none"),
    ("stat", "s/z/no", "", "none"),
    ("stat", "t/z", "", "none"),
    // A size is the one that the file has now.
    ("host file", "s/Dir/F", "abcdef", "done"),
    ("stat", "s/dir/f", "", "F:6"),
    ("host remove", "s/Dir/F", "", "done"),
    ("stat", "s/dir/f", "", "none"),
    // An entry that has become a link is a fault.
    ("host remove", "s/z", "", "done"),
    ("host link", "s/z", "s/Dir", "done"),
    ("stat", "s/z", "", "refused"),
];

#[test]
fn entries_are_looked_at(rt: HostRuntime) -> Result<(), Fail> {
    let miss = miss(&rt, "looks", LOOKS)?;
    assert_eq!(rt; miss.as_str(), "");
    Ok(())
}
