//! Tags, sizes and paths of lines.

use crate::samples::{NO_FAILURES, Row, Switch, T0, job, plan, plan_of, reports};
use rc_class::{Act, After, Class, Facts, GivenUp, Item, Reason};
use rc_tree::{Attr, Kind, Moment, Path};
use std::alloc::Global;
use std::test::Fail;

const LINES_ALONE: &[Switch] = &[Switch::V, Switch::Njh, Switch::Njs];

const PLAIN_LINES: &[Switch] = &[Switch::Bytes, Switch::Njh, Switch::Njs];

// A key of each act and class; the file f.txt was given up.
const TAGGED: &[Row] = &[
    ("a.txt", Kind::File, Act::Copy, Class::Lonely, 5, T0),
    ("b.txt", Kind::File, Act::Copy, Class::Newer, 70, T0),
    ("c.txt", Kind::File, Act::Copy, Class::Older, 800, T0),
    ("d.txt", Kind::File, Act::Copy, Class::Changed, 9000, T0),
    ("dir\\n.txt", Kind::File, Act::Copy, Class::Tweaked, 1, T0),
    ("e.txt", Kind::File, Act::Copy, Class::Same, 2, T0),
    ("f.txt", Kind::File, Act::Copy, Class::Lonely, 3, T0),
    ("g.txt", Kind::File, Act::Fix, Class::Same, 4, T0),
    ("h.txt", Kind::File, Act::Mismatch, Class::Mismatched, 6, T0),
    ("i.txt", Kind::File, Act::Extra, Class::Extra, 12, T0),
    ("j.txt", Kind::File, Act::Purge, Class::Extra, 13, T0),
    (
        "k.txt",
        Kind::File,
        Act::Keep(Reason::NotNamed),
        Class::Lonely,
        14,
        T0,
    ),
    ("\u{212A}.txt", Kind::File, Act::Copy, Class::Lonely, 15, T0),
    ("l", Kind::Dir, Act::Make, Class::Lonely, 0, T0),
    ("m", Kind::Dir, Act::Touch, Class::Same, 0, T0),
    ("n", Kind::Dir, Act::Mismatch, Class::Mismatched, 0, T0),
    ("o", Kind::Dir, Act::Extra, Class::Extra, 0, T0),
    ("p", Kind::Dir, Act::Purge, Class::Extra, 0, T0),
    ("q", Kind::Dir, Act::Keep(Reason::Same), Class::Same, 0, T0),
];

const GIVEN_UP: &[GivenUp] = &[GivenUp { item: 6, tries: 3 }];

const TAGS: &[&str] = &[
    "  New File               5  a.txt",
    "  Newer                 70  b.txt",
    "  Older                800  c.txt",
    "  Changed             9000  d.txt",
    "  Tweaked                1  dir\\n.txt",
    "  Same                   2  e.txt",
    "  FAILED                 3  f.txt",
    "  Fixed                  4  g.txt",
    "  *Mismatch              6  h.txt",
    "  *EXTRA File           12  i.txt",
    "  *EXTRA File           13  j.txt",
    "  skipped               14  k.txt",
    "  New File              15  \u{212A}.txt",
    "  New Dir                -  l\\",
    "  Dir                    -  m\\",
    "  *Mismatch              -  n\\",
    "  *EXTRA Dir             -  o\\",
    "  *EXTRA Dir             -  p\\",
    "  skipped                -  q\\",
];

const SIZES: &[Row] = &[
    ("a", Kind::File, Act::Copy, Class::Lonely, 0, T0),
    ("b", Kind::File, Act::Copy, Class::Lonely, 1048575, T0),
    ("c", Kind::File, Act::Copy, Class::Lonely, 1048576, T0),
    ("d", Kind::File, Act::Copy, Class::Lonely, 1153433, T0),
    ("e", Kind::File, Act::Copy, Class::Lonely, 1153434, T0),
    ("f", Kind::File, Act::Copy, Class::Lonely, 10485759, T0),
    ("g", Kind::File, Act::Copy, Class::Lonely, 1073741823, T0),
    ("h", Kind::File, Act::Copy, Class::Lonely, 1073741824, T0),
    ("i", Kind::File, Act::Copy, Class::Lonely, 1181116006, T0),
    ("j", Kind::File, Act::Copy, Class::Lonely, 1181116007, T0),
    ("k", Kind::File, Act::Copy, Class::Lonely, 1099511627776, T0),
    (
        "l",
        Kind::File,
        Act::Copy,
        Class::Lonely,
        18446744073709551615,
        T0,
    ),
];

const IN_UNITS: &[&str] = &[
    "  New File               0  a",
    "  New File         1048575  b",
    "  New File           1.0 m  c",
    "  New File           1.0 m  d",
    "  New File           1.1 m  e",
    "  New File           9.9 m  f",
    "  New File        1023.9 m  g",
    "  New File           1.0 g  h",
    "  New File           1.0 g  i",
    "  New File           1.1 g  j",
    "  New File        1024.0 g  k",
    "  New File    17179869183.9 g  l",
];

const IN_BYTES: &[&str] = &[
    "  New File               0  a",
    "  New File         1048575  b",
    "  New File         1048576  c",
    "  New File         1153433  d",
    "  New File         1153434  e",
    "  New File        10485759  f",
    "  New File      1073741823  g",
    "  New File      1073741824  h",
    "  New File      1181116006  i",
    "  New File      1181116007  j",
    "  New File    1099511627776  k",
    "  New File    18446744073709551615  l",
];

#[test]
fn each_decision_has_its_tag(rt: HostRuntime) -> Result<(), Fail> {
    let alloc = rt.alloc();
    let job = job(alloc, LINES_ALONE)?;
    let plan = plan(alloc, TAGGED)?;
    assert!(rt; reports(alloc, &job, &plan, GIVEN_UP, TAGS)?);
    Ok(())
}

#[test]
fn sizes_are_rounded_down_to_tenths(rt: HostRuntime) -> Result<(), Fail> {
    let alloc = rt.alloc();
    let plan = plan(alloc, SIZES)?;
    for (switches, lines) in [(LINES_ALONE, IN_UNITS), (PLAIN_LINES, IN_BYTES)] {
        let job = job(alloc, switches)?;
        assert!(rt; reports(alloc, &job, &plan, NO_FAILURES, lines)?);
    }
    Ok(())
}

// A name of 255 characters of four bytes each, 64 times with `\\` between them.
fn long_path(alloc: Global) -> Result<String, Fail> {
    let mut text = String::new(alloc);
    for place in 0..64 {
        if place > 0 {
            text.push('\\')?;
        }
        for _ in 0..255 {
            text.push('\u{1F4C1}')?;
        }
    }
    Ok(text)
}

#[test]
fn the_longest_path_is_written_whole(rt: HostRuntime) -> Result<(), Fail> {
    let alloc = rt.alloc();
    let path = long_path(alloc)?;
    let mut items = Vec::new(alloc);
    items.push(Item {
        path: Path::read(alloc, path.as_str())?,
        act: Act::Make,
        class: Class::Lonely,
        after: After::Nothing,
        facts: Facts {
            kind: Kind::Dir,
            size: 0,
            written: Moment::new(T0),
            attr: Attr::NONE,
        },
    })?;
    let mut line = String::from_str(alloc, "  New Dir                -  ")?;
    line.push_str(path.as_str())?;
    line.push('\\')?;
    let job = job(alloc, LINES_ALONE)?;
    let plan = plan_of(alloc, items);
    assert!(rt; reports(alloc, &job, &plan, NO_FAILURES, &[line.as_str()])?);
    Ok(())
}
