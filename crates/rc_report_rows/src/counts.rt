//! Totals, exit bits and the summary.

use crate::samples::{NO_FAILURES, Row, Switch, T0, job, plan, reports};
use rc_class::{Act, Class, GivenUp, Reason};
use rc_report::{Totals, bits, count_totals};
use rc_tree::Kind;
use std::test::Fail;

// The key c is an extra that stays without being reported.
const ITEMS: &[Row] = &[
    ("a", Kind::File, Act::Copy, Class::Lonely, 1073741823, T0),
    ("b", Kind::File, Act::Copy, Class::Newer, 1, T0),
    (
        "c",
        Kind::File,
        Act::Keep(Reason::Class),
        Class::Extra,
        100,
        T0,
    ),
    (
        "d",
        Kind::File,
        Act::Keep(Reason::Age),
        Class::Older,
        1000,
        T0,
    ),
    ("e", Kind::File, Act::Fix, Class::Same, 10000, T0),
    (
        "f",
        Kind::File,
        Act::Mismatch,
        Class::Mismatched,
        100000,
        T0,
    ),
    ("g", Kind::File, Act::Extra, Class::Extra, 1000000, T0),
    ("h", Kind::File, Act::Purge, Class::Extra, 10000000, T0),
    ("i", Kind::Dir, Act::Make, Class::Lonely, 0, T0),
    ("j", Kind::Dir, Act::Touch, Class::Same, 0, T0),
    ("k", Kind::Dir, Act::Keep(Reason::Same), Class::Same, 0, T0),
    ("l", Kind::Dir, Act::Mismatch, Class::Mismatched, 0, T0),
    ("m", Kind::Dir, Act::Purge, Class::Extra, 0, T0),
];

const ALL_COPIED: Totals = Totals {
    dirs: [4, 1, 2, 1, 0, 1],
    files: [5, 2, 2, 1, 0, 2],
    bytes: [1073852824, 1073741824, 11000, 100000, 0, 11000000],
};

const ONE_FAILED: Totals = Totals {
    dirs: [4, 1, 2, 1, 0, 1],
    files: [5, 1, 2, 1, 1, 2],
    bytes: [1073852824, 1073741823, 11000, 100000, 1, 11000000],
};

const BOTH_FAILED: Totals = Totals {
    dirs: [4, 1, 2, 1, 0, 1],
    files: [5, 0, 2, 1, 2, 2],
    bytes: [1073852824, 0, 11000, 100000, 1073741824, 11000000],
};

// Which files were given up, the totals and the bits. Places of other acts, behind all items or
// named twice count nothing more, and no order is asked for.
const ROWS: &[(&[GivenUp], Totals, u8)] = &[
    (NO_FAILURES, ALL_COPIED, 7),
    (&[GivenUp { item: 1, tries: 4 }], ONE_FAILED, 15),
    (
        &[GivenUp { item: 0, tries: 1 }, GivenUp { item: 1, tries: 1 }],
        BOTH_FAILED,
        14,
    ),
    (
        &[
            GivenUp { item: 13, tries: 1 },
            GivenUp { item: 1, tries: 1 },
            GivenUp { item: 3, tries: 1 },
            GivenUp { item: 1, tries: 1 },
        ],
        ONE_FAILED,
        15,
    ),
];

const SUMMARY: &[&str] = &[
    "",
    "              Total    Copied   Skipped  Mismatch    FAILED    Extras",
    "   Dirs :         4         1         2         1         0         1",
    "  Files :         5         1         2         1         1         2",
    "  Bytes :     1.0 g  1023.9 m     11000    100000         1    10.4 m",
];

const SUMMARY_ALONE: &[Switch] = &[Switch::Nfl, Switch::Ndl, Switch::Njh];

#[test]
fn totals_are_counted_by_columns(rt: HostRuntime) -> Result<(), Fail> {
    let alloc = rt.alloc();
    let plan = plan(alloc, ITEMS)?;
    for (failed, wanted, set) in ROWS {
        let totals = count_totals(&plan, failed);
        assert!(rt; totals == *wanted);
        assert!(rt; bits(&totals) == *set);
    }
    Ok(())
}

#[test]
fn the_summary_has_the_totals(rt: HostRuntime) -> Result<(), Fail> {
    let alloc = rt.alloc();
    let job = job(alloc, SUMMARY_ALONE)?;
    let plan = plan(alloc, ITEMS)?;
    let failed = [GivenUp { item: 1, tries: 4 }];
    assert!(rt; reports(alloc, &job, &plan, &failed, SUMMARY)?);
    Ok(())
}
