//! The lines and statuses of outcomes that no other row comes to.

use rc_run::{Outcome, outcome_text, status};
use rc_tree::{Path, Text};
use rc_volume::Side;
use std::test::Fail;

#[test]
fn names_a_word_in_a_job_file_and_want_of_memory(rt: HostRuntime) -> Result<(), Fail> {
    let alloc = rt.alloc();
    let in_file = Outcome::Usage {
        file: Text::of(alloc, "night.rcj")?,
        place: 3,
        kind: 2,
    };
    let text = "ERROR: usage U2 at word 3 of job file night.rcj";
    assert_eq!(rt; outcome_text(alloc, &in_file)?.text(), text);
    assert_eq!(rt; status(&in_file), 16);
    assert_eq!(rt;
        outcome_text(alloc, &Outcome::NoMemory)?.text(),
        "ERROR: no memory"
    );
    assert_eq!(rt; status(&Outcome::NoMemory), 32);
    Ok(())
}

#[test]
fn names_the_limit_that_is_passed(rt: HostRuntime) -> Result<(), Fail> {
    let alloc = rt.alloc();
    let many = Outcome::TooMany {
        side: Side::Source,
        count: 500001,
    };
    let text = "ERROR: too many entries: source 500001";
    assert_eq!(rt; outcome_text(alloc, &many)?.text(), text);
    assert_eq!(rt; status(&many), 16);
    let big = Outcome::TooBig {
        path: Path::read(alloc, "d\\\u{e4}.txt")?,
        size: 1099511627777,
    };
    let text = "ERROR: file too big: d\\\u{e4}.txt 1099511627777";
    assert_eq!(rt; outcome_text(alloc, &big)?.text(), text);
    assert_eq!(rt; status(&big), 16);
    Ok(())
}
