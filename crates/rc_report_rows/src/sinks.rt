//! Sinks of which one write fails.

use crate::samples::{NO_FAILURES, Row, Switch, T0, job, plan, text_of};
use rc_class::{Act, Class, Plan};
use rc_failing::Failing;
use rc_job::Job;
use rc_mem::MemSink;
use rc_report::report_to;
use rc_tree::{Kind, Text};
use rc_volume::SinkErr;
use std::alloc::Global;
use std::test::Fail;

const ITEMS: &[Row] = &[
    ("a", Kind::Dir, Act::Make, Class::Lonely, 0, T0),
    ("a\\b.txt", Kind::File, Act::Copy, Class::Lonely, 5, T0),
    ("c.txt", Kind::File, Act::Extra, Class::Extra, 7, T0),
];

const NO_LINES: &[&str] = &[];

// The number of the write that fails, how the report ends, and what the sink then has.
const ENDS: &[(u64, Result<(), SinkErr>, &[&str])] = &[
    (1, Err(SinkErr::Failed), NO_LINES),
    (
        2,
        Err(SinkErr::Failed),
        &[
            "ROBOCOPY",
            "  Source : SRC",
            "  Dest   : DST",
            "  Moment : 2024/01/01 00:00:00",
            "  Files  : *.*",
            "",
        ],
    ),
    (
        3,
        Err(SinkErr::Failed),
        &[
            "ROBOCOPY",
            "  Source : SRC",
            "  Dest   : DST",
            "  Moment : 2024/01/01 00:00:00",
            "  Files  : *.*",
            "",
            "  New Dir                -  a\\",
        ],
    ),
    (
        4,
        Err(SinkErr::Failed),
        &[
            "ROBOCOPY",
            "  Source : SRC",
            "  Dest   : DST",
            "  Moment : 2024/01/01 00:00:00",
            "  Files  : *.*",
            "",
            "  New Dir                -  a\\",
            "  New File               5  a\\b.txt",
        ],
    ),
    (
        5,
        Err(SinkErr::Failed),
        &[
            "ROBOCOPY",
            "  Source : SRC",
            "  Dest   : DST",
            "  Moment : 2024/01/01 00:00:00",
            "  Files  : *.*",
            "",
            "  New Dir                -  a\\",
            "  New File               5  a\\b.txt",
            "  *EXTRA File            7  c.txt",
        ],
    ),
    (
        6,
        Ok(()),
        &[
            "ROBOCOPY",
            "  Source : SRC",
            "  Dest   : DST",
            "  Moment : 2024/01/01 00:00:00",
            "  Files  : *.*",
            "",
            "  New Dir                -  a\\",
            "  New File               5  a\\b.txt",
            "  *EXTRA File            7  c.txt",
            "",
            "              Total    Copied   Skipped  Mismatch    FAILED    Extras",
            "   Dirs :         1         1         0         0         0         0",
            "  Files :         1         1         0         0         0         1",
            "  Bytes :         5         5         0         0         0         7",
        ],
    ),
];

// Whether a report ends as wanted, where the write of this number fails, and whether the sink then
// has these lines.
fn ends_with(
    alloc: Global,
    job: &Job,
    plan: &Plan,
    number: u64,
    wanted: Result<(), SinkErr>,
    lines: &[&str],
) -> Result<bool, Fail> {
    let mut sink = Failing::new(MemSink::new(alloc));
    sink.fail_at(number);
    let ended = report_to(alloc, &mut sink, job, plan, NO_FAILURES);
    Ok(ended == wanted && sink.behind.bytes() == text_of(alloc, lines)?.as_bytes())
}

#[test]
fn a_failed_write_leaves_a_front_of_the_report(rt: HostRuntime) -> Result<(), Fail> {
    let alloc = rt.alloc();
    let job = job(alloc, &[])?;
    let plan = plan(alloc, ITEMS)?;
    for (number, wanted, lines) in ENDS {
        assert!(rt; ends_with(alloc, &job, &plan, *number, *wanted, lines)?);
    }
    Ok(())
}

const LONELY: &[Row] = &[("a.txt", Kind::File, Act::Copy, Class::Lonely, 5, T0)];

const PATHS_ALONE: &[Switch] = &[Switch::Njh, Switch::Njs, Switch::Nc, Switch::Ns, Switch::Fp];

// Of a line of 131075 bytes: the number of the write that fails, how it ends, and how many bytes the
// sink then has.
const PIECES: &[(u64, Result<(), SinkErr>, usize)] = &[
    (1, Err(SinkErr::Failed), 0),
    (2, Err(SinkErr::Failed), 65536),
    (3, Err(SinkErr::Failed), 131072),
    (4, Ok(()), 131075),
];

// A root of so many characters.
fn long_root(alloc: Global, len: u64) -> Result<Text, Fail> {
    let mut text = String::new(alloc);
    for _ in 0..len {
        text.push('r')?;
    }
    Ok(Text::of(alloc, text.as_str())?)
}

// Whether a report ends as wanted, and whether the sink then has so many bytes.
fn ends_after(
    alloc: Global,
    job: &Job,
    plan: &Plan,
    number: u64,
    wanted: Result<(), SinkErr>,
    len: usize,
) -> Result<bool, Fail> {
    let mut sink = Failing::new(MemSink::new(alloc));
    sink.fail_at(number);
    let ended = report_to(alloc, &mut sink, job, plan, NO_FAILURES);
    Ok(ended == wanted && sink.behind.bytes().len() == len)
}

// Four spaces, the root, `\a.txt` and the line's end are 11 bytes beside the root's.
#[test]
fn a_long_line_is_written_in_pieces(rt: HostRuntime) -> Result<(), Fail> {
    let alloc = rt.alloc();
    let mut job = job(alloc, PATHS_ALONE)?;
    job.source = Some(long_root(alloc, 131064)?);
    let plan = plan(alloc, LONELY)?;
    for (number, wanted, len) in PIECES {
        assert!(rt; ends_after(alloc, &job, &plan, *number, *wanted, *len)?);
    }
    Ok(())
}
