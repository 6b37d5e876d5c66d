//! Headers and roots: whole reports, and roots in front of paths.

use crate::samples::{NO_FAILURES, Row, Switch, T0, job, plan, reports};
use rc_class::{Act, Class};
use rc_job::{Job, Patterns};
use rc_tree::{GREATEST_MOMENT, Kind, Text};
use rc_wild::Pattern;
use std::alloc::Global;
use std::test::Fail;

const NOTHING: &[Row] = &[];

const LONELY: &[Row] = &[("a.txt", Kind::File, Act::Copy, Class::Lonely, 5, T0)];

const LAST: &[Row] = &[("z", Kind::Dir, Act::Touch, Class::Same, 0, GREATEST_MOMENT)];

const BOTH_SIDES: &[Row] = &[
    ("a.txt", Kind::File, Act::Copy, Class::Lonely, 5, T0),
    ("b", Kind::Dir, Act::Extra, Class::Extra, 0, T0),
];

// The items, the switches and the report of the job from SRC to DST.
const WHOLE: &[(&[Row], &[Switch], &[&str])] = &[
    (
        NOTHING,
        &[],
        &[
            "ROBOCOPY",
            "  Source : SRC",
            "  Dest   : DST",
            "  Moment : 2024/01/01 00:00:00",
            "  Files  : *.*",
            "",
            "",
            "              Total    Copied   Skipped  Mismatch    FAILED    Extras",
            "   Dirs :         0         0         0         0         0         0",
            "  Files :         0         0         0         0         0         0",
            "  Bytes :         0         0         0         0         0         0",
        ],
    ),
    (
        LONELY,
        &[],
        &[
            "ROBOCOPY",
            "  Source : SRC",
            "  Dest   : DST",
            "  Moment : 2024/01/01 00:00:00",
            "  Files  : *.*",
            "",
            "  New File               5  a.txt",
            "",
            "              Total    Copied   Skipped  Mismatch    FAILED    Extras",
            "   Dirs :         0         0         0         0         0         0",
            "  Files :         1         1         0         0         0         0",
            "  Bytes :         5         5         0         0         0         0",
        ],
    ),
    (
        LONELY,
        &[Switch::Njh, Switch::Njs, Switch::Nc, Switch::Ns, Switch::Fp],
        &["    SRC\\a.txt"],
    ),
    (
        LAST,
        &[Switch::Njh, Switch::Njs, Switch::Ts],
        &["  Dir                    -  9999/12/31 23:59:59  z\\"],
    ),
];

// The roots and patterns of a job, and the report of one lonely file and one extra directory, under
// `/NJS` and `/FP`.
const ROOTED: &[(Option<&str>, Option<&str>, &[&str], &[&str])] = &[
    (
        None,
        None,
        &["*.*"],
        &[
            "ROBOCOPY",
            "  Source : ",
            "  Dest   : ",
            "  Moment : 2024/01/01 00:00:00",
            "  Files  : *.*",
            "",
            "  New File               5  \\a.txt",
            "  *EXTRA Dir             -  \\b\\",
        ],
    ),
    (
        Some("C:\\from here\\"),
        Some("\\\\host\\\u{E4}"),
        &["*.txt", "A?.*", "*.txt"],
        &[
            "ROBOCOPY",
            "  Source : C:\\from here\\",
            "  Dest   : \\\\host\\\u{E4}",
            "  Moment : 2024/01/01 00:00:00",
            "  Files  : *.txt A?.* *.txt",
            "",
            "  New File               5  C:\\from here\\\\a.txt",
            "  *EXTRA Dir             -  \\\\host\\\u{E4}\\b\\",
        ],
    ),
];

fn root(alloc: Global, root: Option<&str>) -> Result<Option<Text>, Fail> {
    match root {
        Some(root) => Ok(Some(Text::of(alloc, root)?)),
        None => Ok(None),
    }
}

fn patterns(alloc: Global, texts: &[&str]) -> Result<Patterns, Fail> {
    let mut patterns = Vec::new(alloc);
    for text in texts {
        patterns.push(Pattern::read(alloc, text)?)?;
    }
    Ok(Patterns::new(patterns))
}

fn rooted(
    alloc: Global,
    source: Option<&str>,
    target: Option<&str>,
    files: &[&str],
) -> Result<Job, Fail> {
    let mut job = job(alloc, &[Switch::Njs, Switch::Fp])?;
    job.source = root(alloc, source)?;
    job.target = root(alloc, target)?;
    job.files = patterns(alloc, files)?;
    Ok(job)
}

#[test]
fn whole_reports_are_as_written_down(rt: HostRuntime) -> Result<(), Fail> {
    let alloc = rt.alloc();
    for (rows, switches, lines) in WHOLE {
        let job = job(alloc, switches)?;
        let plan = plan(alloc, rows)?;
        assert!(rt; reports(alloc, &job, &plan, NO_FAILURES, lines)?);
    }
    Ok(())
}

#[test]
fn roots_and_patterns_are_written_as_given(rt: HostRuntime) -> Result<(), Fail> {
    let alloc = rt.alloc();
    let plan = plan(alloc, BOTH_SIDES)?;
    for (source, target, files, lines) in ROOTED {
        let job = rooted(alloc, *source, *target, files)?;
        assert!(rt; reports(alloc, &job, &plan, NO_FAILURES, lines)?);
    }
    Ok(())
}
