//! What stands when a call of a site, or of a sink, fails.

use super::{A, NO_FILES, NO_SWITCHES, T0, mirror, shown, site};
use rc_failing::{Call, Failing, FailingSite};
use rc_fixture::{Row, flat_tree};
use rc_mem::{MemSink, Tree};
use rc_run::{outcome_text, status};
use rc_tree::Attr;
use rc_volume::Side;
use std::test::Fail;

const SOURCE: &[Row] = &[("a.txt", b"hello", T0 + 1, A)];

// An older file, which is hidden too.
const STANDING: &[Row] = &[(
    "a.txt",
    b"old",
    T0,
    Attr {
        archive: true,
        hidden: true,
        ..Attr::NONE
    },
)];

const AS_STOOD: &str = "a.txt 22 133485407999999999 133485408000000000 // old\n";

const AS_MADE: &str = "a.txt 80 0 0 // \n";

const WITH_ZEROS: &str = "a.txt 80 0 0 // \0\0\0\0\0\n";

const WITH_BYTES: &str = "a.txt 80 0 0 // hello\n";

const COPIED: &str = "a.txt 20 133485408000000000 133485408000000001 // hello\n";

const OVERWRITTEN: &str = "a.txt 22 133485407999999999 133485408000000000 // hello\n";

// A row: what stands on the target, the call that fails and how many of its kind pass before it, the line, and what
// stands then.
type FaultRow = (&'static [Row], Call, u64, &'static str, &'static str);

const ROOT_SOURCE: &str = "ERROR: root fault: source";

const ROOT_TARGET: &str = "ERROR: root fault: target";

const RECORD: &str = "ERROR: record fault";

const LIST_SOURCE: &str = "ERROR: listing fault: source";

const LIST_TARGET: &str = "ERROR: listing fault: target";

const VOLUME_SOURCE: &str = "ERROR: volume fault: source";

const VOLUME_TARGET: &str = "ERROR: volume fault: target";

const DONE: &str = "";

const ROWS: &[FaultRow] = &[
    (NO_FILES, Call::Bind(Side::Source), 0, ROOT_SOURCE, ""),
    (NO_FILES, Call::Bind(Side::Target), 0, ROOT_TARGET, ""),
    (STANDING, Call::RecordLen, 0, RECORD, AS_STOOD),
    (NO_FILES, Call::NextEntry(Side::Source), 0, LIST_SOURCE, ""),
    (
        STANDING,
        Call::NextEntry(Side::Source),
        1,
        LIST_SOURCE,
        AS_STOOD,
    ),
    (
        STANDING,
        Call::NextEntry(Side::Target),
        1,
        LIST_TARGET,
        AS_STOOD,
    ),
    (STANDING, Call::Reader, 0, VOLUME_SOURCE, AS_STOOD),
    (
        STANDING,
        Call::Stat(Side::Target),
        0,
        VOLUME_TARGET,
        AS_STOOD,
    ),
    (NO_FILES, Call::MakeFile, 0, VOLUME_TARGET, ""),
    (NO_FILES, Call::SetLen, 0, VOLUME_TARGET, AS_MADE),
    (NO_FILES, Call::Fill, 0, VOLUME_SOURCE, WITH_ZEROS),
    (NO_FILES, Call::Put, 0, VOLUME_TARGET, WITH_ZEROS),
    (
        NO_FILES,
        Call::Stat(Side::Source),
        0,
        VOLUME_SOURCE,
        WITH_BYTES,
    ),
    (
        STANDING,
        Call::Stat(Side::Target),
        1,
        VOLUME_TARGET,
        OVERWRITTEN,
    ),
    (STANDING, Call::SetProps, 0, VOLUME_TARGET, OVERWRITTEN),
    (STANDING, Call::Sync, 0, VOLUME_TARGET, COPIED),
    // Calls that do not come.
    (NO_FILES, Call::Sync, 1, DONE, COPIED),
    (NO_FILES, Call::Stat(Side::Target), 1, DONE, COPIED),
    (STANDING, Call::MakeFile, 0, DONE, COPIED),
];

#[test]
fn a_fault_of_a_site_leaves_what_was_done(rt: HostRuntime) -> Result<(), Fail> {
    let alloc = rt.alloc();
    for (standing, call, before, line, stands) in ROWS {
        let start = site(
            alloc,
            flat_tree(alloc, SOURCE)?,
            flat_tree(alloc, standing)?,
        )?;
        let mut sink = MemSink::new(alloc);
        let mut failing = FailingSite::new(alloc, start);
        failing.fail_kind(*call, *before, u64::MAX);
        let ended = mirror(alloc, NO_SWITCHES, failing, &mut sink)?;
        let end = &ended.site.behind;
        assert_eq!(rt;
            outcome_text(alloc, &ended.outcome)?.text(),
            *line,
            "at {call:?}"
        );
        assert_eq!(rt;
            shown(alloc, end.tree(Side::Target))?.as_str(),
            *stands,
            "at {call:?}"
        );
        assert_eq!(rt;
            shown(alloc, end.tree(Side::Source))?.as_str(),
            COPIED,
            "at {call:?}"
        );
        let is_done = line.is_empty();
        assert_eq!(rt;
            status(&ended.outcome),
            if is_done { 1 } else { 16 },
            "at {call:?}"
        );
        assert_eq!(rt; sink.bytes().is_empty(), !is_done, "at {call:?}");
    }
    Ok(())
}

#[test]
fn a_fault_of_a_sink_comes_behind_the_copies(rt: HostRuntime) -> Result<(), Fail> {
    let alloc = rt.alloc();
    for (number, line) in [
        (1, "ERROR: report fault"),
        (2, "ERROR: report fault"),
        (3, "ERROR: report fault"),
        (4, ""),
    ] {
        let start = site(alloc, flat_tree(alloc, SOURCE)?, Tree::new(alloc))?;
        let mut sink = Failing::new(MemSink::new(alloc));
        sink.fail_at(number);
        let ended = mirror(alloc, NO_SWITCHES, start, &mut sink)?;
        assert_eq!(rt; outcome_text(alloc, &ended.outcome)?.text(), line);
        assert_eq!(rt;
            shown(alloc, ended.site.tree(Side::Target))?.as_str(),
            COPIED
        );
    }
    Ok(())
}
