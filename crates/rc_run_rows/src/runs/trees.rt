//! What is planned of whole trees, and the limits; and in which order properties are given.

use super::{A, T0, mirror, site, strings};
use rc_class::Plan;
use rc_failing::{Call, FailingSite};
use rc_fixture::{plain_props, put_entry};
use rc_job::{Job, Patterns, Sub};
use rc_mem::{FixedClock, MemJobs, MemSink, Tree, WideSite};
use rc_plan::{PlanErr, make_plan};
use rc_run::{mirror_alone, outcome_text};
use rc_tree::{Attr, Kind, Moment, Path};
use rc_volume::Side;
use rc_wild::Pattern;
use std::alloc::Global;
use std::test::Fail;

// Entries in the order of their keys: a directory with a `+` before its path, and files without bytes.
type Paths = &'static [&'static str];

// The words of a job: its file pattern, its choice of directories, and its levels.
type Words = (&'static str, Sub, Option<u32>);

// The two sides, the words, and the lines of the plan.
const ROWS: &[(Paths, Paths, Words, &str)] = &[
    (
        &["+d", "+d\\x", "y"],
        &[],
        ("*.*", Sub::NonEmpty, Some(1)),
        "\\y Copy\n",
    ),
    (
        &["+d", "+d\\e", "d\\e\\x"],
        &[],
        ("*.*", Sub::All, Some(2)),
        "\\d Make\n",
    ),
    (
        &["+d", "d\\x.log"],
        &[],
        ("*.txt", Sub::NonEmpty, None),
        "\\d Keep(Empty)\n\\d\\x.log Keep(NotNamed)\n",
    ),
    (
        &["+d", "d\\x.log"],
        &[],
        ("*.txt", Sub::All, None),
        "\\d Make\n\\d\\x.log Keep(NotNamed)\n",
    ),
    // Files below directories, a directory without any, and one that begins as another does.
    (
        &[
            "+a",
            "+a b",
            "a b\\x",
            "+c",
            "+c\\d",
            "+c\\d\\e",
            "c\\d\\e\\f",
            "z",
        ],
        &[],
        ("*.*", Sub::NonEmpty, None),
        "\\a Keep(Empty)\n\\a b Make\n\\a b\\x Copy\n\\c Make\n\\c\\d Make\n\\c\\d\\e Make\n\\c\\d\\e\\f Copy\n\\z Copy\n",
    ),
    // Without subdirectories a file against a directory is decided, and nothing below it.
    (
        &["+d", "d\\x", "m", "y"],
        &["+m", "m\\n"],
        ("*.*", Sub::None, None),
        "\\m Mismatch\n\\y Copy\n",
    ),
    // The target spells a directory otherwise, and has one of its own.
    (
        &["+d", "+d\\g", "d\\x"],
        &["+D", "+D\\G", "+q", "q\\r"],
        ("*.*", Sub::All, None),
        "\\d Keep(Same)\n\\d\\g Keep(Same)\n\\d\\x Copy\n\\q Extra\n\\q\\r Extra\n",
    ),
];

fn tree(alloc: Global, paths: Paths) -> Result<Tree, Fail> {
    let mut tree = Tree::new(alloc);
    for text in paths {
        let (kind, text) = match text.strip_prefix("+") {
            Some(text) => (Kind::Dir, text),
            None => (Kind::File, *text),
        };
        let attr = if kind == Kind::Dir { Attr::NONE } else { A };
        let props = plain_props(alloc, Moment::new(T0), attr);
        put_entry(alloc, &mut tree, text, kind, b"", props)?;
    }
    Ok(tree)
}

fn job(alloc: Global, words: Words) -> Result<Job, Fail> {
    let (pattern, sub, lev) = words;
    let mut job = Job::new(alloc)?;
    job.files = Patterns::new(vec![in alloc; Pattern::read(alloc, pattern)?]?);
    job.sub = sub;
    job.lev = lev;
    Ok(job)
}

// A line for each item: its path and its act.
fn shown(alloc: Global, plan: &Plan) -> Result<String, Fail> {
    let mut text = String::new(alloc);
    for item in plan.items.items() {
        for name in item.path.names() {
            text.push_str("\\")?;
            text.push_str(name.text())?;
        }
        let act = item.act;
        text.push_str(format!(in alloc; " {act:?}\n")?.as_str())?;
    }
    Ok(text)
}

#[test]
fn whole_trees_are_planned_by_scope_and_patterns(rt: HostRuntime) -> Result<(), Fail> {
    let alloc = rt.alloc();
    let mut clock = FixedClock::new(T0);
    for (source, target, words, want) in ROWS {
        let mut site = site(alloc, tree(alloc, source)?, tree(alloc, target)?)?;
        let job = job(alloc, *words)?;
        let plan = match make_plan(alloc, &job, Moment::new(T0), &mut site, &mut clock) {
            Ok(plan) => plan,
            Err(_) => return Err("no plan")?,
        };
        assert_eq!(rt; shown(alloc, &plan)?.as_str(), *want);
    }
    Ok(())
}

#[test]
fn a_file_that_is_too_big_is_refused_by_its_path(rt: HostRuntime) -> Result<(), Fail> {
    let alloc = rt.alloc();
    let job = Job::new(alloc)?;
    let mut site = WideSite::new(1, 1099511627777);
    let made = make_plan(
        alloc,
        &job,
        Moment::new(T0),
        &mut site,
        &mut FixedClock::new(T0),
    );
    let (path, size) = match made {
        Err(PlanErr::TooBig { path, size }) => (path, size),
        _other => return Err("not too big")?,
    };
    assert_eq!(rt; last(alloc, &path)?.as_str(), "00000000000000000000");
    assert_eq!(rt; size, 1099511627777);
    Ok(())
}

fn last(alloc: Global, path: &Path) -> Result<String, Fail> {
    match path.names() {
        [name] => Ok(String::from_str(alloc, name.text())?),
        _ => Err("not in the root")?,
    }
}

#[test]
fn a_directory_gets_its_properties_behind_those_below_it(rt: HostRuntime) -> Result<(), Fail> {
    let alloc = rt.alloc();
    let start = site(alloc, tree(alloc, &["+d", "+d\\e"])?, Tree::new(alloc))?;
    let mut sink = MemSink::new(alloc);
    let mut failing = FailingSite::new(alloc, start);
    failing.fail_kind(Call::SetProps, 1, u64::MAX);
    let ended = mirror(alloc, &["/E", "/DCOPY:T"], failing, &mut sink)?;
    let stands = super::shown(alloc, ended.site.behind.tree(Side::Target))?;
    assert_eq!(rt;
        outcome_text(alloc, &ended.outcome)?.text(),
        "ERROR: volume fault: target"
    );
    assert_eq!(rt;
        stands.as_str(),
        "d 10 0 0 // \nde 10 133485407999999999 133485408000000000 // \n"
    );
    Ok(())
}

// The call that fails and how many times, the switches, the line, how often the clock paused and for how many seconds.
type Retried = (Call, u64, &'static [&'static str], &'static str, u64, u64);

const LISTED: Call = Call::NextEntry(Side::Target);

const RETRIED: &[Retried] = &[
    (LISTED, 2, &["/E", "/R:2", "/W:7"], "", 2, 14),
    (
        LISTED,
        3,
        &["/E", "/R:2", "/W:7"],
        "ERROR: listing fault: target",
        2,
        14,
    ),
    (
        LISTED,
        1,
        &["/E", "/R:0"],
        "ERROR: listing fault: target",
        0,
        0,
    ),
    (Call::MakeDir, 1, &["/E", "/R:1"], "", 1, 30),
    (
        Call::MakeDir,
        2,
        &["/E", "/R:1", "/W:3"],
        "ERROR: volume fault: target",
        1,
        3,
    ),
    // That of a file comes before those of directories, and a copy is not tried again.
    (
        Call::SetProps,
        1,
        &["/E", "/R:5"],
        "ERROR: volume fault: target",
        0,
        0,
    ),
    (
        Call::SetProps,
        1,
        &["/E", "/R:5", "/W:2", "/XF", "*"],
        "",
        1,
        2,
    ),
    (Call::Remove, 1, &["/MOVE", "/E", "/R:1", "/W:4"], "", 1, 4),
    (
        Call::Remove,
        2,
        &["/MOV", "/E", "/R:1", "/W:4"],
        "ERROR: volume fault: source",
        1,
        4,
    ),
];

#[test]
fn a_failed_call_is_tried_again_as_the_job_says(rt: HostRuntime) -> Result<(), Fail> {
    let alloc = rt.alloc();
    for (call, times, switches, line, pauses, waited) in RETRIED {
        let start = site(alloc, tree(alloc, &["+d", "d\\x"])?, Tree::new(alloc))?;
        let mut words = strings(alloc, &["SRC", "DST"])?;
        let mut switches = strings(alloc, switches)?;
        words.append(&mut switches)?;
        let mut jobs = MemJobs::new(alloc);
        let mut sink = MemSink::new(alloc);
        let mut clock = FixedClock::new(T0);
        let mut failing = FailingSite::new(alloc, start);
        failing.fail_kind(*call, 0, *times);
        let ended = mirror_alone(
            alloc,
            words.as_slice(),
            failing,
            &mut jobs,
            &mut sink,
            &mut clock,
        );
        assert_eq!(rt;
            outcome_text(alloc, &ended.outcome)?.text(),
            *line,
            "at {call:?}"
        );
        assert_eq!(rt;
            (clock.pauses(), clock.waited()),
            (*pauses, *waited),
            "at {call:?}"
        );
    }
    Ok(())
}
