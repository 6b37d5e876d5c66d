//! Sites, streams and stores in memory of which calls fail where they are named.

use rc_failing::{Failing, FailingSite};
use rc_fixture::{plain_props, put_entry};
use rc_mem::{MemInput, MemJobs, MemSink, MemSite, Tree};
use rc_tree::{Attr, Kind, Moment, Path, Scan, Text};
use rc_volume::{BindErr, Input, JobStore, Part, Ranges, Reader, Side, Sink, Site, SiteErr, Want};
use std::alloc::Global;
use std::test::Fail;

// A site with the file a on its source, nothing on its target, and a record.
fn sample(alloc: Global) -> Result<FailingSite, Fail> {
    let mut source = Tree::new(alloc);
    let props = plain_props(alloc, Moment::new(7), Attr::NONE);
    put_entry(alloc, &mut source, "a", Kind::File, b"abcd", props)?;
    let notes = b"notes".to_vec(alloc)?;
    let site = MemSite::new(alloc, source, Tree::new(alloc), notes)?;
    Ok(FailingSite::new(alloc, site))
}

// The answer of a call as a letter.
fn letter<T: Drop>(answer: Result<T, SiteErr>) -> char {
    match answer {
        Ok(_) => '.',
        Err(SiteErr::Failed) => 'x',
        Err(SiteErr::NoMemory) => '?',
    }
}

fn bind(alloc: Global, site: &mut FailingSite) -> char {
    match site.bind(alloc, "S", "T", Scan::Size, 0) {
        Ok(()) => '.',
        Err(BindErr::Failed { side: _ }) => 'x',
        Err(BindErr::NoMemory) => '?',
    }
}

fn list(alloc: Global, site: &mut FailingSite, side: Side) -> char {
    letter(site.next_entry(alloc, side, &Path::root(alloc), None))
}

fn stat(alloc: Global, site: &mut FailingSite, side: Side) -> Result<char, Fail> {
    let path = Path::read(alloc, "a")?;
    if path.names().is_empty() {
        return Err("no name")?;
    }
    Ok(letter(site.stat(alloc, side, &path)))
}

// Makes the directory d on the target, where it may stand.
fn make_dir(alloc: Global, site: &mut FailingSite) -> Result<char, Fail> {
    let path = Path::read(alloc, "d")?;
    let tree = site.behind.tree(Side::Target);
    if !tree.has_parent(alloc, &path)? || tree.get(alloc, &path)?.is_some() {
        return Err("no place for an entry")?;
    }
    Ok(letter(site.make_dir(alloc, Side::Target, &path)))
}

// A call by its letter: a capital one is on the target.
fn call(alloc: Global, site: &mut FailingSite, name: char) -> Result<char, Fail> {
    Ok(match name {
        'b' => bind(alloc, site),
        'l' => list(alloc, site, Side::Source),
        'L' => list(alloc, site, Side::Target),
        's' => stat(alloc, site, Side::Source)?,
        'S' => stat(alloc, site, Side::Target)?,
        'y' => letter(site.sync(alloc, Side::Source)),
        'Y' => letter(site.sync(alloc, Side::Target)),
        'r' => letter(site.reader(alloc, Vec::new(alloc))),
        'M' => make_dir(alloc, site)?,
        'n' => letter(site.record_len(alloc)),
        'e' => letter(site.record_read(alloc, 0, 0)),
        'w' => letter(site.record_write(alloc, 0, b"N")),
        'c' => letter(site.record_cut(alloc, 0)),
        'z' => letter(site.record_sync(alloc)),
        _ => '?',
    })
}

// Names calls, makes others, and answers whether they answer so.
fn answers(
    alloc: Global,
    site: &mut FailingSite,
    named: &[(Part, u64)],
    calls: &str,
    want: &str,
) -> Result<bool, Fail> {
    for (part, number) in named {
        site.fail_call(*part, *number)?;
    }
    let mut text = String::new(alloc);
    for name in calls.chars() {
        text.push(call(alloc, site, name)?)?;
    }
    Ok(text.as_str() == want)
}

// What is named, the calls, what they answer, the record behind them, and how many entries the target and events the log
// has, in which a sync of each part comes first.
type CallRow = (
    &'static [(Part, u64)],
    &'static str,
    &'static str,
    &'static [u8],
    usize,
    usize,
);

const CALLS: &[CallRow] = &[
    (&[], "blsyrLSYMnewcz", "..............", b"", 1, 9),
    (&[(Part::Source, 0)], "bly", "...", b"notes", 0, 4),
    // Binding the roots is a call on each side, but for the target where the source's fails.
    (&[(Part::Source, 1)], "blL", "x..", b"notes", 0, 3),
    (&[(Part::Target, 1)], "blL", "x..", b"notes", 0, 3),
    (
        &[(Part::Source, 1), (Part::Target, 1)],
        "bbl",
        "xx.",
        b"notes",
        0,
        3,
    ),
    (&[(Part::Target, 2)], "blLL", "..x.", b"notes", 0, 3),
    // Looks and readers are calls too.
    (&[(Part::Source, 2)], "blLl", ".x..", b"notes", 0, 3),
    (&[(Part::Source, 3)], "blLsSy", "...x..", b"notes", 0, 4),
    (&[(Part::Source, 4)], "lyryry", "...x..", b"notes", 0, 5),
    (&[(Part::Source, 3)], "lyryry", "..x...", b"notes", 0, 6),
    (&[(Part::Target, 4)], "LSYMM", "...x.", b"notes", 1, 6),
    // A changing call that fails changes nothing and is in the log; a sync that fails is not.
    (&[(Part::Target, 1)], "MY", "x.", b"notes", 0, 5),
    (&[(Part::Target, 1)], "Y", "x", b"notes", 0, 3),
    (&[(Part::Record, 3)], "newcz", "..x..", b"", 0, 6),
    (&[(Part::Record, 1)], "wnz", "x..", b"notes", 0, 5),
    (&[(Part::Record, 2)], "wcz", ".x.", b"Notes", 0, 6),
    (
        &[(Part::Record, 3), (Part::Record, 1)],
        "zzzz",
        "x.x.",
        b"notes",
        0,
        5,
    ),
];

#[test]
fn calls_fail_where_they_are_named(rt: HostRuntime) -> Result<(), Fail> {
    let alloc = rt.alloc();
    for (named, calls, want, notes, entries, events) in CALLS {
        let mut site = sample(alloc)?;
        assert!(rt; answers(alloc, &mut site, named, calls, want)?);
        let site = &site.behind;
        assert_eq!(rt; site.notes(), *notes);
        assert_eq!(rt; site.tree(Side::Target).nodes().count(), *entries);
        assert_eq!(rt; site.log().len(), *events);
    }
    Ok(())
}

// Whether an attempt at a read of the first byte of the file a fails.
fn read_fails(alloc: Global, site: &mut FailingSite, attempt: u32) -> Result<bool, Fail> {
    let path = Path::read(alloc, "a")?;
    let node = site.behind.tree(Side::Source).get(alloc, &path)?;
    if node.ok_or("no file")?.bytes.as_slice().is_empty() {
        return Err("no bytes")?;
    }
    let want = Want {
        path: path.copy(alloc)?,
        ranges: Ranges::new(vec![in alloc; (0, 1)]?),
    };
    let reader = site.reader(alloc, vec![in alloc; want]?)?;
    let mut tally = reader.tally();
    Ok(
        reader
            .fill(alloc, &mut tally, &path, attempt, 0, &mut [0; 1])
            .is_err(),
    )
}

// Names reads, and answers whether the attempts from 0 on fail so.
fn reads_fail(
    alloc: Global,
    site: &mut FailingSite,
    named: &[(&str, u32)],
    want: &[bool],
) -> Result<bool, Fail> {
    for (path, times) in named {
        site.fail_reads(alloc, &Path::read(alloc, path)?, *times)?;
    }
    let mut same = true;
    for attempt in 0..4 {
        let fails = read_fails(alloc, site, attempt)?;
        same = same && want.get(attempt as usize) == Some(&fails);
    }
    Ok(same)
}

// The paths that are named and how often, and whether each attempt at a read of the file a fails.
type ReadRow = (&'static [(&'static str, u32)], [bool; 4]);

const READS: &[ReadRow] = &[
    (&[], [false; 4]),
    (&[("a", 2)], [true, true, false, false]),
    (&[("A", 1)], [true, false, false, false]),
    // Of two numbers the larger one holds.
    (&[("a", 3), ("A", 1)], [true, true, true, false]),
    (&[("A", 1), ("a", 3)], [true, true, true, false]),
    (&[("a", 0)], [false; 4]),
    (&[("b", 9), ("a\\b", 9)], [false; 4]),
];

#[test]
fn reads_fail_below_the_attempt_that_is_named(rt: HostRuntime) -> Result<(), Fail> {
    let alloc = rt.alloc();
    for (named, want) in READS {
        let mut site = sample(alloc)?;
        assert!(rt; reads_fail(alloc, &mut site, named, want)?);
    }
    Ok(())
}

fn sends<K: Sink>(alloc: Global, sink: &mut K, bytes: &[u8]) -> bool {
    sink.write(alloc, bytes).is_ok()
}

// Up to three bytes, or `!` where the read fails.
fn takes<I: Input>(alloc: Global, input: &mut I) -> Result<Vec<u8>, Fail> {
    let mut buf = [0; 3];
    match input.read(alloc, &mut buf) {
        Ok(count) => Ok((&buf[..count]).to_vec(alloc)?),
        Err(_) => Ok(b"!".to_vec(alloc)?),
    }
}

fn keeps<J: JobStore>(alloc: Global, jobs: &mut J, bytes: &[u8]) -> Result<bool, Fail> {
    let name = Text::of(alloc, "job")?;
    Ok(jobs.write(alloc, &name, bytes).is_ok())
}

// The bytes of the job, or `!` where the read fails.
fn finds<J: JobStore>(alloc: Global, jobs: &mut J) -> Result<Vec<u8>, Fail> {
    let name = Text::of(alloc, "job")?;
    match jobs.read(alloc, &name) {
        Ok(found) => Ok(found.ok_or("no job")?),
        Err(_) => Ok(b"!".to_vec(alloc)?),
    }
}

#[test]
fn one_write_of_a_sink_fails(rt: HostRuntime) -> Result<(), Fail> {
    let alloc = rt.alloc();
    let mut sink = Failing::new(MemSink::new(alloc));
    sink.fail_at(1);
    sink.fail_at(2);
    for (bytes, sent) in [
        (b"one ".as_slice(), true),
        (b"two ".as_slice(), false),
        (b"three".as_slice(), true),
    ] {
        assert_eq!(rt; sends(alloc, &mut sink, bytes), sent);
    }
    assert_eq!(rt; sink.behind.bytes(), b"one three".as_slice());
    Ok(())
}

#[test]
fn one_read_of_an_input_fails(rt: HostRuntime) -> Result<(), Fail> {
    let alloc = rt.alloc();
    let mut input = Failing::new(MemInput::new(b"abcd".to_vec(alloc)?));
    input.fail_at(2);
    for want in [b"abc".as_slice(), b"!", b"d", b""] {
        let taken = takes(alloc, &mut input)?;
        assert_eq!(rt; taken.as_slice(), want);
    }
    Ok(())
}

#[test]
fn one_call_of_a_store_fails(rt: HostRuntime) -> Result<(), Fail> {
    let alloc = rt.alloc();
    // Which call fails, whether two writes are done, and what two reads then find.
    for (number, first, second, found, again) in [
        (0, true, true, b"2".as_slice(), b"2".as_slice()),
        (2, true, false, b"1".as_slice(), b"1".as_slice()),
        (3, true, true, b"!".as_slice(), b"2".as_slice()),
    ] {
        let mut jobs = Failing::new(MemJobs::new(alloc));
        jobs.fail_at(number);
        assert_eq!(rt; keeps(alloc, &mut jobs, b"1")?, first);
        assert_eq!(rt; keeps(alloc, &mut jobs, b"2")?, second);
        let one = finds(alloc, &mut jobs)?;
        assert_eq!(rt; one.as_slice(), found);
        let two = finds(alloc, &mut jobs)?;
        assert_eq!(rt; two.as_slice(), again);
    }
    Ok(())
}
