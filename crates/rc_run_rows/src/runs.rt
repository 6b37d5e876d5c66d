//! Runs over sites in memory, and over such on which a call fails.

mod faults;
mod jobs;
mod outcomes;
mod plans;
mod refusals;
mod trees;
mod wants;

use rc_fixture::Row;
use rc_mem::{FixedClock, MemJobs, MemSite, Tree};
use rc_run::{Ended, mirror_alone};
use rc_tree::{Attr, Kind, Path, Props};
use rc_volume::{Side, Sink, Site};
use std::alloc::Global;
use std::str;
use std::test::Fail;

// 2024-01-01 00:00:00 UTC.
const T0: u64 = 133485408000000000;

const A: Attr = Attr {
    archive: true,
    ..Attr::NONE
};

const NO_FILES: &[Row] = &[];

const NO_SWITCHES: &[&str] = &[];

// A site without a record.
fn site(alloc: Global, source: Tree, target: Tree) -> Result<MemSite, Fail> {
    let site = MemSite::new(alloc, source, target, Vec::new(alloc))?;
    Ok(site)
}

fn strings(alloc: Global, words: &[&str]) -> Result<Vec<String>, Fail> {
    let mut strings = Vec::new(alloc);
    for word in words {
        strings.push(String::from_str(alloc, word)?)?;
    }
    Ok(strings)
}

// A run of these words at T0 without job files.
fn run<S: Site + Drop, K: Sink>(
    alloc: Global,
    words: &[&str],
    site: S,
    sink: &mut K,
) -> Result<Ended<S>, Fail> {
    let words = strings(alloc, words)?;
    let mut jobs = MemJobs::new(alloc);
    let mut clock = FixedClock::new(T0);
    Ok(mirror_alone(alloc, words.as_slice(), site, &mut jobs, sink, &mut clock))
}

// A run of two roots and these switches at T0.
fn mirror<S: Site + Drop, K: Sink>(
    alloc: Global,
    switches: &[&str],
    site: S,
    sink: &mut K,
) -> Result<Ended<S>, Fail> {
    let mut words = strings(alloc, &["SRC", "DST"])?;
    let mut switches = strings(alloc, switches)?;
    words.append(&mut switches)?;
    let mut jobs = MemJobs::new(alloc);
    let mut clock = FixedClock::new(T0);
    Ok(mirror_alone(alloc, words.as_slice(), site, &mut jobs, sink, &mut clock))
}

// A line for each entry: its path, attributes as stored, both times, access list, owner, auditing, and bytes. Security
// and bytes are texts here.
fn shown(alloc: Global, tree: &Tree) -> Result<String, Fail> {
    let mut text = String::new(alloc);
    for node in tree.nodes() {
        push_path(&mut text, &node.path)?;
        push_props(alloc, &mut text, node.kind, &node.props)?;
        push_text(&mut text, node.bytes.as_slice())?;
        text.push('\n')?;
    }
    Ok(text)
}

fn push_path(text: &mut String, path: &Path) -> Result<(), Fail> {
    for name in path.names() {
        text.push_str(name.text())?;
    }
    Ok(())
}

fn push_props(alloc: Global, text: &mut String, kind: Kind, props: &Props) -> Result<(), Fail> {
    let attr = props.attr.stored(kind);
    let created = props.created.units();
    let written = props.written.units();
    text.push_str(format!(in alloc; " {attr:x} {created} {written} ")?.as_str())?;
    push_text(text, props.access.bytes())?;
    text.push('/')?;
    push_text(text, props.owner.bytes())?;
    text.push('/')?;
    push_text(text, props.audit.bytes())?;
    text.push(' ')?;
    Ok(())
}

fn push_text(text: &mut String, bytes: &[u8]) -> Result<(), Fail> {
    text.push_str(str::from_utf8(bytes)?)?;
    Ok(())
}

// What a site shows of both trees, its record and what was opened.
fn site_shown(alloc: Global, site: &MemSite) -> Result<String, Fail> {
    let source = shown(alloc, site.tree(Side::Source))?;
    let target = shown(alloc, site.tree(Side::Target))?;
    let notes = site.notes();
    let opened = site.opened().len();
    Ok(format!(in alloc; "{source}|{target}|{notes:?}|{opened}")?)
}
