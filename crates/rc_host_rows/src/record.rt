//! The record of a run, by its words, and its rows.

use crate::bench::{Step, miss};
use crate::change::change_word;
use crate::looks::site_word;
use crate::words::number_and;
use rc_host::HostSite;
use rc_volume::{Site, SiteErr};
use std::alloc::Global;
use std::test::Fail;

// The answer of a call on the record; none where it is another call.
pub(crate) fn record_answer(
    site: &mut HostSite,
    alloc: Global,
    call: &str,
    with: &str,
) -> Result<Option<String>, Fail> {
    let changed = match call {
        "record len" => return Ok(Some(record_len(site, alloc)?)),
        "record read" => return Ok(Some(record_read(site, alloc, with)?)),
        "record write" => record_write(site, alloc, with)?,
        "record cut" => site.record_cut(alloc, with.parse::<u64>()?),
        "record sync" => site.record_sync(alloc),
        _ => return Ok(None),
    };
    Ok(Some(String::from_str(alloc, change_word(changed))?))
}

fn record_len(site: &mut HostSite, alloc: Global) -> Result<String, Fail> {
    match site.record_len(alloc) {
        Ok(len) => Ok(format!(in alloc; "{len}")?),
        Err(error) => Ok(String::from_str(alloc, site_word(error))?),
    }
}

fn record_read(site: &mut HostSite, alloc: Global, with: &str) -> Result<String, Fail> {
    let (off, len) = number_and(with)?;
    match site.record_read(alloc, off, len.parse::<usize>()?) {
        Ok(bytes) => Ok(String::from_utf8(bytes)?),
        Err(error) => Ok(String::from_str(alloc, site_word(error))?),
    }
}

// Writes the bytes behind an offset and a space.
fn record_write(
    site: &mut HostSite,
    alloc: Global,
    with: &str,
) -> Result<Result<(), SiteErr>, Fail> {
    let (off, text) = number_and(with)?;
    let bytes = text.as_bytes();
    if bytes.is_empty() {
        return Err("no bytes")?;
    }
    Ok(site.record_write(alloc, off, bytes))
}

const KEPT: &[Step] = &[
    ("host dir", "s", "", "done"),
    ("host dir", "t", "", "done"),
    ("open", "size", "1", "done"),
    // No file is a record without bytes, and is not made by looks.
    ("record len", "", "", "0"),
    ("record read", "", "0 0", ""),
    ("record read", "", "0 1", "refused"),
    ("record cut", "", "0", "done"),
    ("record cut", "", "1", "refused"),
    ("record sync", "", "", "done"),
    ("host look", "t.rcr", "", "none"),
    ("record write", "", "0 abc", "done"),
    ("host look", "t.rcr", "", "file abc"),
    ("record len", "", "", "3"),
    ("record read", "", "0 3", "abc"),
    // Over what is there, past the end, and at it.
    ("record write", "", "2 xyz", "done"),
    ("record write", "", "5 !", "done"),
    ("host look", "t.rcr", "", "file abxyz!"),
    ("record read", "", "1 4", "bxyz"),
    ("record write", "", "0 A", "done"),
    ("host look", "t.rcr", "", "file Abxyz!"),
    // Behind its end nothing is written, read or cut.
    ("record write", "", "7 no", "refused"),
    ("record read", "", "0 7", "refused"),
    ("record read", "", "6 1", "refused"),
    ("record cut", "", "7", "refused"),
    ("host look", "t.rcr", "", "file Abxyz!"),
    ("record cut", "", "6", "done"),
    ("record cut", "", "2", "done"),
    ("record sync", "", "", "done"),
    ("host look", "t.rcr", "", "file Ab"),
    ("record cut", "", "0", "done"),
    ("record len", "", "", "0"),
    ("host look", "t.rcr", "", "file "),
    ("record write", "", "0 b", "done"),
    ("record sync", "", "", "done"),
    ("host look", "t.rcr", "", "file b"),
    // It is no entry of either tree.
    ("list", "s", "", "all"),
    ("list", "t", "", "all"),
];

#[test]
fn a_record_is_kept_beside_the_target(rt: HostRuntime) -> Result<(), Fail> {
    let miss = miss(&rt, "record", KEPT)?;
    assert_eq!(rt; miss.as_str(), "");
    Ok(())
}

const LEFT: &[Step] = &[
    ("host dir", "s", "", "done"),
    ("host dir", "t", "", "done"),
    ("host file", "t.rcr", "left by another run", "done"),
    ("open", "size", "1", "done"),
    ("record len", "", "", "19"),
    ("record read", "", "0 19", "left by another run"),
    ("record read", "", "8 7", "another"),
    ("record write", "", "19 .", "done"),
    ("leave", "", "", "left"),
    ("open", "size", "2", "done"),
    ("record read", "", "0 20", "left by another run."),
    // Where the file was taken away, the record has no bytes.
    ("host remove", "t.rcr", "", "done"),
    ("record len", "", "", "0"),
    ("record write", "", "0 new", "done"),
    ("host look", "t.rcr", "", "file new"),
    // A record that is a link or a directory is a fault, and is left as it is.
    ("host remove", "t.rcr", "", "done"),
    ("host file", "other", "abc", "done"),
    ("host link", "t.rcr", "other", "done"),
    ("record len", "", "", "refused"),
    ("record read", "", "0 3", "refused"),
    ("record write", "", "0 x", "refused"),
    ("record cut", "", "0", "refused"),
    ("host look", "other", "", "file abc"),
    ("host remove", "t.rcr", "", "done"),
    ("host dir", "t.rcr", "", "done"),
    ("record len", "", "", "refused"),
    ("record write", "", "0 x", "refused"),
    ("record cut", "", "0", "refused"),
    ("host look", "t.rcr", "", "dir"),
];

#[test]
fn a_record_that_another_run_left_is_seen(rt: HostRuntime) -> Result<(), Fail> {
    let miss = miss(&rt, "record-left", LEFT)?;
    assert_eq!(rt; miss.as_str(), "");
    Ok(())
}
