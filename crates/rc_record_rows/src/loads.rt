//! Records as they are loaded.

use rc_class::{Act, After, Class, Noted};
use rc_mem::{MemSite, Tree};
use rc_record::{RecordErr, head_at, item_at, load};
use rc_tree::{Attr, Kind};
use std::alloc::Global;
use std::test::Fail;

// The open record of a run that copies the one file `a.txt` of five bytes, with no mark yet.
const RECORD: &str = "a55243523100c08976453cda01000000000118000000\
2f53443a5352430a2f44443a4453540a2f49460a2a2e2a0a\
01000000010100000500000000000000\
00c08976453cda01200000000500612e747874000000";

// What a record stands for: nothing, something, or it is bad at a place.
#[derive(Clone, Copy, Debug, PartialEq, Eq)]
enum Meaning {
    Nothing,
    Something,
    Bad(u64),
    Failed,
}

fn load_of(alloc: Global, record: Vec<u8>) -> Result<Result<Option<Noted>, RecordErr>, Fail> {
    let mut site = MemSite::new(alloc, Tree::new(alloc), Tree::new(alloc), record)?;
    Ok(load(alloc, &mut site))
}

fn meaning_of(alloc: Global, record: Vec<u8>) -> Result<Meaning, Fail> {
    match load_of(alloc, record)? {
        Ok(None) => Ok(Meaning::Nothing),
        Ok(Some(_)) => Ok(Meaning::Something),
        Err(RecordErr::BadRecord { place }) => Ok(Meaning::Bad(place)),
        Err(_) => Ok(Meaning::Failed),
    }
}

// The record with other bytes from an offset on.
fn changed(alloc: Global, off: usize, change: &str) -> Result<Vec<u8>, Fail> {
    let record = hex::decode(alloc, RECORD)?;
    let change = hex::decode(alloc, change)?;
    let behind = off.saturating_add(change.len());
    let mut bytes = Vec::new(alloc);
    bytes.extend_from_slice(record.get(..off).unwrap_or(&[]))?;
    bytes.extend_from_slice(&change)?;
    bytes.extend_from_slice(record.get(behind..).unwrap_or(&[]))?;
    Ok(bytes)
}

// Other bytes from an offset on, and the place at which the record is then bad.
const CHANGES: &[(usize, &str, u64)] = &[
    (84, "00", 84),
    (5, "ffffffffffffffff", 5),
    (13, "01", 13),
    (17, "02", 17),
    (18, "ffffffff", 84),
    (22, "ff", 22),
    (46, "41420f00", 46),
    (46, "02", 81),
    (50, "09", 50),
    (51, "00", 51),
    (52, "03", 52),
    (53, "01", 53),
    (54, "0100000000010000", 54),
    (62, "ffffffffffffffff", 62),
    (70, "10", 70),
    (77, "3a", 76),
];

#[test]
fn a_change_makes_the_record_bad_at_its_place(rt: HostRuntime) -> Result<(), Fail> {
    let alloc = rt.alloc();
    for (off, change, place) in CHANGES {
        let record = changed(alloc, *off, change)?;
        assert!(rt; meaning_of(alloc, record)? == Meaning::Bad(*place));
    }
    Ok(())
}

// Whole records, and what they stand for.
const RECORDS: &[(&str, Meaning)] = &[
    ("", Meaning::Nothing),
    ("a5", Meaning::Nothing),
    ("0052435239", Meaning::Nothing),
    ("a5524352", Meaning::Bad(4)),
    ("a5524353", Meaning::Bad(4)),
    ("a552435239", Meaning::Bad(1)),
    ("a552435231", Meaning::Bad(5)),
];

#[test]
fn short_records(rt: HostRuntime) -> Result<(), Fail> {
    let alloc = rt.alloc();
    for (record, wanted) in RECORDS {
        let record = hex::decode(alloc, record)?;
        assert!(rt; meaning_of(alloc, record)? == *wanted);
    }
    Ok(())
}

#[test]
fn records_that_end_too_early(rt: HostRuntime) -> Result<(), Fail> {
    let alloc = rt.alloc();
    let mut record = changed(alloc, 0, "")?;
    record.truncate(83);
    assert!(rt; meaning_of(alloc, record)? == Meaning::Bad(83));
    // Two items, of which the second ends behind its third byte.
    let mut record = changed(alloc, 46, "02")?;
    record.truncate(81);
    record.extend_from_slice(&[1, 1, 0])?;
    assert!(rt; meaning_of(alloc, record)? == Meaning::Bad(84));
    Ok(())
}

// Whether the marks of the only unit, of the only copy, and the last gate stand in a record that stands for something.
fn marks(alloc: Global, change: &str) -> Result<Option<(bool, bool, bool)>, Fail> {
    let record = changed(alloc, 81, change)?;
    match load_of(alloc, record)? {
        Ok(Some(noted)) => Ok(Some((
            noted.units.marks() == [true].as_slice(),
            noted.finished.marks() == [true].as_slice(),
            noted.last,
        ))),
        _ => Ok(None),
    }
}

#[test]
fn marks_stand_where_their_byte_is_open(rt: HostRuntime) -> Result<(), Fail> {
    let alloc = rt.alloc();
    for (change, wanted) in [
        ("", (false, false, false)),
        ("01", (false, false, false)),
        ("a5", (true, false, false)),
        ("a5a5", (true, true, false)),
        ("a5a5a5", (true, true, true)),
        ("ffa4a5", (false, false, true)),
    ] {
        assert!(rt; marks(alloc, change)? == Some(wanted));
    }
    Ok(())
}

fn is_whole(noted: &Noted) -> bool {
    let plan = &noted.plan;
    plan.job.text() == "/SD:SRC\n/DD:DST\n/IF\n*.*\n"
        && plan.moment.units() == 133485408000000000
        && plan.stride == 0
        && plan.with_bytes
        && plan.items.items().len() == 1
        && noted.units.marks().len() == 1
        && noted.finished.marks().len() == 1
}

fn has_its_item(noted: &Noted) -> bool {
    match noted.plan.items.items() {
        [item] => {
            item.act == Act::Copy
                && item.class == Class::Lonely
                && item.after == After::Nothing
                && item.facts.kind == Kind::File
                && item.facts.size == 5
                && item.facts.written.units() == 133485408000000000
                && item.facts.attr
                    == Attr {
                        archive: true,
                        ..Attr::NONE
                    }
                && item.path.names().len() == 1
        }
        _ => false,
    }
}

#[test]
fn loads_a_plan(rt: HostRuntime) -> Result<(), Fail> {
    let alloc = rt.alloc();
    let record = changed(alloc, 0, "")?;
    match load_of(alloc, record)? {
        Ok(Some(noted)) => {
            assert!(rt; is_whole(&noted));
            assert!(rt; has_its_item(&noted));
        }
        _ => assert!(rt; false),
    }
    Ok(())
}

#[test]
fn reads_one_part_by_itself(rt: HostRuntime) -> Result<(), Fail> {
    let alloc = rt.alloc();
    let record = hex::decode(alloc, RECORD)?;
    let text_len = match head_at(&record) {
        Ok(head) => head.text_len,
        Err(_) => 0,
    };
    assert!(rt; text_len == 24);
    let end = match item_at(alloc, &record, 50) {
        Ok((_, end)) => end,
        Err(_) => 0,
    };
    assert!(rt; end == 81);
    // By itself an item of more than 2^40 bytes is none that is refused.
    let record = changed(alloc, 54, "0100000000010000")?;
    assert!(rt; item_at(alloc, &record, 50).is_ok());
    Ok(())
}
