//! Records as they are written, and as a stop or a failure leaves them.

ghost use Rattle.std.specs.Prelude.{◌≡◌, true, IfOk, IfSome, IsTrue};
ghost use Rattle.rc_mem.specs.MemSite.{seen_by};
ghost use Rattle.rc_record.specs.Spelling.{IsAllowed, IsWritable};
ghost use Rattle.rc_record.specs.Writing.{HasPlace, IsOpened};

use rc_class::{Noted, Plan, unit_count};
use rc_failing::{Call, FailingSite};
use rc_mem::{MemSite, Tree};
use rc_record::{MarkPlace, RecordErr, TEXT_MAX, begin, clear, load, mark, open_gate};
use rc_stop::StopSite;
use rc_volume::{Part, Site};
use std::alloc::Global;
use std::test::Fail;

// The open record of a run that copies the one file `a.txt` of five bytes, with no mark yet.
const RECORD: &str = "a55243523100c08976453cda01000000000118000000\
2f53443a5352430a2f44443a4453540a2f49460a2a2e2a0a\
01000000010100000500000000000000\
00c08976453cda01200000000500612e747874000000";

// A site in memory with a record.
fn site_with(alloc: Global, record: Vec<u8>) -> Result<MemSite, Fail> {
    Ok(MemSite::new(alloc, Tree::new(alloc), Tree::new(alloc), record)?)
}

// That record under a gate, with so many of the three marks.
fn marked(alloc: Global, gate: u8, count: usize) -> Result<Vec<u8>, Fail> {
    let opened = hex::decode(alloc, RECORD)?;
    let mut record = Vec::new(alloc);
    record.push(gate)?;
    record.extend_from_slice(opened.get(1..81).unwrap_or(&[]))?;
    for place in 0..3 {
        record.push(if place < count { 0xA5 } else { 0 })?;
    }
    Ok(record)
}

// What is marked, one after the other.
fn place_at(number: u32) -> MarkPlace {
    match number {
        0 => MarkPlace::Unit(0),
        1 => MarkPlace::Finish(0),
        _ => MarkPlace::Last,
    }
}

fn has_place(plan: &Plan, place: MarkPlace) -> bool
    requires allowed { IsAllowed plan.now }
    ensures { IsTrue result → HasPlace plan.now place }
{
    match place {
        MarkPlace::Unit(n) => u64::from(n) < unit_count(plan),
        MarkPlace::Finish(n) => match plan.items.items().get(n as usize) {
            Some(item) => item.act.is_copy(),
            None => false,
        },
        MarkPlace::Last => true,
    }
}

fn is_writable(plan: &Plan) -> bool
    requires allowed { IsAllowed plan.now }
    ensures { IsTrue result → IsWritable plan.now }
{
    plan.job.text().len() as u64 <= TEXT_MAX
}

// The plan of that record.
fn row_plan(alloc: Global) -> Result<Option<Plan>, Fail>
    ensures { IfOk result (λ plan. IfSome plan IsWritable) }
{
    let mut site = site_with(alloc, marked(alloc, 0xA5, 0)?)?;
    match load(alloc, &mut site) {
        Ok(Some(noted)) if is_writable(&noted.plan) => Ok(Some(noted.plan)),
        _ => Ok(None),
    }
}

// Marks all.
fn mark_all<S: Site>(alloc: Global, site: &mut S, plan: &Plan) -> Result<(), RecordErr>
    requires allowed { IsAllowed plan.now }
    requires opened { S.tells ≡ true → IsOpened plan.now (S.view site.old) }
{
    'marks: for number in 0..3 {
        let place = place_at(number);
        if has_place(plan, place) {
            match mark(alloc, site, plan, place) {
                Ok(()) => {}
                Err(e) => return Err(e),
            }
        }
    }
    Ok(())
}

// Writes the record of a plan, marks all and clears it.
fn write_all<S: Site>(alloc: Global, site: &mut S, plan: &Plan) -> Result<(), RecordErr>
    requires writable { IsWritable plan.now }
{
    match begin(alloc, site, plan) {
        Ok(()) => {}
        Err(e) => return Err(e),
    }
    match open_gate(alloc, site) {
        Ok(()) => {}
        Err(e) => return Err(e),
    }
    match mark_all(alloc, site, plan) {
        Ok(()) => clear(alloc, site),
        Err(e) => Err(e),
    }
}

#[test]
fn writes_a_record_byte_for_byte(rt: HostRuntime) -> Result<(), Fail> {
    let alloc = rt.alloc();
    let mut site = site_with(alloc, Vec::new(alloc))?;
    let begun = marked(alloc, 0, 0)?;
    let opened = marked(alloc, 0xA5, 0)?;
    match row_plan(alloc)? {
        Some(plan) => {
            assert!(rt; begin(alloc, &mut site, &plan).is_ok());
            assert!(rt; site.notes() == begun.as_slice());
            assert!(rt; open_gate(alloc, &mut site).is_ok());
            assert!(rt; site.notes() == opened.as_slice());
        }
        None => assert!(rt; false),
    }
    Ok(())
}

// Whether each mark changes its byte and no other, and clearing leaves none.
fn marks_in_turn(alloc: Global, site: &mut MemSite, plan: &Plan) -> Result<bool, Fail>
    requires allowed { IsAllowed plan.now }
    requires opened { IsOpened plan.now (seen_by site.old) }
{
    'marks: for number in 0..3 {
        let place = place_at(number);
        let wanted = marked(alloc, 0xA5, number as usize + 1)?;
        if !has_place(plan, place) || mark(alloc, site, plan, place).is_err() {
            return Ok(false);
        }
        if site.notes() != wanted.as_slice() {
            return Ok(false);
        }
    }
    Ok(clear(alloc, site).is_ok() && site.notes().is_empty())
}

#[test]
fn marks_one_byte_after_the_other(rt: HostRuntime) -> Result<(), Fail> {
    let alloc = rt.alloc();
    let mut site = site_with(alloc, marked(alloc, 0xA5, 0)?)?;
    match load(alloc, &mut site) {
        Ok(Some(noted)) => assert!(rt; marks_in_turn(alloc, &mut site, &noted.plan)?),
        _ => assert!(rt; false),
    }
    Ok(())
}

// Whether it is nothing, or a plan of one item with the marks that came first.
fn is_nothing_or_plan(loaded: Result<Option<Noted>, RecordErr>) -> bool {
    match loaded {
        Ok(None) => true,
        Ok(Some(noted)) => match (noted.units.marks(), noted.finished.marks()) {
            ([unit], [finish]) => {
                noted.plan.items.items().len() == 1
                    && (*unit || !*finish)
                    && (*finish || !noted.last)
            }
            _ => false,
        },
        Err(_) => false,
    }
}

// Whether each of ten images at a stop can be loaded, and whether there was a stop.
fn loads_at(alloc: Global, number: u64, plan: &Plan) -> Result<(bool, bool), Fail>
    requires writable { IsWritable plan.now }
{
    let mut site = StopSite::new(alloc, Tree::new(alloc), Tree::new(alloc), Vec::new(alloc))?;
    site.stop_at(Part::Record, number);
    let answer = write_all(alloc, &mut site, plan);
    let mut loads = answer.is_ok() != site.stopped();
    if site.stopped() {
        for choice in 0..10 {
            let mut image = site.stop_image(alloc, choice)?;
            loads = loads && is_nothing_or_plan(load(alloc, &mut image));
        }
    }
    Ok((loads, site.stopped()))
}

#[test]
fn each_stop_leaves_nothing_or_the_plan(rt: HostRuntime) -> Result<(), Fail> {
    let alloc = rt.alloc();
    match row_plan(alloc)? {
        Some(plan) => {
            // Begin has one sync, a write and a sync, and another such pair; the gate and each mark have a pair; clearing
            // has three.
            for number in 1..40 {
                let (loads, stopped) = loads_at(alloc, number, &plan)?;
                assert!(rt; loads && stopped == (number <= 5 + 2 + 6 + 6));
            }
        }
        None => assert!(rt; false),
    }
    Ok(())
}

// The calls that can fail, and how often each is made.
const CALLS: &[(Call, u64)] = &[
    (Call::RecordLen, 1),
    (Call::RecordWrite, 7),
    (Call::RecordCut, 2),
    (Call::RecordSync, 10),
];

// Fails each call behind so many others, and then none; whether the fault is told and a new beginning goes to its end.
fn fail_at(alloc: Global, call: Call, before: u64, plan: &Plan) -> Result<bool, Fail>
    requires writable { IsWritable plan.now }
{
    let mut site = FailingSite::new(alloc, site_with(alloc, Vec::new(alloc))?);
    site.fail_kind(call, before, u64::MAX);
    let first = write_all(alloc, &mut site, plan);
    site.fail_kind(call, 100, u64::MAX);
    let second = write_all(alloc, &mut site, plan);
    Ok(first == Err(RecordErr::RecordFault) && second.is_ok() && site.behind.notes().is_empty())
}

#[test]
fn begins_again_behind_each_failure(rt: HostRuntime) -> Result<(), Fail> {
    let alloc = rt.alloc();
    match row_plan(alloc)? {
        Some(plan) => {
            for (call, count) in CALLS {
                for before in 0..*count {
                    assert!(rt; fail_at(alloc, *call, before, &plan)?);
                }
            }
        }
        None => assert!(rt; false),
    }
    Ok(())
}
