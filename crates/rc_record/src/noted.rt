//! All that a record stands for: its plan, the marks behind it, and that nothing comes behind those.

ghost use Rattle.std.specs.Prelude.{◌≡◌, ◌≤◌, ◌<◌, ◌+◌, ◌==◌, length, filter, map, IfErr, IfOk, IfSome};
ghost use Rattle.rc_class.specs.Units.{is_copy};
ghost use Rattle.rc_record.specs.Answers.{Gives, IsOfBytes};
ghost use Rattle.rc_record.specs.Grammar.{is_open, last_at, marks_at, noted_at, stands, stands_at};
ghost use Rattle.rc_record.specs.Writing.{IsRecordOf};

use crate::err::RecordErr;
use crate::fields::{byte_at, field_at};
use crate::items::plan_at;
use rc_class::{Item, Marks, Noted};
use rc_tree::NoMemory;
use std::alloc::Global;

// What a gate or a mark is where it stands.
const OPEN: u8 = 0xA5;

/// What bytes stand for as a record. It refuses `RecordFault` never.
#[tactic(auto, unfolding(crate::specs::Grammar::stands))]
pub(crate) fn read(alloc: Global, bytes: &[u8]) -> Result<Option<Noted>, RecordErr>
    ensures exact { Gives (λ noted. noted) result (stands bytes.now) }
    ensures causes { IfErr result IsOfBytes }
    ensures record_of { IfOk result
        (λ noted. IfSome noted (λ noted. IsRecordOf noted.plan bytes.now)) }
{
    if !is_open(bytes) {
        return Ok(None);
    }
    match noted_at(alloc, bytes) {
        Ok(noted) => Ok(Some(noted)),
        Err(e) => Err(e),
    }
}

// The plan's gate stands, and something comes behind it.
fn is_open(bytes: &[u8]) -> bool
    ensures { result ≡ is_open bytes.now }
{
    bytes.len() > 1 && bytes[0] == OPEN
}

#[tactic(auto, unfolding(crate::specs::Grammar::noted_at))]
fn noted_at(alloc: Global, bytes: &[u8]) -> Result<Noted, RecordErr>
    ensures exact { Gives (λ noted. noted) result (noted_at bytes.now) }
    ensures causes { IfErr result IsOfBytes }
{
    let read = plan_at(alloc, bytes)?;
    let copies = count_copies(read.plan.items.items());
    let units = marks_at(alloc, bytes, read.end, read.units)?;
    let finished = marks_at(alloc, bytes, read.end + read.units, copies)?;
    let last = last_at(bytes, read.end + read.units + copies)?;
    Ok(Noted {
        plan: read.plan,
        units,
        finished,
        last,
    })
}

/// How many of the items are copied.
pub(crate) fn count_copies(items: &[Item]) -> u64
    ensures count { result ≡ length (filter (λ item. is_copy item.act) items.now) }
    ensures bound { result ≤ length items.now }
{
    let mut count = 0;
    for item in items {
        if item.act.is_copy() {
            count += 1;
        }
    }
    count
}

// So many marks from an offset on.
#[tactic(auto, unfolding(crate::specs::Grammar::marks_at))]
fn marks_at(alloc: Global, bytes: &[u8], off: u64, count: u64) -> Result<Marks, RecordErr>
    ensures exact { Gives (λ marks. marks) result (marks_at count off bytes.now) }
    ensures within { IfOk result (λ _. off + count ≤ length bytes.now) }
    ensures causes { IfErr result IsOfBytes }
{
    let field = field_at(bytes, off, count)?;
    Ok(marks_of(alloc, field)?)
}

// Which of these marks stand.
fn marks_of(alloc: Global, bytes: &[u8]) -> Result<Marks, NoMemory>
    ensures { IfOk result (λ marks. marks ≡ map stands_at bytes.now) }
{
    let mut marks = Vec::with_capacity(alloc, bytes.len())?;
    for byte in bytes {
        marks.push(*byte == OPEN)?;
    }
    Ok(Marks::new(marks))
}

// Whether the last gate stands, behind which nothing may come.
#[tactic(auto, unfolding(crate::specs::Grammar::last_at))]
fn last_at(bytes: &[u8], off: u64) -> Result<bool, u64>
    ensures { result ≡ last_at off bytes.now }
{
    let gate = byte_at(bytes, off)?;
    if bytes.len() as u64 == off + 1 {
        Ok(gate == OPEN)
    } else {
        Err(off + 1)
    }
}
