//! The plan of a record: its head, the job's text, and items with rising keys.

ghost use Rattle.std.specs.Prelude.{◌≡◌, ◌≤◌, ◌+◌, [], ◌∷◌, ◌++◌, ◌<◌, length, IfErr, IfOk};
ghost use Rattle.rc_class.specs.Units.{item_units};
ghost use Rattle.rc_record.specs.Answers.{Gives, IsOfBytes};
ghost use Rattle.rc_record.specs.Grammar.{count_at, is_behind, items_at, next_at, plan_at, unit_marks, units_in};
ghost use Rattle.rc_record.specs.Rooms.{limit_of};

use crate::err::RecordErr;
use crate::fields::{text_at, u32_at};
use crate::head::{Head, head_at};
use crate::item::item_in;
use crate::room::{ITEMS_MAX, Room, UNITS_MAX};
use rc_class::{Item, Items, Plan};
use rc_tree::Text;
use std::alloc::Global;

/// What was read of a plan: it, how many units it has, and the offset behind it.
#[derive(Drop)]
pub(crate) struct ReadPlan {
    pub(crate) plan: Plan,
    pub(crate) units: u64,
    pub(crate) end: u64,
}

/// The plan that a record begins with.
#[tactic(auto, unfolding(crate::specs::Grammar::plan_at))]
pub(crate) fn plan_at(alloc: Global, bytes: &[u8]) -> Result<ReadPlan, RecordErr>
    ensures plan { Gives (λ read. (read.plan, read.end)) result (plan_at bytes.now) }
    ensures units { IfOk result (λ read. read.units ≡ unit_marks read.plan) }
    ensures bound { IfOk result (λ read. read.units ≤ UNITS_MAX) }
    ensures causes { IfErr result IsOfBytes }
{
    let head = head_at(bytes)?;
    let text_len = u64::from(head.text_len);
    let job = text_at(bytes, 22, text_len)?;
    let count = count_at(bytes, 22 + text_len)?;
    let read = items_at(alloc, bytes, head, count, 26 + text_len)?;
    let plan = Plan {
        job: Text::of(alloc, job)?,
        moment: head.moment,
        stride: head.stride,
        with_bytes: head.with_bytes,
        items: Items::new(read.items),
    };
    Ok(ReadPlan {
        plan,
        units: read.units,
        end: read.end,
    })
}

#[tactic(auto, unfolding(crate::specs::Grammar::count_at))]
fn count_at(bytes: &[u8], off: u64) -> Result<u32, u64>
    ensures count { result ≡ count_at off bytes.now }
    ensures within { IfOk result (λ _. off + 4 ≤ length bytes.now) }
    ensures bound { IfOk result (λ count. count ≤ ITEMS_MAX) }
{
    let count = u32_at(bytes, off)?;
    if count <= ITEMS_MAX {
        Ok(count)
    } else {
        Err(off)
    }
}

// Items that were read, how many units they have, and the offset behind them.
#[derive(Drop)]
struct ReadItems {
    items: Vec<Item>,
    units: u64,
    end: u64,
}

// So many items from an offset on.
fn items_at(
    alloc: Global,
    bytes: &[u8],
    head: Head,
    count: u32,
    off: u64,
) -> Result<ReadItems, RecordErr>
    requires whole { head.stride ≡ 0 }
    ensures items { Gives (λ read. (read.items.items, read.end)) result
        (items_at head count [] off bytes.now) }
    ensures units { IfOk result (λ read. read.units ≡ units_in head read.items.items) }
    ensures bound { IfOk result (λ read. read.units ≤ UNITS_MAX) }
    ensures causes { IfErr result IsOfBytes }
{
    let mut items = Vec::new(alloc);
    let mut units = 0;
    let mut end = off;
    for _ in 0..count {
        let room = Room {
            with_bytes: head.with_bytes,
            stride: head.stride,
            units,
        };
        match next_at(alloc, bytes, room, &items, end) {
            Ok((item, behind)) => {
                units += room.taken_by(&item);
                items.push(item)?;
                end = behind;
            }
            Err(e) => return Err(e),
        }
    }
    Ok(ReadItems { items, units, end })
}

// The item at an offset, behind these: its key is above theirs, and it has this room.
#[tactic(auto, unfolding(crate::specs::Grammar::next_at))]
fn next_at(
    alloc: Global,
    bytes: &[u8],
    room: Room,
    before: &[Item],
    off: u64,
) -> Result<(Item, u64), RecordErr>
    requires whole { room.stride ≡ 0 }
    requires bound { room.units ≤ UNITS_MAX }
    ensures item { Gives (λ read. read) result
        (next_at (limit_of room) before.now off bytes.now) }
    ensures fits { IfOk result (λ read. room.units +
        length (item_units room.stride room.with_bytes read.0) ≤ UNITS_MAX) }
    ensures causes { IfErr result IsOfBytes }
{
    match item_in(alloc, bytes, off, room) {
        Ok((item, end)) => {
            if is_behind(before, &item) {
                Ok((item, end))
            } else {
                Err(RecordErr::BadRecord { place: off + 26 })
            }
        }
        Err(e) => Err(e),
    }
}

// Whether the key of an item is above that of the last one before it.
fn is_behind(before: &[Item], item: &Item) -> bool
    ensures { result ≡ is_behind before.now item.now }
{
    match before.last() {
        Some(last) => last.path.cmp(&item.path).is_lt(),
        None => true,
    }
}
