//! Where the marks of a plan stand in its record.

ghost use Rattle.std.specs.Prelude.{◌≡◌, ◌+◌, ◌<◌, length};
ghost use Rattle.rc_record.specs.Spelling.{mark_count, plan_bytes, IsAllowed};
ghost use Rattle.rc_record.specs.Writing.{mark_number, HasPlace};

use crate::noted::count_copies;
use crate::spelling::plan_len;
use rc_class::{Plan, unit_count};

/// What is marked.
#[derive(Clone, Copy, Debug, PartialEq, Eq)]
pub enum MarkPlace {
    /// The unit of this number in the plan.
    Unit(u32),
    /// The file that is copied at this place of the plan's items, from 0.
    Finish(u32),
    /// All that the plan asks of the target.
    Last,
}

/// The offset of a mark in the plan's record.
pub(crate) fn mark_off(plan: &Plan, place: MarkPlace) -> u64
    requires allowed { IsAllowed plan.now }
    requires place { HasPlace plan.now place }
    ensures off { result ≡ 1 + length (plan_bytes plan.now) + mark_number plan.now place }
    ensures within { mark_number plan.now place < mark_count plan.now }
{
    1 + plan_len(plan) + mark_number(plan, place)
}

// The number of a mark among all of the plan.
fn mark_number(plan: &Plan, place: MarkPlace) -> u64
    requires allowed { IsAllowed plan.now }
    requires place { HasPlace plan.now place }
    ensures number { result ≡ mark_number plan.now place }
    ensures within { result < mark_count plan.now }
{
    let items = plan.items.items();
    match place {
        MarkPlace::Unit(n) => u64::from(n),
        MarkPlace::Finish(n) => unit_count(plan) + count_copies(&items[..n as usize]),
        MarkPlace::Last => unit_count(plan) + count_copies(items),
    }
}
