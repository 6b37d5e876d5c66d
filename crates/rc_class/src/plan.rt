//! The plan of a run, and how many units it has.

ghost use Rattle.std.specs.Prelude.{◌≡◌, ◌⊎◌, ◌^◌, ◌≤◌, ◌*◌, true, All, IfOk, length};
ghost use Rattle.rc_class.specs.Units.{is_copy, item_units, range_count, units_of};

use crate::{Item, Items};
use rc_tree::{Moment, NoMemory, Text};
use std::alloc::Global;

/// What a run decided of all keys, and when it began.
#[derive(Debug, Drop)]
pub struct Plan {
    /// The text of the job's deciding settings.
    pub job: Text,
    pub moment: Moment,
    /// How many bytes a unit of a file has at most: 0 where a file is one unit.
    pub stride: u32,
    /// Whether copies have the source's bytes.
    pub with_bytes: bool,
    /// The decided keys, in strictly rising order.
    pub items: Items,
}

impl Plan {
    /// An equal plan.
    pub fn copy(&self, alloc: Global) -> Result<Plan, NoMemory>
        ensures { IfOk result (λ copy. copy ≡ self.now) }
    {
        Ok(Plan {
            job: self.job.copy(alloc)?,
            moment: self.moment,
            stride: self.stride,
            with_bytes: self.with_bytes,
            items: self.items.copy(alloc)?,
        })
    }
}

/// How many units a plan has. A unit is a range of bytes of a copied file: the whole file, or a stride of it.
pub fn unit_count(plan: &Plan) -> u64
    requires stride { (plan.now.stride ≡ 0) ⊎ (1048576 ≤ plan.now.stride) }
    requires few { length plan.now.items ≤ 2 ^ 32 }
    requires small { plan.now.with_bytes ≡ true →
        All (λ item. is_copy item.act ≡ true → item.facts.size ≤ 2 ^ 40) plan.now.items }
    ensures { result ≡ length (units_of plan.now) }
{
    let mut count = 0;
    for item in plan.items.items() {
        count += item_units(plan.stride, plan.with_bytes, item);
    }
    count
}

// How many units an item has.
fn item_units(stride: u32, with_bytes: bool, item: &Item) -> u64
    requires stride { (stride ≡ 0) ⊎ (1048576 ≤ stride) }
    requires small { with_bytes ≡ true → is_copy item.now.act ≡ true →
        item.now.facts.size ≤ 2 ^ 40 }
    ensures count { result ≡ length (item_units stride with_bytes item.now) }
    ensures bound { result ≤ 2 ^ 20 }
{
    if with_bytes && item.act.is_copy() {
        range_count(stride, item.facts.size)
    } else {
        0
    }
}

fn range_count(stride: u32, size: u64) -> u64
    requires stride { (stride ≡ 0) ⊎ (1048576 ≤ stride) }
    requires small { size ≤ 2 ^ 40 }
    ensures count { result ≡ range_count stride size }
    ensures bound { result ≤ 2 ^ 20 }
{
    if stride == 0 {
        size.min(1)
    } else {
        size.div_ceil(u64::from(stride))
    }
}
