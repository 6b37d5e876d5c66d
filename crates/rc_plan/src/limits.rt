//! How much a plan has at most.

ghost use Rattle.std.specs.Prelude.{◌≡◌, ◌⊎◌, None, Some, IfErr, OnOk};
ghost use Rattle.std.specs.List.{count_by};
ghost use Rattle.std.specs.Option.{option_copied};
ghost use Rattle.rc_plan.specs.Limits.{first_too_big, has_source, has_target, is_too_big, limit_of};

use crate::PlanErr;
use rc_class::{Class, Item};
use rc_volume::Side;
use std::alloc::Global;

const GREATEST_COUNT: usize = 500000;

const GREATEST_SIZE: u64 = 1 << 40;

/// Whether items pass no limit. Copies may have bytes, or none.
pub(crate) fn check_limits(alloc: Global, with_bytes: bool, items: &[Item]) -> Result<(), PlanErr>
    ensures within { OnOk result (limit_of with_bytes items.now ≡ None) }
    ensures beyond { IfErr result (λ e.
        (e ≡ PlanErr.NoMemory) ⊎ (limit_of with_bytes items.now ≡ Some e)) }
{
    if count_sources(items) > GREATEST_COUNT {
        return Err(too_many(Side::Source));
    }
    if count_targets(items) > GREATEST_COUNT {
        return Err(too_many(Side::Target));
    }
    if !with_bytes {
        return Ok(());
    }
    match first_too_big(items) {
        Some(item) => match item.path.copy(alloc) {
            Ok(path) => Err(PlanErr::TooBig {
                path,
                size: item.facts.size,
            }),
            Err(_) => Err(PlanErr::NoMemory),
        },
        None => Ok(()),
    }
}

fn too_many(side: Side) -> PlanErr
    ensures { result ≡ PlanErr.TooMany side 500001 }
{
    PlanErr::TooMany {
        side,
        count: 500001,
    }
}

// How many decided entries the source has.
fn count_sources(items: &[Item]) -> usize
    ensures { result ≡ count_by has_source items.now }
{
    let mut count: usize = 0;
    for item in items {
        if item.class != Class::Extra {
            count += 1;
        }
    }
    count
}

// And the target.
fn count_targets(items: &[Item]) -> usize
    ensures { result ≡ count_by has_target items.now }
{
    let mut count: usize = 0;
    for item in items {
        if item.class != Class::Lonely {
            count += 1;
        }
    }
    count
}

// The first file that is copied and too big.
fn first_too_big(items: &[Item]) -> Option<&Item>
    ensures { option_copied result ≡ first_too_big items.now }
{
    for item in items {
        if is_too_big(item) {
            return Some(item);
        }
    }
    None
}

fn is_too_big(item: &Item) -> bool
    ensures { result ≡ is_too_big item.now }
{
    item.act.is_copy() && item.facts.size > GREATEST_SIZE
}
