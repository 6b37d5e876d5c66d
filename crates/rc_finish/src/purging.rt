//! What is to be purged is removed from the target.

ghost use Rattle.std.specs.Prelude.{◌≡◌, ◌<◌, ◌∷◌, [], true, None, length, OnErr, OnOk};
ghost use Rattle.rc_tree.specs.Path.{key_of};
ghost use Rattle.rc_class.specs.Items.{are_rising};
ghost use Rattle.rc_volume.specs.declared.site.Side.TheVariants.{Target};
ghost use Rattle.rc_volume.specs.Frames.{ChangesAt, ChangesSide};
ghost use Rattle.rc_volume.specs.Waits.{Waits};
ghost use Rattle.rc_finish.specs.Calls.{finish_cause, LogsCalls, LogsPass, Purges};
ghost use Rattle.rc_finish.specs.Passes.{has_any, is_purge, purged, AreBelowRoot, AreWhole, Ends, HasPassed, IsBare, IsNow, IsPassing, ToPurge};

use crate::FinishErr;
use crate::removals::remove;
use crate::tries::{Tries, sync};
use rc_class::{Act, Item, Plan};
use rc_volume::{Clock, Side, Site};
use std::alloc::Global;

/// Removes from the target what the plan says is to be purged, each directory behind what stands in it, and makes the
/// target durable where there is such an item. What is gone already stays so: an attempt that failed, or an earlier run,
/// may have removed it.
///
/// A call that fails is tried again so often, with so many seconds between.
pub fn purge<S: Site, C: Clock>(
    alloc: Global,
    site: &mut S,
    plan: &Plan,
    retries: u32,
    wait: u32,
    clock: &mut C,
) -> Result<(), FinishErr>
    requires rising { are_rising plan.now.items ≡ true }
    requires below { AreBelowRoot plan.now.items }
    requires whole { S.tells ≡ true →
        AreWhole ToPurge plan.now.items (S.view site.old).told.target }

    ensures frame { ChangesSide S.tells Target (finish_cause retries result)
        (S.view site.old) (S.view site.new) }
    ensures purged { S.tells ≡ true → OnOk result (HasPassed purged plan.now.items
        (S.view site.old).told (S.view site.new).told.target) }
    ensures between { S.tells ≡ true → IsPassing purged plan.now.items
        (S.view site.old).told (S.view site.new).told.target }
    ensures durable { S.tells ≡ true → OnOk result (LogsPass (has_any is_purge plan.now.items)
        Purges plan.now.items (S.view site.new).told.target
        (S.view site.old).log (S.view site.new).log) }
    ensures calls { S.tells ≡ true → OnErr result (LogsCalls Purges plan.now.items
        (S.view site.old).log (S.view site.new).log) }
    ensures clock { C.tells ≡ true → C.always clock.new ≡ C.always clock.old }
    ensures last { C.last clock.new ≡ C.last clock.old }
    ensures unread { C.reads clock.new ≡ C.reads clock.old }
    ensures waits { Waits wait (finish_cause retries result)
        (S.view site.old).faults (S.view site.new).faults
        (C.paused clock.old) (C.paused clock.new) }
    ensures no_pause { retries ≡ 0 → C.paused clock.new ≡ C.paused clock.old }
{
    let tries = Tries { retries, wait };
    let items = plan.items.items();
    match purge_each(alloc, site, items, tries, clock) {
        Ok(()) => sync(
            alloc,
            site,
            Side::Target,
            items.iter().any(|item| item.act == Act::Purge),
            tries,
            clock,
        ),
        Err(e) => Err(e),
    }
}

// The last item comes first.
fn purge_each<S: Site, C: Clock>(
    alloc: Global,
    site: &mut S,
    items: &[Item],
    tries: Tries,
    clock: &mut C,
) -> Result<(), FinishErr>
    requires rising { are_rising items.now ≡ true }
    requires below { AreBelowRoot items.now }
    requires whole { S.tells ≡ true → AreWhole ToPurge items.now (S.view site.old).told.target }

    ensures frame { ChangesSide S.tells Target (finish_cause tries.retries result)
        (S.view site.old) (S.view site.new) }
    ensures purged { S.tells ≡ true → OnOk result (HasPassed purged items.now
        (S.view site.old).told (S.view site.new).told.target) }
    ensures between { S.tells ≡ true → IsPassing purged items.now
        (S.view site.old).told (S.view site.new).told.target }
    ensures calls { S.tells ≡ true →
        LogsCalls Purges items.now (S.view site.old).log (S.view site.new).log }
    ensures clock { C.tells ≡ true → C.always clock.new ≡ C.always clock.old }
    ensures last { C.last clock.new ≡ C.last clock.old }
    ensures unread { C.reads clock.new ≡ C.reads clock.old }
    ensures waits { Waits tries.wait (finish_cause tries.retries result)
        (S.view site.old).faults (S.view site.new).faults
        (C.paused clock.old) (C.paused clock.new) }
    ensures no_pause { tries.retries ≡ 0 → C.paused clock.new ≡ C.paused clock.old }
{
    let mut left = items.len();
    while left > 0 {
        left -= 1;
        match purge_item(alloc, site, &items[left], tries, clock) {
            Ok(()) => {}
            Err(e) => return Err(e),
        }
    }
    Ok(())
}

// Removes what stands at the key of an item that says so.
fn purge_item<S: Site, C: Clock>(
    alloc: Global,
    site: &mut S,
    item: &Item,
    tries: Tries,
    clock: &mut C,
) -> Result<(), FinishErr>
    requires below { 0 < length item.now.path }
    requires bare { S.tells ≡ true → ToPurge item.now →
        IsBare (S.view site.old).told.target (key_of item.now.path) }

    ensures frame { ChangesAt S.tells Target (key_of item.now.path)
        (Ends result (IsNow (purged item.now None))) (finish_cause tries.retries result)
        (S.view site.old) (S.view site.new) }
    ensures calls { S.tells ≡ true →
        LogsCalls Purges (item.now ∷ []) (S.view site.old).log (S.view site.new).log }
    ensures clock { C.tells ≡ true → C.always clock.new ≡ C.always clock.old }
    ensures last { C.last clock.new ≡ C.last clock.old }
    ensures unread { C.reads clock.new ≡ C.reads clock.old }
    ensures waits { Waits tries.wait (finish_cause tries.retries result)
        (S.view site.old).faults (S.view site.new).faults
        (C.paused clock.old) (C.paused clock.new) }
    ensures no_pause { tries.retries ≡ 0 → C.paused clock.new ≡ C.paused clock.old }
{
    if item.act == Act::Purge {
        remove(alloc, site, Side::Target, &item.path, tries, clock)
    } else {
        Ok(())
    }
}
