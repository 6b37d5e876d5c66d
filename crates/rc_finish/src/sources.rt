//! What comes behind the copies is done to the source: entries are removed, or lose A.

ghost use Rattle.std.specs.Prelude.{◌≡◌, ◌<◌, ◌∷◌, [], true, None, length, OnErr, OnOk};
ghost use Rattle.rc_tree.specs.Path.{key_of};
ghost use Rattle.rc_class.specs.declared.decision.After.TheVariants.{ClearArchive};
ghost use Rattle.rc_class.specs.Items.{are_rising};
ghost use Rattle.rc_volume.specs.declared.site.Side.TheVariants.{Source};
ghost use Rattle.rc_volume.specs.Frames.{ChangesAt, ChangesSide};
ghost use Rattle.rc_volume.specs.Waits.{Waits};
ghost use Rattle.rc_finish.specs.Calls.{finish_cause, Frees, LogsCallsOn, LogsPassOn};
ghost use Rattle.rc_finish.specs.Passes.{freed, frees_any, is_freed, without_archive, AreBelowRoot, AreWhole, Ends, HasPassedOn, IsBare, IsNow, IsPassingOn, ToRemove};

use crate::FinishErr;
use crate::removals::remove;
use crate::tries::{Tries, look, set, sync};
use rc_class::{After, Item, Plan};
use rc_tree::{Attr, Props};
use rc_volume::{Clock, Side, Site};
use std::alloc::Global;

/// Does to the source what the plan says comes behind the copies, from the last key to the first: an entry is removed,
/// each directory behind what stands in it, or loses A; and makes the source durable where there is such an item. What
/// is gone already stays so: an attempt that failed, or an earlier run, may have removed it.
///
/// It asks nothing of the target: that the copies stand there, and will stand whatever happens, is the caller's to see to.
///
/// A call that fails is tried again so often, with so many seconds between.
pub fn release_sources<S: Site, C: Clock>(
    alloc: Global,
    site: &mut S,
    plan: &Plan,
    retries: u32,
    wait: u32,
    clock: &mut C,
) -> Result<(), FinishErr>
    requires rising { are_rising plan.now.items ≡ true }
    requires below { AreBelowRoot plan.now.items }
    requires whole { S.tells ≡ true →
        AreWhole ToRemove plan.now.items (S.view site.old).told.source }

    ensures frame { ChangesSide S.tells Source (finish_cause retries result)
        (S.view site.old) (S.view site.new) }
    ensures freed { S.tells ≡ true → OnOk result (HasPassedOn Source freed plan.now.items
        (S.view site.old).told (S.view site.new).told.source) }
    ensures between { S.tells ≡ true → IsPassingOn Source freed plan.now.items
        (S.view site.old).told (S.view site.new).told.source }
    ensures durable { S.tells ≡ true → OnOk result (LogsPassOn Source
        (frees_any plan.now.items) (Frees (S.view site.old).told) plan.now.items
        (S.view site.new).told.source (S.view site.old).log (S.view site.new).log) }
    ensures calls { S.tells ≡ true → OnErr result (LogsCallsOn Source
        (Frees (S.view site.old).told) plan.now.items
        (S.view site.old).log (S.view site.new).log) }
    ensures clock { C.tells ≡ true → C.always clock.new ≡ C.always clock.old }
    ensures last { C.last clock.new ≡ C.last clock.old }
    ensures unread { C.reads clock.new ≡ C.reads clock.old }
    ensures waits { Waits wait (finish_cause retries result)
        (S.view site.old).faults (S.view site.new).faults
        (C.paused clock.old) (C.paused clock.new) }
    ensures no_pause { retries ≡ 0 → C.paused clock.new ≡ C.paused clock.old }
{
    let tries = Tries { retries, wait };
    let items = plan.items.items();
    match free_each(alloc, site, items, tries, clock) {
        Ok(()) => sync(
            alloc,
            site,
            Side::Source,
            items.iter().any(|item| is_freed(item.after)),
            tries,
            clock,
        ),
        Err(e) => Err(e),
    }
}

fn is_freed(after: After) -> bool
    ensures { result ≡ is_freed after }
{
    matches!(after, After::RemoveSource | After::ClearArchive)
}

// The last item comes first.
fn free_each<S: Site, C: Clock>(
    alloc: Global,
    site: &mut S,
    items: &[Item],
    tries: Tries,
    clock: &mut C,
) -> Result<(), FinishErr>
    requires rising { are_rising items.now ≡ true }
    requires below { AreBelowRoot items.now }
    requires whole { S.tells ≡ true → AreWhole ToRemove items.now (S.view site.old).told.source }

    ensures frame { ChangesSide S.tells Source (finish_cause tries.retries result)
        (S.view site.old) (S.view site.new) }
    ensures freed { S.tells ≡ true → OnOk result (HasPassedOn Source freed items.now
        (S.view site.old).told (S.view site.new).told.source) }
    ensures between { S.tells ≡ true → IsPassingOn Source freed items.now
        (S.view site.old).told (S.view site.new).told.source }
    ensures calls { S.tells ≡ true → LogsCallsOn Source (Frees (S.view site.old).told) items.now
        (S.view site.old).log (S.view site.new).log }
    ensures clock { C.tells ≡ true → C.always clock.new ≡ C.always clock.old }
    ensures last { C.last clock.new ≡ C.last clock.old }
    ensures unread { C.reads clock.new ≡ C.reads clock.old }
    ensures waits { Waits tries.wait (finish_cause tries.retries result)
        (S.view site.old).faults (S.view site.new).faults
        (C.paused clock.old) (C.paused clock.new) }
    ensures no_pause { tries.retries ≡ 0 → C.paused clock.new ≡ C.paused clock.old }
{
    let mut left = items.len();
    while left > 0 {
        left -= 1;
        match free_item(alloc, site, &items[left], tries, clock) {
            Ok(()) => {}
            Err(e) => return Err(e),
        }
    }
    Ok(())
}

// Does to the source's entry at the key of an item what the item says.
#[tactic(auto, using(crate::proofs::WaitLemmas::waits_not))]
fn free_item<S: Site, C: Clock>(
    alloc: Global,
    site: &mut S,
    item: &Item,
    tries: Tries,
    clock: &mut C,
) -> Result<(), FinishErr>
    requires below { 0 < length item.now.path }
    requires bare { S.tells ≡ true → ToRemove item.now →
        IsBare (S.view site.old).told.source (key_of item.now.path) }

    ensures frame { ChangesAt S.tells Source (key_of item.now.path)
        (Ends result (IsNow (freed item.now None))) (finish_cause tries.retries result)
        (S.view site.old) (S.view site.new) }
    ensures calls { S.tells ≡ true →
        LogsCallsOn Source (Frees (S.view site.old).told) (item.now ∷ [])
        (S.view site.old).log (S.view site.new).log }
    ensures clock { C.tells ≡ true → C.always clock.new ≡ C.always clock.old }
    ensures last { C.last clock.new ≡ C.last clock.old }
    ensures unread { C.reads clock.new ≡ C.reads clock.old }
    ensures waits { Waits tries.wait (finish_cause tries.retries result)
        (S.view site.old).faults (S.view site.new).faults
        (C.paused clock.old) (C.paused clock.new) }
    ensures no_pause { tries.retries ≡ 0 → C.paused clock.new ≡ C.paused clock.old }
{
    match item.after {
        After::Nothing => Ok(()),
        After::RemoveSource => remove(alloc, site, Side::Source, &item.path, tries, clock),
        After::ClearArchive => clear(alloc, site, item, tries, clock),
    }
}

// Takes A from the source's entry, where one stands.
fn clear<S: Site, C: Clock>(
    alloc: Global,
    site: &mut S,
    item: &Item,
    tries: Tries,
    clock: &mut C,
) -> Result<(), FinishErr>
    requires below { 0 < length item.now.path }
    requires own { item.now.after ≡ ClearArchive }

    ensures frame { ChangesAt S.tells Source (key_of item.now.path)
        (Ends result (IsNow (freed item.now None))) (finish_cause tries.retries result)
        (S.view site.old) (S.view site.new) }
    ensures calls { S.tells ≡ true →
        LogsCallsOn Source (Frees (S.view site.old).told) (item.now ∷ [])
        (S.view site.old).log (S.view site.new).log }
    ensures clock { C.tells ≡ true → C.always clock.new ≡ C.always clock.old }
    ensures last { C.last clock.new ≡ C.last clock.old }
    ensures unread { C.reads clock.new ≡ C.reads clock.old }
    ensures waits { Waits tries.wait (finish_cause tries.retries result)
        (S.view site.old).faults (S.view site.new).faults
        (C.paused clock.old) (C.paused clock.new) }
    ensures no_pause { tries.retries ≡ 0 → C.paused clock.new ≡ C.paused clock.old }
{
    match look(alloc, site, Side::Source, &item.path, tries, clock) {
        Ok(Some(old)) => {
            let props = without_archive(old.props);
            set(alloc, site, Side::Source, &item.path, &props, tries, clock)
        }
        Ok(None) => Ok(()),
        Err(e) => Err(e),
    }
}

fn without_archive(props: Props) -> Props
    ensures { result ≡ without_archive props }
{
    let attr = Attr {
        archive: false,
        ..props.attr
    };
    Props { attr, ..props }
}
