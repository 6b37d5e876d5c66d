//! The directories of a plan are made.

ghost use Rattle.std.specs.Prelude.{◌≡◌, ◌<◌, ◌∷◌, [], true, None, length, OnErr, OnOk};
ghost use Rattle.rc_tree.specs.Path.{key_of, last_name};
ghost use Rattle.rc_class.specs.Items.{are_rising};
ghost use Rattle.rc_volume.specs.declared.site.Side.TheVariants.{Target};
ghost use Rattle.rc_volume.specs.Faults.{side_cause};
ghost use Rattle.rc_volume.specs.Frames.{ChangesAt, ChangesSide};
ghost use Rattle.rc_volume.specs.Log.{changed, make};
ghost use Rattle.rc_volume.specs.Site.{fresh_dir};
ghost use Rattle.rc_volume.specs.Waits.{Waits};
ghost use Rattle.rc_finish.specs.Calls.{finish_cause, LogsCalls, LogsEach, LogsPass, Makes};
ghost use Rattle.rc_finish.specs.Passes.{directory_at, has_any, is_make, made, AreBelowRoot, AreFit, Ends, HasPassed, IsMakable, IsNow, IsPassing};

use crate::FinishErr;
use crate::tries::{Tries, fault, sync};
use rc_class::{Act, Item, Plan};
use rc_tree::Path;
use rc_volume::{Clock, Side, Site, SiteErr};
use std::alloc::Global;

/// Makes the directories of a plan that are to be made, each after the one in which it stands, and makes the target
/// durable where there are any. A directory that stands already stays as it is: an attempt that failed, or an earlier
/// run, may have made it.
///
/// A call that fails is tried again so often, with so many seconds between.
pub fn make_dirs<S: Site, C: Clock>(
    alloc: Global,
    site: &mut S,
    plan: &Plan,
    retries: u32,
    wait: u32,
    clock: &mut C,
) -> Result<(), FinishErr>
    requires rising { are_rising plan.now.items ≡ true }
    requires below { AreBelowRoot plan.now.items }
    requires fit { S.tells ≡ true → AreFit plan.now.items (S.view site.old).told }

    ensures frame { ChangesSide S.tells Target (finish_cause retries result)
        (S.view site.old) (S.view site.new) }
    ensures made { S.tells ≡ true → OnOk result (HasPassed made plan.now.items
        (S.view site.old).told (S.view site.new).told.target) }
    ensures between { S.tells ≡ true → IsPassing made plan.now.items
        (S.view site.old).told (S.view site.new).told.target }
    ensures durable { S.tells ≡ true → OnOk result (LogsPass (has_any is_make plan.now.items)
        Makes plan.now.items (S.view site.new).told.target
        (S.view site.old).log (S.view site.new).log) }
    ensures calls { S.tells ≡ true → OnErr result (LogsCalls Makes plan.now.items
        (S.view site.old).log (S.view site.new).log) }
    ensures clock { C.tells ≡ true → C.always clock.new ≡ C.always clock.old }
    ensures last { C.last clock.new ≡ C.last clock.old }
    ensures unread { C.reads clock.new ≡ C.reads clock.old }
    ensures waits { Waits wait (finish_cause retries result)
        (S.view site.old).faults (S.view site.new).faults
        (C.paused clock.old) (C.paused clock.new) }
    ensures no_pause { retries ≡ 0 → C.paused clock.new ≡ C.paused clock.old }
{
    let tries = Tries { retries, wait };
    let items = plan.items.items();
    match make_each(alloc, site, items, tries, clock) {
        Ok(()) => sync(
            alloc,
            site,
            Side::Target,
            items.iter().any(|item| item.act == Act::Make),
            tries,
            clock,
        ),
        Err(e) => Err(e),
    }
}

fn make_each<S: Site, C: Clock>(
    alloc: Global,
    site: &mut S,
    items: &[Item],
    tries: Tries,
    clock: &mut C,
) -> Result<(), FinishErr>
    requires rising { are_rising items.now ≡ true }
    requires below { AreBelowRoot items.now }
    requires fit { S.tells ≡ true → AreFit items.now (S.view site.old).told }

    ensures frame { ChangesSide S.tells Target (finish_cause tries.retries result)
        (S.view site.old) (S.view site.new) }
    ensures made { S.tells ≡ true → OnOk result (HasPassed made items.now
        (S.view site.old).told (S.view site.new).told.target) }
    ensures between { S.tells ≡ true → IsPassing made items.now
        (S.view site.old).told (S.view site.new).told.target }
    ensures calls { S.tells ≡ true →
        LogsCalls Makes items.now (S.view site.old).log (S.view site.new).log }
    ensures clock { C.tells ≡ true → C.always clock.new ≡ C.always clock.old }
    ensures last { C.last clock.new ≡ C.last clock.old }
    ensures unread { C.reads clock.new ≡ C.reads clock.old }
    ensures waits { Waits tries.wait (finish_cause tries.retries result)
        (S.view site.old).faults (S.view site.new).faults
        (C.paused clock.old) (C.paused clock.new) }
    ensures no_pause { tries.retries ≡ 0 → C.paused clock.new ≡ C.paused clock.old }
{
    for item in items {
        match make_item(alloc, site, item, tries, clock) {
            Ok(()) => {}
            Err(e) => return Err(e),
        }
    }
    Ok(())
}

// Makes the directory of an item that says so.
fn make_item<S: Site, C: Clock>(
    alloc: Global,
    site: &mut S,
    item: &Item,
    tries: Tries,
    clock: &mut C,
) -> Result<(), FinishErr>
    requires below { 0 < length item.now.path }
    requires place { S.tells ≡ true → is_make item.now.act ≡ true →
        IsMakable (S.view site.old).told.target item.now.path }

    ensures frame { ChangesAt S.tells Target (key_of item.now.path)
        (Ends result (IsNow (made item.now None))) (finish_cause tries.retries result)
        (S.view site.old) (S.view site.new) }
    ensures calls { S.tells ≡ true →
        LogsCalls Makes (item.now ∷ []) (S.view site.old).log (S.view site.new).log }
    ensures clock { C.tells ≡ true → C.always clock.new ≡ C.always clock.old }
    ensures last { C.last clock.new ≡ C.last clock.old }
    ensures unread { C.reads clock.new ≡ C.reads clock.old }
    ensures waits { Waits tries.wait (finish_cause tries.retries result)
        (S.view site.old).faults (S.view site.new).faults
        (C.paused clock.old) (C.paused clock.new) }
    ensures no_pause { tries.retries ≡ 0 → C.paused clock.new ≡ C.paused clock.old }
{
    if item.act == Act::Make {
        make(alloc, site, &item.path, tries, clock)
    } else {
        Ok(())
    }
}

// Makes a directory.
fn make<S: Site, C: Clock>(
    alloc: Global,
    site: &mut S,
    path: &Path,
    tries: Tries,
    clock: &mut C,
) -> Result<(), FinishErr>
    requires below { 0 < length path.now }
    requires place { S.tells ≡ true → IsMakable (S.view site.old).told.target path.now }

    ensures frame { ChangesAt S.tells Target (key_of path.now)
        (Ends result (IsNow (directory_at path.now)))
        (finish_cause tries.retries result) (S.view site.old) (S.view site.new) }
    ensures calls { S.tells ≡ true → LogsEach
        (changed Target (key_of path.now) (make (fresh_dir (last_name path.now))))
        (S.view site.old).log (S.view site.new).log }
    ensures clock { C.tells ≡ true → C.always clock.new ≡ C.always clock.old }
    ensures last { C.last clock.new ≡ C.last clock.old }
    ensures unread { C.reads clock.new ≡ C.reads clock.old }
    ensures waits { Waits tries.wait (finish_cause tries.retries result)
        (S.view site.old).faults (S.view site.new).faults
        (C.paused clock.old) (C.paused clock.new) }
    ensures no_pause { tries.retries ≡ 0 → C.paused clock.new ≡ C.paused clock.old }
{
    for _ in 0..tries.retries {
        match attempt(alloc, site, path) {
            Ok(()) => return Ok(()),
            Err(SiteErr::NoMemory) => return Err(FinishErr::NoMemory),
            Err(SiteErr::Failed) => clock.pause(tries.wait),
        }
    }
    match attempt(alloc, site, path) {
        Ok(()) => Ok(()),
        Err(e) => Err(fault(e, Side::Target)),
    }
}

// Makes a directory where nothing stands.
fn attempt<S: Site>(alloc: Global, site: &mut S, path: &Path) -> Result<(), SiteErr>
    requires below { 0 < length path.now }
    requires place { S.tells ≡ true → IsMakable (S.view site.old).told.target path.now }

    ensures frame { ChangesAt S.tells Target (key_of path.now)
        (Ends result (IsNow (directory_at path.now)))
        (side_cause Target result) (S.view site.old) (S.view site.new) }
    ensures calls { S.tells ≡ true → LogsEach
        (changed Target (key_of path.now) (make (fresh_dir (last_name path.now))))
        (S.view site.old).log (S.view site.new).log }
{
    match site.stat(alloc, Side::Target, path) {
        Ok(Some(_)) => Ok(()),
        Ok(None) => site.make_dir(alloc, Side::Target, path),
        Err(e) => Err(e),
    }
}
