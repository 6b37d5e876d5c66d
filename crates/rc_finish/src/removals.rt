//! An entry in which nothing stands is removed.

ghost use Rattle.std.specs.Prelude.{◌≡◌, ◌<◌, true, length};
ghost use Rattle.rc_tree.specs.Path.{key_of};
ghost use Rattle.rc_volume.specs.Faults.{side_cause};
ghost use Rattle.rc_volume.specs.Frames.{ChangesAt};
ghost use Rattle.rc_volume.specs.Log.{changed, remove};
ghost use Rattle.rc_volume.specs.Site.{tree_in, Goes};
ghost use Rattle.rc_volume.specs.Waits.{Waits};
ghost use Rattle.rc_finish.specs.Calls.{finish_cause, LogsEach};
ghost use Rattle.rc_finish.specs.Passes.{Ends, IsBare};

use crate::FinishErr;
use crate::tries::{Tries, fault};
use rc_tree::Path;
use rc_volume::{Clock, Side, Site, SiteErr};
use std::alloc::Global;

/// Removes what stands at a path of a side, where nothing stands in it.
pub(crate) fn remove<S: Site, C: Clock>(
    alloc: Global,
    site: &mut S,
    side: Side,
    path: &Path,
    tries: Tries,
    clock: &mut C,
) -> Result<(), FinishErr>
    requires below { 0 < length path.now }
    requires bare { S.tells ≡ true → IsBare (tree_in (S.view site.old) side) (key_of path.now) }

    ensures frame { ChangesAt S.tells side (key_of path.now) (Ends result Goes)
        (finish_cause tries.retries result) (S.view site.old) (S.view site.new) }
    ensures calls { S.tells ≡ true → LogsEach (changed side (key_of path.now) remove)
        (S.view site.old).log (S.view site.new).log }
    ensures clock { C.tells ≡ true → C.always clock.new ≡ C.always clock.old }
    ensures last { C.last clock.new ≡ C.last clock.old }
    ensures unread { C.reads clock.new ≡ C.reads clock.old }
    ensures waits { Waits tries.wait (finish_cause tries.retries result)
        (S.view site.old).faults (S.view site.new).faults
        (C.paused clock.old) (C.paused clock.new) }
    ensures no_pause { tries.retries ≡ 0 → C.paused clock.new ≡ C.paused clock.old }
{
    for _ in 0..tries.retries {
        match attempt(alloc, site, side, path) {
            Ok(()) => return Ok(()),
            Err(SiteErr::NoMemory) => return Err(FinishErr::NoMemory),
            Err(SiteErr::Failed) => clock.pause(tries.wait),
        }
    }
    match attempt(alloc, site, side, path) {
        Ok(()) => Ok(()),
        Err(e) => Err(fault(e, side)),
    }
}

// Removes an entry where one stands: an attempt that failed, or an earlier run, may have removed it.
fn attempt<S: Site>(alloc: Global, site: &mut S, side: Side, path: &Path) -> Result<(), SiteErr>
    requires below { 0 < length path.now }
    requires bare { S.tells ≡ true → IsBare (tree_in (S.view site.old) side) (key_of path.now) }

    ensures frame { ChangesAt S.tells side (key_of path.now) (Ends result Goes)
        (side_cause side result) (S.view site.old) (S.view site.new) }
    ensures calls { S.tells ≡ true → LogsEach (changed side (key_of path.now) remove)
        (S.view site.old).log (S.view site.new).log }
{
    match site.stat(alloc, side, path) {
        Ok(Some(_)) => site.remove(alloc, side, path),
        Ok(None) => Ok(()),
        Err(e) => Err(e),
    }
}
