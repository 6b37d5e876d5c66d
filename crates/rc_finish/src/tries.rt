//! Calls of a site that are tried again where they fail.

ghost use Rattle.std.specs.Prelude.{◌≡◌, ◌<◌, true, IfOk, IsSome, length, option_map, OnOk};
ghost use Rattle.rc_tree.specs.Path.{key_of};
ghost use Rattle.rc_tree.specs.Tree.{IsTree};
ghost use Rattle.rc_volume.specs.Faults.{part_for};
ghost use Rattle.rc_volume.specs.Frames.{ChangesAt, Looks, Syncs};
ghost use Rattle.rc_volume.specs.Log.{changed, set_props};
ghost use Rattle.rc_volume.specs.Site.{entry_of, node_at, tree_in, with_props, Becomes};
ghost use Rattle.rc_volume.specs.Waits.{Waits};
ghost use Rattle.rc_finish.specs.Calls.{fault_of, finish_cause, LogsEach, SyncsWhere};
ghost use Rattle.rc_finish.specs.Passes.{Ends};

use crate::FinishErr;
use rc_tree::{Entry, Path, Props};
use rc_volume::{Clock, Side, Site, SiteErr};
use std::alloc::Global;

/// How often a call is tried again where it failed, and how many seconds are waited before that.
#[derive(Clone, Copy, Debug, PartialEq, Eq)]
pub(crate) struct Tries {
    pub(crate) retries: u32,
    pub(crate) wait: u32,
}

/// The entry at a path that is not the root.
pub(crate) fn look<S: Site, C: Clock>(
    alloc: Global,
    site: &mut S,
    side: Side,
    path: &Path,
    tries: Tries,
    clock: &mut C,
) -> Result<Option<Entry>, FinishErr>
    requires { 0 < length path.now }
    ensures frame { Looks S.tells (finish_cause tries.retries result)
        (S.view site.old) (S.view site.new) }
    ensures found { S.tells ≡ true → IfOk result (λ found.
        found ≡ option_map entry_of (node_at (S.view site.old).told side (key_of path.now))) }
    ensures clock { C.tells ≡ true → C.always clock.new ≡ C.always clock.old }
    ensures last { C.last clock.new ≡ C.last clock.old }
    ensures unread { C.reads clock.new ≡ C.reads clock.old }
    ensures waits { Waits tries.wait (finish_cause tries.retries result)
        (S.view site.old).faults (S.view site.new).faults
        (C.paused clock.old) (C.paused clock.new) }
    ensures no_pause { tries.retries ≡ 0 → C.paused clock.new ≡ C.paused clock.old }
{
    for _ in 0..tries.retries {
        match site.stat(alloc, side, path) {
            Ok(found) => return Ok(found),
            Err(SiteErr::NoMemory) => return Err(FinishErr::NoMemory),
            Err(SiteErr::Failed) => clock.pause(tries.wait),
        }
    }
    match site.stat(alloc, side, path) {
        Ok(found) => Ok(found),
        Err(e) => Err(fault(e, side)),
    }
}

/// Makes a side durable, where that is asked for.
pub(crate) fn sync<S: Site, C: Clock>(
    alloc: Global,
    site: &mut S,
    side: Side,
    is_asked: bool,
    tries: Tries,
    clock: &mut C,
) -> Result<(), FinishErr>
    ensures frame { Syncs S.tells (part_for side) (finish_cause tries.retries result)
        (S.view site.old) (S.view site.new) }
    ensures log { S.tells ≡ true → SyncsWhere side is_asked result (tree_in (S.view site.old) side)
        (S.view site.old).log (S.view site.new).log }
    ensures tree { S.tells ≡ true → is_asked ≡ true →
        OnOk result (IsTree (tree_in (S.view site.old) side)) }
    ensures clock { C.tells ≡ true → C.always clock.new ≡ C.always clock.old }
    ensures last { C.last clock.new ≡ C.last clock.old }
    ensures unread { C.reads clock.new ≡ C.reads clock.old }
    ensures waits { Waits tries.wait (finish_cause tries.retries result)
        (S.view site.old).faults (S.view site.new).faults
        (C.paused clock.old) (C.paused clock.new) }
    ensures no_pause { tries.retries ≡ 0 → C.paused clock.new ≡ C.paused clock.old }
{
    if !is_asked {
        return Ok(());
    }
    for _ in 0..tries.retries {
        match site.sync(alloc, side) {
            Ok(()) => return Ok(()),
            Err(SiteErr::NoMemory) => return Err(FinishErr::NoMemory),
            Err(SiteErr::Failed) => clock.pause(tries.wait),
        }
    }
    match site.sync(alloc, side) {
        Ok(()) => Ok(()),
        Err(e) => Err(fault(e, side)),
    }
}

/// Gives an entry of a side these properties.
pub(crate) fn set<S: Site, C: Clock>(
    alloc: Global,
    site: &mut S,
    side: Side,
    path: &Path,
    props: &Props,
    tries: Tries,
    clock: &mut C,
) -> Result<(), FinishErr>
    requires stands { S.tells ≡ true →
        IsSome (node_at (S.view site.old).told side (key_of path.now)) }

    ensures frame { ChangesAt S.tells side (key_of path.now)
        (Ends result (Becomes (with_props props.now))) (finish_cause tries.retries result)
        (S.view site.old) (S.view site.new) }
    ensures calls { S.tells ≡ true →
        LogsEach (changed side (key_of path.now) (set_props props.now))
        (S.view site.old).log (S.view site.new).log }
    ensures clock { C.tells ≡ true → C.always clock.new ≡ C.always clock.old }
    ensures last { C.last clock.new ≡ C.last clock.old }
    ensures unread { C.reads clock.new ≡ C.reads clock.old }
    ensures waits { Waits tries.wait (finish_cause tries.retries result)
        (S.view site.old).faults (S.view site.new).faults
        (C.paused clock.old) (C.paused clock.new) }
    ensures no_pause { tries.retries ≡ 0 → C.paused clock.new ≡ C.paused clock.old }
{
    for _ in 0..tries.retries {
        match site.set_props(alloc, side, path, props) {
            Ok(()) => return Ok(()),
            Err(SiteErr::NoMemory) => return Err(FinishErr::NoMemory),
            Err(SiteErr::Failed) => clock.pause(tries.wait),
        }
    }
    match site.set_props(alloc, side, path, props) {
        Ok(()) => Ok(()),
        Err(e) => Err(fault(e, side)),
    }
}

/// The error of a call that failed on a side for the last time.
pub(crate) fn fault(e: SiteErr, side: Side) -> FinishErr
    ensures { result ≡ fault_of e side }
{
    match e {
        SiteErr::Failed => FinishErr::SiteFault { side },
        SiteErr::NoMemory => FinishErr::NoMemory,
    }
}
