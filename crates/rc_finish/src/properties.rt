//! What was made or stays gets the properties that its item gives it.

ghost use Rattle.std.specs.Prelude.{◌≡◌, ◌<◌, ◌∷◌, [], true, length, IfOk, OnErr, OnOk};
ghost use Rattle.rc_tree.specs.Path.{key_of};
ghost use Rattle.rc_class.specs.Items.{are_rising};
ghost use Rattle.rc_volume.specs.declared.site.Side.TheVariants.{Target};
ghost use Rattle.rc_volume.specs.Frames.{ChangesAt, ChangesSide};
ghost use Rattle.rc_volume.specs.Site.{node_at, Becomes};
ghost use Rattle.rc_volume.specs.Waits.{Waits};
ghost use Rattle.rc_finish.specs.Calls.{finish_cause, Gives, LogsCalls, LogsGiven, LogsPass};
ghost use Rattle.rc_finish.specs.Passes.{given, gives_props, has_any, props_given, with_given, AreBelowRoot, Ends, HasPassed, IsNow, IsPassing};

use crate::FinishErr;
use crate::tries::{Tries, look, set, sync};
use rc_class::{Act, Item, Plan, Rules, directory_props, fixed_props, fresh_props};
use rc_tree::{Kind, Moment, NoMemory, Path, Props};
use rc_volume::{Clock, Side, Site};
use std::alloc::Global;

/// Gives the directories that were made or are touched, and the files whose properties are mended, what the items give
/// them, each before the directory in which it stands, and makes the target durable where there are any. Where a side
/// has nothing at a key any more, all stays there.
///
/// A call that fails is tried again so often, with so many seconds between.
pub fn props_pass<S: Site, C: Clock>(
    alloc: Global,
    site: &mut S,
    plan: &Plan,
    rules: Rules,
    retries: u32,
    wait: u32,
    clock: &mut C,
) -> Result<(), FinishErr>
    requires rising { are_rising plan.now.items ≡ true }
    requires below { AreBelowRoot plan.now.items }

    ensures frame { ChangesSide S.tells Target (finish_cause retries result)
        (S.view site.old) (S.view site.new) }
    ensures given { S.tells ≡ true → OnOk result (HasPassed (given rules plan.now.moment)
        plan.now.items (S.view site.old).told (S.view site.new).told.target) }
    ensures between { S.tells ≡ true → IsPassing (given rules plan.now.moment)
        plan.now.items (S.view site.old).told (S.view site.new).told.target }
    ensures durable { S.tells ≡ true → OnOk result (LogsPass (has_any gives_props plan.now.items)
        (Gives (given rules plan.now.moment) (S.view site.old).told) plan.now.items
        (S.view site.new).told.target (S.view site.old).log (S.view site.new).log) }
    ensures calls { S.tells ≡ true → OnErr result (LogsCalls
        (Gives (given rules plan.now.moment) (S.view site.old).told) plan.now.items
        (S.view site.old).log (S.view site.new).log) }
    ensures clock { C.tells ≡ true → C.always clock.new ≡ C.always clock.old }
    ensures last { C.last clock.new ≡ C.last clock.old }
    ensures unread { C.reads clock.new ≡ C.reads clock.old }
    ensures waits { Waits wait (finish_cause retries result)
        (S.view site.old).faults (S.view site.new).faults
        (C.paused clock.old) (C.paused clock.new) }
    ensures no_pause { retries ≡ 0 → C.paused clock.new ≡ C.paused clock.old }
{
    let giving = Giving {
        rules,
        moment: plan.moment,
        tries: Tries { retries, wait },
    };
    let items = plan.items.items();
    match give_each(alloc, site, items, &giving, clock) {
        Ok(()) => sync(
            alloc,
            site,
            Side::Target,
            items.iter().any(|item| gives(item.act)),
            giving.tries,
            clock,
        ),
        Err(e) => Err(e),
    }
}

// What all items of the pass have in common.
#[derive(Debug, Drop)]
struct Giving {
    rules: Rules,
    moment: Moment,
    tries: Tries,
}

fn gives(act: Act) -> bool
    ensures { result ≡ gives_props act }
{
    matches!(act, Act::Make | Act::Touch | Act::Fix)
}

// The last item comes first.
fn give_each<S: Site, C: Clock>(
    alloc: Global,
    site: &mut S,
    items: &[Item],
    giving: &Giving,
    clock: &mut C,
) -> Result<(), FinishErr>
    requires rising { are_rising items.now ≡ true }
    requires below { AreBelowRoot items.now }

    ensures frame { ChangesSide S.tells Target (finish_cause giving.now.tries.retries result)
        (S.view site.old) (S.view site.new) }
    ensures given { S.tells ≡ true → OnOk result
        (HasPassed (given giving.now.rules giving.now.moment) items.now
        (S.view site.old).told (S.view site.new).told.target) }
    ensures between { S.tells ≡ true →
        IsPassing (given giving.now.rules giving.now.moment) items.now
        (S.view site.old).told (S.view site.new).told.target }
    ensures calls { S.tells ≡ true → LogsCalls
        (Gives (given giving.now.rules giving.now.moment) (S.view site.old).told) items.now
        (S.view site.old).log (S.view site.new).log }
    ensures clock { C.tells ≡ true → C.always clock.new ≡ C.always clock.old }
    ensures last { C.last clock.new ≡ C.last clock.old }
    ensures unread { C.reads clock.new ≡ C.reads clock.old }
    ensures waits { Waits giving.now.tries.wait (finish_cause giving.now.tries.retries result)
        (S.view site.old).faults (S.view site.new).faults
        (C.paused clock.old) (C.paused clock.new) }
    ensures no_pause { giving.now.tries.retries ≡ 0 → C.paused clock.new ≡ C.paused clock.old }
{
    let mut left = items.len();
    while left > 0 {
        left -= 1;
        match give_item(alloc, site, &items[left], giving, clock) {
            Ok(()) => {}
            Err(e) => return Err(e),
        }
    }
    Ok(())
}

// Gives what stands at the key of an item what it gives.
fn give_item<S: Site, C: Clock>(
    alloc: Global,
    site: &mut S,
    item: &Item,
    giving: &Giving,
    clock: &mut C,
) -> Result<(), FinishErr>
    requires below { 0 < length item.now.path }

    ensures frame { ChangesAt S.tells Target (key_of item.now.path)
        (Ends result (IsNow (given giving.now.rules giving.now.moment item.now
        (node_at (S.view site.old).told Side.Source (key_of item.now.path)))))
        (finish_cause giving.now.tries.retries result) (S.view site.old) (S.view site.new) }
    ensures calls { S.tells ≡ true → LogsCalls
        (Gives (given giving.now.rules giving.now.moment) (S.view site.old).told) (item.now ∷ [])
        (S.view site.old).log (S.view site.new).log }
    ensures clock { C.tells ≡ true → C.always clock.new ≡ C.always clock.old }
    ensures last { C.last clock.new ≡ C.last clock.old }
    ensures unread { C.reads clock.new ≡ C.reads clock.old }
    ensures waits { Waits giving.now.tries.wait (finish_cause giving.now.tries.retries result)
        (S.view site.old).faults (S.view site.new).faults
        (C.paused clock.old) (C.paused clock.new) }
    ensures no_pause { giving.now.tries.retries ≡ 0 → C.paused clock.new ≡ C.paused clock.old }
{
    if !gives(item.act) {
        return Ok(());
    }
    match look(alloc, site, Side::Source, &item.path, giving.tries, clock) {
        Ok(Some(from)) => give_from(alloc, site, item, giving, &from.props, clock),
        Ok(None) => Ok(()),
        Err(e) => Err(e),
    }
}

// The same where the source's entry has these properties.
fn give_from<S: Site, C: Clock>(
    alloc: Global,
    site: &mut S,
    item: &Item,
    giving: &Giving,
    from: &Props,
    clock: &mut C,
) -> Result<(), FinishErr>
    requires below { 0 < length item.now.path }
    requires own { gives_props item.now.act ≡ true }

    ensures frame { ChangesAt S.tells Target (key_of item.now.path)
        (Ends result (Becomes
        (with_given giving.now.rules giving.now.moment item.now.act from.now)))
        (finish_cause giving.now.tries.retries result) (S.view site.old) (S.view site.new) }
    ensures calls { S.tells ≡ true → LogsGiven giving.now.rules giving.now.moment item.now from.now
        (node_at (S.view site.old).told Target (key_of item.now.path))
        (S.view site.old).log (S.view site.new).log }
    ensures clock { C.tells ≡ true → C.always clock.new ≡ C.always clock.old }
    ensures last { C.last clock.new ≡ C.last clock.old }
    ensures unread { C.reads clock.new ≡ C.reads clock.old }
    ensures waits { Waits giving.now.tries.wait (finish_cause giving.now.tries.retries result)
        (S.view site.old).faults (S.view site.new).faults
        (C.paused clock.old) (C.paused clock.new) }
    ensures no_pause { giving.now.tries.retries ≡ 0 → C.paused clock.new ≡ C.paused clock.old }
{
    match look(alloc, site, Side::Target, &item.path, giving.tries, clock) {
        Ok(Some(old)) => match props_given(alloc, giving, item.act, from, &old.props) {
            Ok(props) => set(
                alloc,
                site,
                Side::Target,
                &item.path,
                &props,
                giving.tries,
                clock,
            ),
            Err(_) => Err(FinishErr::NoMemory),
        },
        Ok(None) => Ok(()),
        Err(e) => Err(e),
    }
}

// The properties that an act gives to an entry with others.
fn props_given(
    alloc: Global,
    giving: &Giving,
    act: Act,
    from: &Props,
    old: &Props,
) -> Result<Props, NoMemory>
    ensures { IfOk result (λ props.
        props ≡ props_given giving.now.rules giving.now.moment act from.now old.now) }
{
    match act {
        Act::Make => {
            let fresh = fresh_props(alloc, Kind::Dir, giving.moment);
            directory_props(alloc, giving.rules, from, &fresh)
        }
        Act::Touch => directory_props(alloc, giving.rules, from, old),
        Act::Fix => fixed_props(alloc, giving.rules, from, old),
        _ => old.copy(alloc),
    }
}
