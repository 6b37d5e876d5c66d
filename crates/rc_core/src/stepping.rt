//! One event after another.

ghost use Rattle.std.specs.Prelude.{◌≡◌, true};
ghost use Rattle.rc_core.specs.Events.{GoesOn, Steps};
ghost use Rattle.rc_core.specs.Sound.{Sound};

use crate::claims::claim;
use crate::fails::fail;
use crate::finishes::finish;
use crate::laws::soundness_is_kept;
use crate::marking::{mark, settle};
use crate::puts::put;
use crate::reruns::rerun;
use crate::stops::stop;
use crate::{CoreErr, Event, State};
use std::alloc::Global;

/// Takes a state on by an event. It is refused exactly where the state does not allow it, and then, and where memory is
/// wanting, the state is as it was.
pub fn step(alloc: Global, state: &mut State, event: &Event) -> Result<(), CoreErr>
    ensures steps { Steps state.old event.now result state.new }
    ensures sound { Sound state.old → Sound state.new }
{
    soundness_is_kept();
    go_on(alloc, state, event)
}

fn go_on(alloc: Global, state: &mut State, event: &Event) -> Result<(), CoreErr>
    ensures { Steps state.old event.now result state.new }
{
    if state.stopped {
        begin_again(state, event)
    } else {
        run_on(alloc, state, event)
    }
}

// A stopped state is run again, and does nothing else.
fn begin_again(state: &mut State, event: &Event) -> Result<(), CoreErr>
    requires { state.old.stopped ≡ true }
    ensures { Steps state.old event.now result state.new }
{
    match event {
        Event::Rerun => {
            rerun(state);
            Ok(())
        }
        _ => Err(CoreErr::NotAllowed {
            event: event.number(),
        }),
    }
}

fn run_on(alloc: Global, state: &mut State, event: &Event) -> Result<(), CoreErr>
    ensures { GoesOn state.old event.now result state.new }
{
    match event {
        Event::Claim { unit } => claim(state, *unit),
        Event::Put {
            unit,
            ticket,
            bytes,
        } => put(alloc, state, *unit, *ticket, bytes.bytes()),
        Event::Settle { unit, ticket } => settle(state, *unit, *ticket),
        Event::Mark {
            unit,
            ticket,
            stood,
        } => mark(state, *unit, *ticket, *stood),
        Event::Finish { item, stood } => finish(alloc, state, *item, *stood),
        Event::Fail {
            what,
            ticket,
            booked,
            left,
        } => fail(alloc, state, *what, *ticket, *booked, left),
        Event::Stop {
            image,
            units,
            finished,
        } => stop(alloc, state, image, units.marks(), finished.marks()),
        Event::Rerun => Err(CoreErr::NotAllowed { event: 8 }),
    }
}
