//! What may happen to a state, and why a step is refused.

ghost use Rattle.std.specs.Prelude.{◌≡◌};
ghost use Rattle.rc_core.specs.Events.{number_of};

use crate::{Bytes, Node, Nodes};
use rc_class::Marks;
use thiserror::Error;

/// What an attempt was made at: a unit by its number, or the finish of a file by its item's place in the plan.
#[derive(Clone, Copy, Debug, PartialEq, Eq)]
pub enum What {
    Unit(u32),
    Finish(u32),
}

/// What happens to a state. Units are named by their numbers from 0, items by their places in the plan from 0.
#[derive(Debug, Drop)]
pub enum Event {
    /// The least free unit is taken, under the next ticket.
    Claim {
        unit: u32,
    },
    /// Without bytes the unit's file is brought to its length, and else these are its next bytes.
    Put {
        unit: u32,
        ticket: u64,
        bytes: Bytes,
    },
    /// All bytes of the unit are put, and the target is durable.
    Settle {
        unit: u32,
        ticket: u64,
    },
    /// The unit's mark was written. It may have failed to stand.
    Mark {
        unit: u32,
        ticket: u64,
        stood: bool,
    },
    /// The open file of an item is as it is to be, and the target is durable. Its mark was written, and may have failed to
    /// stand.
    Finish {
        item: u32,
        stood: bool,
    },
    /// An attempt ended before its time, and this is left of the file. Where it is booked it counts.
    Fail {
        what: What,
        ticket: u64,
        booked: bool,
        left: Option<Node>,
    },
    /// The run was stopped. This was left of the target, and these marks of the units and of the files.
    Stop {
        image: Nodes,
        units: Marks,
        finished: Marks,
    },
    /// What was stopped is run again.
    Rerun,
}

impl Event {
    /// Its number, from 1.
    pub fn number(&self) -> u8
        ensures { result ≡ number_of self.now }
    {
        match self {
            Event::Claim { .. } => 1,
            Event::Put { .. } => 2,
            Event::Settle { .. } => 3,
            Event::Mark { .. } => 4,
            Event::Finish { .. } => 5,
            Event::Fail { .. } => 6,
            Event::Stop { .. } => 7,
            Event::Rerun => 8,
        }
    }
}

/// Why there is no next state.
#[derive(Clone, Copy, Debug, PartialEq, Eq, Error)]
pub enum CoreErr {
    /// The state does not allow the event with this number.
    #[error("event {event} is not allowed")]
    NotAllowed { event: u8 },
    #[error("out of memory")]
    NoMemory,
}
