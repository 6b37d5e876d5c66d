//! A sink of bytes.

ghost use Rattle.std.specs.Prelude.{◌≡◌, ℕ, Bool, true, List, ◌++◌, OnOk, OnErr};
ghost use Rattle.rc_volume.specs.Faults.{RisesIf};
ghost use Rattle.rc_volume.specs.Streams.{AppendsFront, sink_failed};

use std::alloc::Global;
use thiserror::Error;

#[derive(Clone, Copy, Debug, PartialEq, Eq, Error)]
pub enum SinkErr {
    #[error("writing failed")]
    Failed,
    #[error("out of memory")]
    NoMemory,
}

/// Where a report goes.
pub trait Sink {
    /// Whether the sink tells what it received.
    ghost tells: { Bool };

    /// The bytes that it received, in order.
    ghost received: { Self → List ℕ };

    /// How often it failed.
    ghost faults: { Self → ℕ };

    /// Adds the bytes. After an error it received a front of them.
    fn write(&mut self, alloc: Global, bytes: &[u8]) -> Result<(), SinkErr>
        ensures written { tells ≡ true → OnOk result
            (received self.new ≡ received self.old ++ bytes.now) }
        ensures front { tells ≡ true → OnErr result
            (AppendsFront (received self.old) bytes.now (received self.new)) }
        ensures cause { RisesIf (sink_failed result) (faults self.old) (faults self.new) };
}
