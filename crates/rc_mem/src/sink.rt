//! A sink in memory.

ghost use Rattle.std.specs.Prelude.{◌≡◌, Bool, true, List, ℕ, []};

use rc_volume::{Sink, SinkErr};
use std::alloc::Global;
use std::marker::Model;

/// A sink that keeps what it receives. Contracts see it as the list of the bytes.
#[derive(Debug, Drop)]
pub struct MemSink {
    bytes: Vec<u8>,
}

impl Model for MemSink {
    ghost use Rattle.std.specs.Prelude.{List, ℕ};

    ghost Value = { List ℕ };

    ghost view = { λ s. s.bytes.items };
}

impl MemSink {
    /// A sink that has received nothing.
    pub fn new(alloc: Global) -> MemSink
        ensures { result ≡ [] }
    {
        MemSink {
            bytes: Vec::new(alloc),
        }
    }

    /// The bytes that it received.
    pub fn bytes(&self) -> &[u8]
        ensures { result.now ≡ self.now }
    {
        self.bytes.as_slice()
    }
}

impl Sink for MemSink {
    ghost tells = { true };

    ghost received = { λ s. s };

    ghost faults = { λ _. 0 };

    fn write(&mut self, _alloc: Global, bytes: &[u8]) -> Result<(), SinkErr> {
        match self.bytes.extend_from_slice(bytes) {
            Ok(()) => Ok(()),
            Err(_) => Err(SinkErr::NoMemory),
        }
    }
}
