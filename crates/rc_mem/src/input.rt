//! An input in memory.

ghost use Rattle.std.specs.Prelude.{◌≡◌, Bool, true, List, ℕ};

use rc_volume::{Input, InputErr};
use std::alloc::Global;
use std::marker::Model;

/// An input of given bytes. Contracts see it as the list of those that are left.
#[derive(Debug, Drop)]
pub struct MemInput {
    bytes: Vec<u8>,
    taken: usize,
}

impl Model for MemInput {
    ghost use Rattle.std.specs.Prelude.{◌≤◌, List, ℕ, drop, vec_len};

    ghost Value = { List ℕ };

    ghost view = { λ i. drop i.taken i.bytes.items };

    ghost invariant = { λ i. i.taken ≤ vec_len i.bytes };
}

impl MemInput {
    /// An input of these bytes.
    pub fn new(bytes: Vec<u8>) -> MemInput
        ensures { result ≡ bytes.items }
    {
        MemInput { bytes, taken: 0 }
    }
}

impl Input for MemInput {
    ghost tells = { true };

    ghost rest = { λ i. i };

    ghost faults = { λ _. 0 };

    fn read(&mut self, _alloc: Global, buf: &mut [u8]) -> Result<usize, InputErr> {
        let rest = &self.bytes[self.taken..];
        let count = buf.len().min(rest.len());
        buf[..count].copy_from_slice(&rest[..count]);
        self.taken += count;
        Ok(count)
    }
}
