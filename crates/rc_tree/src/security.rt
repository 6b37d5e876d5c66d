//! A security string.

ghost use Rattle.std.specs.Prelude.{◌≡◌, ◌≤◌, [], length, vec_len, IfOk};

use crate::NoMemory;
use std::alloc::Global;
use std::marker::Model;

/// How many bytes one security string has at most.
pub const GREATEST_SECURITY: usize = 65535;

/// One of an entry's security strings (access list, owner or auditing): at most 65535 bytes, whose meaning stays
/// closed. Contracts see it as the list of its bytes.
#[derive(Debug, Drop)]
pub struct Security {
    bytes: Vec<u8>,
}

impl Model for Security {
    ghost use Rattle.std.specs.Prelude.{◌≤◌, List, ℕ, vec_len};

    ghost Value = { List ℕ };

    ghost view = { λ s. s.bytes.items };

    ghost invariant = { λ s. vec_len s.bytes ≤ 65535 };
}

impl Security {
    /// The string of no bytes.
    pub fn empty(alloc: Global) -> Security
        ensures { result ≡ [] }
    {
        Security {
            bytes: Vec::new(alloc),
        }
    }

    /// The string of these bytes.
    pub fn new(bytes: Vec<u8>) -> Security
        requires { vec_len bytes ≤ GREATEST_SECURITY }
        ensures { result ≡ bytes.items }
    {
        Security { bytes }
    }

    /// Its bytes.
    pub fn bytes(&self) -> &[u8]
        ensures same { result.now ≡ self.now }
        ensures bound { length result.now ≤ GREATEST_SECURITY }
    {
        self.bytes.as_slice()
    }

    /// Its bytes, without taking memory.
    pub fn into_bytes(self) -> Vec<u8>
        ensures { result.items ≡ self }
    {
        let Security { bytes } = self;
        bytes
    }

    /// An equal string.
    pub fn copy(&self, alloc: Global) -> Result<Security, NoMemory>
        ensures { IfOk result (λ copy. copy ≡ self.now) }
    {
        Ok(Security {
            bytes: self.bytes.as_slice().to_vec(alloc)?,
        })
    }
}
