//! The bytes of a file, which trees and readers share.

ghost use Rattle.std.specs.Prelude.{◌≡◌, ◌+◌, ◌-◌, ◌≤◌, ◌++◌, length, take, drop, replicate, vec_len, IfOk, OnOk, OnErr};

use rc_tree::NoMemory;
use std::alloc::Global;
use std::marker::Model;
use std::sync::Arc;

/// The bytes of a file. A copy shares them, and who writes gets bytes of its own first. Contracts see the list of them.
#[derive(Debug, Drop)]
pub struct SharedBytes {
    shared: Arc<Vec<u8>>,
}

impl Model for SharedBytes {
    ghost use Rattle.std.specs.Prelude.{List, ℕ};
    ghost use Rattle.std.specs.Arc.{arc_value};

    ghost Value = { List ℕ };

    ghost view = { λ s. (arc_value s.shared).items };
}

impl SharedBytes {
    /// These bytes.
    pub fn new(alloc: Global, bytes: Vec<u8>) -> Result<SharedBytes, NoMemory>
        ensures { IfOk result (λ made. made ≡ bytes.items) }
    {
        Ok(SharedBytes {
            shared: Arc::new(alloc, bytes)?,
        })
    }

    /// The bytes.
    pub fn as_slice(&self) -> &[u8]
        ensures { result.now ≡ self.now }
    {
        self.shared.as_slice()
    }

    /// The same bytes, without copying one.
    pub(crate) fn share(&self) -> Result<SharedBytes, NoMemory>
        ensures { IfOk result (λ copy. copy ≡ self.now) }
    {
        Ok(SharedBytes {
            shared: Arc::try_clone(&self.shared)?,
        })
    }

    /// Writes bytes within them. After an error they are as they were.
    pub(crate) fn put(&mut self, off: usize, bytes: &[u8]) -> Result<(), NoMemory>
        requires { off + length bytes.now ≤ length self.old }
        ensures put { OnOk result (self.new
            ≡ take off self.old ++ bytes.now ++ drop (off + length bytes.now) self.old) }
        ensures err { OnErr result (self.new ≡ self.old) }
    {
        let own = Arc::make_mut(&mut self.shared)?;
        overwrite(own, off, bytes);
        Ok(())
    }

    /// Cuts them to a length, or fills them up with 0. After an error they are as they were.
    pub(crate) fn resize(&mut self, len: usize) -> Result<(), NoMemory>
        ensures resized { OnOk result (self.new
            ≡ take len self.old ++ replicate (len - length self.old) 0) }
        ensures err { OnErr result (self.new ≡ self.old) }
    {
        let own = Arc::make_mut(&mut self.shared)?;
        own.resize(len, 0)?;
        Ok(())
    }
}

fn overwrite(own: &mut Vec<u8>, off: usize, bytes: &[u8])
    requires { off + length bytes.now ≤ vec_len own.old }
    ensures { own.new.items
        ≡ take off own.old.items ++ bytes.now ++ drop (off + length bytes.now) own.old.items }
{
    own[off..off + bytes.len()].copy_from_slice(bytes);
}
