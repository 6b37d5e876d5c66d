//! What a listing shows of an entry.

ghost use Rattle.std.specs.Prelude.{◌≡◌, IfOk};

use crate::{Kind, Name, NoMemory, Props};
use std::alloc::Global;

/// What a listing shows of an entry.
#[derive(Debug, Drop)]
pub struct Entry {
    pub name: Name,
    pub kind: Kind,
    /// In bytes. It is 0 at a directory.
    pub size: u64,
    pub props: Props,
}

impl Entry {
    /// An equal entry.
    pub fn copy(&self, alloc: Global) -> Result<Entry, NoMemory>
        ensures { IfOk result (λ copy. copy ≡ self.now) }
    {
        Ok(Entry {
            name: self.name.copy(alloc)?,
            kind: self.kind,
            size: self.size,
            props: self.props.copy(alloc)?,
        })
    }
}

/// How a site that keeps no change times of its own finds out that a file was changed: by its size, or by a digest of
/// its bytes.
#[derive(Clone, Copy, Debug, PartialEq, Eq)]
pub enum Scan {
    Size,
    Digest,
}
