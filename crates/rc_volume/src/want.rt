//! What a reader is made for.

ghost use Rattle.std.specs.Prelude.{◌≡◌, IfOk};

use rc_tree::{NoMemory, Path};
use std::alloc::Global;
use std::marker::Model;

/// Ranges of bytes in one file, each an offset and a length. Contracts see them as the list of the pairs.
#[derive(Debug, Drop)]
pub struct Ranges {
    ranges: Vec<(u64, u64)>,
}

impl Model for Ranges {
    ghost use Rattle.std.specs.Prelude.{List, ℕ};

    ghost Value = { List (ℕ × ℕ) };

    ghost view = { λ r. r.ranges.items };
}

impl Ranges {
    /// These ranges.
    pub fn new(ranges: Vec<(u64, u64)>) -> Ranges
        ensures { result ≡ ranges.items }
    {
        Ranges { ranges }
    }

    /// The ranges, in the order in which they were given.
    pub fn ranges(&self) -> &[(u64, u64)]
        ensures { result.now ≡ self.now }
    {
        self.ranges.as_slice()
    }

    /// Equal ranges.
    pub fn copy(&self, alloc: Global) -> Result<Ranges, NoMemory>
        ensures { IfOk result (λ copy. copy ≡ self.now) }
    {
        Ok(Ranges {
            ranges: self.ranges.as_slice().to_vec(alloc)?,
        })
    }
}

/// What of a source file a reader is made for.
#[derive(Debug, Drop)]
pub struct Want {
    pub path: Path,
    pub ranges: Ranges,
}

impl Want {
    /// An equal want.
    pub fn copy(&self, alloc: Global) -> Result<Want, NoMemory>
        ensures { IfOk result (λ copy. copy ≡ self.now) }
    {
        Ok(Want {
            path: self.path.copy(alloc)?,
            ranges: self.ranges.copy(alloc)?,
        })
    }
}
