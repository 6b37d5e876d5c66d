//! How a site was told its roots.

ghost use Rattle.std.specs.Prelude.{◌≡◌, IfOk};

use rc_tree::{NoMemory, Scan, Text};
use std::alloc::Global;

/// How a site was told its roots: their two texts, how changes of files are found, and at which moment, in
/// 100-nanosecond units since 1601, the run began.
#[derive(Debug, Drop)]
pub struct Binding {
    pub source: Text,
    pub target: Text,
    pub scan: Scan,
    pub moment: u64,
}

impl Binding {
    /// An equal binding.
    pub fn copy(&self, alloc: Global) -> Result<Binding, NoMemory>
        ensures { IfOk result (λ copy. copy ≡ self.now) }
    {
        Ok(Binding {
            source: self.source.copy(alloc)?,
            target: self.target.copy(alloc)?,
            scan: self.scan,
            moment: self.moment,
        })
    }
}
