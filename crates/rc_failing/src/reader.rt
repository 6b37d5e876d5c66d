//! A reader in memory of which reads fail.

ghost use Rattle.std.specs.Prelude.{Bool, true};
ghost use Rattle.rc_mem.specs.Reading.{shared_at};

use crate::reads::FailingReads;
use rc_mem::MemReader;
use rc_tree::{NoMemory, Path};
use rc_volume::{ReadErr, Reader};
use std::alloc::Global;

/// How many reads failed.
#[derive(Debug, Drop)]
pub struct Failures {
    pub(crate) count: u64,
}

/// A reader in memory of which reads fail, as its site was told when the reader was made.
#[derive(Debug, Drop)]
pub struct FailingReader {
    pub(crate) behind: MemReader,
    pub(crate) failing: FailingReads,
}

impl Reader for FailingReader {
    type Tally = Failures;

    ghost tells = { true };

    ghost wants = { λ r. r.behind.wants.items };

    ghost bytes = { λ r. shared_at r.behind.files };

    ghost count = { λ tally. tally.count };

    fn tally(&self) -> Failures {
        Failures { count: 0 }
    }

    fn fill(
        &self,
        alloc: Global,
        tally: &mut Failures,
        path: &Path,
        attempt: u32,
        off: u64,
        buf: &mut [u8],
    ) -> Result<(), ReadErr> {
        match self.failing.is_due(alloc, path, attempt) {
            Ok(true) => {
                tally.count = tally.count.saturating_add(1);
                Err(ReadErr::Failed)
            }
            Ok(false) => {
                let mut behind = self.behind.tally();
                self.behind
                    .fill(alloc, &mut behind, path, attempt, off, buf)
            }
            Err(NoMemory) => Err(ReadErr::NoMemory),
        }
    }
}
