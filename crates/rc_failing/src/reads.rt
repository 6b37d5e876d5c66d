//! Which reads of a reader fail.

ghost use Rattle.std.specs.Prelude.{◌≡◌, ◌↔◌, All, IfOk, IsTrue};
ghost use Rattle.rc_tree.specs.Path.{key_of};
ghost use Rattle.rc_failing.specs.Named.{IsReadDue, times_at};

use rc_tree::{Key, NoMemory, Path};
use rc_volume::Want;
use std::alloc::Global;
use std::collections::BTreeMap;

// How many attempts at the reads of a file fail, by its key; or that all reads fail.
#[derive(Debug, Drop)]
pub(crate) struct FailingReads {
    pub(crate) all: bool,
    pub(crate) times: BTreeMap<Key, u32>,
}

impl FailingReads {
    // Whether this attempt at a read fails.
    pub(crate) fn is_due(&self, alloc: Global, path: &Path, attempt: u32) -> Result<bool, NoMemory>
        ensures { IfOk result
            (λ due. IsTrue due ↔ IsReadDue self.now (key_of path.now) attempt) }
    {
        let key = path.key(alloc)?;
        Ok(self.all | (attempt < times_of(&self.times, &key)))
    }
}

// How many attempts at the reads of the file at a key fail.
pub(crate) fn times_of(reads: &BTreeMap<Key, u32>, key: &Key) -> u32
    ensures { result ≡ times_at reads.now key.now }
{
    match reads.get(key) {
        Some(times) => *times,
        None => 0,
    }
}

// The same for the files that are wanted alone, so that a reader costs no more than what it is made for.
pub(crate) fn times_wanted(
    alloc: Global,
    reads: &BTreeMap<Key, u32>,
    wants: &[Want],
) -> Result<BTreeMap<Key, u32>, NoMemory>
    ensures { IfOk result (λ wanted. All (λ want. times_at wanted (key_of want.path)
        ≡ times_at reads.now (key_of want.path)) wants.now) }
{
    let mut wanted = BTreeMap::new(alloc);
    for want in wants {
        let key = want.path.key(alloc)?;
        let times = times_of(reads, &key);
        wanted.insert(key, times)?;
    }
    Ok(wanted)
}
