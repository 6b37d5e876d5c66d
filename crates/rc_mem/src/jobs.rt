//! Job files in memory.

ghost use Rattle.std.specs.Prelude.{◌≡◌, Bool, true, List, ℕ, map, IfOk, IfErr};
ghost use Rattle.std.specs.FinMap.{entries, empty};
ghost use Rattle.rc_tree.specs.Name.{folded};
ghost use Rattle.rc_tree.specs.Path.{name_cmp};
ghost use Rattle.rc_mem.specs.MemJobs.{AreFiled, filed, jobs_held};

use rc_tree::{NoMemory, Text};
use rc_volume::{JobStore, StoreErr};
use std::alloc::Global;
use std::collections::BTreeMap;
use std::collections::btree_map::Values;
use std::marker::Model;

/// A job file: its name as it was first written, and its bytes.
#[derive(Debug, Drop)]
pub struct JobBytes {
    pub name: Text,
    pub bytes: Vec<u8>,
}

/// Job files in memory, by their folded names. Contracts see the map from folded names to bytes.
#[derive(Debug, Drop)]
pub struct MemJobs {
    files: BTreeMap<Text, JobBytes>,
}

impl Model for MemJobs {
    ghost use Rattle.std.specs.Prelude.{List, ℕ};
    ghost use Rattle.std.specs.FinMap.{FinMap, code};
    ghost use Rattle.std.specs.Coded.{coded_list, coded_ℕ};
    ghost use Rattle.rc_tree.specs.Path.{name_cmp};

    ghost Value = { FinMap name_cmp (List ℕ) };

    ghost coded = { code (coded_list coded_ℕ) (coded_list coded_ℕ) };

    ghost use Rattle.rc_mem.specs.MemJobs.{AreFiled, jobs_held};

    ghost view = { λ j. jobs_held j.files };

    ghost invariant = { λ j. AreFiled j.files };
}

impl MemJobs {
    /// No files.
    pub fn new(alloc: Global) -> MemJobs
        ensures { result ≡ empty }
    {
        MemJobs {
            files: BTreeMap::new(alloc),
        }
    }

    /// The files, in rising order of their folded names.
    pub fn files(&self) -> Values<'_, Text, JobBytes>
        ensures { map filed result ≡ entries self.now }
    {
        self.files.values()
    }
}

impl JobStore for MemJobs {
    ghost tells = { true };

    ghost files = { λ j. j };

    ghost faults = { λ _. 0 };

    fn read(&mut self, alloc: Global, name: &Text) -> Result<Option<Vec<u8>>, StoreErr> {
        let key = folded_name(alloc, name)?;
        match self.files.get(&key) {
            Some(job) => Ok(Some(copy_bytes(alloc, job.bytes.as_slice())?)),
            None => Ok(None),
        }
    }

    fn write(&mut self, alloc: Global, name: &Text, bytes: &[u8]) -> Result<(), StoreErr> {
        let key = folded_name(alloc, name)?;
        let bytes = copy_bytes(alloc, bytes)?;
        let name = first_name(alloc, &self.files, &key, name)?;
        match self.files.insert(key, JobBytes { name, bytes }) {
            Ok(_) => Ok(()),
            Err(_) => Err(StoreErr::NoMemory),
        }
    }
}

fn folded_name(alloc: Global, name: &Text) -> Result<Text, StoreErr>
    ensures folded { IfOk result (λ key. key ≡ folded name.now) }
    ensures refused { IfErr result (λ e. e ≡ StoreErr.NoMemory) }
{
    match Text::folded(alloc, name.text()) {
        Ok(key) => Ok(key),
        Err(NoMemory) => Err(StoreErr::NoMemory),
    }
}

fn copy_bytes(alloc: Global, bytes: &[u8]) -> Result<Vec<u8>, StoreErr>
    ensures copied { IfOk result (λ copy. copy.items ≡ bytes.now) }
    ensures refused { IfErr result (λ e. e ≡ StoreErr.NoMemory) }
{
    match bytes.to_vec(alloc) {
        Ok(copy) => Ok(copy),
        Err(_) => Err(StoreErr::NoMemory),
    }
}

// The name under which the file at a key was first written: the one that stands there, or else this one.
fn first_name(
    alloc: Global,
    files: &BTreeMap<Text, JobBytes>,
    key: &Text,
    name: &Text,
) -> Result<Text, StoreErr>
    requires filed { AreFiled files.now }
    requires key { key.now ≡ folded name.now }
    ensures named { IfOk result (λ first. folded first ≡ key.now) }
    ensures refused { IfErr result (λ e. e ≡ StoreErr.NoMemory) }
{
    let first = match files.get(key) {
        Some(job) => job.name.copy(alloc),
        None => name.copy(alloc),
    };
    match first {
        Ok(first) => Ok(first),
        Err(NoMemory) => Err(StoreErr::NoMemory),
    }
}
