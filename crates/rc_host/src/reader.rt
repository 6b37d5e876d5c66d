//! The reader of files below the source root.

ghost use Rattle.std.specs.Prelude.{◌≡◌, Bool, false, List, ℕ, [], IfOk};

use crate::disk::read_at;
use crate::fault::Fault;
use crate::folder::Folder;
use crate::keys::key_of;
use rc_tree::Path;
use rc_volume::{ReadErr, Reader, Want};
use std::alloc::Global;
use std::collections::BTreeMap;
use std::snapshot::Snapshot;

/// How many reads failed.
#[derive(Debug, Drop)]
pub struct HostTally {
    pub(crate) failures: u64,
}

/// A reader of files of the host. It opens a file at each read of it.
#[derive(Drop)]
pub struct HostReader {
    rt: HostRuntime,
    places: BTreeMap<String, String>,
    wants: Snapshot<Vec<Want>>,
}

impl HostReader {
    // A reader of the wants, which name files below a root.
    pub(crate) fn new(
        rt: &HostRuntime,
        alloc: Global,
        folder: &mut Folder,
        wants: &Vec<Want>,
    ) -> Result<HostReader, Fault>
        ensures { IfOk result (λ reader. reader.wants.value ≡ wants.now) }
    {
        let mut places = BTreeMap::new(alloc);
        for want in wants {
            add_place(alloc, &mut places, folder, &want.path)?;
        }
        Ok(HostReader {
            rt: *rt,
            places,
            wants: Snapshot::of(wants),
        })
    }

    fn read(&self, alloc: Global, path: &Path, off: u64, buf: &mut [u8]) -> Result<(), Fault> {
        let key = key_of(alloc, path.names())?;
        match self.places.get(key.as_str()) {
            Some(place) => read_at(&self.rt, place.as_str(), off, buf),
            None => Err(Fault::Failed),
        }
    }
}

fn add_place(
    alloc: Global,
    places: &mut BTreeMap<String, String>,
    folder: &mut Folder,
    path: &Path,
) -> Result<(), Fault> {
    let place = folder.file_place(alloc, path)?;
    places.insert(key_of(alloc, path.names())?, place)?;
    Ok(())
}

impl Reader for HostReader {
    type Tally = HostTally;

    ghost tells = { false };

    ghost wants = { λ r. r.wants.value.items };

    ghost bytes = { λ _ _. [] };

    ghost count = { λ tally. tally.failures };

    fn tally(&self) -> HostTally {
        HostTally { failures: 0 }
    }

    fn fill(
        &self,
        alloc: Global,
        tally: &mut HostTally,
        path: &Path,
        _attempt: u32,
        off: u64,
        buf: &mut [u8],
    ) -> Result<(), ReadErr> {
        match self.read(alloc, path, off, buf) {
            Ok(()) => Ok(()),
            Err(Fault::Failed) => {
                tally.failures = tally.failures.saturating_add(1);
                Err(ReadErr::Failed)
            }
            Err(Fault::NoMemory) => Err(ReadErr::NoMemory),
        }
    }
}
