//! What was written since the last sync.

use crate::disk::{sync_file, sync_folder};
use crate::fault::Fault;
use std::alloc::Global;
use std::collections::BTreeSet;

// The places of the files that were written since the last sync that succeeded, and of the directories in which an entry was
// made or removed.
#[derive(Debug, Drop)]
pub(crate) struct Unsynced {
    files: BTreeSet<String>,
    folders: BTreeSet<String>,
}

impl Unsynced {
    pub(crate) fn new(alloc: Global) -> Unsynced {
        Unsynced {
            files: BTreeSet::new(alloc),
            folders: BTreeSet::new(alloc),
        }
    }

    // Notes a file that is to be written.
    pub(crate) fn note_file(&mut self, alloc: Global, place: &str) -> Result<(), Fault> {
        self.files.insert(String::from_str(alloc, place)?)?;
        Ok(())
    }

    // Notes a directory in which an entry is to be made or removed.
    pub(crate) fn note_folder(&mut self, alloc: Global, place: &str) -> Result<(), Fault> {
        self.folders.insert(String::from_str(alloc, place)?)?;
        Ok(())
    }

    // Forgets what was removed.
    pub(crate) fn forget(&mut self, place: &str) {
        let _ = self.files.remove(place);
        let _ = self.folders.remove(place);
    }

    // Makes what was written durable, the files before the directories. After a fault all of it is noted still.
    pub(crate) fn sync(&mut self, rt: &HostRuntime) -> Result<(), Fault> {
        for file in &self.files {
            sync_file(rt, file.as_str())?;
        }
        for folder in &self.folders {
            sync_folder(rt, folder.as_str())?;
        }
        Ok(())
    }

    // Forgets all, once it is durable.
    pub(crate) fn clear(&mut self) {
        self.files.clear();
        self.folders.clear();
    }
}
