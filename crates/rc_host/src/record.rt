//! The record of a run, in a file beside the target root.

ghost use Rattle.std.specs.Prelude.{◌≡◌, vec_len, IfOk};

use crate::disk::{look, make, read_at, set_len, write_at};
use crate::fault::Fault;
use crate::keys::place_above;
use crate::levels::make_levels;
use crate::roots::beside;
use crate::unsynced::Unsynced;
use rc_tree::Kind;
use std::alloc::Global;

// A record's file. Where there is none, the record has no bytes; it is made at the first write.
#[derive(Drop)]
pub(crate) struct Record {
    rt: HostRuntime,
    place: String,
    unsynced: Unsynced,
}

impl Record {
    // The record of the target root at this place.
    pub(crate) fn new(rt: &HostRuntime, alloc: Global, root: &str) -> Result<Record, Fault> {
        Ok(Record {
            rt: *rt,
            place: beside(alloc, root, ".rcr")?,
            unsynced: Unsynced::new(alloc),
        })
    }

    // The length of the file; none where there is no file.
    fn file_len(&self) -> Result<Option<u64>, Fault> {
        match look(&self.rt, self.place.as_str())? {
            Some(there) if there.kind == Kind::File => Ok(Some(there.size)),
            Some(_) => Err(Fault::Failed),
            None => Ok(None),
        }
    }

    pub(crate) fn len(&self) -> Result<u64, Fault> {
        match self.file_len()? {
            Some(len) => Ok(len),
            None => Ok(0),
        }
    }

    pub(crate) fn read(&self, alloc: Global, off: u64, len: usize) -> Result<Vec<u8>, Fault>
        ensures { IfOk result (λ bytes. vec_len bytes ≡ len) }
    {
        let mut bytes = vec![in alloc; 0; len]?;
        if len > 0 {
            read_at(&self.rt, self.place.as_str(), off, &mut bytes)?;
        }
        Ok(bytes)
    }

    pub(crate) fn write(&mut self, alloc: Global, off: u64, bytes: &[u8]) -> Result<(), Fault> {
        let len = match self.file_len()? {
            Some(len) => len,
            None => {
                self.make_file(alloc)?;
                0
            }
        };
        if off > len {
            return Err(Fault::Failed);
        }
        self.unsynced.note_file(alloc, self.place.as_str())?;
        write_at(&self.rt, self.place.as_str(), off, bytes)
    }

    fn make_file(&mut self, alloc: Global) -> Result<(), Fault> {
        let above = place_above(self.place.as_str());
        make_levels(&self.rt, alloc, &mut self.unsynced, above)?;
        self.unsynced.note_folder(alloc, above)?;
        make(&self.rt, self.place.as_str(), Kind::File)
    }

    pub(crate) fn cut(&mut self, alloc: Global, len: u64) -> Result<(), Fault> {
        match self.file_len()? {
            Some(old) if len <= old => {
                self.unsynced.note_file(alloc, self.place.as_str())?;
                set_len(&self.rt, self.place.as_str(), len)
            }
            None if len == 0 => Ok(()),
            _ => Err(Fault::Failed),
        }
    }

    pub(crate) fn sync(&mut self) -> Result<(), Fault> {
        self.unsynced.sync(&self.rt)?;
        self.unsynced.clear();
        Ok(())
    }
}
