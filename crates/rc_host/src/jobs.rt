//! Job files in a folder of the host.

ghost use Rattle.std.specs.Prelude.{◌≡◌, Bool, false, ℕ, IfOk};
ghost use Rattle.std.specs.FinMap.{empty};
ghost use Rattle.rc_volume.specs.Faults.{RisesIf};
ghost use Rattle.rc_volume.specs.Streams.{store_failed};

use crate::disk::{read_all, remove, sync_file, sync_folder, write_at};
use crate::fault::{Fault, half_done};
use crate::keys::{last_name, place_above, place_in};
use crate::roots::with_slashes;
use rc_tree::{Kind, NoMemory, Text};
use rc_volume::{JobStore, StoreErr};
use std::alloc::Global;
use std::fs::{self, DirEntry, File, read_dir};
use std::io::{self, ErrorKind};

// How many names are tried for a file that is being written.
const UNFINISHED_NAMES: u32 = 64;

/// Job files in a folder of the host, by their names without regard to case. A name may lead to a file in another folder. A
/// file is written under another name first and takes the place of the old one when it is whole and durable.
#[derive(Drop)]
pub struct HostJobs {
    rt: HostRuntime,
    folder: String,
    failures: u64,
}

// The folder in which a name leads, the name there, and the one that the host has for it.
#[derive(Debug, Drop)]
struct JobPlace {
    folder: String,
    name: String,
    found: Option<String>,
}

impl HostJobs {
    /// The job files of a folder.
    pub fn new(rt: &HostRuntime, alloc: Global, folder: &str) -> Result<HostJobs, NoMemory>
        ensures { IfOk result (λ jobs. jobs.failures ≡ 0) }
    {
        Ok(HostJobs {
            rt: *rt,
            folder: String::from_str(alloc, folder)?,
            failures: 0,
        })
    }

    // Hands an answer on, and counts it where it failed.
    fn counted<T: Drop>(&mut self, answer: Result<T, Fault>) -> Result<T, StoreErr>
        ensures cause { RisesIf (store_failed result) self.old.failures self.new.failures }
    {
        match answer {
            Ok(value) => Ok(value),
            Err(Fault::Failed) => {
                self.failures = self.failures.saturating_add(1);
                Err(StoreErr::Failed)
            }
            Err(Fault::NoMemory) => Err(StoreErr::NoMemory),
        }
    }
}

impl JobStore for HostJobs {
    ghost tells = { false };

    ghost files = { λ _. empty };

    ghost faults = { λ jobs. jobs.failures };

    fn read(&mut self, alloc: Global, name: &Text) -> Result<Option<Vec<u8>>, StoreErr> {
        let bytes = read_job(&self.rt, alloc, self.folder.as_str(), name.text());
        self.counted(bytes)
    }

    fn write(&mut self, alloc: Global, name: &Text, bytes: &[u8]) -> Result<(), StoreErr> {
        let written = write_job(&self.rt, alloc, self.folder.as_str(), name.text(), bytes);
        self.counted(written)
    }
}

fn read_job(
    rt: &HostRuntime,
    alloc: Global,
    folder: &str,
    name: &str,
) -> Result<Option<Vec<u8>>, Fault> {
    let JobPlace { folder, found, .. } = find_job(rt, alloc, folder, name)?;
    match found {
        Some(found) => {
            let place = place_in(alloc, folder.as_str(), found.as_str())?;
            Ok(Some(read_all(rt, alloc, place.as_str())?))
        }
        None => Ok(None),
    }
}

fn write_job(
    rt: &HostRuntime,
    alloc: Global,
    folder: &str,
    name: &str,
    bytes: &[u8],
) -> Result<(), Fault> {
    let JobPlace {
        folder,
        name,
        found,
    } = find_job(rt, alloc, folder, name)?;
    let name = match found {
        Some(found) => found,
        None => name,
    };
    let place = place_in(alloc, folder.as_str(), name.as_str())?;
    let unfinished = make_unfinished(rt, alloc, place.as_str())?;
    match write_whole(rt, unfinished.as_str(), place.as_str(), bytes) {
        Ok(()) => half_done(sync_folder(rt, folder.as_str())),
        Err(fault) => {
            let _ = remove(rt, unfinished.as_str(), Kind::File);
            Err(fault)
        }
    }
}

// Makes a file beside a place, of a name that no file has: what was left there is somebody's.
fn make_unfinished(rt: &HostRuntime, alloc: Global, place: &str) -> Result<String, Fault> {
    for number in 1..=UNFINISHED_NAMES {
        let unfinished = format!(in alloc; "{place}.new{number}")?;
        match File::create_new(rt, &unfinished) {
            Ok(_) => return Ok(unfinished),
            Err(error) if error.kind() == ErrorKind::AlreadyExists => (),
            Err(error) => return Err(Fault::from(error)),
        }
    }
    Err(Fault::Failed)
}

// Writes the bytes to an empty file, makes them durable, and gives it its name.
fn write_whole(rt: &HostRuntime, unfinished: &str, place: &str, bytes: &[u8]) -> Result<(), Fault> {
    write_at(rt, unfinished, 0, bytes)?;
    sync_file(rt, unfinished)?;
    fs::rename(rt, unfinished, place)?;
    Ok(())
}

// Where a job file is, or is to be.
fn find_job(rt: &HostRuntime, alloc: Global, folder: &str, name: &str) -> Result<JobPlace, Fault> {
    let place = with_slashes(alloc, name)?;
    let place = if place.starts_with('/') {
        place
    } else {
        place_in(alloc, folder, place.as_str())?
    };
    let name = last_name(place.as_str());
    if name.is_empty() {
        return Err(Fault::Failed);
    }
    let folder = place_above(place.as_str());
    Ok(JobPlace {
        folder: String::from_str(alloc, folder)?,
        name: String::from_str(alloc, name)?,
        found: find_name(rt, alloc, folder, name)?,
    })
}

// The name in a folder with the folded form of this one. Two of them are a fault.
fn find_name(
    rt: &HostRuntime,
    alloc: Global,
    folder: &str,
    name: &str,
) -> Result<Option<String>, Fault> {
    let wanted = Text::of(alloc, name)?;
    let mut found = None;
    for entry in read_dir(rt, folder)? {
        let Some(entry) = readable(entry)? else {
            continue;
        };
        if !is_name(alloc, entry.file_name(), &wanted)? {
            continue;
        }
        if found.is_some() {
            return Err(Fault::Failed);
        }
        found = Some(String::from_str(alloc, entry.file_name())?);
    }
    Ok(found)
}

// An entry of a folder; none where its name is no UTF-8, as no job file's is.
fn readable(entry: io::Result<DirEntry>) -> Result<Option<DirEntry>, Fault> {
    match entry {
        Ok(entry) => Ok(Some(entry)),
        Err(error) if error.kind() == ErrorKind::InvalidFilename => Ok(None),
        Err(error) => Err(Fault::from(error)),
    }
}

fn is_name(alloc: Global, name: &str, wanted: &Text) -> Result<bool, Fault> {
    Ok(Text::of(alloc, name)?.cmp_folded(wanted).is_eq())
}
