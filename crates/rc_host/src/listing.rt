//! Listing a directory of the host.

use crate::disk::{Standing, digest, standing_in};
use crate::fault::Fault;
use crate::keys::{folded, place_in};
use crate::own::Marks;
use rc_tree::{Kind, Name, Scan};
use std::alloc::Global;
use std::collections::BTreeMap;
use std::fs::{DirEntry, read_dir};
use std::io::ErrorKind;

// An entry as the host shows it.
#[derive(Debug, Drop)]
pub(crate) struct Found {
    pub(crate) name: Name,
    pub(crate) kind: Kind,
    // In bytes; 0 at a directory.
    pub(crate) size: u64,
    // The SHA-256 of a file's bytes, where it was asked for.
    pub(crate) digest: Option<[u8; 32]>,
}

// The entries of a directory, by their folded names; the directory is read once. A name that no entry may have, two names
// of one folded form, and what is neither file nor directory are faults.
pub(crate) fn list(
    rt: &HostRuntime,
    alloc: Global,
    place: &str,
    marks: &Marks,
    scan: Scan,
) -> Result<BTreeMap<String, Found>, Fault> {
    let mut entries = BTreeMap::new(alloc);
    for entry in read_dir(rt, place)? {
        let entry = entry?;
        if let Some(found) = found_in(rt, alloc, place, &entry, marks, scan)? {
            add(alloc, &mut entries, found)?;
        }
    }
    Ok(entries)
}

fn add(alloc: Global, entries: &mut BTreeMap<String, Found>, found: Found) -> Result<(), Fault> {
    let key = folded(alloc, &found.name)?;
    match entries.insert(key, found)? {
        Some(_) => Err(Fault::Failed),
        None => Ok(()),
    }
}

// An entry of the directory at a place; none where it is a file beside a root, or went away meanwhile. The other root is a
// fault: a tree that holds the other one can't be mirrored.
fn found_in(
    rt: &HostRuntime,
    alloc: Global,
    place: &str,
    entry: &DirEntry,
    marks: &Marks,
    scan: Scan,
) -> Result<Option<Found>, Fault> {
    let Some(there) = standing_of(entry)? else {
        return Ok(None);
    };
    if marks.hidden.contains(&there.id) {
        return Ok(None);
    }
    if marks.other_root == Some(there.id) {
        return Err(Fault::Failed);
    }
    let name = Name::read(alloc, entry.file_name())?;
    let place = place_in(alloc, place, name.text())?;
    Ok(Some(Found {
        name,
        kind: there.kind,
        size: there.size,
        digest: digest_of(rt, alloc, place.as_str(), there.kind, scan)?,
    }))
}

// The digest of what stands at a place, where the scan asks for it.
pub(crate) fn digest_of(
    rt: &HostRuntime,
    alloc: Global,
    place: &str,
    kind: Kind,
    scan: Scan,
) -> Result<Option<[u8; 32]>, Fault> {
    match (kind, scan) {
        (Kind::File, Scan::Digest) => Ok(Some(digest(rt, alloc, place)?)),
        _ => Ok(None),
    }
}

fn standing_of(entry: &DirEntry) -> Result<Option<Standing>, Fault> {
    match entry.metadata() {
        Ok(metadata) => Ok(Some(standing_in(&metadata)?)),
        Err(error) if error.kind() == ErrorKind::NotFound => Ok(None),
        Err(error) => Err(Fault::from(error)),
    }
}
