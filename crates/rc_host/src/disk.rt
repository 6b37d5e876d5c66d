//! Calls of the host's file system. A place is the host's text of a path. A link that is its last name is not followed but at
//! a root.

use crate::fault::{Fault, half_done};
use crate::keys::place_above;
use rc_tree::Kind;
use sha2::{Digest, Sha256};
use std::alloc::Global;
use std::fs::{self, File, Metadata, OpenOptions};
use std::io::{self, ErrorKind, Read};
use std::os::unix::fs::{FileExt, MetadataExt};

// What tells a file or a directory from every other one of the host.
#[derive(Clone, Copy, Debug, PartialEq, Eq)]
pub(crate) struct Id {
    device: u64,
    number: u64,
}

// What stands at a place.
#[derive(Clone, Copy, Debug)]
pub(crate) struct Standing {
    pub(crate) kind: Kind,
    // In bytes; 0 at a directory.
    pub(crate) size: u64,
    pub(crate) id: Id,
}

// How many bytes of a file are read at once for its digest.
const PIECE: usize = 65536;

// What stands at a place; none where nothing does. What is neither a file nor a directory, as a link or a pipe, is a
// fault.
pub(crate) fn look(rt: &HostRuntime, place: &str) -> Result<Option<Standing>, Fault> {
    standing_or_none(fs::symlink_metadata(rt, place))
}

// The same of a root, which may be a link to a directory.
pub(crate) fn look_at_root(rt: &HostRuntime, root: &str) -> Result<Option<Standing>, Fault> {
    standing_or_none(fs::metadata(rt, root))
}

// The same of a root or, where nothing stands there, of the nearest folder above it that is there, in which it would be made.
pub(crate) fn look_at_root_or_above(
    rt: &HostRuntime,
    root: &str,
) -> Result<Option<Standing>, Fault> {
    let mut place = root;
    for _ in 0..root.len() {
        if let Some(found) = look_at_root(rt, place)? {
            return Ok(Some(found));
        }
        place = place_above(place);
    }
    look_at_root(rt, place)
}

fn standing_or_none(found: io::Result<Metadata>) -> Result<Option<Standing>, Fault> {
    match found {
        Ok(metadata) => Ok(Some(standing_in(&metadata)?)),
        Err(error) if is_missing(&error) => Ok(None),
        Err(error) => Err(Fault::from(error)),
    }
}

fn is_missing(error: &io::Error) -> bool {
    match error.kind() {
        ErrorKind::NotFound | ErrorKind::NotADirectory => true,
        _ => false,
    }
}

pub(crate) fn standing_in(metadata: &Metadata) -> Result<Standing, Fault> {
    let id = Id {
        device: metadata.dev(),
        number: metadata.ino(),
    };
    if metadata.is_dir() {
        Ok(Standing {
            kind: Kind::Dir,
            size: 0,
            id,
        })
    } else if metadata.is_file() {
        Ok(Standing {
            kind: Kind::File,
            size: metadata.len(),
            id,
        })
    } else {
        Err(Fault::Failed)
    }
}

// Makes a file or a directory where nothing stands.
pub(crate) fn make(rt: &HostRuntime, place: &str, kind: Kind) -> Result<(), Fault> {
    match kind {
        Kind::Dir => fs::create_dir(rt, place)?,
        Kind::File => {
            let _ = File::create_new(rt, place)?;
        }
    }
    Ok(())
}

pub(crate) fn remove(rt: &HostRuntime, place: &str, kind: Kind) -> Result<(), Fault> {
    match kind {
        Kind::Dir => fs::remove_dir(rt, place)?,
        Kind::File => fs::remove_file(rt, place)?,
    }
    Ok(())
}

// A file that is there, open for reading. Where a pipe stands, opening it could wait for ever.
fn open_to_read(rt: &HostRuntime, place: &str) -> Result<File, Fault> {
    match look(rt, place)? {
        Some(
            Standing {
                kind: Kind::File,
                ..
            },
        ) => Ok(File::open(rt, place)?),
        _ => Err(Fault::Failed),
    }
}

fn open_to_write(rt: &HostRuntime, place: &str) -> Result<File, Fault> {
    match look(rt, place)? {
        Some(
            Standing {
                kind: Kind::File,
                ..
            },
        ) => Ok(OpenOptions::new().write(true).open(rt, place)?),
        _ => Err(Fault::Failed),
    }
}

// Writes all of the bytes at an offset of a file.
pub(crate) fn write_at(rt: &HostRuntime, place: &str, off: u64, bytes: &[u8]) -> Result<(), Fault> {
    half_done(open_to_write(rt, place)?.write_all_at(bytes, off))
}

// Fills all of `buf` from an offset of a file.
pub(crate) fn read_at(
    rt: &HostRuntime,
    place: &str,
    off: u64,
    buf: &mut [u8],
) -> Result<(), Fault> {
    open_to_read(rt, place)?.read_exact_at(buf, off)?;
    Ok(())
}

// Brings a file to a length. Bytes that come are 0.
pub(crate) fn set_len(rt: &HostRuntime, place: &str, len: u64) -> Result<(), Fault> {
    half_done(open_to_write(rt, place)?.set_len(len))
}

pub(crate) fn sync_file(rt: &HostRuntime, place: &str) -> Result<(), Fault> {
    open_to_write(rt, place)?.sync_all()?;
    Ok(())
}

// Makes durable which entries a directory has.
pub(crate) fn sync_folder(rt: &HostRuntime, place: &str) -> Result<(), Fault> {
    File::open(rt, place)?.sync_all()?;
    Ok(())
}

// All bytes of a file.
pub(crate) fn read_all(rt: &HostRuntime, alloc: Global, place: &str) -> Result<Vec<u8>, Fault> {
    let mut file = open_to_read(rt, place)?;
    let mut bytes = Vec::new(alloc);
    file.read_to_end(&mut bytes)?;
    Ok(bytes)
}

// The SHA-256 of a file's bytes.
pub(crate) fn digest(rt: &HostRuntime, alloc: Global, place: &str) -> Result<[u8; 32], Fault> {
    let mut file = open_to_read(rt, place)?;
    let mut piece = make_piece(alloc)?;
    let mut hasher = Sha256::new();
    for _ in 0..u64::MAX {
        let count = file.read(&mut piece)?;
        if count == 0 {
            return Ok(hasher.finalize());
        }
        hasher.update(&piece[..count]);
    }
    Err(Fault::Failed)
}

fn make_piece(alloc: Global) -> Result<Vec<u8>, Fault> {
    Ok(vec![in alloc; 0; PIECE]?)
}
