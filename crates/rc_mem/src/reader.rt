//! The reader of a tree in memory.

ghost use Rattle.std.specs.Prelude.{◌≡◌, ℕ, ◌+◌, ◌≤◌, Bool, true, List, length, All, IfOk, IsSome, OnOk, option_map};
ghost use Rattle.std.specs.BTreeMap.{Updates};
ghost use Rattle.std.specs.FinMap.{get};
ghost use Rattle.rc_tree.specs.Path.{key_of, key_cmp};
ghost use Rattle.rc_volume.specs.Site.{IsWithin, ReadsFrom};
ghost use Rattle.rc_volume.specs.Reading.{Opens, part_of};
ghost use Rattle.rc_mem.specs.Reading.{Shares, shared_at};

use crate::{SharedBytes, Tree};
use rc_tree::{Key, NoMemory, Path};
use rc_volume::{ReadErr, Reader, Want};
use std::alloc::Global;
use std::collections::BTreeMap;

/// What a user of a [`MemReader`] has in the place of a count of failed reads: no read of it fails.
#[derive(Debug, Drop)]
pub struct MemTally;

/// A reader of files of a tree, as they stood when it was made. It shares their bytes.
#[derive(Debug, Drop)]
pub struct MemReader {
    files: BTreeMap<Key, SharedBytes>,
    wants: Vec<Want>,
    ghost within: { (key : List (List ℕ)) (off len : ℕ) → Opens wants.items key off len
        → off + len ≤ length (shared_at files key) },
}

impl MemReader {
    /// A reader of the wants, which lie within files of the tree.
    pub(crate) fn new(alloc: Global, tree: &Tree, wants: Vec<Want>) -> Result<MemReader, NoMemory>
        requires { All (IsWithin tree.now) wants.items }
        ensures wants { IfOk result (λ reader. reader.wants.items ≡ wants.items) }
        ensures bytes { IfOk result
            (λ reader. ReadsFrom tree.now wants.items (shared_at reader.files)) }
    {
        Ok(MemReader {
            files: shared_files(alloc, tree, wants.as_slice())?,
            wants,
        })
    }
}

impl Reader for MemReader {
    type Tally = MemTally;

    ghost tells = { true };

    ghost wants = { λ r. r.wants.items };

    ghost bytes = { λ r. shared_at r.files };

    ghost count = { λ _. 0 };

    fn tally(&self) -> MemTally {
        MemTally
    }

    fn fill(
        &self,
        alloc: Global,
        _tally: &mut MemTally,
        path: &Path,
        _attempt: u32,
        off: u64,
        buf: &mut [u8],
    ) -> Result<(), ReadErr> {
        let Ok(key) = path.key(alloc) else {
            return Err(ReadErr::NoMemory);
        };
        copy_part(bytes_of(&self.files, &key), off as usize, buf);
        Ok(())
    }
}

// The bytes of the files that are wanted, under their keys.
fn shared_files(
    alloc: Global,
    tree: &Tree,
    wants: &[Want],
) -> Result<BTreeMap<Key, SharedBytes>, NoMemory>
    requires { All (IsWithin tree.now) wants.now }
    ensures { IfOk result (Shares tree.now wants.now) }
{
    let mut files = BTreeMap::new(alloc);
    for want in wants {
        share_file(alloc, tree, &mut files, &want.path)?;
    }
    Ok(files)
}

// Puts the bytes of a file under its key.
fn share_file(
    alloc: Global,
    tree: &Tree,
    files: &mut BTreeMap<Key, SharedBytes>,
    path: &Path,
) -> Result<(), NoMemory>
    requires { IsSome (get tree.now (key_of path.now)) }
    ensures { OnOk result (Updates key_cmp files.old files.new (key_of path.now)
        (option_map (λ node. node.bytes) (get tree.now (key_of path.now)))) }
{
    let key = path.key(alloc)?;
    let Some(node) = tree.at(&key) else {
        unreachable!()
    };
    files.insert(key, node.bytes.share()?)?;
    Ok(())
}

// The bytes at a key; none where there is no file.
fn bytes_of<'a>(files: &'a BTreeMap<Key, SharedBytes>, key: &Key) -> &'a [u8]
    ensures { result.now ≡ shared_at files.now key.now }
{
    match files.get(key) {
        Some(bytes) => bytes.as_slice(),
        None => &[],
    }
}

// Fills all of `buf` with the bytes from the offset `off` on.
fn copy_part(bytes: &[u8], off: usize, buf: &mut [u8])
    requires { off + length buf.old ≤ length bytes.now }
    ensures { buf.new ≡ part_of off (length buf.old) bytes.now }
{
    buf.copy_from_slice(&bytes[off..off + buf.len()]);
}
