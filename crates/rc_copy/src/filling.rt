//! The file that a copy is made on, and its bytes.

ghost use Rattle.std.specs.Prelude.{◌≡◌, ◌+◌, ◌≤◌, ◌<◌, ◌^◌, true, None, OnErr, OnOk, length, min};
ghost use Rattle.std.specs.FinMap.{get};
ghost use Rattle.rc_tree.specs.Path.{key_of};
ghost use Rattle.rc_class.specs.Units.{is_copy};
ghost use Rattle.rc_volume.specs.Frames.{Looks};
ghost use Rattle.rc_volume.specs.Reading.{Opens, part_of};
ghost use Rattle.rc_volume.specs.Site.{HasFile, bytes_in, resized, written_at};
ghost use Rattle.rc_copy.specs.Copying.{copy_cause, with_bytes_of, Begins, ChangesTarget, Fills, HasPlace, OnTarget, ReadsSource};
ghost use Rattle.rc_copy.specs.Reading.{is_read};

use crate::err::{CopyErr, fault};
use rc_class::Item;
use rc_tree::Path;
use rc_volume::{ReadErr, Reader, Side, Site};
use std::alloc::Global;

/// Makes the file where the target lacks it, and answers how many bytes it has.
pub(crate) fn begin<S: Site>(alloc: Global, site: &mut S, path: &Path) -> Result<u64, CopyErr>
    requires below { 0 < length path.now }
    requires place { S.tells ≡ true → HasPlace (S.view site.old).told.target path.now }

    ensures frame { ChangesTarget S.tells (key_of path.now) (copy_cause result)
        (S.view site.old) (S.view site.new) }
    ensures begun { S.tells ≡ true → OnTarget (key_of path.now) (Begins result path.now)
        (S.view site.old) (S.view site.new) }
{
    match site.stat(alloc, Side::Target, path) {
        Ok(Some(entry)) => Ok(entry.size),
        Ok(None) => make(alloc, site, path),
        Err(e) => Err(fault(e, Side::Target)),
    }
}

// Makes a file, which has no bytes.
fn make<S: Site>(alloc: Global, site: &mut S, path: &Path) -> Result<u64, CopyErr>
    requires place { S.tells ≡ true → HasPlace (S.view site.old).told.target path.now }
    requires absent { S.tells ≡ true → get (S.view site.old).told.target (key_of path.now) ≡ None }

    ensures frame { ChangesTarget S.tells (key_of path.now) (copy_cause result)
        (S.view site.old) (S.view site.new) }
    ensures begun { S.tells ≡ true → OnTarget (key_of path.now) (Begins result path.now)
        (S.view site.old) (S.view site.new) }
{
    match site.make_file(alloc, Side::Target, path) {
        Ok(()) => Ok(0),
        Err(e) => Err(fault(e, Side::Target)),
    }
}

/// Gives a file that stands the source's bytes, where copies have them.
pub(crate) fn fill_file<S: Site>(
    alloc: Global,
    site: &mut S,
    reader: &S::Reader,
    with_bytes: bool,
    item: &Item,
    size: u64,
    buf: &mut [u8],
) -> Result<(), CopyErr>
    requires room { 0 < length buf.old }
    requires small { with_bytes ≡ true → item.now.facts.size ≤ 2 ^ 40 }
    requires copy { is_copy item.now.act ≡ true }
    requires opens { is_read with_bytes item.now ≡ true →
        Opens (S.Reader.wants reader.now) (key_of item.now.path) 0 item.now.facts.size }
    requires told { S.tells ≡ true → ReadsSource S.Reader.tells (S.Reader.wants reader.now)
        (S.Reader.bytes reader.now) (S.view site.old) }
    requires source { S.tells ≡ true →
        length (bytes_in (get (S.view site.old).told.source (key_of item.now.path)))
        ≡ item.now.facts.size }
    requires stands { S.tells ≡ true → HasFile (S.view site.old).told.target (key_of item.now.path)
        (λ node. length node.bytes ≡ size) }

    ensures frame { ChangesTarget S.tells (key_of item.now.path) (copy_cause result)
        (S.view site.old) (S.view site.new) }
    ensures filled { S.tells ≡ true → let key = key_of item.now.path in
        let bytes = bytes_in (get (S.view site.old).told.source key) in
        OnTarget key (Fills result (with_bytes_of with_bytes bytes) item.now.facts.size)
        (S.view site.old) (S.view site.new) }
    ensures flagged { OnErr result (with_bytes ≡ true) }
{
    if !with_bytes {
        return Ok(());
    }
    match bring_to_length(alloc, site, &item.path, size, item.facts.size) {
        Ok(()) => copy_bytes(alloc, site, reader, &item.path, item.facts.size, buf),
        Err(e) => Err(e),
    }
}

// Brings a file of so many bytes to another length.
fn bring_to_length<S: Site>(
    alloc: Global,
    site: &mut S,
    path: &Path,
    size: u64,
    len: u64,
) -> Result<(), CopyErr>
    requires small { len ≤ 2 ^ 40 }
    requires stands { S.tells ≡ true → HasFile (S.view site.old).told.target (key_of path.now)
        (λ node. length node.bytes ≡ size) }

    ensures frame { ChangesTarget S.tells (key_of path.now) (copy_cause result)
        (S.view site.old) (S.view site.new) }
    ensures brought { S.tells ≡ true → OnTarget (key_of path.now) (Fills result (resized len) len)
        (S.view site.old) (S.view site.new) }
{
    if size == len {
        return Ok(());
    }
    match site.set_len(alloc, Side::Target, path, len) {
        Ok(()) => Ok(()),
        Err(e) => Err(fault(e, Side::Target)),
    }
}

// Copies the bytes of a file that has its length, piece by piece.
fn copy_bytes<S: Site>(
    alloc: Global,
    site: &mut S,
    reader: &S::Reader,
    path: &Path,
    size: u64,
    buf: &mut [u8],
) -> Result<(), CopyErr>
    requires room { 0 < length buf.old }
    requires opens { 0 < size → Opens (S.Reader.wants reader.now) (key_of path.now) 0 size }
    requires told { S.tells ≡ true → S.Reader.tells ≡ true }
    requires ready { S.tells ≡ true → HasFile (S.view site.old).told.target (key_of path.now)
        (λ node. length node.bytes ≡ size) }

    ensures frame { ChangesTarget S.tells (key_of path.now) (copy_cause result)
        (S.view site.old) (S.view site.new) }
    ensures copied { S.tells ≡ true → let bytes = S.Reader.bytes reader.now (key_of path.now) in
        OnTarget (key_of path.now)
        (Fills result (λ node. record node { bytes = part_of 0 size bytes }) size)
        (S.view site.old) (S.view site.new) }
{
    let mut off = 0;
    while off < size {
        let n = piece_len(size - off, buf.len());
        match copy_piece(alloc, site, reader, path, off, &mut buf[..n]) {
            Ok(()) => off += n as u64,
            Err(e) => return Err(e),
        }
    }
    Ok(())
}

// How many of the bytes that are left come next.
fn piece_len(left: u64, most: usize) -> usize
    ensures { result ≡ min left most }
{
    left.min(most as u64) as usize
}

// Reads one piece and puts it.
fn copy_piece<S: Site>(
    alloc: Global,
    site: &mut S,
    reader: &S::Reader,
    path: &Path,
    off: u64,
    piece: &mut [u8],
) -> Result<(), CopyErr>
    requires some_bytes { 0 < length piece.old }
    requires opens { Opens (S.Reader.wants reader.now) (key_of path.now) off (length piece.old) }
    requires told { S.tells ≡ true → S.Reader.tells ≡ true }
    requires within { S.tells ≡ true → HasFile (S.view site.old).told.target (key_of path.now)
        (λ node. off + length piece.old ≤ length node.bytes) }

    ensures frame { ChangesTarget S.tells (key_of path.now) (copy_cause result)
        (S.view site.old) (S.view site.new) }
    ensures copied { S.tells ≡ true → OnTarget (key_of path.now)
        (Fills result (written_at off (part_of off (length piece.old)
        (S.Reader.bytes reader.now (key_of path.now)))) 0)
        (S.view site.old) (S.view site.new) }
    ensures whole { S.tells ≡ true → OnOk result
        (length (part_of off (length piece.old) (S.Reader.bytes reader.now (key_of path.now)))
        ≡ length piece.old) }
{
    match read_piece(alloc, site, reader, path, off, piece) {
        Ok(()) => put_piece(alloc, site, path, off, piece),
        Err(e) => Err(e),
    }
}

// Reads one piece. A failed read is added to the source's count.
fn read_piece<S: Site>(
    alloc: Global,
    site: &mut S,
    reader: &S::Reader,
    path: &Path,
    off: u64,
    piece: &mut [u8],
) -> Result<(), CopyErr>
    requires { Opens (S.Reader.wants reader.now) (key_of path.now) off (length piece.old) }

    ensures frame { Looks S.tells (copy_cause result) (S.view site.old) (S.view site.new) }
    ensures filled { S.Reader.tells ≡ true → OnOk result
        (piece.new ≡ part_of off (length piece.old) (S.Reader.bytes reader.now (key_of path.now))) }
{
    let mut tally = reader.tally();
    let read = reader.fill(alloc, &mut tally, path, 0, off, piece);
    site.absorb(tally);
    match read {
        Ok(()) => Ok(()),
        Err(ReadErr::Failed) => Err(CopyErr::Failed { side: Side::Source }),
        Err(ReadErr::NoMemory) => Err(CopyErr::NoMemory),
    }
}

// Puts one piece.
fn put_piece<S: Site>(
    alloc: Global,
    site: &mut S,
    path: &Path,
    off: u64,
    piece: &[u8],
) -> Result<(), CopyErr>
    requires some_bytes { 0 < length piece.now }
    requires within { S.tells ≡ true → HasFile (S.view site.old).told.target (key_of path.now)
        (λ node. off + length piece.now ≤ length node.bytes) }

    ensures frame { ChangesTarget S.tells (key_of path.now) (copy_cause result)
        (S.view site.old) (S.view site.new) }
    ensures put { S.tells ≡ true → OnTarget (key_of path.now)
        (Fills result (written_at off piece.now) 0) (S.view site.old) (S.view site.new) }
{
    match site.put(alloc, Side::Target, path, off, piece) {
        Ok(()) => Ok(()),
        Err(e) => Err(fault(e, Side::Target)),
    }
}
