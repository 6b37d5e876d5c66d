//! The copies of a plan's files, one after another.

ghost use Rattle.std.specs.Prelude.{◌≡◌, ◌<◌, ◌≤◌, ◌^◌, true, false, IfOk, OnErr, OnOk, length, vec_len};
ghost use Rattle.std.specs.FinMap.{get};
ghost use Rattle.rc_tree.specs.Path.{key_of};
ghost use Rattle.rc_class.specs.Items.{are_rising};
ghost use Rattle.rc_class.specs.Units.{is_copy};
ghost use Rattle.rc_volume.specs.declared.site.Part.{Part};
ghost use Rattle.rc_volume.specs.declared.site.Side.TheVariants.{Target};
ghost use Rattle.rc_volume.specs.Frames.{ChangesSide, Syncs};
ghost use Rattle.rc_volume.specs.Images.{IsOnlyTree};
ghost use Rattle.rc_volume.specs.Reading.{Opens};
ghost use Rattle.rc_finish.specs.Passes.{AreBelowRoot, HasPassed};
ghost use Rattle.rc_copy.specs.Copying.{copied, copies_any, copy_cause, AddsWants, AreBetween, AreCopyable, AreSmallCopies, ChangesTarget, Copies, CopiesFiles, IfCopyable, IsCopyable, IsDurable, OnTarget, ReadsSource, Rests};
ghost use Rattle.rc_copy.specs.Reading.{is_read, wants_of, whole_files};

use crate::err::{CopyErr, fault};
use crate::filling::{begin, fill_file};
use crate::finishing::finish;
use crate::reading::open;
use rc_class::{Item, Rules};
use rc_tree::Moment;
use rc_volume::{Side, Site};
use std::alloc::{AllocError, Global};

// How many bytes are read and put at once at most.
const PIECE: usize = 1048576;

/// What the copies of a run have in common.
#[derive(Debug, Drop)]
pub struct Copying {
    /// What of the properties goes along.
    pub rules: Rules,
    /// Whether the bytes do.
    pub with_bytes: bool,
    /// When the run began: both times of a file that is new, where the source's do not go along.
    pub moment: Moment,
}

/// Copies the files of the items that say so, in their order, and makes the target durable where there are any. All
/// other items are passed over.
pub fn copy_files<S: Site>(
    alloc: Global,
    site: &mut S,
    copying: &Copying,
    items: &[Item],
) -> Result<(), CopyErr>
    requires rising { are_rising items.now ≡ true }
    requires below { AreBelowRoot items.now }
    requires small { copying.now.with_bytes ≡ true → AreSmallCopies items.now }
    requires copyable { S.tells ≡ true → AreCopyable (S.view site.old).told items.now }

    ensures frame { CopiesFiles S.tells (copy_cause result) (S.view site.old) (S.view site.new) }
    ensures copied { S.tells ≡ true → OnOk result (HasPassed (copied copying.now) items.now
        (S.view site.old).told (S.view site.new).told.target) }
    ensures between { S.tells ≡ true →
        AreBetween copying.now items.now (S.view site.old).told (S.view site.new).told.target }
    ensures durable { S.tells ≡ true → OnOk result (IsDurable items.now (S.view site.new)) }
    ensures idle { copies_any items.now ≡ false → S.tells ≡ true →
        Rests (S.view site.old) (S.view site.new) }
    ensures none { copies_any items.now ≡ false → OnErr result ⊥ }
    ensures opened { AddsWants result (wants_of 0 copying.now.with_bytes items.now)
        (S.view site.old).opened (S.view site.new).opened }
{
    if !copies_any(items) {
        return Ok(());
    }
    copy_some(alloc, site, copying, items)
}

// Whether a file is copied.
fn copies_any(items: &[Item]) -> bool
    ensures { result ≡ copies_any items.now }
{
    items.iter().any(|item| item.act.is_copy())
}

// The same where files are read, copied and made durable.
fn copy_some<S: Site>(
    alloc: Global,
    site: &mut S,
    copying: &Copying,
    items: &[Item],
) -> Result<(), CopyErr>
    requires rising { are_rising items.now ≡ true }
    requires below { AreBelowRoot items.now }
    requires small { copying.now.with_bytes ≡ true → AreSmallCopies items.now }
    requires copyable { S.tells ≡ true → AreCopyable (S.view site.old).told items.now }

    ensures frame { CopiesFiles S.tells (copy_cause result) (S.view site.old) (S.view site.new) }
    ensures copied { S.tells ≡ true → OnOk result (HasPassed (copied copying.now) items.now
        (S.view site.old).told (S.view site.new).told.target) }
    ensures between { S.tells ≡ true →
        AreBetween copying.now items.now (S.view site.old).told (S.view site.new).told.target }
    ensures durable { S.tells ≡ true → OnOk result
        (IsOnlyTree Target (S.view site.new).log (S.view site.new).told.target) }
    ensures opened { AddsWants result (wants_of 0 copying.now.with_bytes items.now)
        (S.view site.old).opened (S.view site.new).opened }
{
    let Ok(mut buf) = buffer(alloc) else {
        return Err(CopyErr::NoMemory);
    };
    match open(alloc, site, copying.with_bytes, items) {
        Ok(reader) => copy_durably(alloc, site, &reader, copying, items, &mut buf),
        Err(e) => Err(e),
    }
}

// Room for one piece.
fn buffer(alloc: Global) -> Result<Vec<u8>, AllocError>
    ensures { IfOk result (λ buf. 0 < vec_len buf) }
{
    vec![in alloc; 0; PIECE]
}

// Copies the files through a reader, and makes the target durable.
fn copy_durably<S: Site>(
    alloc: Global,
    site: &mut S,
    reader: &S::Reader,
    copying: &Copying,
    items: &[Item],
    buf: &mut [u8],
) -> Result<(), CopyErr>
    requires room { 0 < length buf.old }
    requires rising { are_rising items.now ≡ true }
    requires below { AreBelowRoot items.now }
    requires small { copying.now.with_bytes ≡ true → AreSmallCopies items.now }
    requires wants { S.Reader.wants reader.now ≡ whole_files copying.now.with_bytes items.now }
    requires told { S.tells ≡ true → ReadsSource S.Reader.tells (S.Reader.wants reader.now)
        (S.Reader.bytes reader.now) (S.view site.old) }
    requires copyable { S.tells ≡ true → AreCopyable (S.view site.old).told items.now }

    ensures frame { ChangesSide S.tells Target (copy_cause result)
        (S.view site.old) (S.view site.new) }
    ensures copied { S.tells ≡ true → OnOk result (HasPassed (copied copying.now) items.now
        (S.view site.old).told (S.view site.new).told.target) }
    ensures between { S.tells ≡ true →
        AreBetween copying.now items.now (S.view site.old).told (S.view site.new).told.target }
    ensures durable { S.tells ≡ true → OnOk result
        (IsOnlyTree Target (S.view site.new).log (S.view site.new).told.target) }
{
    match copy_each(alloc, site, reader, copying, items, buf) {
        Ok(()) => sync(alloc, site),
        Err(e) => Err(e),
    }
}

fn copy_each<S: Site>(
    alloc: Global,
    site: &mut S,
    reader: &S::Reader,
    copying: &Copying,
    items: &[Item],
    buf: &mut [u8],
) -> Result<(), CopyErr>
    requires room { 0 < length buf.old }
    requires rising { are_rising items.now ≡ true }
    requires below { AreBelowRoot items.now }
    requires small { copying.now.with_bytes ≡ true → AreSmallCopies items.now }
    requires wants { S.Reader.wants reader.now ≡ whole_files copying.now.with_bytes items.now }
    requires told { S.tells ≡ true → ReadsSource S.Reader.tells (S.Reader.wants reader.now)
        (S.Reader.bytes reader.now) (S.view site.old) }
    requires copyable { S.tells ≡ true → AreCopyable (S.view site.old).told items.now }

    ensures frame { ChangesSide S.tells Target (copy_cause result)
        (S.view site.old) (S.view site.new) }
    ensures copied { S.tells ≡ true → OnOk result (HasPassed (copied copying.now) items.now
        (S.view site.old).told (S.view site.new).told.target) }
    ensures between { S.tells ≡ true →
        AreBetween copying.now items.now (S.view site.old).told (S.view site.new).told.target }
{
    for item in items {
        match do_item(alloc, site, reader, copying, item, buf) {
            Ok(()) => {}
            Err(e) => return Err(e),
        }
    }
    Ok(())
}

// Copies the file of an item that says so.
fn do_item<S: Site>(
    alloc: Global,
    site: &mut S,
    reader: &S::Reader,
    copying: &Copying,
    item: &Item,
    buf: &mut [u8],
) -> Result<(), CopyErr>
    requires room { 0 < length buf.old }
    requires below { 0 < length item.now.path }
    requires small { copying.now.with_bytes ≡ true → is_copy item.now.act ≡ true →
        item.now.facts.size ≤ 2 ^ 40 }
    requires opens { is_read copying.now.with_bytes item.now ≡ true →
        Opens (S.Reader.wants reader.now) (key_of item.now.path) 0 item.now.facts.size }
    requires told { S.tells ≡ true → ReadsSource S.Reader.tells (S.Reader.wants reader.now)
        (S.Reader.bytes reader.now) (S.view site.old) }
    requires copyable { S.tells ≡ true → IfCopyable (S.view site.old).told item.now }

    ensures frame { ChangesTarget S.tells (key_of item.now.path) (copy_cause result)
        (S.view site.old) (S.view site.new) }
    ensures done { S.tells ≡ true → let key = key_of item.now.path in
        OnTarget key (Copies result copying.now item.now (get (S.view site.old).told.source key))
        (S.view site.old) (S.view site.new) }
{
    if item.act.is_copy() {
        copy_file(alloc, site, reader, copying, item, buf)
    } else {
        Ok(())
    }
}

// Makes the file where the target lacks it, and gives it the source's bytes and its properties.
fn copy_file<S: Site>(
    alloc: Global,
    site: &mut S,
    reader: &S::Reader,
    copying: &Copying,
    item: &Item,
    buf: &mut [u8],
) -> Result<(), CopyErr>
    requires room { 0 < length buf.old }
    requires below { 0 < length item.now.path }
    requires copy { is_copy item.now.act ≡ true }
    requires small { copying.now.with_bytes ≡ true → item.now.facts.size ≤ 2 ^ 40 }
    requires opens { is_read copying.now.with_bytes item.now ≡ true →
        Opens (S.Reader.wants reader.now) (key_of item.now.path) 0 item.now.facts.size }
    requires told { S.tells ≡ true → ReadsSource S.Reader.tells (S.Reader.wants reader.now)
        (S.Reader.bytes reader.now) (S.view site.old) }
    requires copyable { S.tells ≡ true → IsCopyable (S.view site.old).told item.now }

    ensures frame { ChangesTarget S.tells (key_of item.now.path) (copy_cause result)
        (S.view site.old) (S.view site.new) }
    ensures copied { S.tells ≡ true → let key = key_of item.now.path in
        OnTarget key (Copies result copying.now item.now (get (S.view site.old).told.source key))
        (S.view site.old) (S.view site.new) }
{
    let size = match begin(alloc, site, &item.path) {
        Ok(size) => size,
        Err(e) => return Err(e),
    };
    match fill_file(alloc, site, reader, copying.with_bytes, item, size, buf) {
        Ok(()) => finish(alloc, site, copying, item),
        Err(e) => Err(e),
    }
}

// Makes the target durable.
fn sync<S: Site>(alloc: Global, site: &mut S) -> Result<(), CopyErr>
    ensures frame { Syncs S.tells Part.Target (copy_cause result)
        (S.view site.old) (S.view site.new) }
    ensures durable { S.tells ≡ true → OnOk result
        (IsOnlyTree Target (S.view site.new).log (S.view site.new).told.target) }
{
    match site.sync(alloc, Side::Target) {
        Ok(()) => Ok(()),
        Err(e) => Err(fault(e, Side::Target)),
    }
}
