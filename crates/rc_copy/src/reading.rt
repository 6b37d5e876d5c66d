//! The reader of the files that are copied.

ghost use Rattle.std.specs.Prelude.{◌≡◌, true, All, IfErr, IfOk};
ghost use Rattle.rc_volume.specs.Frames.{MakesReader, opened_by};
ghost use Rattle.rc_volume.specs.Site.{IsWithin, ReadsFrom};
ghost use Rattle.rc_copy.specs.Copying.{copy_cause};
ghost use Rattle.rc_copy.specs.Reading.{is_read, whole_file, whole_files};

use crate::err::{CopyErr, fault};
use rc_class::Item;
use rc_volume::{Ranges, Side, Site, Want};
use std::alloc::Global;

/// A reader of what is read for the items.
pub(crate) fn open<S: Site>(
    alloc: Global,
    site: &mut S,
    with_bytes: bool,
    items: &[Item],
) -> Result<S::Reader, CopyErr>
    requires within { S.tells ≡ true →
        All (IsWithin (S.view site.old).told.source) (whole_files with_bytes items.now) }

    ensures frame { MakesReader S.tells
        (opened_by result (whole_files with_bytes items.now) (S.view site.old).opened)
        (copy_cause result) (S.view site.old) (S.view site.new) }
    ensures wants { IfOk result
        (λ reader. S.Reader.wants reader ≡ whole_files with_bytes items.now) }
    ensures bytes { S.tells ≡ true → IfOk result (λ reader. (S.Reader.tells ≡ true)
        × ReadsFrom (S.view site.old).told.source (S.Reader.wants reader) (S.Reader.bytes reader)) }
{
    let wants = wants_for(alloc, with_bytes, items)?;
    match site.reader(alloc, wants) {
        Ok(reader) => Ok(reader),
        Err(e) => Err(fault(e, Side::Source)),
    }
}

// What is read for the items.
fn wants_for(alloc: Global, with_bytes: bool, items: &[Item]) -> Result<Vec<Want>, CopyErr>
    ensures wants { IfOk result (λ wants. wants.items ≡ whole_files with_bytes items.now) }
    ensures memory { IfErr result (λ e. e ≡ CopyErr.NoMemory) }
{
    let mut wants = Vec::new(alloc);
    for item in items {
        if is_read(with_bytes, item) {
            let want = want_for(alloc, item)?;
            if wants.push(want).is_err() {
                return Err(CopyErr::NoMemory);
            }
        }
    }
    Ok(wants)
}

// Whether bytes are read for an item.
fn is_read(with_bytes: bool, item: &Item) -> bool
    ensures { result ≡ is_read with_bytes item.now }
{
    with_bytes && item.act.is_copy() && item.facts.size > 0
}

// All bytes of a file.
fn want_for(alloc: Global, item: &Item) -> Result<Want, CopyErr>
    ensures want { IfOk result (λ want. want ≡ whole_file item.now) }
    ensures memory { IfErr result (λ e. e ≡ CopyErr.NoMemory) }
{
    let mut ranges = Vec::new(alloc);
    if ranges.push((0, item.facts.size)).is_err() {
        return Err(CopyErr::NoMemory);
    }
    match item.path.copy(alloc) {
        Ok(path) => Ok(Want {
            path,
            ranges: Ranges::new(ranges),
        }),
        Err(_) => Err(CopyErr::NoMemory),
    }
}
