//! The calls of a site on its parts, each of which fails where the roots are not bound.

ghost use Rattle.std.specs.Prelude.{◌≡◌, ◌<◌, ◌≤◌, length, vec_len, IfOk, IfSome, IsTrue};
ghost use Rattle.std.specs.Option.{option_copied};
ghost use Rattle.rc_tree.specs.declared.attr.Kind.TheVariants.{Dir};
ghost use Rattle.rc_tree.specs.declared.moment.TheConstants.{GREATEST_MOMENT};
ghost use Rattle.rc_tree.specs.Name.{folded};
ghost use Rattle.rc_volume.specs.Site.{ComesAfter, IsListed};

use crate::HostReader;
use crate::fault::Fault;
use crate::folder::Folder;
use crate::keys::GREATEST_DEPTH;
use crate::record::Record;
use crate::roots::Roots;
use rc_tree::{Entry, Kind, Name, Path, Props, Scan};
use rc_volume::{Side, Want};
use std::alloc::Global;

// Binds the root of a side.
pub(crate) fn bind_root(
    rt: &HostRuntime,
    alloc: Global,
    roots: &Roots,
    side: Side,
    scan: Scan,
    moment: u64,
    folder: &mut Option<Folder>,
) -> Result<(), Fault>
    requires { moment ≤ GREATEST_MOMENT }
{
    *folder = Some(Folder::bind(rt, alloc, roots, side, scan, moment)?);
    Ok(())
}

fn bound(folder: &mut Option<Folder>) -> Result<&mut Folder, Fault> {
    match folder {
        Some(folder) => Ok(folder),
        None => Err(Fault::Failed),
    }
}

// The next entry of a directory. One that does not come behind `after`, or lies too deep, is a fault.
pub(crate) fn next_in(
    folder: &mut Option<Folder>,
    alloc: Global,
    dir: &Path,
    after: Option<&Name>,
) -> Result<Option<Entry>, Fault>
    ensures { IfOk result
        (λ found. IfSome found (IsListed (length dir.now) (option_copied after.entry))) }
{
    match bound(folder)?.next(alloc, dir, after)? {
        Some(entry) if is_listed(dir, after, &entry) => Ok(Some(without_size(entry))),
        Some(_) => Err(Fault::Failed),
        None => Ok(None),
    }
}

fn is_listed(dir: &Path, after: Option<&Name>, entry: &Entry) -> bool
    ensures later { IsTrue result → ComesAfter (option_copied after.entry) (folded entry.now.name) }
    ensures depth { IsTrue result → length dir.now < GREATEST_DEPTH }
{
    (dir.names().len() < GREATEST_DEPTH) & is_after(after, &entry.name)
}

fn is_after(after: Option<&Name>, name: &Name) -> bool
    ensures { IsTrue result → ComesAfter (option_copied after.entry) (folded name.now) }
{
    match after {
        Some(last) => last.cmp_folded(name).is_lt(),
        None => true,
    }
}

// The entry, whose size is 0 where it is a directory.
fn without_size(entry: Entry) -> Entry
    ensures name { result.name ≡ entry.name }
    ensures no_size { result.kind ≡ Dir → result.size ≡ 0 }
{
    match entry.kind {
        Kind::File => entry,
        Kind::Dir => Entry { size: 0, ..entry },
    }
}

pub(crate) fn stat_in(
    folder: &mut Option<Folder>,
    alloc: Global,
    path: &Path,
) -> Result<Option<Entry>, Fault>
    ensures { IfOk result (λ found. IfSome found (λ entry. entry.kind ≡ Dir → entry.size ≡ 0)) }
{
    match bound(folder)?.stat(alloc, path)? {
        Some(entry) => Ok(Some(without_size(entry))),
        None => Ok(None),
    }
}

pub(crate) fn make_in(
    folder: &mut Option<Folder>,
    alloc: Global,
    path: &Path,
    kind: Kind,
) -> Result<(), Fault> {
    bound(folder)?.make(alloc, path, kind)
}

pub(crate) fn put_in(
    folder: &mut Option<Folder>,
    alloc: Global,
    path: &Path,
    off: u64,
    bytes: &[u8],
) -> Result<(), Fault> {
    bound(folder)?.put(alloc, path, off, bytes)
}

pub(crate) fn set_len_in(
    folder: &mut Option<Folder>,
    alloc: Global,
    path: &Path,
    len: u64,
) -> Result<(), Fault> {
    bound(folder)?.set_len(alloc, path, len)
}

pub(crate) fn set_props_in(
    folder: &mut Option<Folder>,
    alloc: Global,
    path: &Path,
    props: &Props,
) -> Result<(), Fault> {
    bound(folder)?.set_props(alloc, path, props)
}

pub(crate) fn remove_in(
    folder: &mut Option<Folder>,
    alloc: Global,
    path: &Path,
) -> Result<(), Fault> {
    bound(folder)?.remove(alloc, path)
}

pub(crate) fn sync_in(folder: &mut Option<Folder>, alloc: Global) -> Result<(), Fault> {
    bound(folder)?.sync(alloc)
}

pub(crate) fn reader_in(
    rt: &HostRuntime,
    alloc: Global,
    folder: &mut Option<Folder>,
    wants: &Vec<Want>,
) -> Result<HostReader, Fault>
    ensures { IfOk result (λ reader. reader.wants.value ≡ wants.now) }
{
    HostReader::new(rt, alloc, bound(folder)?, wants)
}

pub(crate) fn record_len(record: &Option<Record>) -> Result<u64, Fault> {
    match record {
        Some(record) => record.len(),
        None => Err(Fault::Failed),
    }
}

pub(crate) fn record_read(
    record: &Option<Record>,
    alloc: Global,
    off: u64,
    len: usize,
) -> Result<Vec<u8>, Fault>
    ensures { IfOk result (λ bytes. vec_len bytes ≡ len) }
{
    match record {
        Some(record) => record.read(alloc, off, len),
        None => Err(Fault::Failed),
    }
}

pub(crate) fn record_write(
    record: &mut Option<Record>,
    alloc: Global,
    off: u64,
    bytes: &[u8],
) -> Result<(), Fault> {
    match record {
        Some(record) => record.write(alloc, off, bytes),
        None => Err(Fault::Failed),
    }
}

pub(crate) fn record_cut(
    record: &mut Option<Record>,
    alloc: Global,
    len: u64,
) -> Result<(), Fault> {
    match record {
        Some(record) => record.cut(alloc, len),
        None => Err(Fault::Failed),
    }
}

pub(crate) fn record_sync(record: &mut Option<Record>) -> Result<(), Fault> {
    match record {
        Some(record) => record.sync(),
        None => Err(Fault::Failed),
    }
}
