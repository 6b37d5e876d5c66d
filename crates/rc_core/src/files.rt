//! What becomes of a file that is copied.

ghost use Rattle.std.specs.Prelude.{◌≡◌, ◌+◌, ◌-◌, ◌<◌, ◌++◌, IfOk, drop, length, option_map, replicate, take};
ghost use Rattle.rc_tree.specs.Path.{last_name};
ghost use Rattle.rc_volume.specs.Site.{fresh_file, resized, written_at};
ghost use Rattle.rc_core.specs.Events.{prepare_file, put_bytes};
ghost use Rattle.rc_core.specs.Rows.{begun, changed_at, Leaves};

use crate::parts::{before, past};
use crate::{Bytes, FileRow, FileRows, Standing};
use rc_tree::{Attr, Kind, Moment, NoMemory, Path, Props, Security, Text};
use std::alloc::Global;

// The file that stands, or one as a site makes it.
pub(crate) fn begun(alloc: Global, row: &FileRow) -> Result<Standing, NoMemory>
    ensures { IfOk result (λ node. node ≡ begun row.now row.now.stands) }
{
    match &row.stands {
        Some(standing) => standing.copy(alloc),
        None => fresh_file(alloc, &row.file.item.path),
    }
}

fn fresh_file(alloc: Global, path: &Path) -> Result<Standing, NoMemory>
    ensures { IfOk result (λ node. node ≡ fresh_file (last_name path.now)) }
{
    let name = last_name(alloc, path)?;
    let props = Props {
        attr: Attr::NONE,
        created: Moment::new(0),
        written: Moment::new(0),
        access: Security::empty(alloc),
        owner: Security::empty(alloc),
        audit: Security::empty(alloc),
    };
    let bytes = Bytes::new(Vec::new(alloc));
    Ok(Standing::new(name, Kind::File, bytes, props))
}

// The last name of a path; no characters for the root.
pub(crate) fn last_name(alloc: Global, path: &Path) -> Result<Text, NoMemory>
    ensures { IfOk result (λ text. text ≡ last_name path.now) }
{
    match path.names().last() {
        Some(name) => Text::of(alloc, name.text()),
        None => Ok(Text::empty(alloc)),
    }
}

// The node cut to a length, or filled up to it with 0.
pub(crate) fn resized(alloc: Global, len: u64, node: &Standing) -> Result<Standing, NoMemory>
    ensures { IfOk result (λ new. new ≡ resized len node.now) }
{
    let mut bytes = node.bytes().to_vec(alloc)?;
    bytes.resize(len as usize, 0)?;
    node.with_bytes(alloc, bytes)
}

// The node with these bytes at an offset.
fn written_at(alloc: Global, off: u64, bytes: &[u8], node: &Standing) -> Result<Standing, NoMemory>
    ensures { IfOk result (λ new. new ≡ written_at off bytes.now node.now) }
{
    let old = node.bytes();
    let mut new = before(old, off).to_vec(alloc)?;
    new.extend_from_slice(bytes)?;
    new.extend_from_slice(past(old, off, bytes.len() as u64))?;
    node.with_bytes(alloc, new)
}

// What stands there after bytes are put at an offset.
fn put_on(
    alloc: Global,
    off: u64,
    bytes: &[u8],
    stands: &Option<Standing>,
) -> Result<Option<Standing>, NoMemory>
    ensures { IfOk result (λ new. new ≡ option_map (written_at off bytes.now) stands.now) }
{
    match stands {
        Some(node) => match written_at(alloc, off, bytes, node) {
            Ok(new) => Ok(Some(new)),
            Err(e) => Err(e),
        },
        None => Ok(None),
    }
}

// The file is brought to its length.
fn prepare_file(alloc: Global, row: &mut FileRow) -> Result<(), NoMemory>
    ensures { Leaves result row.old (prepare_file row.old) row.new }
{
    let begun = begun(alloc, row)?;
    let prepared = resized(alloc, row.file.item.facts.size, &begun)?;
    let mut had = Vec::new(alloc);
    had.push(Some(begun))?;
    row.touch(alloc, had, Vec::new(alloc), Some(prepared))
}

// Bytes are put at an offset.
fn put_bytes(alloc: Global, off: u64, bytes: &[u8], row: &mut FileRow) -> Result<(), NoMemory>
    ensures { Leaves result row.old (put_bytes off bytes.now row.old) row.new }
{
    let now = put_on(alloc, off, bytes, &row.stands)?;
    let mut puts = Vec::new(alloc);
    puts.push((off, bytes.len() as u64))?;
    row.touch(alloc, Vec::new(alloc), puts, now)
}

// The same of the file with a number.
pub(crate) fn prepare_in(alloc: Global, files: &mut FileRows, n: u32) -> Result<(), NoMemory>
    requires { n < length files.old }
    ensures { Leaves result files.old (changed_at n prepare_file files.old) files.new }
{
    prepare_file(alloc, &mut files.rows[n as usize])
}

pub(crate) fn put_in(
    alloc: Global,
    files: &mut FileRows,
    n: u32,
    off: u64,
    bytes: &[u8],
) -> Result<(), NoMemory>
    requires { n < length files.old }
    ensures { Leaves result files.old (changed_at n (put_bytes off bytes.now) files.old) files.new }
{
    put_bytes(alloc, off, bytes, &mut files.rows[n as usize])
}
