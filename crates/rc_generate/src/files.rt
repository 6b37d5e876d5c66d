//! A file of a generated site, on both sides.

ghost use Rattle.std.specs.Prelude.{◌≡◌, ◌+◌, ◌≤◌, ◌<◌, ◌%◌, replicate, option_map, IfOk};
ghost use Rattle.rc_tree.specs.declared.attr.Kind.TheVariants.{File};
ghost use Rattle.rc_tree.specs.Path.{last_name};
ghost use Rattle.rc_volume.specs.declared.site.Side.TheVariants.{Source, Target};
ghost use Rattle.rc_mem.specs.Nodes.{node_of};
ghost use Rattle.rc_generate.specs.Generated.{alike_file, file_name, has, in_source, in_target, pairing_of, plain_props, read_only, size_of, written_at};
ghost use Rattle.rc_generate.specs.Making.{IsFileOf};

use crate::site::MOMENT;
use rc_mem::{SharedBytes, TreeNode};
use rc_tree::{Attr, GREATEST_MOMENT, Kind, Moment, NoMemory, Path, Props, Security};
use std::alloc::Global;

// A second, in units of 100 nanoseconds.
const SECOND: u64 = 10000000;

/// Which sides have a file, and what sets the target's apart from the source's.
#[derive(Clone, Copy, Debug, PartialEq, Eq)]
pub(crate) enum Pairing {
    /// The source alone has it.
    SourceAlone,
    /// The target alone has it.
    TargetAlone,
    /// The target's was written a second before the source's.
    Older,
    /// The target's was written a second after the source's.
    Newer,
    /// The target's has one byte more.
    Longer,
    /// The target's is read-only.
    ReadOnly,
    /// Nothing sets them apart.
    Alike,
}

/// What both sides have of a file.
#[derive(Debug, Drop)]
pub(crate) struct Pair {
    pub source: Option<TreeNode>,
    pub target: Option<TreeNode>,
}

/// What both sides have of file `j` of directory `i`, by its draw. Where the bytes are the same they are shared.
pub(crate) fn make_pair(
    alloc: Global,
    path: Path,
    i: u64,
    j: u64,
    draw: u64,
) -> Result<Pair, NoMemory>
    requires named { last_name path ≡ file_name j }
    ensures source { IfOk result (λ pair. IsFileOf path (has Source i j draw) pair.source) }
    ensures target { IfOk result (λ pair. IsFileOf path (has Target i j draw) pair.target) }
{
    let size = size_of(i, j, draw);
    let byte = (draw % 256) as u8;
    let pairing = pairing_of(draw);
    let file = make_file(alloc, path, size, byte)?;
    let target = target_file(alloc, &file, pairing, size, byte)?;
    Ok(Pair {
        source: source_file(file, pairing),
        target,
    })
}

// What a draw says of the two sides.
fn pairing_of(draw: u64) -> Pairing
    ensures { result ≡ pairing_of draw }
{
    match draw / 1048576 % 8 {
        0 => Pairing::SourceAlone,
        1 => Pairing::TargetAlone,
        2 => Pairing::Older,
        3 => Pairing::Newer,
        4 => Pairing::Longer,
        5 => Pairing::ReadOnly,
        _ => Pairing::Alike,
    }
}

// How many bytes a file has, in the source or alone.
fn size_of(i: u64, j: u64, draw: u64) -> usize
    ensures value { result ≡ size_of i j draw }
    ensures bound { result ≤ 1200000 }
{
    if j == 0 && i < 10 {
        return 1200000;
    }
    (draw / 256 % 4096) as usize
}

// A file of so many equal bytes, with the attribute A.
fn make_file(alloc: Global, path: Path, size: usize, byte: u8) -> Result<TreeNode, NoMemory>
    ensures path { IfOk result (λ node. node.path ≡ path) }
    ensures node { IfOk result (λ node. node_of node ≡ alike_file (last_name path) size byte) }
{
    let attr = Attr {
        archive: true,
        ..Attr::NONE
    };
    Ok(TreeNode {
        path,
        kind: Kind::File,
        bytes: SharedBytes::new(alloc, equal_bytes(alloc, size, byte)?)?,
        props: props_of(alloc, attr),
    })
}

fn equal_bytes(alloc: Global, size: usize, byte: u8) -> Result<Vec<u8>, NoMemory>
    ensures { IfOk result (λ bytes. bytes.items ≡ replicate size byte) }
{
    Ok(vec![in alloc; byte; size]?)
}

/// Properties without security, of an entry that was made and written at the moment of the site.
pub(crate) fn props_of(alloc: Global, attr: Attr) -> Props
    ensures { result ≡ plain_props attr }
{
    Props {
        attr,
        created: Moment::new(MOMENT),
        written: Moment::new(MOMENT),
        access: Security::empty(alloc),
        owner: Security::empty(alloc),
        audit: Security::empty(alloc),
    }
}

// What the source has of a file.
fn source_file(file: TreeNode, pairing: Pairing) -> Option<TreeNode>
    requires file { file.kind ≡ File }
    ensures { IsFileOf file.path (in_source pairing (node_of file)) result }
{
    match pairing {
        Pairing::TargetAlone => None,
        _ => Some(file),
    }
}

// What the target has of a file.
fn target_file(
    alloc: Global,
    file: &TreeNode,
    pairing: Pairing,
    size: usize,
    byte: u8,
) -> Result<Option<TreeNode>, NoMemory>
    requires small { size ≤ 1200000 }
    requires alike { node_of file.now ≡ alike_file (last_name file.now.path) size byte }
    ensures { IfOk result
        (IsFileOf file.now.path (in_target pairing (last_name file.now.path) size byte)) }
{
    match pairing {
        Pairing::SourceAlone => Ok(None),
        Pairing::Older => Ok(Some(written(alloc, file, MOMENT - SECOND)?)),
        Pairing::Newer => Ok(Some(written(alloc, file, MOMENT + SECOND)?)),
        Pairing::Longer => {
            let path = file.path.copy(alloc)?;
            Ok(Some(make_file(alloc, path, size + 1, byte)?))
        }
        Pairing::ReadOnly => Ok(Some(read_only(alloc, file)?)),
        Pairing::TargetAlone | Pairing::Alike => Ok(Some(file.copy(alloc)?)),
    }
}

// The same file, but written at another time.
fn written(alloc: Global, file: &TreeNode, time: u64) -> Result<TreeNode, NoMemory>
    requires { time ≤ GREATEST_MOMENT }
    ensures path { IfOk result (λ node. node.path ≡ file.now.path) }
    ensures node { IfOk result (λ node. node_of node ≡ written_at time (node_of file.now)) }
{
    let mut node = file.copy(alloc)?;
    node.props.written = Moment::new(time);
    Ok(node)
}

// The same file, but read-only.
fn read_only(alloc: Global, file: &TreeNode) -> Result<TreeNode, NoMemory>
    ensures path { IfOk result (λ node. node.path ≡ file.now.path) }
    ensures node { IfOk result (λ node. node_of node ≡ read_only (node_of file.now)) }
{
    let mut node = file.copy(alloc)?;
    node.props.attr.readonly = true;
    Ok(node)
}
