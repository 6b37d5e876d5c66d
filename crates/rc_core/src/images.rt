//! Images of the target that a stop may leave.

ghost use Rattle.std.specs.Prelude.{◌≡◌, ◌↔◌, ℕ, IfOk, IsTrue, List, Some, slice_get};
ghost use Rattle.rc_tree.specs.Path.{key_of};
ghost use Rattle.rc_core.specs.Images.{IsOther, LeavesAt, LeavesFiles, MayStop};
ghost use Rattle.rc_core.specs.Nodes.{are_rising, lies_below, node_at};
ghost use Rattle.rc_core.specs.Rows.{all_had};
ghost use Rattle.rc_core.specs.Stops.{MayBeLeft};
ghost use Rattle.rc_core.specs.declared.node.Node.{Node as Entry};

use crate::aspects::may_be_left;
use crate::left::is_same;
use crate::marks::are_marks;
use crate::opening::node_at;
use crate::{FileRow, Node, Nodes, State};
use rc_tree::{NoMemory, Path};
use std::alloc::Global;

// Whether a stop may leave this image and these marks.
pub(crate) fn may_stop(
    alloc: Global,
    state: &State,
    image: &Nodes,
    units: &[bool],
    finished: &[bool],
) -> Result<bool, NoMemory>
    ensures { IfOk result
        (λ may. IsTrue may ↔ MayStop state.now image.now units.now finished.now) }
{
    let rising = are_rising(image.list());
    let marks = are_marks(state, units, finished);
    let files = leaves_files(alloc, state.files.rows(), image.list())?;
    let others = leaves_others(alloc, state.files.rows(), state.target.list(), image.list())?;
    Ok(rising & files & others & marks)
}

// Whether the keys rise strictly.
fn are_rising(nodes: &[Node]) -> bool
    ensures { result ≡ are_rising nodes.now }
{
    let mut rest = nodes;
    while let [first, later @ ..] = rest {
        if !lies_below(first, later) {
            return false;
        }
        rest = later;
    }
    true
}

// Whether a node lies below the first of these.
fn lies_below(node: &Node, later: &[Node]) -> bool
    ensures { result ≡ lies_below node.now later.now }
{
    match later {
        [next, ..] => node.path.cmp(&next.path).is_lt(),
        [] => true,
    }
}

// Whether the image has at the key of each file what its row allows.
fn leaves_files(alloc: Global, files: &[FileRow], image: &[Node]) -> Result<bool, NoMemory>
    ensures { IfOk result (λ is. IsTrue is ↔ LeavesFiles files.now image.now) }
{
    for n in 0..files.len() {
        match leaves_file(alloc, &files[n], image) {
            Ok(true) => {}
            Ok(false) => return Ok(false),
            Err(e) => return Err(e),
        }
    }
    Ok(true)
}

fn leaves_file(alloc: Global, row: &FileRow, image: &[Node]) -> Result<bool, NoMemory>
    ensures { IfOk result (λ is. IsTrue is
        ↔ MayBeLeft (all_had row.now) row.now.touched.puts
        (node_at image.now (key_of row.now.file.item.path))) }
{
    match node_at(alloc, image, &row.file.item.path) {
        Ok(node) => Ok(may_be_left(&node, row)),
        Err(e) => Err(e),
    }
}

// Whether it has at each other key what the target had: each that has anything is the key of a node.
fn leaves_others(
    alloc: Global,
    files: &[FileRow],
    target: &[Node],
    image: &[Node],
) -> Result<bool, NoMemory>
    ensures { IfOk result (λ is. IsTrue is
        ↔ ((key : List (List ℕ)) → LeavesAt files.now target.now image.now key)) }
{
    let of_image = leaves_each(alloc, files, target, image, image)?;
    let of_target = leaves_each(alloc, files, target, image, target)?;
    Ok(of_image & of_target)
}

// The same at the key of each of these nodes.
fn leaves_each(
    alloc: Global,
    files: &[FileRow],
    target: &[Node],
    image: &[Node],
    nodes: &[Node],
) -> Result<bool, NoMemory>
    ensures { IfOk result (λ is. IsTrue is
        ↔ ((n : ℕ) (node : Entry) → slice_get nodes.now n ≡ Some node →
        LeavesAt files.now target.now image.now (key_of node.path))) }
{
    for n in 0..nodes.len() {
        match leaves_at(alloc, files, target, image, &nodes[n].path) {
            Ok(true) => {}
            Ok(false) => return Ok(false),
            Err(e) => return Err(e),
        }
    }
    Ok(true)
}

fn leaves_at(
    alloc: Global,
    files: &[FileRow],
    target: &[Node],
    image: &[Node],
    path: &Path,
) -> Result<bool, NoMemory>
    ensures { IfOk result (λ is. IsTrue is
        ↔ LeavesAt files.now target.now image.now (key_of path.now)) }
{
    if is_other(files, path) {
        is_kept(alloc, target, image, path)
    } else {
        Ok(true)
    }
}

// Whether a path is at the key of no file.
fn is_other(files: &[FileRow], path: &Path) -> bool
    ensures { IsTrue result ↔ IsOther files.now (key_of path.now) }
{
    for n in 0..files.len() {
        if is_at(&files[n], path) {
            return false;
        }
    }
    true
}

// Whether a path is at a file's key.
fn is_at(row: &FileRow, path: &Path) -> bool
    ensures { IsTrue result ↔ key_of row.now.file.item.path ≡ key_of path.now }
{
    row.file.item.path.cmp(path).is_eq()
}

// Whether the image has there what the target had.
fn is_kept(alloc: Global, target: &[Node], image: &[Node], path: &Path) -> Result<bool, NoMemory>
    ensures { IfOk result (λ is. IsTrue is
        ↔ node_at image.now (key_of path.now) ≡ node_at target.now (key_of path.now)) }
{
    let had = node_at(alloc, target, path)?;
    let has = node_at(alloc, image, path)?;
    Ok(is_same(&had, &has))
}
