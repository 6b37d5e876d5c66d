//! The state with which copying begins.

ghost use Rattle.std.specs.Prelude.{◌≡◌, ◌≤◌, ◌<◌, ◌++◌, true, IfOk, OnOk, length, map, option_map, slice_get};
ghost use Rattle.std.specs.Option.{option_copied};
ghost use Rattle.rc_tree.specs.Path.{key_of};
ghost use Rattle.rc_class.specs.Units.{item_units, range_at, range_count, range_len, unit_of};
ghost use Rattle.rc_core.specs.Follows.{IsOpen};
ghost use Rattle.rc_core.specs.Nodes.{are_rising, node_at, node_of};
ghost use Rattle.rc_core.specs.Opened.{copied_from, copied_of, extent_of, extents_from, files_of, opened, opened_file, opened_files, opened_item, opened_unit, opened_units, opening_by};
ghost use Rattle.rc_core.specs.Sound.{Sound};

use crate::fails::standing;
use crate::laws::soundness_is_kept;
use crate::marks::{file_by, mark_at, stands_in, unit_by};
use crate::rows::copy_some;
use crate::{
    Copied, Extent, FileRow, FileRows, Node, Nodes, Standing, State, Touched, UnitRow, UnitRows,
};
use rc_class::{Item, Noted, Plan, Rules, ranges_fill_a_file};
use rc_tree::{NoMemory, Path};
use std::alloc::Global;

impl State {
    /// The state with which copying begins: what is marked is done, and all else is free or open. A failed attempt may be
    /// repeated so often.
    pub fn opening(
        alloc: Global,
        noted: Noted,
        rules: Rules,
        source: Nodes,
        target: Nodes,
        retries: u32,
    ) -> Result<State, NoMemory>
        requires { length noted.plan.items ≤ 1000000 }
        ensures opened { IfOk result
            (λ state. state ≡ opened noted rules source target retries) }
        ensures sound { IsOpen (opening_by noted rules source target) →
            are_rising source ≡ true → are_rising target ≡ true → IfOk result Sound }
    {
        soundness_is_kept();
        let files = files_of(alloc, &noted, &source, &target)?;
        let units = units_of(alloc, &noted, &files)?;
        Ok(State {
            noted,
            rules,
            source,
            target,
            retries,
            files,
            units,
            next: 1,
            stopped: false,
        })
    }
}

// Files

fn files_of(
    alloc: Global,
    noted: &Noted,
    source: &Nodes,
    target: &Nodes,
) -> Result<FileRows, NoMemory>
    requires { length noted.now.plan.items ≤ 1000000 }
    ensures files { IfOk result (λ files. files
        ≡ opened_files noted.now.finished (files_of noted.now.plan source.now target.now)) }
    ensures few { IfOk result (λ files. length files ≤ 1000000) }
{
    let items = noted.plan.items.items();
    let marks = noted.finished.marks();
    let files = opened_files(alloc, items, marks, source.list(), target.list())?;
    Ok(FileRows::new(files))
}

// The files of the items that are copied.
fn opened_files(
    alloc: Global,
    items: &[Item],
    marks: &[bool],
    source: &[Node],
    target: &[Node],
) -> Result<Vec<FileRow>, NoMemory>
    requires { length items.now ≤ 1000000 }
    ensures files { IfOk result (λ files. files.items
        ≡ opened_files marks.now (copied_from source.now target.now 0 items.now)) }
    ensures few { IfOk result (λ files. length files.items ≤ 1000000) }
{
    let mut files = Vec::new(alloc);
    for (place, item) in items.iter().enumerate() {
        push_file(
            alloc,
            &mut files,
            marks,
            source,
            target,
            (item, place as u32),
        )?;
    }
    Ok(files)
}

// The file of an item, where it is copied.
fn push_file(
    alloc: Global,
    files: &mut Vec<FileRow>,
    marks: &[bool],
    source: &[Node],
    target: &[Node],
    placed: (&Item, u32),
) -> Result<(), NoMemory>
    ensures { OnOk result (files.new.items ≡ files.old.items
        ++ opened_item marks.now source.now target.now (length files.old.items)
        placed.entry.0.now placed.entry.1) }
{
    let (item, place) = placed;
    if item.act.is_copy() {
        let file = copied_of(alloc, source, target, item, place)?;
        let mark = mark_at(marks, files.len());
        files.push(opened_file(alloc, file, mark)?)?;
    }
    Ok(())
}

fn opened_file(alloc: Global, file: Copied, mark: Option<bool>) -> Result<FileRow, NoMemory>
    ensures { IfOk result (λ row. row ≡ opened_file file mark) }
{
    let stands = copy_some(alloc, &file.start)?;
    Ok(FileRow {
        file,
        stands,
        touched: Touched::nothing(alloc),
        state: file_by(stands_in(mark)),
        attempts: 0,
    })
}

fn copied_of(
    alloc: Global,
    source: &[Node],
    target: &[Node],
    item: &Item,
    place: u32,
) -> Result<Copied, NoMemory>
    ensures { IfOk result
        (λ file. file ≡ copied_of source.now target.now item.now place) }
{
    let source = node_at(alloc, source, &item.path)?;
    let start = node_at(alloc, target, &item.path)?;
    let item = item.copy(alloc)?;
    Ok(Copied {
        place,
        item,
        source,
        start,
    })
}

// What stands at the key of a path.
pub(crate) fn node_at(
    alloc: Global,
    nodes: &[Node],
    path: &Path,
) -> Result<Option<Standing>, NoMemory>
    ensures { IfOk result (λ node. node ≡ node_at nodes.now (key_of path.now)) }
{
    match find_node(nodes, path) {
        Some(node) => match standing(alloc, node) {
            Ok(standing) => Ok(Some(standing)),
            Err(e) => Err(e),
        },
        None => Ok(None),
    }
}

fn find_node<'a>(nodes: &'a [Node], path: &Path) -> Option<&'a Node>
    ensures { option_map node_of (option_copied result) ≡ node_at nodes.now (key_of path.now) }
{
    let mut rest = nodes;
    while let [first, later @ ..] = rest {
        if path.cmp(&first.path).is_eq() {
            return Some(first);
        }
        rest = later;
    }
    None
}

// Units

fn units_of(alloc: Global, noted: &Noted, files: &FileRows) -> Result<UnitRows, NoMemory>
    requires { length files.now ≤ 1000000 }
    ensures { IfOk result (λ units. units
        ≡ opened_units noted.now.units
        (extents_from noted.now.plan 0 (map (λ row. row.file) files.now))) }
{
    let extents = extents(alloc, &noted.plan, files.rows())?;
    let units = opened_units(alloc, noted.units.marks(), extents.as_slice())?;
    Ok(UnitRows::new(units))
}

// Where the units of files lie.
fn extents(alloc: Global, plan: &Plan, files: &[FileRow]) -> Result<Vec<Extent>, NoMemory>
    requires { length files.now ≤ 1000000 }
    ensures { IfOk result (λ extents. extents.items
        ≡ extents_from plan.now 0 (map (λ row. row.file) files.now)) }
{
    let mut all = Vec::new(alloc);
    for (n, row) in files.iter().enumerate() {
        push_extents(&mut all, plan, n as u32, &row.file.item)?;
    }
    Ok(all)
}

// The units of one file.
fn push_extents(all: &mut Vec<Extent>, plan: &Plan, n: u32, item: &Item) -> Result<(), NoMemory>
    ensures { OnOk result (all.new.items
        ≡ all.old.items
        ++ map (extent_of n) (item_units plan.now.stride plan.now.with_bytes item.now)) }
{
    if plan.with_bytes && item.act.is_copy() {
        for k in 0..range_count(plan.stride, item.facts.size) {
            all.push(extent_at(n, plan.stride, item, k))?;
        }
    }
    Ok(())
}

fn range_count(stride: u32, size: u64) -> u64
    ensures { result ≡ range_count stride size }
{
    if stride == 0 {
        size.min(1)
    } else {
        size.div_ceil(u64::from(stride))
    }
}

// The unit with a number.
fn extent_at(n: u32, stride: u32, item: &Item, k: u64) -> Extent
    requires { k < range_count stride item.now.facts.size }
    ensures { result ≡ extent_of n (unit_of item.now (range_at stride item.now.facts.size k)) }
{
    ranges_fill_a_file();
    let size = item.facts.size;
    let len = range_len(stride, size);
    let off = k * len;
    Extent {
        file: n,
        off,
        len: len.min(size - off),
    }
}

fn range_len(stride: u32, size: u64) -> u64
    ensures { result ≡ range_len stride size }
{
    if stride == 0 { size } else { u64::from(stride) }
}

fn opened_units(alloc: Global, marks: &[bool], extents: &[Extent]) -> Result<Vec<UnitRow>, NoMemory>
    ensures { IfOk result (λ units. units.items ≡ opened_units marks.now extents.now) }
{
    let mut units = Vec::new(alloc);
    for (n, extent) in extents.iter().enumerate() {
        units.push(opened_unit(extent, mark_at(marks, n)))?;
    }
    Ok(units)
}

fn opened_unit(extent: &Extent, mark: Option<bool>) -> UnitRow
    ensures { result ≡ opened_unit extent.now mark }
{
    UnitRow {
        extent: *extent,
        state: unit_by(stands_in(mark)),
        attempts: 0,
    }
}
