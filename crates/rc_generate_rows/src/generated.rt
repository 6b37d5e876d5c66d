//! What stands in the sites of three numbers, and how much.

use rc_generate::{Generated, generate};
use rc_mem::{Tree, TreeNode};
use rc_tree::{NoMemory, Path};
use std::alloc::Global;
use std::test::Fail;

// How many bytes a file has, which one they are, when it was written, and whether it is read-only.
type File = (usize, u8, u64, bool);

// A path, and what the source and the target have there.
type Row = (&'static str, Option<File>, Option<File>);

const AT: u64 = 133485408000000000;

const EARLIER: u64 = 133485407990000000;

const LATER: u64 = 133485408010000000;

const ZERO: &[Row] = &[
    ("d00\\f00.txt", Some((1200000, 126, AT, false)), None),
    ("d00\\f01.txt", Some((2286, 17, AT, false)), None),
    (
        "d00\\f02.txt",
        Some((1656, 34, AT, false)),
        Some((1656, 34, AT, false)),
    ),
    ("d00\\f05.txt", None, Some((1151, 54, AT, false))),
    (
        "d00\\f09.tmp",
        Some((745, 55, AT, false)),
        Some((745, 55, AT, true)),
    ),
    (
        "d09\\f00.txt",
        Some((1200000, 171, AT, false)),
        Some((1200000, 171, AT, true)),
    ),
    ("d10\\f00.txt", None, Some((2801, 232, AT, false))),
    (
        "cache\\f00.txt",
        Some((2591, 158, AT, false)),
        Some((2592, 158, AT, false)),
    ),
    (
        "cache\\f19.tmp",
        Some((796, 104, AT, false)),
        Some((796, 104, EARLIER, false)),
    ),
    (
        "d99\\f99.tmp",
        Some((3425, 51, AT, false)),
        Some((3425, 51, AT, true)),
    ),
];

const SEVEN: &[Row] = &[
    (
        "d00\\f00.txt",
        Some((1200000, 188, AT, false)),
        Some((1200001, 188, AT, false)),
    ),
    (
        "d00\\f01.txt",
        Some((1562, 127, AT, false)),
        Some((1562, 127, EARLIER, false)),
    ),
    ("d00\\f02.txt", None, Some((1370, 98, AT, false))),
    (
        "d00\\f05.txt",
        Some((3986, 7, AT, false)),
        Some((3986, 7, AT, false)),
    ),
    (
        "d00\\f09.tmp",
        Some((2380, 237, AT, false)),
        Some((2380, 237, EARLIER, false)),
    ),
    (
        "d09\\f00.txt",
        Some((1200000, 92, AT, false)),
        Some((1200001, 92, AT, false)),
    ),
    (
        "d10\\f00.txt",
        Some((2712, 65, AT, false)),
        Some((2712, 65, EARLIER, false)),
    ),
    (
        "cache\\f00.txt",
        Some((417, 92, AT, false)),
        Some((417, 92, AT, true)),
    ),
    (
        "cache\\f19.tmp",
        Some((2811, 213, AT, false)),
        Some((2811, 213, AT, false)),
    ),
    ("d99\\f99.tmp", None, Some((846, 204, AT, false))),
];

const LAST: &[Row] = &[
    (
        "d00\\f00.txt",
        Some((1200000, 81, AT, false)),
        Some((1200000, 81, LATER, false)),
    ),
    (
        "d00\\f01.txt",
        Some((2389, 111, AT, false)),
        Some((2389, 111, EARLIER, false)),
    ),
    (
        "d00\\f02.txt",
        Some((526, 171, AT, false)),
        Some((526, 171, AT, false)),
    ),
    ("d00\\f05.txt", Some((1916, 134, AT, false)), None),
    (
        "d00\\f09.tmp",
        Some((2266, 248, AT, false)),
        Some((2266, 248, AT, true)),
    ),
    (
        "d09\\f00.txt",
        Some((1200000, 0, AT, false)),
        Some((1200000, 0, AT, false)),
    ),
    (
        "d10\\f00.txt",
        Some((3399, 220, AT, false)),
        Some((3399, 220, LATER, false)),
    ),
    (
        "cache\\f00.txt",
        Some((3487, 95, AT, false)),
        Some((3487, 95, AT, false)),
    ),
    (
        "cache\\f19.tmp",
        Some((4019, 88, AT, false)),
        Some((4020, 88, AT, false)),
    ),
    (
        "d99\\f99.tmp",
        Some((282, 176, AT, false)),
        Some((282, 176, LATER, false)),
    ),
];

// What a row says of a node; none where its first byte and its last differ, or it has not the attribute A.
fn file_of(node: &TreeNode) -> Option<File> {
    let bytes = node.bytes.as_slice();
    let first = *bytes.first()?;
    if *bytes.last()? != first || !node.props.attr.archive {
        return None;
    }
    Some((
        bytes.len(),
        first,
        node.props.written.units(),
        node.props.attr.readonly,
    ))
}

// What a row says of a path in a tree.
fn file_at(alloc: Global, tree: &Tree, path: &Path) -> Result<Option<File>, NoMemory> {
    match tree.get(alloc, path)? {
        Some(node) => Ok(file_of(node)),
        None => Ok(None),
    }
}

// Whether a site has what a row says.
fn has_row(alloc: Global, site: &Generated, row: &Row) -> Result<bool, Fail> {
    let (text, source, target) = row;
    let path = Path::read(alloc, text)?;
    Ok(
        file_at(alloc, &site.source, &path)? == *source
            && file_at(alloc, &site.target, &path)? == *target,
    )
}

// How many of these rows a site has.
fn count_rows(alloc: Global, site: &Generated, rows: &[Row]) -> Result<usize, Fail> {
    let mut count: usize = 0;
    for row in rows {
        if has_row(alloc, site, row)? {
            count = count.saturating_add(1);
        }
    }
    Ok(count)
}

// How many entries a tree has, and how many bytes they have.
fn sums(tree: &Tree) -> (usize, usize) {
    let mut entries: usize = 0;
    let mut bytes: usize = 0;
    for node in tree.nodes() {
        entries = entries.saturating_add(1);
        bytes = bytes.saturating_add(node.bytes.as_slice().len());
    }
    (entries, bytes)
}

#[test]
fn the_site_of_zero(rt: HostRuntime) -> Result<(), Fail> {
    let alloc = rt.alloc();
    let site = generate(alloc, 0)?;
    assert_eq!(rt; count_rows(alloc, &site, ZERO)?, ZERO.len());
    assert_eq!(rt; sums(&site.source), (8810, 27482290));
    assert_eq!(rt; sums(&site.target), (8763, 28611748));
    Ok(())
}

#[test]
fn the_site_of_seven(rt: HostRuntime) -> Result<(), Fail> {
    let alloc = rt.alloc();
    let site = generate(alloc, 7)?;
    assert_eq!(rt; count_rows(alloc, &site, SEVEN)?, SEVEN.len());
    assert_eq!(rt; sums(&site.source), (8850, 28727741));
    assert_eq!(rt; sums(&site.target), (8842, 28735859));
    Ok(())
}

#[test]
fn the_site_of_the_greatest_number(rt: HostRuntime) -> Result<(), Fail> {
    let alloc = rt.alloc();
    let site = generate(alloc, u64::MAX)?;
    assert_eq!(rt; count_rows(alloc, &site, LAST)?, LAST.len());
    assert_eq!(rt; sums(&site.source), (8872, 28733861));
    assert_eq!(rt; sums(&site.target), (8798, 27355274));
    Ok(())
}
