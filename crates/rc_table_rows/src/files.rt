//! What is particular to tables in files.

use crate::folder::{make_folder, row_of};
use rc_table::{SqlTable, Table, TableErr, is_path_text};
use rc_tree::Text;
use rc_volume::Side;
use std::alloc::Global;
use std::fs;
use std::test::Fail;

// Keeps a row of this size at the path `a`, and commits it where that is asked for.
pub(crate) fn keep_one(
    rt: &HostRuntime,
    file: &str,
    size: u64,
    commits: bool,
) -> Result<Result<(), TableErr>, Fail> {
    let alloc = rt.alloc();
    let mut table = SqlTable::new(rt, alloc, file)?;
    let path = Text::of(alloc, "a")?;
    if !is_path_text(&path) {
        return Ok(Err(TableErr::Failed));
    }
    let row = row_of(alloc, size)?;
    let kept = table.put(alloc, Side::Source, &path, &row);
    if kept.is_ok() && commits {
        return Ok(table.commit(alloc));
    }
    Ok(kept)
}

// The size of the row at the path `a`.
pub(crate) fn size_of_one(
    rt: &HostRuntime,
    file: &str,
) -> Result<Result<Option<u64>, TableErr>, Fail> {
    let alloc = rt.alloc();
    let mut table = SqlTable::new(rt, alloc, file)?;
    let path = Text::of(alloc, "a")?;
    match table.get(alloc, Side::Source, &path) {
        Ok(Some(row)) => Ok(Ok(Some(row.size))),
        Ok(None) => Ok(Ok(None)),
        Err(error) => Ok(Err(error)),
    }
}

#[test]
fn committed_rows_come_back(rt: HostRuntime) -> Result<(), Fail> {
    let alloc = rt.alloc();
    let folder = make_folder(&rt, "comes_back")?;
    let file = format!(in alloc; "{folder}/t.rct")?;
    assert!(rt; keep_one(&rt, &file, 5, true)? == Ok(()));
    assert!(rt; size_of_one(&rt, &file)? == Ok(Some(5)));
    // What is not committed is not there.
    assert!(rt; keep_one(&rt, &file, 6, false)? == Ok(()));
    assert!(rt; size_of_one(&rt, &file)? == Ok(Some(5)));
    // The greatest size that a file keeps, and one above it.
    assert!(rt; keep_one(&rt, &file, 0x7fff_ffff_ffff_ffff, true)? == Ok(()));
    assert!(rt; size_of_one(&rt, &file)? == Ok(Some(0x7fff_ffff_ffff_ffff)));
    assert!(rt; keep_one(&rt, &file, 0x8000_0000_0000_0000, true)? == Err(TableErr::Failed));
    assert!(rt; size_of_one(&rt, &file)? == Ok(Some(0x7fff_ffff_ffff_ffff)));
    fs::remove_dir_all(&rt, &folder)?;
    Ok(())
}

#[test]
fn a_file_that_is_no_table_is_refused(rt: HostRuntime) -> Result<(), Fail> {
    let alloc = rt.alloc();
    let folder = make_folder(&rt, "text")?;
    let file = format!(in alloc; "{folder}/t.rct")?;
    fs::write(&rt, &file, "a text that somebody wrote\n")?;
    assert!(rt; keep_one(&rt, &file, 5, true)? == Err(TableErr::Failed));
    assert!(rt; size_of_one(&rt, &file)? == Err(TableErr::Failed));
    let left = fs::read_to_string(&rt, &file)?;
    assert!(rt; left.as_str() == "a text that somebody wrote\n");
    // Neither is one in a folder that is not there.
    let absent = format!(in alloc; "{folder}/no/t.rct")?;
    assert!(rt; size_of_one(&rt, &absent)? == Err(TableErr::Failed));
    fs::remove_dir_all(&rt, &folder)?;
    Ok(())
}

#[test]
fn a_second_opener_is_refused(rt: HostRuntime) -> Result<(), Fail> {
    let alloc = rt.alloc();
    let folder = make_folder(&rt, "second")?;
    let file = format!(in alloc; "{folder}/t.rct")?;
    let mut first = SqlTable::new(&rt, alloc, &file)?;
    assert!(rt; first.commit(alloc) == Ok(()));
    assert!(rt; size_of_one(&rt, &file)? == Err(TableErr::Failed));
    drop(first);
    assert!(rt; size_of_one(&rt, &file)? == Ok(None));
    fs::remove_dir_all(&rt, &folder)?;
    Ok(())
}
