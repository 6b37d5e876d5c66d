//! Rows of a file that somebody changed so that they are no rows.

use crate::files::{keep_one, size_of_one};
use crate::folder::make_folder;
use rc_table::TableErr;
use sqlite::Connection;
use std::fs;
use std::test::Fail;

// What makes a row one that does not read back: attributes that no file has, a time above the year 9999 or below 1601, a
// size below 0, a digest of one byte.
const CHANGES: &[&str] = &[
    "UPDATE entries SET attr = 1024",
    "UPDATE entries SET created = 2650467743999999999 + 1",
    "UPDATE entries SET written = -1",
    "UPDATE entries SET size = -1",
    "UPDATE entries SET digest = x'07'",
];

// Changes a file by a statement, and says whether that could be done.
fn changed(rt: &HostRuntime, file: &str, statement: &str) -> bool {
    match Connection::open(rt, file) {
        Ok(mut database) => database.execute(statement, &[]).is_ok(),
        Err(_) => false,
    }
}

#[test]
fn a_row_that_does_not_read_back_is_refused(rt: HostRuntime) -> Result<(), Fail> {
    let alloc = rt.alloc();
    let folder = make_folder(&rt, "damage")?;
    let file = format!(in alloc; "{folder}/t.rct")?;
    for change in CHANGES {
        assert!(rt; keep_one(&rt, &file, 5, true)? == Ok(()));
        assert!(rt; changed(&rt, &file, change));
        assert!(rt; size_of_one(&rt, &file)? == Err(TableErr::Failed));
    }
    fs::remove_dir_all(&rt, &folder)?;
    Ok(())
}
