//! The row that a root's table keeps of an entry, by words.

use rc_table::{Row, SqlTable, Table};
use rc_tree::Text;
use rc_volume::Side;
use std::test::Fail;

// The size and the digest of the row of an entry, in the table beside its root; none where the call
// is another one. The entry stands in the root itself, and no site has the table.
pub(crate) fn row_answer(
    rt: &HostRuntime,
    folder: &str,
    call: &str,
    at: &str,
) -> Result<Option<String>, Fail> {
    let alloc = rt.alloc();
    let (root, name) = match at.split_once('/') {
        Some(split) if call == "row" => split,
        _ => return Ok(None),
    };
    let file = format!(in alloc; "{folder}/{root}.rct")?;
    let mut table = SqlTable::new(rt, alloc, file.as_str())?;
    let key = Text::of(alloc, name)?;
    match table.get(alloc, Side::Source, &key) {
        Ok(Some(row)) => Ok(Some(row_text(rt, &row)?)),
        Ok(None) => Ok(Some(String::from_str(alloc, "none")?)),
        Err(_) => Ok(Some(String::from_str(alloc, "refused")?)),
    }
}

fn row_text(rt: &HostRuntime, row: &Row) -> Result<String, Fail> {
    let alloc = rt.alloc();
    let size = row.size;
    let mut text = format!(in alloc; "{size} ")?;
    for byte in &row.digest {
        let digits = format!(in alloc; "{byte:02x}")?;
        text.push_str(digits.as_str())?;
    }
    Ok(text)
}
