//! A folder of its own for each test of files, and the rows that tests keep.

use rc_table::Row;
use rc_tree::{Attr, Moment, NoMemory, Props, Security};
use std::alloc::Global;
use std::env::temp_dir;
use std::fs;
use std::test::Fail;

// Makes the folder of a test anew, in the system's folder for such, and gives its path.
pub(crate) fn make_folder(rt: &HostRuntime, name: &str) -> Result<String, Fail> {
    let above = temp_dir(rt)?;
    let folder = format!(in rt.alloc(); "{}/wandujo-table-{name}", above.display())?;
    if fs::exists(rt, &folder)? {
        fs::remove_dir_all(rt, &folder)?;
    }
    fs::create_dir(rt, &folder)?;
    Ok(folder)
}

// A row whose numbers, strings and digest all differ, and whose size is this.
pub(crate) fn row_of(alloc: Global, size: u64) -> Result<Row, NoMemory> {
    let mut attr = Attr::NONE;
    attr.readonly = true;
    attr.archive = true;
    Ok(Row {
        props: Props {
            attr,
            created: Moment::new(133485408000000000),
            written: Moment::new(2650467743999999999),
            access: Security::new(b"(A;;FA;;;WD)".as_slice().to_vec(alloc)?),
            owner: Security::empty(alloc),
            audit: Security::new([0, 39, 255].as_slice().to_vec(alloc)?),
        },
        size,
        digest: [7; 32],
    })
}

// Whether a row is that of `row_of` with this size.
pub(crate) fn is_row_of(row: &Row, size: u64) -> bool {
    let props = &row.props;
    row.size == size
        && row.digest == [7; 32]
        && props.attr.readonly
        && props.attr.archive
        && !props.attr.hidden
        && props.created.units() == 133485408000000000
        && props.written.units() == 2650467743999999999
        && props.access.bytes() == b"(A;;FA;;;WD)".as_slice()
        && props.owner.bytes().is_empty()
        && props.audit.bytes() == [0, 39, 255].as_slice()
}
