//! The property table: what a folder of the host can't keep of its entries, by side and path text.
//!
//! A table keeps for each path text of a side a row: the entry's properties, and the size and the digest of its bytes at
//! the time that they were kept. Two sides are two maps: no call on one changes the other. [`MapTable`] keeps them in
//! memory, tells them to contracts and never fails. [`SqlTable`] keeps them in a database file. It promises what every
//! table promises, told or not: that a count of faults rose where a call failed and at no other answer, and that a
//! listing gives strictly rising texts of at most 16383 characters. What the file holds is not claimed.
#![tactic(auto)]

mod link;
mod map_table;
mod row;
mod side_rows;
mod sql_table;
mod statements;
mod stored;
mod table;

pub use map_table::MapTable;
pub use row::Row;
pub use sql_table::SqlTable;
pub use table::{GREATEST_PATH_TEXT, Table, TableErr, is_path_text};
