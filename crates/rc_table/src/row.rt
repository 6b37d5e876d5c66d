//! A row of a table.

ghost use Rattle.std.specs.Prelude.{◌≡◌, IfOk};

use rc_tree::{NoMemory, Props};
use std::alloc::Global;

/// What a table keeps of an entry.
#[derive(Debug, Drop)]
pub struct Row {
    pub props: Props,
    /// How many bytes the file had when the row was kept.
    pub size: u64,
    /// The SHA-256 of those bytes, or 32 zero bytes where none was taken.
    pub digest: [u8; 32],
}

impl Row {
    /// An equal row.
    pub fn copy(&self, alloc: Global) -> Result<Row, NoMemory>
        ensures { IfOk result (λ copy. copy ≡ self.now) }
    {
        Ok(Row {
            props: self.props.copy(alloc)?,
            size: self.size,
            digest: self.digest,
        })
    }
}
