//! The trait of a property table.

ghost use Rattle.std.specs.Prelude.{◌≡◌, ◌≤◌, ◌↔◌, ℕ, Bool, true, None, Some, length, chars, IsTrue, IfOk, IfSome};
ghost use Rattle.std.specs.Option.{option_copied};
ghost use Rattle.rc_volume.specs.Faults.{RisesIf};
ghost use Rattle.rc_table.specs.Rows.{ChangesRow, FindsNext, IsListed, Leaves, Rows, row_at, rows_of, table_failed};

use crate::Row;
use rc_tree::Text;
use rc_volume::Side;
use std::alloc::Global;
use thiserror::Error;

/// How many characters a path text has at most: those of 64 names of 255 characters with one character between two.
pub const GREATEST_PATH_TEXT: usize = 16383;

#[derive(Clone, Copy, Debug, PartialEq, Eq, Error)]
pub enum TableErr {
    /// The table refused. Its count of faults rose.
    #[error("the property table failed")]
    Failed,
    #[error("out of memory")]
    NoMemory,
}

/// Rows by side and path text.
///
/// A call that changes a row leaves all other rows, and the other side's, as they were, whatever it answers. After
/// `NoMemory` the row is as it was too; after `Failed` it is as it was or as the call was to leave it.
pub trait Table {
    /// Whether the table tells its rows.
    ghost tells: { Bool };

    /// The rows of both sides.
    ghost rows: { Self → Rows };

    /// How often it failed.
    ghost faults: { Self → ℕ };

    /// The row of a path; none exactly where no row stands there.
    fn get(&mut self, alloc: Global, side: Side, path: &Text) -> Result<Option<Row>, TableErr>
        ensures found { tells ≡ true → IfOk result
            (λ found. found ≡ row_at (rows self.old) side path.now) }
        ensures same { tells ≡ true → rows self.new ≡ rows self.old }
        ensures cause { RisesIf (table_failed result) (faults self.old) (faults self.new) };

    /// Keeps this row at a path text of at most 16383 characters, in the place of one that stood there.
    fn put(&mut self, alloc: Global, side: Side, path: &Text, row: &Row) -> Result<(), TableErr>
        requires { length path.now ≤ GREATEST_PATH_TEXT }
        ensures kept { tells ≡ true → ChangesRow side path.now
            (Leaves result (Some row.now)) (rows self.old) (rows self.new) }
        ensures cause { RisesIf (table_failed result) (faults self.old) (faults self.new) };

    /// Takes the row of a path away, where there is one.
    fn drop_key(&mut self, alloc: Global, side: Side, path: &Text) -> Result<(), TableErr>
        ensures dropped { tells ≡ true → ChangesRow side path.now
            (Leaves result None) (rows self.old) (rows self.new) }
        ensures cause { RisesIf (table_failed result) (faults self.old) (faults self.new) };

    /// The least path text of a side at which a row stands and which is above `after`, in the order of the characters'
    /// numbers; none where there is no such text.
    fn next_key(
        &mut self,
        alloc: Global,
        side: Side,
        after: Option<&Text>,
    ) -> Result<Option<Text>, TableErr>
        ensures found { tells ≡ true → IfOk result
            (FindsNext (rows_of (rows self.old) side) (option_copied after.entry)) }
        ensures same { tells ≡ true → rows self.new ≡ rows self.old }
        // Of every table, told or not.
        ensures rising { IfOk result
            (λ found. IfSome found (IsListed (option_copied after.entry))) }
        ensures cause { RisesIf (table_failed result) (faults self.old) (faults self.new) };

    /// Makes the changes since the last commit durable. Where it answers an error, they may be lost.
    fn commit(&mut self, alloc: Global) -> Result<(), TableErr>
        ensures same { tells ≡ true → rows self.new ≡ rows self.old }
        ensures cause { RisesIf (table_failed result) (faults self.old) (faults self.new) };
}

/// Whether a text has at most 16383 characters, as every path text of a table has.
pub fn is_path_text(path: &Text) -> bool
    ensures { IsTrue result ↔ (length path.now ≤ GREATEST_PATH_TEXT) }
{
    char_count(path.text()) <= GREATEST_PATH_TEXT
}

#[tactic(auto, using(std::proofs::lemmas::Str::chars_from_encodes))]
fn char_count(text: &str) -> usize
    ensures { result ≡ length (chars text.now) }
{
    text.chars().count()
}
