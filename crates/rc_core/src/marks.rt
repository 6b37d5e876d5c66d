//! Marks, how files and units stand by them, and which of them a stop may leave.

ghost use Rattle.std.specs.Prelude.{◌≡◌, ◌↔◌, IsTrue, slice_get};
ghost use Rattle.rc_core.specs.Images.{AreFileMarks, AreMarks, AreUnitMarks, IsMarkOf};
ghost use Rattle.rc_core.specs.Rows.{file_by, is_done, is_finished, is_marked, may_be_marked, stands_in, unit_by};

use crate::{FileRow, FileState, State, UnitRow, UnitState};

// The mark with a number.
pub(crate) fn mark_at(marks: &[bool], n: usize) -> Option<bool>
    ensures { result ≡ slice_get marks.now n }
{
    marks.get(n).copied()
}

// Whether a mark is there and stands.
pub(crate) fn stands_in(mark: Option<bool>) -> bool
    ensures { result ≡ stands_in mark }
{
    mark == Some(true)
}

// As it is to be where its mark stands, and else open.
pub(crate) fn file_by(stands: bool) -> FileState
    ensures { result ≡ file_by stands }
{
    if stands {
        FileState::Finished
    } else {
        FileState::Open
    }
}

// Durable where its mark stands, and else free.
pub(crate) fn unit_by(stands: bool) -> UnitState
    ensures { result ≡ unit_by stands }
{
    if stands {
        UnitState::Marked
    } else {
        UnitState::Free
    }
}

// What a stop may leave

// Whether these are marks that a stop may leave.
pub(crate) fn are_marks(state: &State, units: &[bool], finished: &[bool]) -> bool
    ensures { IsTrue result ↔ AreMarks state.now units.now finished.now }
{
    let many = units.len() == state.units.rows().len();
    let files = finished.len() == state.files.rows().len();
    let of_units = are_unit_marks(state.units.rows(), units);
    let of_files = are_file_marks(state.files.rows(), finished);
    many & files & of_units & of_files
}

fn are_unit_marks(rows: &[UnitRow], marks: &[bool]) -> bool
    ensures { IsTrue result ↔ AreUnitMarks rows.now marks.now }
{
    for n in 0..rows.len() {
        if !is_unit_mark(&rows[n], mark_at(marks, n)) {
            return false;
        }
    }
    true
}

fn is_unit_mark(row: &UnitRow, mark: Option<bool>) -> bool
    ensures { IsTrue result
        ↔ IsMarkOf (is_marked row.now.state) (may_be_marked row.now.state) mark }
{
    let stands = row.state == UnitState::Marked;
    is_mark_of(stands, stands || row.state == UnitState::Doubtful, mark)
}

fn are_file_marks(rows: &[FileRow], marks: &[bool]) -> bool
    ensures { IsTrue result ↔ AreFileMarks rows.now marks.now }
{
    for n in 0..rows.len() {
        if !is_file_mark(&rows[n], mark_at(marks, n)) {
            return false;
        }
    }
    true
}

fn is_file_mark(row: &FileRow, mark: Option<bool>) -> bool
    ensures { IsTrue result
        ↔ IsMarkOf (is_finished row.now.state) (is_done row.now.state) mark }
{
    let stands = row.state == FileState::Finished;
    is_mark_of(stands, stands || row.state == FileState::Doubtful, mark)
}

// Whether a mark is there where it stands, and perhaps where it may stand.
fn is_mark_of(stands: bool, may: bool, mark: Option<bool>) -> bool
    ensures { IsTrue result ↔ IsMarkOf stands may mark }
{
    match mark {
        Some(true) => may,
        Some(false) => !stands,
        None => false,
    }
}
