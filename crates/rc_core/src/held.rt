//! Rows that are looked up.

ghost use Rattle.std.specs.Prelude.{◌≡◌, None, Some, MatchOption};
ghost use Rattle.std.specs.Option.{option_copied};
ghost use Rattle.rc_core.specs.Events.{closing, held_under, is_claimable};
ghost use Rattle.rc_core.specs.Rows.{all_marked, file_number, file_row, holding_of, unit_row};

use crate::{FileRow, FileState, Holding, State, UnitRow, UnitState};

// The unit with a number.
pub(crate) fn unit_row(state: &State, unit: u32) -> Option<UnitRow>
    ensures { result ≡ unit_row state.now unit }
{
    state.units.rows().get(unit as usize).copied()
}

// The file with a number.
pub(crate) fn file_row(state: &State, file: u32) -> Option<&FileRow>
    ensures { option_copied result ≡ file_row state.now file }
{
    state.files.rows().get(file as usize)
}

pub(crate) fn holding_of(state: UnitState) -> Option<Holding>
    ensures { result ≡ holding_of state }
{
    match state {
        UnitState::Held(holding) => Some(holding),
        UnitState::Free | UnitState::Doubtful | UnitState::Marked => None,
    }
}

// The unit with a number, with what it holds and its file, where it is held under a ticket.
pub(crate) fn held(state: &State, unit: u32, ticket: u64) -> Option<(UnitRow, Holding, &FileRow)>
    ensures { MatchOption result (held_under state.now unit ticket ≡ None)
        (λ found. held_under state.now unit ticket
        ≡ Some (record { row = found.0; holding = found.1; file_of = found.2.now })) }
{
    let Some(row) = unit_row(state, unit) else {
        return None;
    };
    let Some(holding) = holding_of(row.state) else {
        return None;
    };
    let Some(file) = file_row(state, row.extent.file) else {
        return None;
    };
    if holding.ticket == ticket {
        Some((row, holding, file))
    } else {
        None
    }
}

// Whether a unit is free and its file is not given up.
pub(crate) fn is_claimable(state: &State, row: &UnitRow) -> bool
    ensures { result ≡ is_claimable state.now row.now }
{
    match file_row(state, row.extent.file) {
        Some(file) => row.state == UnitState::Free && file.state != FileState::GivenUp,
        None => false,
    }
}

// The number of the file whose item has a place in the plan.
fn file_number(state: &State, place: u32) -> Option<usize>
    ensures { result ≡ file_number state.now place }
{
    state
        .files
        .rows()
        .iter()
        .position(|row| row.file.place == place)
}

// Whether the units of a file are all marked.
fn all_marked(state: &State, file: usize) -> bool
    ensures { result ≡ all_marked state.now file }
{
    state.units.rows().iter().all(|row| row.extent.file as usize != file
        || row.state == UnitState::Marked)
}

// The open file of an item with a place in the plan, with its number, where its units are all marked.
pub(crate) fn closing(state: &State, place: u32) -> Option<(usize, &FileRow)>
    ensures { MatchOption result (closing state.now place ≡ None)
        (λ found. closing state.now place ≡ Some (record { number = found.0; row = found.1.now })) }
{
    let Some(number) = file_number(state, place) else {
        return None;
    };
    let Some(row) = state.files.rows().get(number) else {
        return None;
    };
    if all_marked(state, number) && row.state == FileState::Open {
        Some((number, row))
    } else {
        None
    }
}
