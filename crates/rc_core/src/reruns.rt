//! What was stopped is run again.

ghost use Rattle.std.specs.Prelude.{◌≡◌, map};
ghost use Rattle.rc_core.specs.Events.{rerun, rerun_file, rerun_unit};

use crate::marks::{file_by, unit_by};
use crate::{FileRow, FileState, State, UnitRow, UnitState};

// What is marked is done, all else is free or open, no attempt is booked, and the next ticket is the first.
pub(crate) fn rerun(state: &mut State)
    ensures { state.new ≡ rerun state.old }
{
    rerun_files(state.files.rows.as_mut_slice());
    rerun_units(state.units.rows.as_mut_slice());
    state.next = 1;
    state.stopped = false;
}

fn rerun_files(rows: &mut [FileRow])
    ensures { rows.new ≡ map rerun_file rows.old }
{
    for row in rows.iter_mut() {
        rerun_file(row);
    }
}

fn rerun_file(row: &mut FileRow)
    ensures { row.new ≡ rerun_file row.old }
{
    row.state = file_by(row.state == FileState::Finished);
    row.attempts = 0;
}

fn rerun_units(rows: &mut [UnitRow])
    ensures { rows.new ≡ map rerun_unit rows.old }
{
    for row in rows.iter_mut() {
        rerun_unit(row);
    }
}

fn rerun_unit(row: &mut UnitRow)
    ensures { row.new ≡ rerun_unit row.old }
{
    *row = UnitRow {
        extent: row.extent,
        state: unit_by(row.state == UnitState::Marked),
        attempts: 0,
    };
}
