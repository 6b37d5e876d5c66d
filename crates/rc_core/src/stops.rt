//! Runs are stopped.

ghost use Rattle.std.specs.Prelude.{◌≡◌, IfOk};
ghost use Rattle.rc_core.specs.Events.{stop, stopped_file, stopped_files, stopped_unit, stopped_units, GoesOn};
ghost use Rattle.rc_core.specs.Rows.{Leaves};
ghost use Rattle.rc_core.specs.declared.event.Event.TheVariants.{Stop};

use crate::images::may_stop;
use crate::marks::{file_by, mark_at, stands_in, unit_by};
use crate::opening::node_at;
use crate::rows::copy_file;
use crate::{CoreErr, FileRow, FileRows, Node, Nodes, State, Touched, UnitRow, UnitRows};
use rc_tree::NoMemory;
use std::alloc::Global;

// A stop left this image of the target, and these marks.
pub(crate) fn stop(
    alloc: Global,
    state: &mut State,
    image: &Nodes,
    units: &[bool],
    finished: &[bool],
) -> Result<(), CoreErr>
    ensures { GoesOn state.old (Stop image.now units.now finished.now) result state.new }
{
    match may_stop(alloc, state, image, units, finished) {
        Ok(true) => match stop_rows(alloc, state, image.list(), units, finished) {
            Ok(()) => Ok(()),
            Err(NoMemory) => Err(CoreErr::NoMemory),
        },
        Ok(false) => Err(CoreErr::NotAllowed { event: 7 }),
        Err(NoMemory) => Err(CoreErr::NoMemory),
    }
}

// The rows are by the image and the marks, and the state is stopped.
fn stop_rows(
    alloc: Global,
    state: &mut State,
    image: &[Node],
    units: &[bool],
    finished: &[bool],
) -> Result<(), NoMemory>
    ensures { Leaves result state.old
        (stop state.old image.now units.now finished.now) state.new }
{
    let files = stopped_files(alloc, image, finished, state.files.rows())?;
    let units = stopped_units(alloc, units, state.units.rows())?;
    state.files = FileRows::new(files);
    state.units = UnitRows::new(units);
    state.stopped = true;
    Ok(())
}

fn stopped_units(alloc: Global, marks: &[bool], rows: &[UnitRow]) -> Result<Vec<UnitRow>, NoMemory>
    ensures { IfOk result (λ stopped. stopped.items ≡ stopped_units marks.now rows.now) }
{
    let mut stopped = Vec::new(alloc);
    for (n, row) in rows.iter().enumerate() {
        stopped.push(stopped_unit(row, mark_at(marks, n)))?;
    }
    Ok(stopped)
}

fn stopped_unit(row: &UnitRow, mark: Option<bool>) -> UnitRow
    ensures { result ≡ stopped_unit row.now mark }
{
    UnitRow {
        state: unit_by(stands_in(mark)),
        ..*row
    }
}

fn stopped_files(
    alloc: Global,
    image: &[Node],
    marks: &[bool],
    rows: &[FileRow],
) -> Result<Vec<FileRow>, NoMemory>
    ensures { IfOk result
        (λ stopped. stopped.items ≡ stopped_files image.now marks.now rows.now) }
{
    let mut stopped = Vec::new(alloc);
    for (n, row) in rows.iter().enumerate() {
        let row = stopped_file(alloc, image, row, mark_at(marks, n))?;
        stopped.push(row)?;
    }
    Ok(stopped)
}

// What stands in the image at the file's key, and how the file stands by its mark.
fn stopped_file(
    alloc: Global,
    image: &[Node],
    row: &FileRow,
    mark: Option<bool>,
) -> Result<FileRow, NoMemory>
    ensures { IfOk result (λ stopped. stopped ≡ stopped_file image.now row.now mark) }
{
    let stands = node_at(alloc, image, &row.file.item.path)?;
    Ok(FileRow {
        file: copy_file(alloc, &row.file)?,
        stands,
        touched: Touched::nothing(alloc),
        state: file_by(stands_in(mark)),
        attempts: row.attempts,
    })
}
