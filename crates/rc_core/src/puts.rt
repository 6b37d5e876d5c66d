//! Pieces of units are put.

ghost use Rattle.std.specs.Prelude.{◌≡◌, ◌+◌, ◌≤◌, ◌<◌, nat_le, IsTrue, length};
ghost use Rattle.std.specs.Str.{bytes_eq};
ghost use Rattle.rc_volume.specs.Reading.{part_of};
ghost use Rattle.rc_core.specs.declared.event.Event.TheVariants.{Put};
ghost use Rattle.rc_core.specs.Events.{is_next_piece, is_of_source, prepare_unit, put_piece, GoesOn};
ghost use Rattle.rc_core.specs.Rows.{Leaves};

use crate::files::{prepare_in, put_in};
use crate::held::held;
use crate::parts::{before, behind};
use crate::{CoreErr, FileRow, Holding, State, UnitRow, UnitState};
use rc_tree::NoMemory;
use std::alloc::Global;

// The file of a held unit is brought to its length, where there are no bytes, and else they are put.
pub(crate) fn put(
    alloc: Global,
    state: &mut State,
    unit: u32,
    ticket: u64,
    bytes: &[u8],
) -> Result<(), CoreErr>
    ensures { GoesOn state.old (Put unit ticket bytes.now) result state.new }
{
    let Some((row, holding, file)) = held(state, unit, ticket) else {
        return Err(CoreErr::NotAllowed { event: 2 });
    };
    if bytes.is_empty() {
        match prepare_unit(alloc, state, unit, row, holding) {
            Ok(()) => Ok(()),
            Err(NoMemory) => Err(CoreErr::NoMemory),
        }
    } else if is_next_piece(&row, &holding, file, bytes) {
        match put_piece(alloc, state, unit, row, holding, bytes) {
            Ok(()) => Ok(()),
            Err(NoMemory) => Err(CoreErr::NoMemory),
        }
    } else {
        Err(CoreErr::NotAllowed { event: 2 })
    }
}

fn is_next_piece(row: &UnitRow, holding: &Holding, file: &FileRow, bytes: &[u8]) -> bool
    requires { 0 < length bytes.now }
    ensures value { result ≡ is_next_piece bytes.now row.now holding.now file.now }
    ensures room { IsTrue result → row.now.extent.off + holding.now.put ≤ 18446744073709551615 }
{
    holding.prepared && is_inside(row, holding, bytes) && is_of_source(row, holding, file, bytes)
}

// Whether the bytes stay inside the unit.
fn is_inside(row: &UnitRow, holding: &Holding, bytes: &[u8]) -> bool
    ensures { result ≡ nat_le (holding.now.put + length bytes.now) row.now.extent.len }
{
    let len = bytes.len() as u64;
    holding.put <= row.extent.len && len <= row.extent.len - holding.put
}

fn is_of_source(row: &UnitRow, holding: &Holding, file: &FileRow, bytes: &[u8]) -> bool
    requires { 0 < length bytes.now }
    ensures value { result
        ≡ is_of_source (row.now.extent.off + holding.now.put) bytes.now file.now }
    ensures room { IsTrue result → row.now.extent.off + holding.now.put ≤ 18446744073709551615 }
{
    match &file.file.source {
        Some(source) => is_part(source.bytes(), row.extent.off, holding.put, bytes),
        None => false,
    }
}

// Whether these are the bytes from an offset and so many more on.
fn is_part(all: &[u8], off: u64, more: u64, bytes: &[u8]) -> bool
    requires { 0 < length bytes.now }
    ensures value { result ≡ bytes_eq bytes.now (part_of (off + more) (length bytes.now) all.now) }
    ensures room { IsTrue result → off + more ≤ 18446744073709551615 }
{
    if off > u64::MAX - more {
        return false;
    }
    is_at(all, off + more, bytes)
}

fn is_at(all: &[u8], off: u64, bytes: &[u8]) -> bool
    ensures { result ≡ bytes_eq bytes.now (part_of off (length bytes.now) all.now) }
{
    before(behind(all, off), bytes.len() as u64) == bytes
}

// The unit's file is brought to its length.
fn prepare_unit(
    alloc: Global,
    state: &mut State,
    unit: u32,
    row: UnitRow,
    holding: Holding,
) -> Result<(), NoMemory>
    requires unit { unit < length state.old.units }
    requires file { row.extent.file < length state.old.files }
    ensures { Leaves result state.old (prepare_unit state.old unit row holding) state.new }
{
    prepare_in(alloc, &mut state.files, row.extent.file)?;
    let holding = Holding {
        prepared: true,
        ..holding
    };
    state.units.set(
        unit,
        UnitRow {
            state: UnitState::Held(holding),
            ..row
        },
    );
    Ok(())
}

// The unit's next bytes are put.
fn put_piece(
    alloc: Global,
    state: &mut State,
    unit: u32,
    row: UnitRow,
    holding: Holding,
    bytes: &[u8],
) -> Result<(), NoMemory>
    requires unit { unit < length state.old.units }
    requires file { row.extent.file < length state.old.files }
    requires room { row.extent.off + holding.put ≤ 18446744073709551615 }
    requires inside { holding.put + length bytes.now ≤ row.extent.len }
    ensures { Leaves result state.old (put_piece state.old unit bytes.now row holding) state.new }
{
    let off = row.extent.off + holding.put;
    put_in(alloc, &mut state.files, row.extent.file, off, bytes)?;
    let holding = Holding {
        put: holding.put + bytes.len() as u64,
        ..holding
    };
    state.units.set(
        unit,
        UnitRow {
            state: UnitState::Held(holding),
            ..row
        },
    );
    Ok(())
}
