//! Units are claimed.

ghost use Rattle.std.specs.Prelude.{◌≡◌, ◌<◌, Some};
ghost use Rattle.std.specs.List.{position};
ghost use Rattle.rc_core.specs.declared.event.Event.TheVariants.{Claim};
ghost use Rattle.rc_core.specs.Events.{claim, is_claimable, GoesOn};
ghost use Rattle.rc_core.specs.Rows.{unit_row};

use crate::held::{is_claimable, unit_row};
use crate::{CoreErr, Holding, State, UnitRow, UnitState};

// The least free unit is taken under the next ticket.
pub(crate) fn claim(state: &mut State, unit: u32) -> Result<(), CoreErr>
    ensures { GoesOn state.old (Claim unit) result state.new }
{
    if first_claimable(state) != Some(unit as usize) || state.next == u64::MAX {
        return Err(CoreErr::NotAllowed { event: 1 });
    }
    match unit_row(state, unit) {
        Some(row) => {
            hold(state, unit, row);
            Ok(())
        }
        None => Err(CoreErr::NotAllowed { event: 1 }),
    }
}

fn first_claimable(state: &State) -> Option<usize>
    ensures { result ≡ position (is_claimable state.now) state.now.units }
{
    state
        .units
        .rows()
        .iter()
        .position(|row| is_claimable(state, row))
}

fn hold(state: &mut State, unit: u32, row: UnitRow)
    requires row { unit_row state.old unit ≡ Some row }
    requires ticket { state.old.next < 18446744073709551615 }
    ensures { state.new ≡ claim state.old unit row }
{
    let holding = Holding {
        ticket: state.next,
        put: 0,
        prepared: false,
        settled: false,
    };
    state.units.set(
        unit,
        UnitRow {
            state: UnitState::Held(holding),
            ..row
        },
    );
    state.next += 1;
}
