//! Units are settled and marked.

ghost use Rattle.std.specs.Prelude.{◌≡◌, ◌<◌, length};
ghost use Rattle.rc_core.specs.declared.event.Event.TheVariants.{Settle, Mark};
ghost use Rattle.rc_core.specs.Events.{marked_as, settle_unit, GoesOn};
ghost use Rattle.rc_core.specs.Rows.{in_state, with_unit};

use crate::held::held;
use crate::{CoreErr, Holding, State, UnitRow, UnitState};

// All bytes of a unit are put, and the target is durable.
pub(crate) fn settle(state: &mut State, unit: u32, ticket: u64) -> Result<(), CoreErr>
    ensures { GoesOn state.old (Settle unit ticket) result state.new }
{
    let Some((row, holding, _)) = held(state, unit, ticket) else {
        return Err(CoreErr::NotAllowed { event: 3 });
    };
    if holding.prepared && holding.put == row.extent.len {
        settle_unit(state, unit, row, holding);
        Ok(())
    } else {
        Err(CoreErr::NotAllowed { event: 3 })
    }
}

fn settle_unit(state: &mut State, unit: u32, row: UnitRow, holding: Holding)
    requires { unit < length state.old.units }
    ensures { state.new ≡ settle_unit state.old unit row holding }
{
    let holding = Holding {
        settled: true,
        ..holding
    };
    state.units.set(
        unit,
        UnitRow {
            state: UnitState::Held(holding),
            ..row
        },
    );
    state.files.sync();
}

// A unit's mark was written, and stands or may stand.
pub(crate) fn mark(state: &mut State, unit: u32, ticket: u64, stood: bool) -> Result<(), CoreErr>
    ensures { GoesOn state.old (Mark unit ticket stood) result state.new }
{
    let Some((row, holding, _)) = held(state, unit, ticket) else {
        return Err(CoreErr::NotAllowed { event: 4 });
    };
    if holding.settled {
        let now = marked_as(stood);
        state.units.set(unit, UnitRow { state: now, ..row });
        Ok(())
    } else {
        Err(CoreErr::NotAllowed { event: 4 })
    }
}

fn marked_as(stood: bool) -> UnitState
    ensures { result ≡ marked_as stood }
{
    if stood {
        UnitState::Marked
    } else {
        UnitState::Doubtful
    }
}
