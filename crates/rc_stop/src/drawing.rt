//! Draws: a row of states, each made of the one before it, and what is drawn in a state.

ghost use Rattle.std.specs.Prelude.{◌≡◌, ◌+◌, ◌*◌, ◌/◌, ◌%◌};
ghost use Rattle.rc_stop.specs.Stops.{drawn, next_state};

/// The state that comes behind this one.
pub fn next_state(state: u64) -> u64
    ensures { result ≡ next_state state }
{
    ((6364136223846793005 * state as u128 + 1442695040888963407) % 18446744073709551616) as u64
}

/// What is drawn in a state: its upper 32 bits.
pub fn drawn(state: u64) -> u64
    ensures { result ≡ drawn state }
{
    state / 4294967296
}
