//! A point in time.

ghost use Rattle.std.specs.Prelude.{◌≡◌, ◌≤◌, ℕ};

use std::marker::Model;

/// The last unit of the year 9999.
pub const GREATEST_MOMENT: u64 = 2650467743999999999;

/// A point in time, as a count of 100-nanosecond units since 1 January 1601 UTC, from 0 to [`GREATEST_MOMENT`]: the
/// form of file times in MS-FSCC, section 2.1.1. Contracts see it as that number.
#[derive(Clone, Copy, Debug, PartialEq, Eq, PartialOrd, Ord)]
pub struct Moment {
    units: u64,
}

impl Model for Moment {
    ghost Value = { ℕ };

    ghost view = { λ m. m.units };

    ghost invariant = { λ m. m.units ≤ 2650467743999999999 };

    ghost inverse = { λ n. record { units = n } };
}

impl Moment {
    /// The moment that is `units` after the start of 1601.
    pub fn new(units: u64) -> Moment
        requires { units ≤ GREATEST_MOMENT }
        ensures { result ≡ units }
    {
        Moment { units }
    }

    /// The count of 100-nanosecond units.
    pub fn units(self) -> u64
        ensures count { result ≡ self }
        ensures bound { self ≤ GREATEST_MOMENT }
    {
        self.units
    }
}
