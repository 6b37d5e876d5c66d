//! How large a record may be.

ghost use Rattle.std.specs.Prelude.{◌≡◌, ◌≤◌, length};
ghost use Rattle.rc_class.specs.Units.{item_units};
ghost use Rattle.rc_record.specs.Rooms.{limit_of};

use rc_class::{Act, Item};

/// How many items a record has at most.
pub const ITEMS_MAX: u32 = 1000000;

/// How many units the items of a record have at most.
pub const UNITS_MAX: u64 = 67108864;

/// How many bytes a file has at most that is copied with its bytes.
pub const SIZE_MAX: u64 = 1099511627776;

/// How many bytes a job's text has at most in a record that is written. What is read may have more.
pub const TEXT_MAX: u64 = 16777216;

/// What an item has to leave room for.
#[derive(Clone, Copy, Debug, PartialEq, Eq)]
pub(crate) struct Room {
    /// Whether copies have the source's bytes, and so units.
    pub(crate) with_bytes: bool,
    /// How many bytes a unit has at most: 0 where a file is one unit.
    pub(crate) stride: u32,
    /// How many units the items before it have.
    pub(crate) units: u64,
}

impl Room {
    pub(crate) const NO_LIMIT: Room = Room {
        with_bytes: false,
        stride: 0,
        units: 0,
    };

    /// Whether an item of this act and size fits.
    pub(crate) fn is_for(self, act: Act, size: u64) -> bool
        requires whole { self.stride ≡ 0 }
        requires bound { self.units ≤ UNITS_MAX }
        ensures { result ≡ limit_of self act size }
    {
        if self.with_bytes && act.is_copy() {
            size <= SIZE_MAX && self.units + size.min(1) <= UNITS_MAX
        } else {
            true
        }
    }

    /// How many units an item of a size that fits has.
    pub(crate) fn taken_by(self, item: &Item) -> u64
        requires whole { self.stride ≡ 0 }
        ensures { result ≡ length (item_units self.stride self.with_bytes item.now) }
    {
        if self.with_bytes && item.act.is_copy() {
            item.facts.size.min(1)
        } else {
            0
        }
    }
}
