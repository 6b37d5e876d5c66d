//! What an entry is compared by, and how exactly times are compared.

ghost use Rattle.std.specs.Prelude.{◌≡◌};
ghost use Rattle.rc_class.specs.Class.{width, is_same_time};

use rc_tree::{Attr, Kind, Moment};

/// What two entries of one key are compared by.
#[derive(Clone, Copy, Debug, PartialEq, Eq)]
pub struct Facts {
    pub kind: Kind,
    /// In bytes. It is 0 at a directory.
    pub size: u64,
    pub written: Moment,
    pub attr: Attr,
}

/// How exactly written times are compared.
#[derive(Clone, Copy, Debug, PartialEq, Eq)]
pub struct Grain {
    /// Two seconds apart is the same time still, as on FAT.
    pub fft: bool,
    /// One hour apart is the same time too, as where a clock was put to daylight saving time.
    pub dst: bool,
}

impl Grain {
    // How far two times may be apart, in 100-nanosecond units.
    fn width(self) -> u64
        ensures { result ≡ width self }
    {
        if self.fft { 20000000 } else { 0 }
    }
}

/// Whether two times are the same under a grain. They are counts of 100-nanosecond units.
pub fn same_time(a: u64, b: u64, grain: Grain) -> bool
    ensures { result ≡ is_same_time grain a b }
{
    let apart = a.abs_diff(b);
    apart <= grain.width() || grain.dst && apart.abs_diff(36000000000) <= grain.width()
}
