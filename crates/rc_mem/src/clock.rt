//! A clock that stands.

ghost use Rattle.std.specs.Prelude.{◌≡◌, ◌≤◌, Bool, true, ℕ};
ghost use Rattle.rc_tree.specs.declared.moment.TheConstants.{GREATEST_MOMENT};

use rc_tree::Moment;
use rc_volume::Clock;

/// A clock that always answers one moment, and whose pause does nothing but count.
#[derive(Debug, Drop)]
pub struct FixedClock {
    moment: Moment,
    reads: u64,
    pauses: u64,
    waited: u64,
}

impl FixedClock {
    /// A clock that stands at `moment`, in 100-nanosecond units since 1601.
    pub fn new(moment: u64) -> FixedClock
        requires { moment ≤ GREATEST_MOMENT }
        ensures { result ≡ record { moment = moment; reads = 0; pauses = 0; waited = 0 } }
    {
        FixedClock {
            moment: Moment::new(moment),
            reads: 0,
            pauses: 0,
            waited: 0,
        }
    }

    /// How often it was read.
    pub fn reads(&self) -> u64
        ensures { result ≡ self.now.reads }
    {
        self.reads
    }

    /// How often it paused.
    pub fn pauses(&self) -> u64
        ensures { result ≡ self.now.pauses }
    {
        self.pauses
    }

    /// How many seconds it was to wait in all its pauses.
    pub fn waited(&self) -> u64
        ensures { result ≡ self.now.waited }
    {
        self.waited
    }
}

impl Clock for FixedClock {
    ghost tells = { true };

    ghost always = { λ c. c.moment };

    ghost last = { λ c. c.moment };

    ghost reads = { λ c. c.reads };

    ghost paused = { λ c. record { times = c.pauses; seconds = c.waited } };

    fn moment(&mut self) -> u64 {
        self.reads = self.reads.saturating_add(1);
        self.moment.units()
    }

    fn pause(&mut self, seconds: u32) {
        self.pauses = self.pauses.saturating_add(1);
        self.waited = self.waited.saturating_add(seconds as u64);
    }
}
