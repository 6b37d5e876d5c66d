//! The clock of the host.

ghost use Rattle.std.specs.Prelude.{◌≡◌, ◌≤◌, Bool, false, ℕ};
ghost use Rattle.rc_tree.specs.declared.moment.TheConstants.{GREATEST_MOMENT};

use rc_tree::GREATEST_MOMENT;
use rc_volume::Clock;
use std::thread;
use std::time::{Duration, SystemTime, UNIX_EPOCH};

// The start of 1970 in 100-nanosecond units since 1601.
const START_OF_1970: u64 = 116444736000000000;

// How many units a second has, and how many nanoseconds a unit.
const UNITS_OF_SECOND: u64 = 10000000;

const NANOS_OF_UNIT: u32 = 100;

/// The clock of the host. Where it can't be read, it answers 0, and where it stands behind the year 9999, the last moment of
/// that year.
#[derive(Drop)]
pub struct SystemClock {
    rt: HostRuntime,
    last: u64,
    reads: u64,
    pauses: u64,
    waited: u64,
}

impl SystemClock {
    /// The clock, not yet read.
    pub fn new(rt: &HostRuntime) -> SystemClock
        ensures reads { result.reads ≡ 0 }
        ensures pauses { result.pauses ≡ 0 }
        ensures waited { result.waited ≡ 0 }
    {
        SystemClock {
            rt: *rt,
            last: 0,
            reads: 0,
            pauses: 0,
            waited: 0,
        }
    }
}

impl Clock for SystemClock {
    ghost tells = { false };

    ghost always = { λ _. 0 };

    ghost last = { λ c. c.last };

    ghost reads = { λ c. c.reads };

    ghost paused = { λ c. record { times = c.pauses; seconds = c.waited } };

    fn moment(&mut self) -> u64 {
        let now = match SystemTime::now(&self.rt) {
            Ok(now) => units_of(now),
            Err(_) => 0,
        };
        self.reads = self.reads.saturating_add(1);
        self.last = now;
        now
    }

    fn pause(&mut self, seconds: u32) {
        thread::sleep(&self.rt, Duration::from_secs(seconds as u64));
        self.pauses = self.pauses.saturating_add(1);
        self.waited = self.waited.saturating_add(seconds as u64);
    }
}

// The moment of a time of the host, at most the greatest one.
fn units_of(time: SystemTime) -> u64
    ensures { result ≤ GREATEST_MOMENT }
{
    match time.duration_since(UNIX_EPOCH) {
        Ok(since) => units_from_1970(&since).min(GREATEST_MOMENT),
        Err(_) => 0,
    }
}

fn units_from_1970(since: &Duration) -> u64 {
    since
        .as_secs()
        .saturating_mul(UNITS_OF_SECOND)
        .saturating_add(u64::from(since.subsec_nanos() / NANOS_OF_UNIT))
        .saturating_add(START_OF_1970)
}
