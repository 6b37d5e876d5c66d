//! The clock of a run.

ghost use Rattle.std.specs.Prelude.{◌≡◌, ◌+◌, ◌≤◌, ℕ, Bool, true, min};
ghost use Rattle.rc_tree.specs.declared.moment.TheConstants.{GREATEST_MOMENT};
ghost use Rattle.rc_volume.specs.Faults.{last_count};
ghost use Rattle.rc_volume.specs.Waits.{Paused, paused_once};

/// What tells the time, and waits.
///
/// It keeps how often it was read, how often it paused, and for how many seconds in all; these numbers stop at the
/// greatest one of their type.
pub trait Clock {
    /// Whether the clock tells the one moment that it always answers.
    ghost tells: { Bool };

    /// That moment.
    ghost always: { Self → ℕ };

    /// The moment that it answered last.
    ghost last: { Self → ℕ };

    /// How often it was read.
    ghost reads: { Self → ℕ };

    /// How often it paused, and for how many seconds.
    ghost paused: { Self → Paused };

    /// The present moment: 100-nanosecond units since 1 January 1601 UTC, at most [`rc_tree::GREATEST_MOMENT`].
    fn moment(&mut self) -> u64
        ensures bound { result ≤ GREATEST_MOMENT }
        ensures last { last self.new ≡ result }
        ensures fixed { tells ≡ true → result ≡ always self.old }
        ensures same { tells ≡ true → always self.new ≡ always self.old }
        ensures read { reads self.new ≡ min (reads self.old + 1) last_count }
        ensures no_pause { paused self.new ≡ paused self.old };

    /// Waits for about so many seconds: how long it really takes is not promised.
    fn pause(&mut self, seconds: u32)
        ensures last { last self.new ≡ last self.old }
        ensures same { tells ≡ true → always self.new ≡ always self.old }
        ensures no_read { reads self.new ≡ reads self.old }
        ensures paused { paused self.new ≡ paused_once seconds (paused self.old) };
}
