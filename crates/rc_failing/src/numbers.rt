//! The calls on one part: how many there were, and by their numbers those that fail.

ghost use Rattle.std.specs.Prelude.{◌≡◌, ℕ, false, OnErr, OnOk};
ghost use Rattle.rc_failing.specs.Named.{NamesNumber, counted, is_among, next_number};

use rc_tree::NoMemory;
use std::alloc::Global;
use std::collections::BTreeSet;

// How many calls there were, and the numbers of those that fail, from 1.
#[derive(Debug, Drop)]
pub(crate) struct Numbers {
    pub(crate) calls: u64,
    pub(crate) failing: BTreeSet<u64>,
}

impl Numbers {
    // No call yet, and none that fails.
    pub(crate) fn new(alloc: Global) -> Numbers
        ensures calls { result.calls ≡ 0 }
        ensures nowhere { (number : ℕ) → is_among result number ≡ false }
    {
        Numbers {
            calls: 0,
            failing: BTreeSet::new(alloc),
        }
    }

    // Makes the call of this number fail too.
    pub(crate) fn name(&mut self, number: u64) -> Result<(), NoMemory>
        ensures named { OnOk result (NamesNumber number self.old self.new) }
        ensures err { OnErr result (self.new ≡ self.old) }
    {
        match self.failing.insert(number) {
            Ok(_) => Ok(()),
            Err(_) => Err(NoMemory),
        }
    }

    // Whether the next call, which comes now, fails.
    pub(crate) fn is_due(&mut self) -> bool
        ensures due { result ≡ is_among self.old (next_number self.old) }
        ensures counted { self.new ≡ counted self.old }
    {
        self.calls = self.calls.saturating_add(1);
        self.failing.contains(&self.calls)
    }
}
