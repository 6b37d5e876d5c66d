//! A sink, an input and a store of job files in memory of which one call fails.

ghost use Rattle.std.specs.Prelude.{◌≡◌, ◌≢◌, ◌≤◌, ◌<◌, ◌⊎◌, ◌↔◌, ◌++◌, ℕ, Bool, true, List, Some, [], length, take, IfOk, OnErr, OnOk, option_map};
ghost use Rattle.std.specs.FinMap.{get};
ghost use Rattle.rc_tree.specs.Name.{folded};
ghost use Rattle.rc_volume.specs.Faults.{RisesIf};
ghost use Rattle.rc_volume.specs.Streams.{AppendsFront, input_failed, sink_failed, store_failed};
ghost use Rattle.rc_failing.specs.Streams.{CallsOnce, FailsWhereNamed, is_next_due};

use rc_mem::{MemInput, MemJobs, MemSink};
use rc_tree::Text;
use rc_volume::{Input, InputErr, JobStore, Sink, SinkErr, StoreErr};
use std::alloc::Global;

/// A sink, an input or a store of job files of which one call fails. A call that fails changes nothing, and the count of
/// faults rises.
#[derive(Debug, Drop)]
pub struct Failing<T> {
    pub behind: T,
    calls: u64,
    // The number of the call that fails; 0 is that of none.
    number: u64,
    failures: u64,
}

impl<T> Failing<T> {
    /// What fails nowhere, over this one.
    pub fn new(behind: T) -> Failing<T>
        ensures behind { result.behind ≡ behind }
        ensures calls { result.calls ≡ 0 }
        ensures nowhere { result.number ≡ 0 }
        ensures failures { result.failures ≡ 0 }
    {
        Failing {
            behind,
            calls: 0,
            number: 0,
            failures: 0,
        }
    }

    /// Makes the call of this number fail, counted from 1 on from when it was made, and no other call: reads and writes
    /// count alike. There is no call of number 0.
    pub fn fail_at(&mut self, number: u64)
        ensures { self.new ≡ record self.old { number = number } }
    {
        self.number = number;
    }

    // Whether the next call, which comes now, fails: then its failure is counted.
    fn fails(&mut self) -> bool
        ensures due { result ≡ is_next_due self.old }
        ensures calls { CallsOnce self.old self.new }
        ensures failures { RisesIf result self.old.failures self.new.failures }
    {
        self.calls = self.calls.saturating_add(1);
        let fails = self.calls == self.number;
        if fails {
            self.failures = self.failures.saturating_add(1);
        }
        fails
    }
}

impl Sink for Failing<MemSink> {
    ghost tells = { true };

    ghost received = { λ sink. sink.behind };

    ghost faults = { λ sink. sink.failures };

    // What the trait says, and that the call fails exactly where it is the one that was named, and changes nothing then;
    // likewise below.
    fn write(&mut self, alloc: Global, bytes: &[u8]) -> Result<(), SinkErr>
        ensures written { OnOk result (self.new.behind ≡ self.old.behind ++ bytes.now) }
        ensures front { OnErr result (AppendsFront self.old.behind bytes.now self.new.behind) }
        ensures cause { RisesIf (sink_failed result) self.old.failures self.new.failures }
        ensures named { FailsWhereNamed (sink_failed result) self.old self.new }
    {
        if self.fails() {
            return Err(SinkErr::Failed);
        }
        self.behind.write(alloc, bytes)
    }
}

impl Input for Failing<MemInput> {
    ghost tells = { true };

    ghost rest = { λ input. input.behind };

    ghost faults = { λ input. input.failures };

    fn read(&mut self, alloc: Global, buf: &mut [u8]) -> Result<usize, InputErr>
        requires { 0 < length buf.old }
        ensures bound { IfOk result (λ n. n ≤ length buf.new) }
        ensures taken { IfOk result (λ n. self.old.behind ≡ take n buf.new ++ self.new.behind) }
        ensures end { IfOk result (λ n. (n ≡ 0) ↔ (self.old.behind ≡ [])) }
        ensures kept { OnErr result (self.new.behind ≡ self.old.behind) }
        ensures cause { RisesIf (input_failed result) self.old.failures self.new.failures }
        ensures named { FailsWhereNamed (input_failed result) self.old self.new }
    {
        if self.fails() {
            return Err(InputErr::Failed);
        }
        self.behind.read(alloc, buf)
    }
}

impl JobStore for Failing<MemJobs> {
    ghost tells = { true };

    ghost files = { λ jobs. jobs.behind };

    ghost faults = { λ jobs. jobs.failures };

    fn read(&mut self, alloc: Global, name: &Text) -> Result<Option<Vec<u8>>, StoreErr>
        ensures found { IfOk result (λ found. option_map (λ bytes. bytes.items) found
            ≡ get self.old.behind (folded name.now)) }
        ensures same { self.new.behind ≡ self.old.behind }
        ensures cause { RisesIf (store_failed result) self.old.failures self.new.failures }
        ensures named { FailsWhereNamed (store_failed result) self.old self.new }
    {
        if self.fails() {
            return Err(StoreErr::Failed);
        }
        self.behind.read(alloc, name)
    }

    fn write(&mut self, alloc: Global, name: &Text, bytes: &[u8]) -> Result<(), StoreErr>
        ensures written { OnOk result (get self.new.behind (folded name.now) ≡ Some bytes.now) }
        ensures old_or_new { OnErr result (let kept = get self.new.behind (folded name.now) in
            (kept ≡ get self.old.behind (folded name.now)) ⊎ (kept ≡ Some bytes.now)) }
        ensures others { (other : List ℕ) → other ≢ folded name.now →
            get self.new.behind other ≡ get self.old.behind other }
        ensures cause { RisesIf (store_failed result) self.old.failures self.new.failures }
        ensures named { FailsWhereNamed (store_failed result) self.old self.new }
    {
        if self.fails() {
            return Err(StoreErr::Failed);
        }
        self.behind.write(alloc, name, bytes)
    }
}
