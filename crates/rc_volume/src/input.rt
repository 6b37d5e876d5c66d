//! An input of bytes.

ghost use Rattle.std.specs.Prelude.{◌≡◌, ◌≤◌, ◌<◌, ◌↔◌, ℕ, Bool, true, List, [], ◌++◌, length, take, IfOk, OnErr};
ghost use Rattle.rc_volume.specs.Faults.{RisesIf};
ghost use Rattle.rc_volume.specs.Streams.{input_failed};

use std::alloc::Global;
use thiserror::Error;

#[derive(Clone, Copy, Debug, PartialEq, Eq, Error)]
pub enum InputErr {
    #[error("reading failed")]
    Failed,
    #[error("out of memory")]
    NoMemory,
}

/// Bytes that come in order and end.
pub trait Input {
    /// Whether the input tells its bytes.
    ghost tells: { Bool };

    /// The bytes that are left.
    ghost rest: { Self → List ℕ };

    /// How often it failed.
    ghost faults: { Self → ℕ };

    /// Takes bytes from the front of what is left into the front of `buf`, at least one and at most as many as `buf`
    /// holds, and answers how many; 0 exactly at the end. After an error nothing was taken.
    fn read(&mut self, alloc: Global, buf: &mut [u8]) -> Result<usize, InputErr>
        requires { 0 < length buf.old }
        ensures bound { IfOk result (λ n. n ≤ length buf.new) }
        ensures taken { tells ≡ true → IfOk result
            (λ n. rest self.old ≡ take n buf.new ++ rest self.new) }
        ensures end { tells ≡ true → IfOk result (λ n. (n ≡ 0) ↔ (rest self.old ≡ [])) }
        ensures kept { tells ≡ true → OnErr result (rest self.new ≡ rest self.old) }
        ensures cause { RisesIf (input_failed result) (faults self.old) (faults self.new) };
}
