//! Why the bytes of a job file have no words.
ghost use Rattle.std.specs.Prelude.{◌≡◌};
ghost use Rattle.rc_jobtext.specs.declared.reading.JobTextErr.TheVariants.{NoMemory as OutOfMemory};

use rc_tree::NoMemory;
use std::alloc::AllocFailed;
use thiserror::Error;

/// Why the bytes of a job file have no words. Want of memory may come in place of it.
#[derive(Clone, Copy, Debug, PartialEq, Eq, Error)]
pub enum JobTextErr {
    /// They are no text, at place 1, or a quote is open at the end of the line of this number, from 1.
    #[error("bad text at line {place}")]
    BadText { place: u64 },
    #[error("out of memory")]
    NoMemory,
}

impl From<NoMemory> for JobTextErr {
    ghost from_gives = { λ _ e. e ≡ OutOfMemory };

    fn from(_: NoMemory) -> Self {
        JobTextErr::NoMemory
    }
}

impl<T: Drop> From<AllocFailed<T>> for JobTextErr {
    ghost from_gives = { λ _ e. e ≡ OutOfMemory };

    fn from(_: AllocFailed<T>) -> Self {
        JobTextErr::NoMemory
    }
}
