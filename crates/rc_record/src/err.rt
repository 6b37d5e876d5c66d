//! Why it can't be said what a record stands for.

ghost use Rattle.std.specs.Prelude.{◌≡◌};
ghost use Rattle.rc_record.specs.declared.err.RecordErr.TheVariants.{BadRecord as Bad, NoMemory as OutOfMemory};

use rc_tree::NoMemory;
use std::alloc::{AllocError, AllocFailed};
use thiserror::Error;

#[derive(Clone, Copy, Debug, PartialEq, Eq, Error)]
pub enum RecordErr {
    /// A call on the record failed. The record's count of faults rose.
    #[error("the record failed")]
    RecordFault,
    /// The record stands for something that no run writes: the offset of the first field that is at fault. Where the
    /// record ends inside a field that is its length, and where it goes on behind its end the first byte too many.
    #[error("the record is bad at byte {place}")]
    BadRecord { place: u64 },
    #[error("out of memory")]
    NoMemory,
}

impl From<u64> for RecordErr {
    ghost from_gives = { λ place e. e ≡ Bad place };

    fn from(place: u64) -> Self {
        RecordErr::BadRecord { place }
    }
}

impl From<AllocError> for RecordErr {
    ghost from_gives = { λ _ e. e ≡ OutOfMemory };

    fn from(_: AllocError) -> Self {
        RecordErr::NoMemory
    }
}

impl<T: Drop> From<AllocFailed<T>> for RecordErr {
    ghost from_gives = { λ _ e. e ≡ OutOfMemory };

    fn from(_: AllocFailed<T>) -> Self {
        RecordErr::NoMemory
    }
}

impl From<NoMemory> for RecordErr {
    ghost from_gives = { λ _ e. e ≡ OutOfMemory };

    fn from(_: NoMemory) -> Self {
        RecordErr::NoMemory
    }
}
