//! Why job files and the words that name them are refused.
ghost use Rattle.std.specs.Prelude.{◌≡◌};
ghost use Rattle.rc_jobfiles.specs.declared.job_err.JobErr.TheVariants.{NoMemory as OutOfMemory};

use rc_tree::{NoMemory, Text};
use std::alloc::AllocFailed;
use thiserror::Error;

/// Why words are refused. Each name is that of a job file as its word spells it, with `.RCJ` where that was added.
#[derive(Debug, Drop, Error)]
pub enum JobErr {
    /// A word of the job file `file`, by its number from 1; where `file` is empty, a word of the command line, or the
    /// job as a whole at place 0. The kinds are those of `rc_words` and `job_refusal`, 13 for a file that is no text,
    /// at place 1, or leaves a quote open at the end of the line of this number, and 14 for a word at which a 65th job
    /// file would be read.
    #[error("usage U{kind} at word {place}")]
    Usage { file: Text, place: u64, kind: u8 },
    /// The store has no such job file.
    #[error("a job file is missing")]
    Missing { name: Text },
    /// A job file would be the ninth within another.
    #[error("a job file is too deep")]
    Deep { name: Text },
    /// A job file is named while it is read.
    #[error("a job file names itself")]
    Round { name: Text },
    /// The store failed.
    #[error("the job store failed")]
    StoreFault,
    #[error("out of memory")]
    NoMemory,
}

impl From<NoMemory> for JobErr {
    ghost from_gives = { λ _ e. e ≡ OutOfMemory };

    fn from(_: NoMemory) -> Self {
        JobErr::NoMemory
    }
}

impl<T: Drop> From<AllocFailed<T>> for JobErr {
    ghost from_gives = { λ _ e. e ≡ OutOfMemory };

    fn from(_: AllocFailed<T>) -> Self {
        JobErr::NoMemory
    }
}
