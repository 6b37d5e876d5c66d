//! Why a call on the host gave up.

use rc_table::TableErr;
use rc_tree::{NameErr, NoMemory};
use std::alloc::{AllocError, AllocFailed};
use std::io::{self, ErrorKind};

// The host refused, or showed what is no entry of a tree; or want of memory.
#[derive(Clone, Copy, Debug, PartialEq, Eq)]
pub(crate) enum Fault {
    Failed,
    NoMemory,
}

// The answer of a call behind which something is changed already. Want of memory says that nothing is changed, so that it
// is a failure here.
pub(crate) fn half_done<E: Drop>(answer: Result<(), E>) -> Result<(), Fault> {
    match answer {
        Ok(()) => Ok(()),
        Err(_) => Err(Fault::Failed),
    }
}

impl From<io::Error> for Fault {
    fn from(error: io::Error) -> Fault {
        match error.kind() {
            ErrorKind::OutOfMemory => Fault::NoMemory,
            _ => Fault::Failed,
        }
    }
}

impl From<AllocError> for Fault {
    fn from(_: AllocError) -> Fault {
        Fault::NoMemory
    }
}

impl<T: Drop> From<AllocFailed<T>> for Fault {
    fn from(_: AllocFailed<T>) -> Fault {
        Fault::NoMemory
    }
}

impl From<NoMemory> for Fault {
    fn from(_: NoMemory) -> Fault {
        Fault::NoMemory
    }
}

impl From<NameErr> for Fault {
    fn from(error: NameErr) -> Fault {
        match error {
            NameErr::NoMemory => Fault::NoMemory,
            _ => Fault::Failed,
        }
    }
}

impl From<TableErr> for Fault {
    fn from(error: TableErr) -> Fault {
        match error {
            TableErr::NoMemory => Fault::NoMemory,
            TableErr::Failed => Fault::Failed,
        }
    }
}
