//! Why no site was read from a text: its first fault, by line and kind.

ghost use Rattle.std.specs.Prelude.{◌≡◌};
ghost use Rattle.rc_sitetext.specs.declared.err.LineErr.TheVariants.{NoMemory as NoMemoryForLine};
ghost use Rattle.rc_sitetext.specs.declared.err.ValueErr.TheVariants.{NoMemory as OutOfMemory};
ghost use Rattle.rc_sitetext.specs.Reading.{path_refusal, hex_refusal};
ghost use Rattle.rc_sitetext.specs.Faults.{fault_number};

use hex::FromHexError;
use rc_tree::{NoMemory, PathErr};
use std::alloc::{AllocError, AllocFailed};
use thiserror::Error;

/// What is wrong with a line. Of one line the first of `Utf8`, `Line`, `Field`, `Limit`, `Parent`, `Order`, `Content` is
/// answered.
#[derive(Clone, Copy, Debug, PartialEq, Eq, Error)]
pub enum FaultKind {
    /// The line is none that may stand there, or has another number of fields.
    #[error("no line that may stand here")]
    Line,
    /// A field is spelled otherwise than its values are, or a path is the root.
    #[error("a field is misspelled")]
    Field,
    /// The key, or the folded name of a job file, is not above the one before.
    #[error("out of order")]
    Order,
    /// No directory of the entry was given before, or its path is spelled otherwise there.
    #[error("no such directory before")]
    Parent,
    /// The content is not that of so many bytes, or is spelled otherwise.
    #[error("another content")]
    Content,
    /// The text ends before the end of the line `END`, or goes on behind it.
    #[error("the end is elsewhere")]
    End,
    /// The line is not UTF-8.
    #[error("not UTF-8")]
    Utf8,
    /// A moment or a size is above the greatest, or a security string too long.
    #[error("above a limit")]
    Limit,
}

impl FaultKind {
    /// Its number, from 1 to 8.
    pub fn number(self) -> u8
        ensures { result ≡ fault_number self }
    {
        match self {
            FaultKind::Line => 1,
            FaultKind::Field => 2,
            FaultKind::Order => 3,
            FaultKind::Parent => 4,
            FaultKind::Content => 5,
            FaultKind::End => 6,
            FaultKind::Utf8 => 7,
            FaultKind::Limit => 8,
        }
    }
}

/// Why a site could not be read from a text.
#[derive(Clone, Copy, Debug, PartialEq, Eq, Error)]
pub enum SiteTextErr {
    /// The first line that has a fault, from 1, and which it is. A text that ends too early has it in the last line that
    /// was begun, and one that goes on in the first line behind the end.
    #[error("line {line}: {kind}")]
    At { line: u64, kind: FaultKind },
    /// There is no memory left.
    #[error("out of memory")]
    NoMemory,
}

/// Why a line could not be read.
#[derive(Clone, Copy, Debug, PartialEq, Eq)]
pub(crate) enum LineErr {
    Fault(FaultKind),
    NoMemory,
}

impl From<AllocError> for LineErr {
    ghost from_gives = { λ _ e. e ≡ NoMemoryForLine };

    fn from(_: AllocError) -> Self {
        LineErr::NoMemory
    }
}

impl From<NoMemory> for LineErr {
    ghost from_gives = { λ _ e. e ≡ NoMemoryForLine };

    fn from(_: NoMemory) -> Self {
        LineErr::NoMemory
    }
}

/// Why a value could not be read from a field.
#[derive(Clone, Copy, Debug, PartialEq, Eq)]
pub(crate) enum ValueErr {
    Refused,
    NoMemory,
}

impl From<AllocError> for ValueErr {
    ghost from_gives = { λ _ e. e ≡ OutOfMemory };

    fn from(_: AllocError) -> Self {
        ValueErr::NoMemory
    }
}

impl<T: Drop> From<AllocFailed<T>> for ValueErr {
    ghost from_gives = { λ _ e. e ≡ OutOfMemory };

    fn from(_: AllocFailed<T>) -> Self {
        ValueErr::NoMemory
    }
}

impl From<NoMemory> for ValueErr {
    ghost from_gives = { λ _ e. e ≡ OutOfMemory };

    fn from(_: NoMemory) -> Self {
        ValueErr::NoMemory
    }
}

impl From<PathErr> for ValueErr {
    ghost from_gives = { λ err e. e ≡ path_refusal err };

    fn from(err: PathErr) -> Self {
        match err {
            PathErr::NoMemory => ValueErr::NoMemory,
            _ => ValueErr::Refused,
        }
    }
}

impl From<FromHexError> for ValueErr {
    ghost from_gives = { λ err e. e ≡ hex_refusal err };

    fn from(err: FromHexError) -> Self {
        match err {
            FromHexError::OutOfMemory => ValueErr::NoMemory,
            _ => ValueErr::Refused,
        }
    }
}
