//! All arguments of a drill.

ghost use Rattle.std.specs.Prelude.{◌≡◌, ◌<◌, ◌^◌, [], None, IfOk, is_some, length};
ghost use Rattle.rc_drillwords.specs.declared.arguments.ArgumentErr.TheVariants.{NoMemory as OutOfMemory};
ghost use Rattle.rc_drillwords.specs.Asking.{Adds, IsAsked, Refuses, bad_at, first_bad, spellings};

use crate::reading::{FailingCall, FailingReads, Reading, reading_of};
use rc_tree::NoMemory;
use std::alloc::{AllocError, AllocFailed, Global};
use thiserror::Error;

/// What the arguments of a drill ask for.
#[derive(Debug, Drop)]
pub struct Asked {
    /// The words of the run, in their order.
    pub words: Vec<String>,
    /// The number that the site is generated from, where it is generated.
    pub number: Option<u64>,
    /// The calls of the site that fail.
    pub calls: Vec<FailingCall>,
    /// The reads of the site that fail.
    pub reads: Vec<FailingReads>,
}

/// Why arguments are refused.
#[derive(Clone, Copy, Debug, PartialEq, Eq, Error)]
pub enum ArgumentErr {
    /// The argument of this number, from 1, is the first one that is bad.
    #[error("argument {place} is a bad word of a drill")]
    Bad { place: u64 },
    #[error("out of memory")]
    NoMemory,
}

impl From<AllocError> for ArgumentErr {
    ghost from_gives = { λ _ e. e ≡ OutOfMemory };

    fn from(_: AllocError) -> Self {
        ArgumentErr::NoMemory
    }
}

impl<T: Drop> From<AllocFailed<T>> for ArgumentErr {
    ghost from_gives = { λ _ e. e ≡ OutOfMemory };

    fn from(_: AllocFailed<T>) -> Self {
        ArgumentErr::NoMemory
    }
}

impl From<NoMemory> for ArgumentErr {
    ghost from_gives = { λ _ e. e ≡ OutOfMemory };

    fn from(_: NoMemory) -> Self {
        ArgumentErr::NoMemory
    }
}

/// What arguments ask for, or the first of them that is bad.
pub fn read_arguments(alloc: Global, args: &[String]) -> Result<Asked, ArgumentErr>
    ensures asked { IfOk result (IsAsked (spellings args.now)) }
    // They are refused exactly where one is bad, by the number of the first one.
    ensures refused { Refuses result (first_bad (spellings args.now)) }
{
    keeps_length(args);
    let mut asked = Asked::nothing(alloc);
    let mut rest = args;
    let mut place = 1;
    'arguments: while let [first, later @ ..] = rest {
        match asked.with(alloc, place, first.as_str()) {
            Ok(more) => asked = more,
            Err(e) => return Err(e),
        }
        rest = later;
        place += 1;
    }
    Ok(asked)
}

// No slice has more elements than can be counted.
fn keeps_length(args: &[String])
    ensures { length args.now < 2 ^ 63 }
{
    let _len = args.len();
}

impl Asked {
    fn nothing(alloc: Global) -> Asked
        ensures words { spellings result.words.items ≡ [] }
        ensures number { result.number ≡ None }
        ensures calls { result.calls.items ≡ [] }
        ensures reads { result.reads.items ≡ [] }
    {
        Asked {
            words: Vec::new(alloc),
            number: None,
            calls: Vec::new(alloc),
            reads: Vec::new(alloc),
        }
    }

    // What is asked with one more argument, which has this number.
    fn with(self, alloc: Global, place: u64, argument: &str) -> Result<Asked, ArgumentErr>
        ensures adds { IfOk result (λ more. Adds argument.now self more) }
        ensures bad { Refuses result (bad_at place (is_some self.number) argument.now) }
    {
        let mut asked = self;
        match reading_of(alloc, argument)? {
            Reading::OfRun => asked.words.push(String::from_str(alloc, argument)?)?,
            Reading::Bad => return Err(ArgumentErr::Bad { place }),
            Reading::Generate(number) => match asked.number {
                Some(_) => return Err(ArgumentErr::Bad { place }),
                None => asked.number = Some(number),
            },
            Reading::FailCall(call) => asked.calls.push(call)?,
            Reading::FailReads(reads) => asked.reads.push(reads)?,
        }
        Ok(asked)
    }
}
