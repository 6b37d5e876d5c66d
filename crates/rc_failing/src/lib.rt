//! The outside in memory with failures on request: a site, and the sink, input and job store beside it, over those of
//! `rc_mem`, which never fail.
//!
//! A call fails exactly where it was named: by its number on its part, by its kind, and a read by its path. A call that
//! fails changes nothing of what is told, and its part's count of faults rises. A changing call that fails is in the
//! site's log, so that a stop may leave it done. All else passes on, and what the one behind tells is told too.
#![tactic(auto)]

mod call;
mod named;
mod numbers;
mod reader;
mod reads;
mod site;
mod streams;

pub use call::Call;
pub use reader::{FailingReader, Failures};
pub use site::FailingSite;
pub use streams::Failing;
