//! The outside of a mirror, as traits: the site with its two trees and its record, the reader of source bytes, the
//! clock, the sink of the report, the store of job files and the input.
//!
//! A trait's ghost members say what an object holds, where it tells that (`tells`), and how often its parts failed.
//! Each call says what it needs, what it answers, what it changes and what stays; that a count of faults rises where
//! the call answers `Failed`, and at no other answer; and what a failed call may leave. A site over memory tells
//! everything, one over host folders nothing: all that is said under `tells` is promised of the first alone.
//!
//! All that contracts see of a site is one value, its view; what a call leaves of it is one clause, the call's frame.
#![tactic(auto)]

mod binding;
mod clock;
mod input;
mod job_store;
pub mod laws;
mod reader;
mod sink;
mod site;
mod want;

pub use binding::Binding;
pub use clock::Clock;
pub use input::{Input, InputErr};
pub use job_store::{JobStore, StoreErr};
pub use rc_tree::Scan;
pub use reader::{ReadErr, Reader};
pub use sink::{Sink, SinkErr};
pub use site::{BindErr, Part, Side, Site, SiteErr};
pub use want::{Ranges, Want};
