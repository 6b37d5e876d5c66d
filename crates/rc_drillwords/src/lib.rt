//! The words of a drill: its own, which say what site is generated and what of a site fails, and those of the run.
//!
//! Each argument is read by itself. The layer above is promised the words that are left to the run in their order, all
//! that the drill's own words ask for, and the number of the first argument that is bad.
#![tactic(auto)]

mod arguments;
mod reading;
mod values;

pub use arguments::{ArgumentErr, Asked, read_arguments};
pub use reading::{FailingCall, FailingReads, Reading};
