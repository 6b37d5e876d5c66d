//! The run of a mirror, from words and a site to the mirrored trees, the report and the exit bits.
//!
//! [`mirror_alone`] promises that at `Done` both trees are, key by key, the goals that the definitions give from the
//! words and the two trees on which it started, and that the report and the bits are those of the same decisions.
#![tactic(auto)]

mod keeping;
mod outcome;
mod run;
mod trees;
mod words;

pub use outcome::{Outcome, Unbuilt, outcome_text, status};
pub use run::{Ended, mirror_alone};
