//! The report of a plan: its totals by column, the exit bits, and the text.
//!
//! [`report_to`] promises that a sink receives exactly the text that the definitions of this crate
//! give from the job's switches, the plan and the files that were given up: the header, a line for
//! each key that has one, and the summary; or a front of that text after an error. [`count_totals`]
//! and [`bits`] give the numbers of the same items.
//!
//! A plan is gone through twice, once for the lines and once for all totals, and no more of the
//! text is held in memory than the header, one line or the summary.
#![tactic(auto)]

mod given;
mod header;
mod lines;
mod parts;
mod report;
mod sizes;
mod stamps;
mod summary;
mod tags;
mod totals;

pub use parts::push_path;
pub use report::report_to;
pub use totals::{Column, Totals, bits, count_totals};
