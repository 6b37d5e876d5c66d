//! A site in memory that stops at a call that is named, and gives what the stop leaves.
//!
//! It keeps, beside what a site in memory keeps, what each part was when it was synced last. So where a plain site in
//! memory will do, nothing is paid for stops.
#![tactic(auto)]

mod drawing;
mod image;
mod kept;
mod laws;
mod stop;

pub use drawing::{drawn, next_state};
pub use kept::KeptSite;
pub use laws::{what_is_picked_may_be_left, what_is_spoiled_may_be_left};
pub use stop::StopSite;
