//! The plan of a run: both sides of a site are read whole, each key of either is decided, and the limits are looked at.
//!
//! [`make_plan`] changes no tree. It answers the items of all decided keys, in the order of their keys, or that a directory
//! could not be listed, or which limit is passed.
#![tactic(auto)]

mod decisions;
mod entries;
mod items;
mod limits;
mod pairs;
mod plan;
mod rows;
mod settling;
mod sides;

pub use plan::{PlanErr, make_plan};
