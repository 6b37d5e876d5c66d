//! Worked rows of sites in memory, of what a stop may leave of them, and of calls that fail on request. They stand apart from the crates that they call,
//! which are so proved once and not once more for their tests.
#![tactic(auto)]

#[cfg(test)]
mod failures;
#[cfg(test)]
mod sites;
pub mod stops;
