//! Worked rows of the pure core: which events are allowed one after another, which are refused, and what a stop leaves.
//! They stand apart from the crate that they call, which is so proved once and not once more for its tests.
#![tactic(auto)]

#[cfg(test)]
mod events;
#[cfg(test)]
mod samples;
#[cfg(test)]
mod stops;
