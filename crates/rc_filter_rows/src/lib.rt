//! Worked rows of what a job decides of a key, and of the filters. They stand apart from the crate that they call, which is so
//! proved once and not once more for its tests.
#![tactic(auto)]

#[cfg(test)]
mod decisions;
#[cfg(test)]
mod filters;
