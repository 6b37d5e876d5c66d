//! Worked rows of generated sites. They stand apart from the crate that they call, which is so proved once and not once
//! more for its tests.
#![tactic(auto)]

#[cfg(test)]
mod generated;
