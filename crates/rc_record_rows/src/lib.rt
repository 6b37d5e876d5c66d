//! Worked rows of records: what their bytes stand for, and at which place they are bad. They stand apart from the crate
//! that they call, which is so proved once and not once more for its tests.
#![tactic(auto)]

#[cfg(test)]
mod loads;
#[cfg(test)]
mod writes;
