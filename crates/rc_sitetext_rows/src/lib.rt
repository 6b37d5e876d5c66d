//! Worked rows of site texts: which are accepted, and at which line and by which kind the others are refused. They stand
//! apart from the crate that they call, which is so proved once and not once more for its tests.
#![tactic(auto)]

#[cfg(test)]
mod accepted;
#[cfg(test)]
mod refused;
#[cfg(test)]
mod texts;
