//! Worked rows of plans and runs, over sites in memory and over such on which a call fails. They stand apart from
//! the crates that they call, which are so proved once and not once more for their tests.
#![tactic(auto)]

#[cfg(test)]
mod runs;
