//! Worked rows of property tables, in memory and in files. They stand apart from the crate that they call, which is so
//! proved once and not once more for its tests.
#![tactic(auto)]

#[cfg(test)]
mod damage;
#[cfg(test)]
mod files;
#[cfg(test)]
mod folder;
#[cfg(test)]
mod tables;
