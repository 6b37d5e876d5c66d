//! Worked rows of words and of the job files that they name: nested ones, merged ones, refused ones, and those that are
//! saved and read back.
#![tactic(auto)]

#[cfg(test)]
mod asks;
#[cfg(test)]
mod faults;
#[cfg(test)]
mod limits;
#[cfg(test)]
mod rows;
#[cfg(test)]
mod stores;
#[cfg(test)]
mod texts;
