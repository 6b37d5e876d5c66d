//! Worked rows of the calls on values: names, patterns, dates, words, jobs and classes. They stand apart from the crates
//! that they call, which are so proved once and not once more for their tests.
#![tactic(auto)]

#[cfg(test)]
mod classes;
#[cfg(test)]
mod dates;
#[cfg(test)]
mod jobs;
#[cfg(test)]
mod names;
#[cfg(test)]
mod patterns;
#[cfg(test)]
mod words;
