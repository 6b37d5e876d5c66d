//! Worked rows of sites over folders of the host, each in a folder of its own, looked at by the
//! host's own calls. They stand apart from the crate that they call, which is so proved once and
//! not once more for its tests.
//!
//! Most are tables of calls with their answers in words, which one bench makes: `bench` says how
//! they are read.
#![tactic(auto)]

#[cfg(test)]
mod absent;
#[cfg(test)]
mod bench;
#[cfg(test)]
mod beside;
#[cfg(test)]
mod change;
#[cfg(test)]
mod changes;
#[cfg(test)]
mod faults;
#[cfg(test)]
mod folder;
#[cfg(test)]
mod jobs;
#[cfg(test)]
mod listings;
#[cfg(test)]
mod looks;
#[cfg(test)]
mod reads;
#[cfg(test)]
mod record;
#[cfg(test)]
mod roots;
#[cfg(test)]
mod rows;
#[cfg(test)]
mod scans;
#[cfg(test)]
mod streams;
#[cfg(test)]
mod words;
