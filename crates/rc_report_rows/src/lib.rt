//! Worked rows of reports: lines, sizes, headers and summaries under each switch, and sinks of which
//! one write fails. They stand apart from the crate that they call, which is so proved once and not
//! once more for its tests.
#![tactic(auto)]

#[cfg(test)]
mod counts;
#[cfg(test)]
mod headers;
#[cfg(test)]
mod lines;
#[cfg(test)]
mod samples;
#[cfg(test)]
mod sinks;
#[cfg(test)]
mod switches;
