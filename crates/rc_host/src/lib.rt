//! The outside of a mirror on a host: folders as a site, a folder of job files, the clock, and streams as sinks.
//!
//! What a host holds between calls no proof sees, so nothing here tells what it holds. Promised is what every site,
//! store, clock and sink promises, told or not: a count of faults rises where a call fails and at no other answer, a
//! listing rises, a reader was made for what it was asked for, and roots are named as they were given.
//!
//! A folder of the host keeps no attributes, creation times and access lists of this kind. They stand in a table in a file
//! beside the root; what the host refuses, and what it shows that is no entry of a tree, is a fault.
#![tactic(auto)]

mod calls;
mod clock;
mod disk;
mod fault;
mod folder;
mod jobs;
mod keys;
mod known;
mod levels;
mod listing;
mod output;
mod own;
mod reader;
mod record;
mod roots;
mod rows;
mod site;
mod unsynced;

pub use clock::SystemClock;
pub use jobs::HostJobs;
pub use output::Output;
pub use reader::{HostReader, HostTally};
pub use site::HostSite;
