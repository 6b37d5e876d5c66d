//! What a job asks for: the settings by which a mirror decides, runs and reports.
#![tactic(auto)]

mod choices;
mod flags;
mod job;
mod laws;
mod lines;
mod lists;
mod rows;
mod text;

pub use choices::{Moving, Sub};
pub use flags::{CopyFlags, DirectoryFlags};
pub use job::Job;
pub use laws::{a_core_text_has_one_decision, a_text_has_one_job, the_defaults_are_allowed};
pub use lists::{Exclude, Excludes, Patterns};
