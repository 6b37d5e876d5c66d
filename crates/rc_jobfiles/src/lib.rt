//! What the words of a command line ask for, with the job files that they name: a job, or the reason why they are refused.
//!
//! The settings that a list of words and its job files give are merged into one job, each field by what stands among them;
//! a job is then refused as a whole where two of its settings can't stand together, a root is missing, its roots overlap,
//! or it is too long. The layer above is promised that it gets the job that the words ask for, or the first refusal, and
//! that the store of job files is as it was.
#![tactic(auto)]

mod effects;
mod job_err;
mod laws;
mod line;
mod listed;
mod lookup;
mod naming;
mod opening;
mod picking;
mod reading;
mod refusal;
mod resolving;
mod roots;
mod saving;

pub use effects::are_built;
pub use job_err::JobErr;
pub use laws::{resolved_jobs_are_whole, saved_jobs_are_read};
pub use naming::full_name;
pub use refusal::job_refusal;
pub use resolving::{Resolved, resolve};
pub use saving::save_text;
