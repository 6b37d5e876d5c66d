//! The copies of a plan's files: each file that is to be copied is made where the target lacks it, filled with the
//! source's bytes, and given the properties of a copy.
//!
//! [`copy_files`] changes the target at the keys of copied files alone. At `Ok` each has the goal of its item, and
//! where there is one, what reads of the target is all that a stop may leave of it; where there is none, no call was
//! made. At an error each is as it was, done, or a file on its way. It asks of the trees what the items of copies say
//! of both sides, and of directories only that a file's own stands: so other items may stand among them, at any depth,
//! and are passed over.
#![tactic(auto)]

mod copying;
mod err;
mod filling;
mod finishing;
mod laws;
mod reading;

pub use copying::{Copying, copy_files};
pub use err::CopyErr;
pub use laws::files_follow_their_directories;
