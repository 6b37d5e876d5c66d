//! Two trees made from one number: a site of ten thousand files for drills and measures.
//!
//! Both sides have the same hundred directories. A row of draws that begins at the number says for each file which side
//! has it, its bytes, and what sets the target's file apart from the source's. What stands at each key is a definition
//! of its own, `IsGenerated`, and [`generate`] makes the trees of which it holds.
#![tactic(auto)]

mod files;
mod laws;
mod names;
mod site;

pub use laws::one_tree_is_generated;
pub use site::{Generated, MOMENT, generate};
