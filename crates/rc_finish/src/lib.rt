//! The passes of a run around its copies. Before them directories are made, from the root down, and what is to be purged
//! is removed, from below; behind them what was made or stays gets its properties, from below, and last of all entries
//! of the source are removed, or lose A.
//!
//! Each pass changes one side, at the keys of its own items alone, in the way that the plan says, and ends with a sync
//! of that side exactly where the plan has an item for it. It asks of the trees what the items say of both sides, and
//! not that they are as at the start: so it can be done again on what an earlier run left.
#![tactic(auto)]

mod directories;
mod err;
mod laws;
mod properties;
mod purging;
mod removals;
mod sources;
mod tries;

pub use directories::make_dirs;
pub use err::FinishErr;
pub use laws::{
    a_freed_source_has_its_goal, a_pass_is_durable, a_plan_fits, passes_leave_images,
    trees_on_their_way_fit,
};
pub use properties::props_pass;
pub use purging::purge;
pub use sources::release_sources;
