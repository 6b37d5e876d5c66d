//! What a job decides of a key: whether it is decided, its act, and what becomes of the source's entry then, by what the
//! two sides have there and by what lies around it.
//!
//! The definitions of this crate speak of one key and two whole trees (`specs/Scope.antt`, `specs/Filters.antt`,
//! `specs/Acts.antt`, `specs/Releases.antt`, `specs/Decided.antt`). The calls compute one case of them each, with what
//! lies around the key handed in, and take no memory. The laws say how a key's decision follows from the calls' answers
//! along any walk, and what every decided item says of both sides.
#![tactic(auto)]

mod decide;
mod extras;
mod filters;
mod laws;
mod matching;
mod release;
mod scope;

pub use decide::{copies_bytes, decide_dir, decide_file, grain, rules};
pub use extras::decide_extra;
pub use laws::{
    decided_items, decisions_by_neighbours, plans_have_the_planned_items, removed_sources_stand,
};
pub use release::decide_after;
pub use scope::{in_scope, is_decided, reaches};
