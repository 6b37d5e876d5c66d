//! The record of a run, as a rerun reads it and a run writes it: a plan and how far a run came with it, in bytes that
//! nothing else vouches for.
//!
//! What bytes stand for is one definition, `stands` in `specs/Grammar.antt`: nothing, where the plan's gate does not stand;
//! else what is noted of a run, or the place of the first field that is at fault. [`load`] answers just that for every
//! list of bytes, and only once the record was synced, so that a later stop can't leave other bytes. Its fields are public:
//! [`head_at`] and [`item_at`] read one part by itself. How a plan is spelled is one definition too, `record_of` in
//! `specs/Spelling.antt`, and what is spelled so stands for that plan and its marks.
//!
//! [`begin`], [`open_gate`], [`mark`] and [`clear`] write it, each step durable before the next one, so that whatever a stop
//! leaves stands for nothing, or for what a rerun can go on from (`specs/Writing.antt`): in the record of a plan that `load`
//! answers the plan can be marked.
//!
//! Reading and beginning cost the bytes of the record, which are held whole meanwhile; a mark costs a walk over the
//! plan's items.
#![tactic(auto)]

mod codes;
mod durable;
mod err;
mod fields;
mod head;
mod item;
mod items;
mod laws;
mod loading;
mod marks;
mod noted;
mod room;
mod spelling;
mod writing;

pub use err::RecordErr;
pub use head::{Head, head_at};
pub use item::item_at;
pub use laws::{a_record_stands_for_a_plan, a_spelled_record_stands_for_its_plan};
pub use loading::load;
pub use marks::MarkPlace;
pub use room::{ITEMS_MAX, SIZE_MAX, TEXT_MAX, UNITS_MAX};
pub use writing::{begin, clear, mark, open_gate};
