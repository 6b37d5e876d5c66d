//! What a mirror decides, as data: the class of a key, its act, the plan of a run with its units, and what a run
//! leaves at a key by what was decided there.
//!
//! Nothing here sees a job or a site. The layers above say of which key which item is decided; the definitions of this
//! crate say what such items mean: what both sides have there (`IsDecidedIn` in `specs/Sides.antt`), the goal of a key
//! ([`copied_props`] and [`directory_props`] compute the parts that code needs), the plan of a start, and the units of
//! its copies.
#![tactic(auto)]

mod class;
mod decision;
mod facts;
mod item;
mod laws;
mod noted;
mod plan;
mod props;
mod rules;

pub use class::{Class, class_of, same_attr};
pub use decision::{Act, After, Reason};
pub use facts::{Facts, Grain, same_time};
pub use item::{Item, Items};
pub use laws::{left_keys_stay, one_plan, ranges_fill_a_file};
pub use noted::{Marks, Noted};
pub use plan::{Plan, unit_count};
pub use props::{copied_props, directory_props, fixed_props, fresh_props};
pub use rules::{GivenUp, Rules};
