//! The pure core of copying: which units are claimed, put, settled, marked and given back, which files are finished, and what
//! a stop may leave of the target meanwhile, without threads, files or clocks.
//!
//! A [`State`] is all that a run knows while it copies the files of a plan, and [`step`] takes it on by one [`Event`].
//! What an event asks and what it does are definitions on plain data (`specs/Events.antt`). Whatever events come, in
//! whatever order, the state stays sound (`specs/Sound.antt`). The layers above that work on a site show that each of
//! their calls is one such event.
#![tactic(auto)]

mod aspects;
mod claims;
mod event;
mod fails;
mod files;
mod finishes;
mod goals;
mod held;
mod images;
mod laws;
mod left;
mod marking;
mod marks;
mod node;
mod opening;
mod parts;
mod puts;
mod reruns;
mod rows;
mod state;
mod stepping;
mod stops;
mod touched;

pub use event::{CoreErr, Event, What};
pub use laws::{follows_law, images_follow, soundness_is_kept, stops_follow};
pub use node::{Bytes, Node, Nodes, Standing};
pub use rows::{
    Copied, Extent, FileRow, FileRows, FileState, Holding, UnitRow, UnitRows, UnitState,
};
pub use state::State;
pub use stepping::step;
pub use touched::Touched;
