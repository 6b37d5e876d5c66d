//! Names, paths and keys, attributes and properties: what an entry of a mirrored tree is made of.
//!
//! A name is what a file system shows of one entry; its folded form is what two names are compared by. A path is a
//! list of names from the root down, and its key is the list of their folded forms: two paths with one key are one
//! entry. Contracts see a text, a name, a path and a key as lists of characters, and a tree as a finite map from keys
//! to nodes, which the definitions of this crate give.
#![tactic(auto)]

mod attr;
mod entry;
mod laws;
mod memory;
mod moment;
mod name;
mod path;
mod props;
mod security;
mod text;

pub use attr::{Attr, Kind};
pub use entry::{Entry, Scan};
pub use laws::{entries_stand_in_directories, spelled_paths};
pub use memory::NoMemory;
pub use moment::{GREATEST_MOMENT, Moment};
pub use name::{Name, NameErr};
pub use path::{Key, Path, PathErr};
pub use props::Props;
pub use security::{GREATEST_SECURITY, Security};
pub use text::Text;
