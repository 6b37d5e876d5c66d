//! A site, a moment and job files as a text, both ways. [`read_site`] takes just the texts that [`write_site`] gives of
//! what has one: each site has one spelling, and every other text is refused by its first fault, by line and kind.
//!
//! A text has a line for each entry, in the order of the entries' keys. So a directory stands before what stands in it,
//! and a path begins with the names of its directory as the directory's own line spells them. A reader takes one line
//! after the other into what the lines so far have said. Writing costs the bytes of the text, and reading beside them the
//! sizes that it names and a look-up in the tree for each line.
#![tactic(auto)]

mod draft;
mod entry;
mod err;
mod fields;
mod jobs;
mod reader;
mod site_file;
mod values;
mod writer;

pub use err::{FaultKind, SiteTextErr};
pub use reader::read_site;
pub use site_file::SiteFile;
pub use values::GREATEST_SIZE;
pub use writer::write_site;
