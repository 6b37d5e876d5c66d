//! Patterns that users name files and folders by: what may be written, and what it matches.
//!
//! A pattern is held against one name: `*` stands for any run of characters, `?` for one, and any other character for
//! one with the same simple case folding; `*.*` is read as `*`. A path pattern has a `\` or a `/` and is held against a
//! whole path, name by name, behind the parts of a root that it begins with. The layer above is promised that a match
//! is the one that the definitions of this crate give, that it speaks of names by their folded forms alone, and that
//! no match takes memory.
#![tactic(auto)]

mod fault;
mod laws;
mod parts;
mod path_pattern;
mod pattern;
mod text;
mod walk;

pub use fault::{PatternErr, is_separator};
pub use laws::{matching_by_cases, matching_by_folding};
pub use parts::next_part;
pub use path_pattern::PathPattern;
pub use pattern::Pattern;
