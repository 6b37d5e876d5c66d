//! What of an entry goes from source to target, and files that were given up.

use rc_tree::Attr;

/// What of a source entry goes to the target's, besides a file's bytes.
#[derive(Clone, Copy, Debug, PartialEq, Eq)]
pub struct Rules {
    /// The compared attributes of a copied file.
    pub attr: bool,
    /// Its created and written times.
    pub times: bool,
    /// Its access list.
    pub access: bool,
    /// Its owner.
    pub owner: bool,
    /// Its auditing.
    pub audit: bool,
    /// The compared attributes of a directory.
    pub dir_attr: bool,
    /// Its created and written times.
    pub dir_times: bool,
    /// Compared attributes that a copied file gets.
    pub plus: Attr,
    /// Compared attributes that a copied file does not have, also where it got them.
    pub minus: Attr,
    /// Files that stay get the flagged security, or the access list where none is flagged.
    pub secfix: bool,
    /// Files that stay get both times.
    pub timfix: bool,
}

/// A file that could not be copied: its place among the items of its plan, from 0, and how often it was tried.
#[derive(Clone, Copy, Debug, PartialEq, Eq)]
pub struct GivenUp {
    pub item: u32,
    pub tries: u32,
}
