//! Keys of entries, and places on the host.
//!
//! A key is the text under which a table keeps an entry: the folded names from the root down, with `\` between them. The
//! root's is empty.

use crate::fault::Fault;
use rc_tree::{Name, Text};
use std::alloc::Global;

// How many names a path has at most.
pub(crate) const GREATEST_DEPTH: usize = 64;

pub(crate) fn key_of(alloc: Global, names: &[Name]) -> Result<String, Fault> {
    let mut key = String::new(alloc);
    for name in names {
        if !key.is_empty() {
            key.push('\\')?;
        }
        push_folded(alloc, &mut key, name)?;
    }
    Ok(key)
}

pub(crate) fn folded(alloc: Global, name: &Name) -> Result<String, Fault> {
    let mut key = String::new(alloc);
    push_folded(alloc, &mut key, name)?;
    Ok(key)
}

fn push_folded(alloc: Global, key: &mut String, name: &Name) -> Result<(), Fault> {
    let folded = Text::folded(alloc, name.text())?;
    key.push_str(folded.text())?;
    Ok(())
}

// The key of the entry of a folded name in a directory.
pub(crate) fn key_in(alloc: Global, dir: &str, name: &str) -> Result<String, Fault> {
    let mut key = String::from_str(alloc, dir)?;
    if !dir.is_empty() {
        key.push('\\')?;
    }
    key.push_str(name)?;
    Ok(key)
}

// The directory's key and the folded name of a key.
pub(crate) fn split_key(key: &str) -> (&str, &str) {
    match key.rsplit_once('\\') {
        Some(split) => split,
        None => ("", key),
    }
}

// How many names a key has.
pub(crate) fn depth(key: &str) -> usize {
    if key.is_empty() {
        0
    } else {
        key.split('\\').count()
    }
}

// The place of an entry in the directory of this place.
pub(crate) fn place_in(alloc: Global, folder: &str, name: &str) -> Result<String, Fault> {
    let mut place = String::from_str(alloc, folder)?;
    if !folder.ends_with('/') {
        place.push('/')?;
    }
    place.push_str(name)?;
    Ok(place)
}

// The place of the directory that a place lies in.
pub(crate) fn place_above(place: &str) -> &str {
    match place.rsplit_once('/') {
        Some(("", _)) => "/",
        Some((above, _)) => above,
        None => ".",
    }
}

// The last name of a place.
pub(crate) fn last_name(place: &str) -> &str {
    match place.rsplit_once('/') {
        Some((_, name)) => name,
        None => place,
    }
}
