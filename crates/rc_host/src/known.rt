//! What is known of the entries of a root: the listings that were read of its directories, with what was changed since.

use crate::fault::Fault;
use crate::keys::{place_in, split_key};
use rc_tree::{Entry, Kind, Name, NoMemory, Props};
use std::alloc::Global;
use std::collections::BTreeMap;
use std::ops::Bound;

// An entry.
#[derive(Debug, Drop)]
pub(crate) struct Known {
    pub(crate) name: Name,
    pub(crate) kind: Kind,
    // In bytes; 0 at a directory.
    pub(crate) size: u64,
    pub(crate) props: Props,
}

impl Known {
    // What a listing shows of it.
    pub(crate) fn entry(&self, alloc: Global) -> Result<Entry, NoMemory> {
        Ok(Entry {
            name: self.name.copy(alloc)?,
            kind: self.kind,
            size: self.size,
            props: self.props.copy(alloc)?,
        })
    }
}

// A directory that was listed: its place, and its entries by their folded names.
#[derive(Debug, Drop)]
pub(crate) struct Listed {
    pub(crate) place: String,
    pub(crate) entries: BTreeMap<String, Known>,
}

// The directories that were listed, by their keys.
#[derive(Debug, Drop)]
pub(crate) struct KnownTree {
    folders: BTreeMap<String, Listed>,
}

impl KnownTree {
    pub(crate) fn new(alloc: Global) -> KnownTree {
        KnownTree {
            folders: BTreeMap::new(alloc),
        }
    }

    // The listing of a directory.
    pub(crate) fn listed(&self, key: &str) -> Option<&Listed> {
        self.folders.get(key)
    }

    pub(crate) fn is_listed(&self, key: &str) -> bool {
        self.folders.contains_key(key)
    }

    // Puts the listing of a directory in.
    pub(crate) fn add_folder(&mut self, key: String, listed: Listed) -> Result<(), Fault> {
        self.folders.insert(key, listed)?;
        Ok(())
    }

    pub(crate) fn remove_folder(&mut self, key: &str) {
        let _ = self.folders.remove(key);
    }

    // The entry at a key.
    pub(crate) fn at(&self, key: &str) -> Option<&Known> {
        let (above, name) = split_key(key);
        match self.folders.get(above) {
            Some(listed) => listed.entries.get(name),
            None => None,
        }
    }

    pub(crate) fn at_mut(&mut self, key: &str) -> Option<&mut Known> {
        let (above, name) = split_key(key);
        match self.folders.get_mut(above) {
            Some(listed) => listed.entries.get_mut(name),
            None => None,
        }
    }

    pub(crate) fn is_folder(&self, key: &str) -> bool {
        match self.at(key) {
            Some(known) => known.kind == Kind::Dir,
            None => false,
        }
    }

    // Puts an entry in, into a directory that was listed.
    pub(crate) fn add(&mut self, alloc: Global, key: &str, known: Known) -> Result<(), Fault> {
        let (above, name) = split_key(key);
        let name = String::from_str(alloc, name)?;
        match self.folders.get_mut(above) {
            Some(listed) => {
                listed.entries.insert(name, known)?;
                Ok(())
            }
            None => Err(Fault::Failed),
        }
    }

    // Takes an entry out.
    pub(crate) fn remove(&mut self, key: &str) {
        let (above, name) = split_key(key);
        if let Some(listed) = self.folders.get_mut(above) {
            let _ = listed.entries.remove(name);
        }
    }

    // The place of an entry; none where it is not known.
    pub(crate) fn place(&self, alloc: Global, key: &str) -> Result<Option<String>, Fault> {
        let (above, name) = split_key(key);
        let Some(listed) = self.folders.get(above) else {
            return Ok(None);
        };
        match listed.entries.get(name) {
            Some(known) => Ok(Some(place_in(alloc, listed.place.as_str(), known.name.text())?)),
            None => Ok(None),
        }
    }

    // Whether a row of a table is one of an entry, or of one that may be there below a directory that was not listed.
    pub(crate) fn keeps_row(&self, key: &str) -> bool {
        let (above, name) = split_key(key);
        if let Some(listed) = self.folders.get(above) {
            return listed.entries.contains_key(name);
        }
        let mut rest = above;
        for _ in 0..key.len() {
            let (above, name) = split_key(rest);
            if let Some(listed) = self.folders.get(above) {
                return match listed.entries.get(name) {
                    Some(known) => known.kind == Kind::Dir,
                    None => false,
                };
            }
            rest = above;
        }
        false
    }
}

impl Listed {
    // A directory without entries.
    pub(crate) fn empty(alloc: Global, place: String) -> Listed {
        Listed {
            place,
            entries: BTreeMap::new(alloc),
        }
    }

    // The entry with the least folded name above this one, or the first of all.
    pub(crate) fn next(&self, after: Option<&String>) -> Option<&Known> {
        match self
            .entries
            .range((start_behind(after), Bound::Unbounded))
            .next()
        {
            Some((_, known)) => Some(known),
            None => None,
        }
    }
}

fn start_behind<'a>(after: Option<&'a String>) -> Bound<&'a String> {
    match after {
        Some(last) => Bound::Excluded(last),
        None => Bound::Unbounded,
    }
}
