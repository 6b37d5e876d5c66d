//! Making a directory with all those above it.

use crate::disk::{Standing, look_at_root, make};
use crate::fault::Fault;
use crate::keys::place_above;
use crate::unsynced::Unsynced;
use rc_tree::Kind;
use std::alloc::Global;

// Makes the directory at a place, and those above it, where they are not there. What is made is noted for the next sync.
pub(crate) fn make_levels(
    rt: &HostRuntime,
    alloc: Global,
    unsynced: &mut Unsynced,
    place: &str,
) -> Result<(), Fault> {
    for end in 1..=place.len() {
        if let Some(level) = level_at(place, end) {
            make_level(rt, alloc, unsynced, level)?;
        }
    }
    Ok(())
}

// The front of a place, where a name ends there.
fn level_at(place: &str, end: usize) -> Option<&str> {
    match place.split_at_checked(end) {
        Some((level, rest)) if rest.is_empty() || rest.starts_with('/') => Some(level),
        _ => None,
    }
}

fn make_level(
    rt: &HostRuntime,
    alloc: Global,
    unsynced: &mut Unsynced,
    level: &str,
) -> Result<(), Fault> {
    match look_at_root(rt, level)? {
        Some(
            Standing {
                kind: Kind::Dir,
                ..
            },
        ) => Ok(()),
        Some(_) => Err(Fault::Failed),
        None => {
            unsynced.note_folder(alloc, place_above(level))?;
            make(rt, level, Kind::Dir)
        }
    }
}
