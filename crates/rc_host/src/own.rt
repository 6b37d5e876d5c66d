//! The files beside the roots, which are no entries of a tree.

use crate::disk::{Id, Standing, look, look_at_root_or_above};
use crate::fault::Fault;
use crate::roots::{Roots, beside};
use rc_tree::Kind;
use rc_volume::Side;
use std::alloc::Global;

// What a file beside a root has at the end of its name: the tables of both roots, the record and the history of the
// target, and what a database keeps beside its file.
const BESIDE_EACH: &[&str] = &[".rct", ".rct-wal"];

const BESIDE_TARGET: &[&str] = &[".rcr", ".rch", ".rch-wal"];

// The places of the files beside the roots, and the other root.
#[derive(Debug, Drop)]
pub(crate) struct OwnFiles {
    files: Vec<String>,
    other_root: String,
}

// What a listing of the host may show that is no entry: those files, and the other root, or the folder in which that would be
// made; it may not lie in this one.
#[derive(Debug, Drop)]
pub(crate) struct Marks {
    pub(crate) hidden: Vec<Id>,
    pub(crate) other_root: Option<Id>,
}

impl OwnFiles {
    // The files beside both roots, as one side sees them.
    pub(crate) fn new(alloc: Global, roots: &Roots, side: Side) -> Result<OwnFiles, Fault> {
        let mut files = Vec::new(alloc);
        for end in BESIDE_EACH {
            files.push(beside(alloc, roots.source.as_str(), end)?)?;
            files.push(beside(alloc, roots.target.as_str(), end)?)?;
        }
        for end in BESIDE_TARGET {
            files.push(beside(alloc, roots.target.as_str(), end)?)?;
        }
        let other_root = match side {
            Side::Source => roots.target.as_str(),
            Side::Target => roots.source.as_str(),
        };
        Ok(OwnFiles {
            files,
            other_root: String::from_str(alloc, other_root)?,
        })
    }

    // What of them is there now.
    pub(crate) fn marks(&self, rt: &HostRuntime, alloc: Global) -> Result<Marks, Fault> {
        let mut hidden = Vec::new(alloc);
        for file in &self.files {
            match look(rt, file.as_str())? {
                Some(found) if found.kind == Kind::File => hidden.push(found.id)?,
                _ => (),
            }
        }
        Ok(Marks {
            hidden,
            other_root: id_of(look_at_root_or_above(rt, self.other_root.as_str())?),
        })
    }
}

fn id_of(found: Option<Standing>) -> Option<Id> {
    match found {
        Some(found) => Some(found.id),
        None => None,
    }
}
