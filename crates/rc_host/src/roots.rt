//! The texts of the roots, and the files beside them.

use crate::fault::Fault;
use rc_volume::Side;
use std::alloc::Global;

// The places of the two roots.
#[derive(Debug, Drop)]
pub(crate) struct Roots {
    pub(crate) source: String,
    pub(crate) target: String,
}

impl Roots {
    // The places that the texts of the roots name.
    pub(crate) fn new(alloc: Global, source: &str, target: &str) -> Result<Roots, Fault> {
        Ok(Roots {
            source: root_place(alloc, source)?,
            target: root_place(alloc, target)?,
        })
    }

    pub(crate) fn of(&self, side: Side) -> &str {
        match side {
            Side::Source => self.source.as_str(),
            Side::Target => self.target.as_str(),
        }
    }
}

// The place that a root's text names: each `\` is a `/`, and as long as more than one character is left, none stands at
// the end.
fn root_place(alloc: Global, text: &str) -> Result<String, Fault> {
    let slashed = with_slashes(alloc, text)?;
    Ok(String::from_str(alloc, without_end(slashed.as_str()))?)
}

// The same text with `/` in the place of each `\`.
pub(crate) fn with_slashes(alloc: Global, text: &str) -> Result<String, Fault> {
    Ok(text.chars().map(slashed).collect(alloc)?)
}

fn slashed(c: char) -> char {
    if c == '\\' { '/' } else { c }
}

fn without_end(text: &str) -> &str {
    let mut rest = text;
    for _ in 0..text.len() {
        match rest.strip_suffix('/') {
            Some(shorter) if !shorter.is_empty() => rest = shorter,
            _ => break,
        }
    }
    rest
}

// The file beside a root, or a file, with this at the end of its name.
pub(crate) fn beside(alloc: Global, root: &str, end: &str) -> Result<String, Fault> {
    let mut place = String::from_str(alloc, root)?;
    place.push_str(end)?;
    Ok(place)
}
