//! The calls of a site that show entries, by their words.

use crate::words::{write_entry, write_props};
use rc_host::HostSite;
use rc_tree::{Entry, Name, Path};
use rc_volume::{Side, Site, SiteErr};
use std::alloc::Global;
use std::test::Fail;

// The answer of such a call; none where it is another one.
pub(crate) fn look_answer(
    site: &mut HostSite,
    alloc: Global,
    call: &str,
    side: Side,
    path: &Path,
    with: &str,
) -> Result<Option<String>, Fail> {
    match call {
        "list" => Ok(Some(list(site, alloc, side, path)?)),
        "next" => Ok(Some(next(site, alloc, side, path, with)?)),
        "stat" => Ok(Some(stat(site, alloc, side, path, false)?)),
        "props" => Ok(Some(stat(site, alloc, side, path, true)?)),
        _ => Ok(None),
    }
}

pub(crate) fn site_word(error: SiteErr) -> &'static str {
    match error {
        SiteErr::Failed => "refused",
        SiteErr::NoMemory => "no memory",
    }
}

// The entry at a path, or its properties.
fn stat(
    site: &mut HostSite,
    alloc: Global,
    side: Side,
    path: &Path,
    shows_props: bool,
) -> Result<String, Fail> {
    if path.names().is_empty() {
        return Err("no name")?;
    }
    match site.stat(alloc, side, path) {
        Ok(Some(entry)) if shows_props => write_props(alloc, &entry.props),
        found => entry_text(alloc, &found),
    }
}

fn entry_text(alloc: Global, found: &Result<Option<Entry>, SiteErr>) -> Result<String, Fail> {
    match found {
        Ok(Some(entry)) => write_entry(alloc, entry),
        Ok(None) => Ok(String::from_str(alloc, "none")?),
        Err(error) => Ok(String::from_str(alloc, site_word(*error))?),
    }
}

// The entry that follows a name.
fn next(
    site: &mut HostSite,
    alloc: Global,
    side: Side,
    dir: &Path,
    after: &str,
) -> Result<String, Fail> {
    let after = Name::read(alloc, after)?;
    let found = site.next_entry(alloc, side, dir, Some(&after));
    entry_text(alloc, &found)
}

// The most entries that a directory of a test has.
const MOST: usize = 100;

// The entries of a directory, from the first one on.
fn list(site: &mut HostSite, alloc: Global, side: Side, dir: &Path) -> Result<String, Fail> {
    let mut text = String::from_str(alloc, "all")?;
    let mut last = None;
    for _ in 0..MOST {
        match site.next_entry(alloc, side, dir, last.as_ref()) {
            Ok(Some(entry)) => {
                push_entry(alloc, &mut text, &entry)?;
                last = Some(entry.name.copy(alloc)?);
            }
            Ok(None) => return Ok(text),
            Err(error) => return Ok(String::from_str(alloc, site_word(error))?),
        }
    }
    Err("too many entries")?
}

fn push_entry(alloc: Global, text: &mut String, entry: &Entry) -> Result<(), Fail> {
    let word = write_entry(alloc, entry)?;
    text.push(' ')?;
    text.push_str(word.as_str())?;
    Ok(())
}
