//! The calls of a site that change entries, by their words.

use crate::looks::site_word;
use crate::words::{number_and, read_props};
use rc_host::HostSite;
use rc_tree::Path;
use rc_volume::{Side, Site, SiteErr};
use std::alloc::Global;
use std::test::Fail;

// The answer of such a call.
pub(crate) fn change_answer(
    site: &mut HostSite,
    alloc: Global,
    call: &str,
    side: Side,
    path: &Path,
    with: &str,
) -> Result<String, Fail> {
    let changed = match call {
        "make dir" => site.make_dir(alloc, side, path),
        "make file" => site.make_file(alloc, side, path),
        "put" => put(site, alloc, side, path, with)?,
        "set len" => set_len(site, alloc, side, path, with)?,
        "set props" => set_props(site, alloc, side, path, with)?,
        "remove" => site.remove(alloc, side, path),
        "sync" => site.sync(alloc, side),
        _ => return Err("no call")?,
    };
    Ok(String::from_str(alloc, change_word(changed))?)
}

pub(crate) fn change_word(changed: Result<(), SiteErr>) -> &'static str {
    match changed {
        Ok(()) => "done",
        Err(error) => site_word(error),
    }
}

// Writes the bytes behind an offset and a space.
fn put(
    site: &mut HostSite,
    alloc: Global,
    side: Side,
    path: &Path,
    with: &str,
) -> Result<Result<(), SiteErr>, Fail> {
    let (off, text) = number_and(with)?;
    let bytes = text.as_bytes();
    if bytes.is_empty() {
        return Err("no bytes")?;
    }
    Ok(site.put(alloc, side, path, off, bytes))
}

// The greatest length of a file.
const GREATEST_LENGTH: u64 = 1099511627776;

fn set_len(
    site: &mut HostSite,
    alloc: Global,
    side: Side,
    path: &Path,
    with: &str,
) -> Result<Result<(), SiteErr>, Fail> {
    let len = with.parse::<u64>()?;
    if len > GREATEST_LENGTH {
        return Err("too long")?;
    }
    Ok(site.set_len(alloc, side, path, len))
}

fn set_props(
    site: &mut HostSite,
    alloc: Global,
    side: Side,
    path: &Path,
    with: &str,
) -> Result<Result<(), SiteErr>, Fail> {
    let props = read_props(alloc, with)?;
    Ok(site.set_props(alloc, side, path, &props))
}
