//! Readers of source files, by their words, and their rows.

use crate::bench::{Step, miss};
use crate::folder::shown;
use crate::looks::site_word;
use crate::words::number_and;
use rc_host::HostSite;
use rc_tree::Path;
use rc_volume::{Ranges, ReadErr, Reader, Site, SiteErr, Want};
use std::alloc::Global;
use std::fs;
use std::test::Fail;

// The answer of a reading; none where the call is another one. `read` takes an offset and a length,
// `read late` also a text that the host writes into the file between the making of the reader and
// its use.
pub(crate) fn read_answer(
    site: &mut HostSite,
    rt: &HostRuntime,
    folder: &str,
    call: &str,
    path: &Path,
    at: &str,
    with: &str,
) -> Result<Option<String>, Fail> {
    let alloc = rt.alloc();
    if call != "read" && call != "read late" {
        return Ok(None);
    }
    let (off, rest) = number_and(with)?;
    let (len, text) = number_and(rest)?;
    let place = format!(in alloc; "{folder}/{at}")?;
    let late = if call == "read" {
        None
    } else {
        Some((place.as_str(), text))
    };
    match read_range(site, rt, path, off, len as usize, late)? {
        Ok(bytes) => Ok(Some(shown(rt, bytes.as_slice())?)),
        Err(word) => Ok(Some(String::from_str(alloc, word)?)),
    }
}

// So many bytes from an offset on, by a reader that is made for them. Between its making and its
// use a text is written at a place of the host.
fn read_range(
    site: &mut HostSite,
    rt: &HostRuntime,
    path: &Path,
    off: u64,
    len: usize,
    late: Option<(&str, &str)>,
) -> Result<Result<Vec<u8>, &'static str>, Fail> {
    let alloc = rt.alloc();
    let want = Want {
        path: path.copy(alloc)?,
        ranges: Ranges::new(vec![in alloc; (off, len as u64)]?),
    };
    let reader = match site.reader(alloc, vec![in alloc; want]?) {
        Ok(reader) => reader,
        Err(SiteErr::Failed) => return Ok(Err("no reader")),
        Err(error) => return Ok(Err(site_word(error))),
    };
    if let Some((place, text)) = late {
        fs::write(rt, place, text)?;
    }
    let mut bytes = vec![in alloc; 0; len]?;
    let mut tally = reader.tally();
    let filled = reader.fill(alloc, &mut tally, path, 0, off, &mut bytes);
    site.absorb(tally);
    match filled {
        Ok(()) => Ok(Ok(bytes)),
        Err(error) => Ok(Err(read_word(error))),
    }
}

fn read_word(error: ReadErr) -> &'static str {
    match error {
        ReadErr::Failed => "refused",
        ReadErr::NoMemory => "no memory",
    }
}

const READS: &[Step] = &[
    ("host dir", "s/d", "", "done"),
    ("host file", "s/f", "abcdef", "done"),
    ("host file", "s/d/Big", "0123456789", "done"),
    ("host file", "s/z", "", "done"),
    ("open", "size", "1", "done"),
    ("read", "s/f", "0 6", "abcdef"),
    ("read", "s/f", "2 3", "cde"),
    ("read", "s/f", "5 1", "f"),
    ("read", "s/d/Big", "9 1", "9"),
    // In whatever case a path is spelled.
    ("read", "s/D/bIG", "1 4", "1234"),
    // Past the end.
    ("read", "s/f", "0 7", "refused"),
    ("read", "s/f", "6 1", "refused"),
    ("read", "s/f", "7 1", "refused"),
    ("read", "s/z", "0 1", "refused"),
    ("read", "s/z", "0 0", ""),
    // What is no file has no reader.
    ("read", "s/d", "0 1", "no reader"),
    ("read", "s/no", "0 1", "no reader"),
    ("read", "s/no/f", "0 1", "no reader"),
    // A failed reading leaves the site of use.
    ("list", "s", "", "all d/ f:6 z:0"),
    ("read", "s/f", "0 6", "abcdef"),
];

#[test]
fn ranges_are_read(rt: HostRuntime) -> Result<(), Fail> {
    let miss = miss(&rt, "reads", READS)?;
    assert_eq!(rt; miss.as_str(), "");
    Ok(())
}

// The file is opened at each reading.
const LATE: &[Step] = &[
    ("host dir", "s", "", "done"),
    ("host file", "s/f", "abcdef", "done"),
    ("open", "size", "1", "done"),
    ("read late", "s/f", "0 6 uvwxyz", "uvwxyz"),
    ("read late", "s/f", "3 3 abcdef", "def"),
    ("read late", "s/f", "3 3 abcd", "refused"),
    ("read late", "s/f", "3 3 abcdef", "def"),
    ("host remove", "s/f", "", "done"),
    ("read", "s/f", "0 1", "refused"),
];

#[test]
fn a_reader_sees_what_is_there_when_it_reads(rt: HostRuntime) -> Result<(), Fail> {
    let miss = miss(&rt, "late", LATE)?;
    assert_eq!(rt; miss.as_str(), "");
    Ok(())
}
