//! Job files in a folder of the host, by their words, and their rows.

use crate::bench::{Step, miss};
use rc_host::HostJobs;
use rc_tree::Text;
use rc_volume::{JobStore, StoreErr};
use std::alloc::Global;
use std::test::Fail;

// The answer of a call on the job files of a folder; none where it is another call. `job read`
// takes a name, `job write` a name, `=` and the bytes. A name behind `@` is whole, and is read from
// the folder of the test on.
pub(crate) fn job_answer(
    rt: &HostRuntime,
    folder: &str,
    call: &str,
    at: &str,
    with: &str,
) -> Result<Option<String>, Fail> {
    let alloc = rt.alloc();
    let store = format!(in alloc; "{folder}/{at}")?;
    match call {
        "job read" => Ok(Some(read(rt, store.as_str(), &job_name(alloc, folder, with)?)?)),
        "job write" => {
            let (name, text) = with.split_once('=').ok_or("no bytes")?;
            let name = job_name(alloc, folder, name)?;
            let word = write(rt, store.as_str(), &name, text)?;
            Ok(Some(String::from_str(alloc, word)?))
        }
        _ => Ok(None),
    }
}

fn job_name(alloc: Global, folder: &str, name: &str) -> Result<Text, Fail> {
    match name.strip_prefix('@') {
        Some(rest) => {
            let whole = format!(in alloc; "{folder}/{rest}")?;
            Ok(Text::of(alloc, whole.as_str())?)
        }
        None => Ok(Text::of(alloc, name)?),
    }
}

fn read(rt: &HostRuntime, store: &str, name: &Text) -> Result<String, Fail> {
    let alloc = rt.alloc();
    let mut jobs = HostJobs::new(rt, alloc, store)?;
    match jobs.read(alloc, name) {
        Ok(Some(bytes)) => {
            let text = String::from_utf8(bytes)?;
            Ok(format!(in alloc; "job {text}")?)
        }
        Ok(None) => Ok(String::from_str(alloc, "none")?),
        Err(error) => Ok(String::from_str(alloc, store_word(error))?),
    }
}

fn write(rt: &HostRuntime, store: &str, name: &Text, text: &str) -> Result<&'static str, Fail> {
    let alloc = rt.alloc();
    let mut jobs = HostJobs::new(rt, alloc, store)?;
    match jobs.write(alloc, name, text.as_bytes()) {
        Ok(()) => Ok("done"),
        Err(error) => Ok(store_word(error)),
    }
}

fn store_word(error: StoreErr) -> &'static str {
    match error {
        StoreErr::Failed => "refused",
        StoreErr::NoMemory => "no memory",
    }
}

const KEPT: &[Step] = &[
    ("host dir", "j", "", "done"),
    ("job read", "j", "a.RCJ", "none"),
    ("job write", "j", "a.RCJ=/MIR", "done"),
    ("host look", "j", "", "dir a.RCJ"),
    ("host look", "j/a.RCJ", "", "file /MIR"),
    ("job read", "j", "a.RCJ", "job /MIR"),
    // By a name in another case it is the same file, which keeps its spelling.
    ("job read", "j", "A.rcj", "job /MIR"),
    ("job write", "j", "A.rcj=/S", "done"),
    ("host look", "j", "", "dir a.RCJ"),
    ("host look", "j/a.RCJ", "", "file /S"),
    ("job write", "j", "a.RCJ=/E /PURGE", "done"),
    ("host look", "j/a.RCJ", "", "file /E /PURGE"),
    ("job write", "j", "none.RCJ=", "done"),
    ("host look", "j/none.RCJ", "", "file "),
    ("job read", "j", "none.RCJ", "job "),
    ("job read", "j", "a", "none"),
    ("job read", "j", "\u{e9}.RCJ", "none"),
    ("host file", "j/\u{c9}.RCJ", "/L", "done"),
    ("job read", "j", "\u{e9}.RCJ", "job /L"),
];

#[test]
fn job_files_are_kept_by_folded_names(rt: HostRuntime) -> Result<(), Fail> {
    let miss = miss(&rt, "jobs", KEPT)?;
    assert_eq!(rt; miss.as_str(), "");
    Ok(())
}

const BESIDE: &[Step] = &[
    ("host dir", "j", "", "done"),
    ("host file", "j/a.RCJ", "old", "done"),
    ("host file", "j/b.RCJ", "b", "done"),
    ("host file", "j/a.RCJ.old", "kept", "done"),
    ("host file", "j/new", "kept too", "done"),
    ("job write", "j", "a.RCJ=new", "done"),
    ("host look", "j", "", "dir a.RCJ a.RCJ.old b.RCJ new"),
    ("host look", "j/a.RCJ", "", "file new"),
    ("host look", "j/b.RCJ", "", "file b"),
    ("host look", "j/a.RCJ.old", "", "file kept"),
    ("host look", "j/new", "", "file kept too"),
    // What a writing that was cut off may have left is no job file, and stops no other writing.
    ("host file", "j/a.RCJ.new", "half of a long job fi", "done"),
    ("host file", "j/a.RCJ.new1", "half of a long job fi", "done"),
    ("host file", "j/c.RCJ.new1", "half", "done"),
    ("job read", "j", "a.RCJ", "job new"),
    ("job read", "j", "c.RCJ", "none"),
    ("job write", "j", "a.RCJ=newer", "done"),
    ("job write", "j", "c.RCJ=c", "done"),
    ("host look", "j/a.RCJ", "", "file newer"),
    ("host look", "j/b.RCJ", "", "file b"),
    ("host look", "j/c.RCJ", "", "file c"),
    ("host look", "j/a.RCJ.new", "", "file half of a long job fi"),
    (
        "host look",
        "j/a.RCJ.new1",
        "",
        "file half of a long job fi",
    ),
    ("host look", "j/c.RCJ.new1", "", "file half"),
    ("host look", "j/a.RCJ.old", "", "file kept"),
    ("host look", "j/new", "", "file kept too"),
    ("job write", "j", "c.RCJ=d", "done"),
    ("job read", "j", "c.RCJ", "job d"),
];

#[test]
fn other_files_beside_a_job_file_are_left_alone(rt: HostRuntime) -> Result<(), Fail> {
    let miss = miss(&rt, "jobs-beside", BESIDE)?;
    assert_eq!(rt; miss.as_str(), "");
    Ok(())
}

const ELSEWHERE: &[Step] = &[
    ("host dir", "j/sub", "", "done"),
    ("host dir", "k", "", "done"),
    ("job write", "j", "sub\\a.RCJ=1", "done"),
    ("host look", "j", "", "dir sub"),
    ("host look", "j/sub/a.RCJ", "", "file 1"),
    ("job read", "j", "sub/A.RCJ", "job 1"),
    ("job write", "j", "@k/b.RCJ=2", "done"),
    ("host look", "k", "", "dir b.RCJ"),
    ("job read", "j", "@k/B.RCJ", "job 2"),
    ("job read", "k", "..\\j\\sub\\a.RCJ", "job 1"),
];

#[test]
fn a_name_may_lead_to_another_folder(rt: HostRuntime) -> Result<(), Fail> {
    let miss = miss(&rt, "jobs-elsewhere", ELSEWHERE)?;
    assert_eq!(rt; miss.as_str(), "");
    Ok(())
}

const REFUSED: &[Step] = &[
    // A folder that is not there, and one that is a file.
    ("job read", "j", "a.RCJ", "refused"),
    ("job write", "j", "a.RCJ=1", "refused"),
    ("host look", "j", "", "none"),
    ("host file", "j", "text", "done"),
    ("job read", "j", "a.RCJ", "refused"),
    ("job write", "j", "a.RCJ=1", "refused"),
    ("host look", "j", "", "file text"),
    ("host remove", "j", "", "done"),
    // Two files of one folded name.
    ("host dir", "j", "", "done"),
    ("host file", "j/a.RCJ", "small", "done"),
    ("host file", "j/A.RCJ", "great", "done"),
    ("job read", "j", "a.RCJ", "refused"),
    ("job write", "j", "a.RCJ=1", "refused"),
    ("host look", "j", "", "dir A.RCJ a.RCJ"),
    ("host look", "j/a.RCJ", "", "file small"),
    ("host look", "j/A.RCJ", "", "file great"),
    ("job read", "j", "b.RCJ", "none"),
    // A directory of that name, and a name that ends as a directory's.
    ("host dir", "j/d.RCJ", "", "done"),
    ("host file", "j/d.RCJ/in", "kept", "done"),
    ("job read", "j", "d.RCJ", "refused"),
    ("job write", "j", "d.RCJ=1", "refused"),
    ("host look", "j/d.RCJ/in", "", "file kept"),
    // A writing that fails leaves nothing under another name.
    ("host look", "j", "", "dir A.RCJ a.RCJ d.RCJ"),
    ("job read", "j", "sub\\", "refused"),
    ("job write", "j", "sub\\=1", "refused"),
    ("job read", "j", "no\\a.RCJ", "refused"),
];

#[test]
fn what_is_no_job_file_is_refused(rt: HostRuntime) -> Result<(), Fail> {
    let miss = miss(&rt, "jobs-refused", REFUSED)?;
    assert_eq!(rt; miss.as_str(), "");
    Ok(())
}
