//! What the host shows that is no entry of a tree.

use crate::bench::{Bench, Step, miss};
use std::fs;
use std::os::unix::fs::FileTypeExt;
use std::test::Fail;

const LINKS: &[Step] = &[
    ("host dir", "s/d", "", "done"),
    ("host dir", "t/d", "", "done"),
    ("host file", "s/f", "abc", "done"),
    ("host link", "s/l", "s/f", "done"),
    ("open", "size", "1", "source refused"),
    ("host remove", "s/l", "", "done"),
    ("host link", "s/l", "nowhere", "done"),
    ("open", "size", "1", "source refused"),
    ("host remove", "s/l", "", "done"),
    ("host link", "s/l", "s/d", "done"),
    ("open", "size", "1", "source refused"),
    ("host remove", "s/l", "", "done"),
    ("host link", "t/l", "s/f", "done"),
    ("open", "size", "1", "target refused"),
    ("host remove", "t/l", "", "done"),
    // In a directory it is a fault of each call that needs its listing, and no longer one when it
    // is gone.
    ("host link", "s/d/l", "s/f", "done"),
    ("host link", "t/d/l", "s/f", "done"),
    ("open", "size", "1", "done"),
    ("list", "s", "", "all d/ f:3"),
    ("stat", "s/d", "", "d/"),
    ("list", "s/d", "", "refused"),
    ("stat", "s/d/l", "", "refused"),
    ("stat", "s/d/x", "", "refused"),
    ("read", "s/d/l", "0 1", "no reader"),
    ("list", "t/d", "", "refused"),
    ("make file", "t/d/x", "", "refused"),
    ("remove", "t/d/l", "", "refused"),
    ("host look", "t/d", "", "dir l"),
    ("host look", "s/f", "", "file abc"),
    ("host remove", "s/d/l", "", "done"),
    ("host file", "s/d/g", "de", "done"),
    ("list", "s/d", "", "all g:2"),
    ("props", "s/d/g", "", "A 1 1 - - -"),
    ("host remove", "t/d/l", "", "done"),
    ("make file", "t/d/x", "", "done"),
    ("host look", "t/d", "", "dir x"),
];

#[test]
fn a_link_is_a_fault(rt: HostRuntime) -> Result<(), Fail> {
    let miss = miss(&rt, "links", LINKS)?;
    assert_eq!(rt; miss.as_str(), "");
    Ok(())
}

// Rows below a directory that can't be listed stay, and serve once it can.
const UNLISTED: &[Step] = &[
    ("host dir", "s/d/e", "", "done"),
    ("host file", "s/d/e/f", "abc", "done"),
    ("open", "size", "1", "done"),
    ("set props", "s/d/e/f", "R 5 6 - - -", "done"),
    ("sync", "s", "", "done"),
    ("host link", "s/d/l", "nowhere", "done"),
    ("open", "size", "2", "done"),
    ("list", "s/d", "", "refused"),
    ("list", "s/d/e", "", "refused"),
    ("host remove", "s/d/l", "", "done"),
    ("props", "s/d/e/f", "", "R 5 6 - - -"),
    ("open", "size", "3", "done"),
    ("props", "s/d/e/f", "", "R 5 6 - - -"),
];

#[test]
fn rows_that_cannot_be_seen_stay(rt: HostRuntime) -> Result<(), Fail> {
    let miss = miss(&rt, "unlisted", UNLISTED)?;
    assert_eq!(rt; miss.as_str(), "");
    Ok(())
}

// What may not stand in a name, though the host lets it: in the root, which then is not bound.
const NAMES: &[Step] = &[
    ("host dir", "s", "", "done"),
    ("host file", "s/a:b", "", "done"),
    ("open", "size", "1", "source refused"),
    ("host remove", "s/a:b", "", "done"),
    ("host file", "s/a\\b", "", "done"),
    ("open", "size", "1", "source refused"),
    ("host remove", "s/a\\b", "", "done"),
    ("host file", "s/a*", "", "done"),
    ("open", "size", "1", "source refused"),
    ("host remove", "s/a*", "", "done"),
    ("host file", "s/a?", "", "done"),
    ("open", "size", "1", "source refused"),
    ("host remove", "s/a?", "", "done"),
    ("host file", "s/\"a", "", "done"),
    ("open", "size", "1", "source refused"),
    ("host remove", "s/\"a", "", "done"),
    ("host file", "s/a<", "", "done"),
    ("open", "size", "1", "source refused"),
    ("host remove", "s/a<", "", "done"),
    ("host file", "s/>", "", "done"),
    ("open", "size", "1", "source refused"),
    ("host remove", "s/>", "", "done"),
    ("host file", "s/a|b", "", "done"),
    ("open", "size", "1", "source refused"),
    ("host remove", "s/a|b", "", "done"),
    ("host file", "s/\u{1f}", "", "done"),
    ("open", "size", "1", "source refused"),
    ("host remove", "s/\u{1f}", "", "done"),
    ("host file", "s/a\nb", "", "done"),
    ("open", "size", "1", "source refused"),
    ("host remove", "s/a\nb", "", "done"),
    ("open", "size", "1", "done"),
];

#[test]
fn a_name_that_no_entry_has_is_a_fault(rt: HostRuntime) -> Result<(), Fail> {
    let miss = miss(&rt, "names", NAMES)?;
    assert_eq!(rt; miss.as_str(), "");
    Ok(())
}

// And in directories, which then are not listed.
const NAMES_BELOW: &[Step] = &[
    ("host dir", "s/0", "", "done"),
    ("host file", "s/0/a:b", "", "done"),
    ("host dir", "s/1", "", "done"),
    ("host file", "s/1/a\\b", "", "done"),
    ("host dir", "s/2", "", "done"),
    ("host file", "s/2/a*", "", "done"),
    ("host dir", "s/3", "", "done"),
    ("host file", "s/3/a?", "", "done"),
    ("host dir", "s/4", "", "done"),
    ("host file", "s/4/\"a", "", "done"),
    ("host dir", "s/5", "", "done"),
    ("host file", "s/5/a<", "", "done"),
    ("host dir", "s/6", "", "done"),
    ("host file", "s/6/>", "", "done"),
    ("host dir", "s/7", "", "done"),
    ("host file", "s/7/a|b", "", "done"),
    ("host dir", "s/8", "", "done"),
    ("host file", "s/8/\u{1f}", "", "done"),
    ("host dir", "s/9", "", "done"),
    ("host file", "s/9/a\nb", "", "done"),
    ("open", "size", "1", "done"),
    ("list", "s/0", "", "refused"),
    ("list", "s/1", "", "refused"),
    ("list", "s/2", "", "refused"),
    ("list", "s/3", "", "refused"),
    ("list", "s/4", "", "refused"),
    ("list", "s/5", "", "refused"),
    ("list", "s/6", "", "refused"),
    ("list", "s/7", "", "refused"),
    ("list", "s/8", "", "refused"),
    ("list", "s/9", "", "refused"),
    ("list", "s", "", "all 0/ 1/ 2/ 3/ 4/ 5/ 6/ 7/ 8/ 9/"),
    ("host clear", "s/0", "", "done"),
    ("host dir", "s/0", "", "done"),
    ("list", "s/0", "", "all"),
];

#[test]
fn a_directory_with_such_a_name_is_not_listed(rt: HostRuntime) -> Result<(), Fail> {
    let miss = miss(&rt, "names-below", NAMES_BELOW)?;
    assert_eq!(rt; miss.as_str(), "");
    Ok(())
}

const TWINS: &[Step] = &[
    ("host dir", "s/d", "", "done"),
    ("host dir", "t", "", "done"),
    ("host file", "s/a", "small", "done"),
    ("host file", "s/A", "great", "done"),
    ("open", "size", "1", "source refused"),
    ("host remove", "s/A", "", "done"),
    ("open", "size", "1", "done"),
    ("list", "s", "", "all a:5 d/"),
    ("leave", "", "", "left"),
    // The second one folds to `k` too, though no case of ASCII does.
    ("host file", "s/d/k", "", "done"),
    ("host file", "s/d/\u{212a}", "", "done"),
    ("host file", "t/k", "", "done"),
    ("open", "size", "1", "done"),
    ("list", "s/d", "", "refused"),
    ("stat", "s/d/k", "", "refused"),
    ("stat", "t/\u{212a}", "", "k:0"),
    ("host remove", "s/d/k", "", "done"),
    ("list", "s/d", "", "all \u{212a}:0"),
    ("host file", "t/K", "", "done"),
    ("open", "size", "1", "target refused"),
];

#[test]
fn two_names_of_one_key_are_a_fault(rt: HostRuntime) -> Result<(), Fail> {
    let miss = miss(&rt, "twins", TWINS)?;
    assert_eq!(rt; miss.as_str(), "");
    Ok(())
}

// Sixty-three directories, one in the other; with an entry in the last of them they are a path of
// 64 names.
const DEEP: &str = "s/a/a/a/a/a/a/a/a/a/a/a/a/a/a/a/a/a/a/a/a/a/a/a/a/a/a/a/a/a/a/a\
    /a/a/a/a/a/a/a/a/a/a/a/a/a/a/a/a/a/a/a/a/a/a/a/a/a/a/a/a/a/a/a/a";

#[test]
fn a_path_of_65_names_is_a_fault(rt: HostRuntime) -> Result<(), Fail> {
    let alloc = rt.alloc();
    let mut bench = Bench::new(&rt, "deep")?;
    assert_eq!(rt; DEEP.len(), 1 + 2 * 63);
    let last = format!(in alloc; "{DEEP}/a")?;
    let below = format!(in alloc; "{last}/f")?;
    let mut answers = String::new(alloc);
    for (call, at, with) in [
        ("host dir", last.as_str(), ""),
        ("open", "size", "1"),
        ("list", DEEP, ""),
        ("list", last.as_str(), ""),
        ("host file", below.as_str(), "abc"),
        ("open", "size", "1"),
        ("list", DEEP, ""),
        ("list", last.as_str(), ""),
        ("stat", last.as_str(), ""),
        ("host remove", below.as_str(), ""),
        ("list", last.as_str(), ""),
    ] {
        let answer = bench.answer(call, at, with)?;
        answers.push_str(answer.as_str())?;
        answers.push(';')?;
    }
    bench.end()?;
    assert_eq!(rt;
        answers.as_str(),
        "done;done;all a/;all;done;done;all a/;refused;a/;done;all;"
    );
    Ok(())
}

// A directory that may not be read. Who may read all the same, as the superuser, lists it.
#[test]
fn a_directory_that_may_not_be_read_is_a_fault(rt: HostRuntime) -> Result<(), Fail> {
    let alloc = rt.alloc();
    let mut bench = Bench::new(&rt, "closed")?;
    let made = bench.miss(&[
        ("host dir", "s/d", "", "done"),
        ("host file", "s/d/g", "de", "done"),
        ("host close", "s/d", "", "done"),
        ("open", "size", "1", "done"),
        ("list", "s", "", "all d/"),
    ])?;
    let place = format!(in alloc; "{}/s/d", bench.folder)?;
    let wanted = if fs::read_dir(&rt, &place).is_ok() {
        "all g:2"
    } else {
        "refused"
    };
    let listed = bench.answer("list", "s/d", "")?;
    let later = bench.miss(&[
        ("host open", "s/d", "", "done"),
        ("list", "s/d", "", "all g:2"),
    ])?;
    bench.end()?;
    assert_eq!(rt; made.as_str(), "");
    assert_eq!(rt; listed.as_str(), wanted);
    assert_eq!(rt; later.as_str(), "");
    Ok(())
}

// A folder of the system with a device in it, where it has one: the source is a link to it.
const DEVICES: &str = "/dev/pts";

#[test]
fn a_device_is_a_fault(rt: HostRuntime) -> Result<(), Fail> {
    let alloc = rt.alloc();
    let device = format!(in alloc; "{DEVICES}/ptmx")?;
    let is_there = match fs::symlink_metadata(&rt, &device) {
        Ok(metadata) => metadata.file_type().is_char_device(),
        Err(_) => false,
    };
    let mut bench = Bench::new(&rt, "device")?;
    let linked = bench.answer("host link", "s", DEVICES)?;
    let answer = bench.answer("open", "size", "1")?;
    bench.end()?;
    assert_eq!(rt; linked.as_str(), "done");
    // Without such a folder the link leads nowhere, which is a fault too.
    assert!(rt; is_there || !fs::exists(&rt, DEVICES)?);
    assert_eq!(rt; answer.as_str(), "source refused");
    Ok(())
}
