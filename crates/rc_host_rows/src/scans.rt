//! What a site finds changed since the last one, and the rows that it keeps.

use crate::bench::{Bench, Step, miss};
use std::fs;
use std::test::Fail;

// A file without a row is to be archived, and is of the moment at which it is found. Its row is
// kept at once.
const FRESH: &[Step] = &[
    ("host dir", "s/d", "", "done"),
    ("host dir", "t", "", "done"),
    ("host file", "s/f", "abc", "done"),
    ("host file", "s/d/z", "", "done"),
    ("host file", "t/f", "abc", "done"),
    ("open", "size", "1", "done"),
    ("props", "s/f", "", "A 1 1 - - -"),
    ("props", "s/d/z", "", "A 1 1 - - -"),
    ("props", "t/f", "", "A 1 1 - - -"),
    // A directory is not archived.
    ("props", "s/d", "", "- 1 1 - - -"),
    ("open", "size", "2", "done"),
    ("props", "s/d", "", "- 1 1 - - -"),
    ("props", "s/f", "", "A 1 1 - - -"),
    ("props", "s/d/z", "", "A 1 1 - - -"),
    ("props", "t/f", "", "A 1 1 - - -"),
];

#[test]
fn a_file_without_a_row_is_to_be_archived(rt: HostRuntime) -> Result<(), Fail> {
    let miss = miss(&rt, "fresh", FRESH)?;
    assert_eq!(rt; miss.as_str(), "");
    Ok(())
}

// Another size than that of the row is a change, which is kept too.
const RESIZED: &[Step] = &[
    ("host dir", "s", "", "done"),
    ("host dir", "t", "", "done"),
    ("host file", "s/f", "abc", "done"),
    ("host file", "s/z", "", "done"),
    ("host file", "t/f", "abc", "done"),
    ("open", "size", "1", "done"),
    ("set props", "s/f", "R 5 6 acc own aud", "done"),
    ("sync", "s", "", "done"),
    ("leave", "", "", "left"),
    ("host file", "s/f", "abcd", "done"),
    ("host file", "s/z", "x", "done"),
    ("host file", "t/f", "", "done"),
    ("open", "size", "7", "done"),
    ("props", "s/f", "", "RA 5 7 acc own aud"),
    ("props", "s/z", "", "A 1 7 - - -"),
    ("props", "t/f", "", "A 1 7 - - -"),
    ("list", "s", "", "all f:4 z:1"),
    ("open", "size", "8", "done"),
    ("props", "s/f", "", "RA 5 7 acc own aud"),
    ("props", "t/f", "", "A 1 7 - - -"),
];

#[test]
fn another_size_is_a_change(rt: HostRuntime) -> Result<(), Fail> {
    let miss = miss(&rt, "resized", RESIZED)?;
    assert_eq!(rt; miss.as_str(), "");
    Ok(())
}

// Other bytes of the same size are none where sizes are looked at. What the site itself writes
// behind the properties that it gives is found as what others write.
const SAME_SIZE: &[Step] = &[
    ("host dir", "s", "", "done"),
    ("host file", "s/f", "abc", "done"),
    ("open", "size", "1", "done"),
    ("set props", "s/f", "R 5 6 - - -", "done"),
    ("sync", "s", "", "done"),
    ("leave", "", "", "left"),
    ("host file", "s/f", "xyz", "done"),
    ("open", "size", "2", "done"),
    ("props", "s/f", "", "R 5 6 - - -"),
    ("set props", "s/f", "R 5 6 - - -", "done"),
    ("set len", "s/f", "2", "done"),
    ("sync", "s", "", "done"),
    ("open", "size", "3", "done"),
    ("props", "s/f", "", "RA 5 3 - - -"),
];

#[test]
fn other_bytes_are_no_change_to_a_size(rt: HostRuntime) -> Result<(), Fail> {
    let miss = miss(&rt, "same-size", SAME_SIZE)?;
    assert_eq!(rt; miss.as_str(), "");
    Ok(())
}

const OTHER_BYTES: &[Step] = &[
    ("host dir", "s", "", "done"),
    ("host dir", "t", "", "done"),
    ("host file", "s/f", "abc", "done"),
    ("host file", "t/f", "abc", "done"),
    ("open", "digest", "1", "done"),
    ("props", "s/f", "", "A 1 1 - - -"),
    ("set props", "s/f", "R 5 6 acc own aud", "done"),
    ("sync", "s", "", "done"),
    ("leave", "", "", "left"),
    ("host file", "s/f", "abd", "done"),
    ("host file", "t/f", "Abc", "done"),
    ("open", "digest", "3", "done"),
    ("props", "s/f", "", "RA 5 3 acc own aud"),
    ("props", "t/f", "", "A 1 3 - - -"),
    ("open", "digest", "4", "done"),
    ("props", "s/f", "", "RA 5 3 acc own aud"),
    ("props", "t/f", "", "A 1 3 - - -"),
];

#[test]
fn other_bytes_are_a_change_to_a_digest(rt: HostRuntime) -> Result<(), Fail> {
    let miss = miss(&rt, "other-bytes", OTHER_BYTES)?;
    assert_eq!(rt; miss.as_str(), "");
    Ok(())
}

// The same bytes written anew are no change; another size is one.
const SAME_BYTES: &[Step] = &[
    ("host dir", "s", "", "done"),
    ("host file", "s/f", "abc", "done"),
    ("open", "digest", "1", "done"),
    ("leave", "", "", "left"),
    ("host remove", "s/f", "", "done"),
    ("host file", "s/f", "abc", "done"),
    ("open", "digest", "2", "done"),
    ("props", "s/f", "", "A 1 1 - - -"),
    ("leave", "", "", "left"),
    ("host file", "s/f", "abca", "done"),
    ("open", "digest", "3", "done"),
    ("props", "s/f", "", "A 1 3 - - -"),
];

#[test]
fn the_same_bytes_are_no_change(rt: HostRuntime) -> Result<(), Fail> {
    let miss = miss(&rt, "same-bytes", SAME_BYTES)?;
    assert_eq!(rt; miss.as_str(), "");
    Ok(())
}

// What the site writes has the digest of the bytes that are there when it gets its properties.
const OWN_BYTES: &[Step] = &[
    ("host dir", "s", "", "done"),
    ("open", "digest", "1", "done"),
    ("make file", "t/g", "", "done"),
    ("set len", "t/g", "3", "done"),
    ("put", "t/g", "0 abc", "done"),
    ("set props", "t/g", "R 5 6 - - -", "done"),
    ("sync", "t", "", "done"),
    ("open", "digest", "2", "done"),
    ("props", "t/g", "", "R 5 6 - - -"),
    ("put", "t/g", "2 d", "done"),
    ("sync", "t", "", "done"),
    ("open", "digest", "3", "done"),
    ("props", "t/g", "", "RA 5 3 - - -"),
];

#[test]
fn a_digest_is_that_of_the_properties(rt: HostRuntime) -> Result<(), Fail> {
    let miss = miss(&rt, "own-bytes", OWN_BYTES)?;
    assert_eq!(rt; miss.as_str(), "");
    Ok(())
}

// The digests are those of FIPS 180 for no bytes and for `abc`; where only sizes are looked at
// there is none.
const NO_DIGEST: &str = "3 0000000000000000000000000000000000000000000000000000000000000000";

const DIGEST_OF_NONE: &str = "0 e3b0c44298fc1c149afbf4c8996fb92427ae41e4649b934ca495991b7852b855";

const DIGEST_OF_ABC: &str = "3 ba7816bf8f01cfea414140de5dae2223b00361a396177a9cb410ff61f20015ad";

const KEPT: &[Step] = &[
    ("host dir", "s", "", "done"),
    ("host file", "s/Abc", "abc", "done"),
    ("host file", "s/z", "", "done"),
    ("open", "size", "1", "done"),
    ("leave", "", "", "left"),
    // By folded names.
    ("row", "s/abc", "", NO_DIGEST),
    ("row", "s/Abc", "", "none"),
    ("open", "digest", "2", "done"),
    ("leave", "", "", "left"),
    ("row", "s/abc", "", DIGEST_OF_ABC),
];

#[test]
fn rows_have_sizes_and_digests(rt: HostRuntime) -> Result<(), Fail> {
    let miss = miss(&rt, "kept", KEPT)?;
    assert_eq!(rt; miss.as_str(), "");
    Ok(())
}

const GIVEN: &[Step] = &[
    ("host dir", "s", "", "done"),
    ("host file", "s/z", "", "done"),
    ("open", "digest", "1", "done"),
    ("make file", "t/g", "", "done"),
    ("set len", "t/g", "3", "done"),
    ("put", "t/g", "0 abc", "done"),
    ("set props", "t/g", "R 5 6 - - -", "done"),
    ("sync", "t", "", "done"),
    ("leave", "", "", "left"),
    ("row", "s/z", "", DIGEST_OF_NONE),
    ("row", "t/g", "", DIGEST_OF_ABC),
];

#[test]
fn given_properties_have_a_size_and_a_digest(rt: HostRuntime) -> Result<(), Fail> {
    let miss = miss(&rt, "given-row", GIVEN)?;
    assert_eq!(rt; miss.as_str(), "");
    Ok(())
}

// The row of an entry that is gone is dropped, so that what stands there later has none.
const GONE: &[Step] = &[
    ("host dir", "s/d", "", "done"),
    ("host file", "s/d/g", "abc", "done"),
    ("host file", "s/f", "abc", "done"),
    ("open", "size", "1", "done"),
    ("leave", "", "", "left"),
    ("row", "s/f", "", NO_DIGEST),
    ("host remove", "s/f", "", "done"),
    ("host clear", "s/d", "", "done"),
    ("open", "size", "2", "done"),
    ("leave", "", "", "left"),
    ("row", "s/f", "", "none"),
    ("host dir", "s/d", "", "done"),
    ("host file", "s/d/g", "abc", "done"),
    ("host file", "s/f", "abc", "done"),
    ("open", "size", "3", "done"),
    ("props", "s/f", "", "A 3 3 - - -"),
    ("props", "s/d/g", "", "A 3 3 - - -"),
];

#[test]
fn rows_of_what_is_gone_are_dropped(rt: HostRuntime) -> Result<(), Fail> {
    let miss = miss(&rt, "gone", GONE)?;
    assert_eq!(rt; miss.as_str(), "");
    Ok(())
}

const REMOVED: &[Step] = &[
    ("host dir", "s", "", "done"),
    ("host dir", "t", "", "done"),
    ("host file", "t/f", "abc", "done"),
    ("open", "size", "1", "done"),
    ("remove", "t/f", "", "done"),
    ("sync", "t", "", "done"),
    ("leave", "", "", "left"),
    ("row", "t/f", "", "none"),
    ("host file", "t/f", "abc", "done"),
    ("open", "size", "2", "done"),
    ("props", "t/f", "", "A 2 2 - - -"),
];

#[test]
fn the_row_of_a_removed_entry_is_dropped(rt: HostRuntime) -> Result<(), Fail> {
    let miss = miss(&rt, "removed-row", REMOVED)?;
    assert_eq!(rt; miss.as_str(), "");
    Ok(())
}

// A root's table serves it as a source and as a target, and the greatest moment is kept as any.
const EITHER: &[Step] = &[
    ("host dir", "s", "", "done"),
    ("host dir", "t", "", "done"),
    ("host file", "s/f", "abc", "done"),
    ("open", "size", "2650467743999999999", "done"),
    (
        "props",
        "s/f",
        "",
        "A 2650467743999999999 2650467743999999999 - - -",
    ),
    ("set props", "s/f", "R 5 2650467743999999999 - - -", "done"),
    ("sync", "s", "", "done"),
    ("roots", "t", "s", "named"),
    ("open", "size", "1", "done"),
    ("props", "t/f", "", "R 5 2650467743999999999 - - -"),
];

#[test]
fn a_table_serves_either_side(rt: HostRuntime) -> Result<(), Fail> {
    let miss = miss(&rt, "either", EITHER)?;
    assert_eq!(rt; miss.as_str(), "");
    Ok(())
}

// A change behind the first 65,536 bytes of a file, which are read at once.
#[test]
fn a_digest_is_of_all_bytes(rt: HostRuntime) -> Result<(), Fail> {
    let alloc = rt.alloc();
    let mut bench = Bench::new(&rt, "pieces")?;
    let file = format!(in alloc; "{}/s/f", bench.folder)?;
    let made = bench.miss(&[("host dir", "s", "", "done")])?;
    let mut bytes = vec![in alloc; 7; 65536]?;
    bytes.push(1)?;
    fs::write(&rt, &file, bytes.as_slice())?;
    let first = bench.miss(&[
        ("open", "digest", "1", "done"),
        ("props", "s/f", "", "A 1 1 - - -"),
        ("leave", "", "", "left"),
    ])?;
    let _ = bytes.pop();
    bytes.push(2)?;
    fs::write(&rt, &file, bytes.as_slice())?;
    let second = bench.miss(&[
        ("open", "digest", "2", "done"),
        ("props", "s/f", "", "A 1 2 - - -"),
    ])?;
    bench.end()?;
    assert_eq!(rt; made.as_str(), "");
    assert_eq!(rt; first.as_str(), "");
    assert_eq!(rt; second.as_str(), "");
    Ok(())
}
