//! Sites in memory: what they list, keep, log and leave where they stop; and the streams and stores beside them.

ghost use Rattle.std.specs.Prelude.{◌≡◌, true, None, IsTrue, IfOk, length, map};
ghost use Rattle.std.specs.FinMap.{entries};
ghost use Rattle.rc_tree.specs.Path.{key_of};
ghost use Rattle.rc_tree.specs.Tree.{IsDirectory};
ghost use Rattle.rc_volume.specs.Site.{IsEnd, tree_in};

use rc_fixture::put_entry;
use rc_mem::{
    EntryCall, FixedClock, MemInput, MemJobs, MemSink, MemSite, NotesCall, Tree, WideSite,
};
use rc_stop::StopSite;
use rc_tree::{Attr, Kind, Moment, Name, NoMemory, Path, Props, Security, Text};
use rc_volume::{Clock, Input, JobStore, Part, Side, Sink, Site};
use std::alloc::Global;
use std::test::Fail;

// The properties of an entry that was written at 7.
fn written_at_seven(alloc: Global) -> Props {
    Props {
        attr: Attr {
            hidden: true,
            ..Attr::NONE
        },
        created: Moment::new(0),
        written: Moment::new(7),
        access: Security::empty(alloc),
        owner: Security::empty(alloc),
        audit: Security::empty(alloc),
    }
}

fn is_directory(alloc: Global, tree: &Tree, path: &Path) -> Result<bool, NoMemory>
    ensures { IfOk result (λ is. IsTrue is → IsDirectory tree.now (key_of path.now)) }
{
    if path.names().is_empty() {
        return Ok(true);
    }
    match tree.get(alloc, path)? {
        Some(node) => Ok(node.kind == Kind::Dir),
        None => Ok(false),
    }
}

// A site with the files a and c, and two directories between them, as its source.
fn sample(alloc: Global) -> Result<StopSite, Fail> {
    let mut tree = Tree::new(alloc);
    for (path, kind, bytes) in [
        ("a", Kind::File, b"alpha".as_slice()),
        ("B", Kind::Dir, b"".as_slice()),
        ("b\\x", Kind::Dir, b"".as_slice()),
        ("b\\X\\deep", Kind::File, b"".as_slice()),
        ("B\\Y", Kind::File, b"beta".as_slice()),
        ("B2", Kind::Dir, b"".as_slice()),
        ("c", Kind::File, b"".as_slice()),
    ] {
        put_entry(alloc, &mut tree, path, kind, bytes, written_at_seven(alloc))?;
    }
    let site = StopSite::new(alloc, tree, Tree::new(alloc), b"notes".to_vec(alloc)?)?;
    Ok(site)
}

// How many bytes the nodes of a tree have, one by one.
fn sizes(alloc: Global, tree: &Tree) -> Result<Vec<usize>, NoMemory>
    ensures { IfOk result (λ sizes. sizes.items
        ≡ map (λ entry. length entry.1.bytes) (entries tree.now)) }
{
    let mut sizes = Vec::new(alloc);
    for node in tree.nodes() {
        sizes.push(node.bytes.as_slice().len())?;
    }
    Ok(sizes)
}

// A path as it is spelled.
fn path_text(alloc: Global, path: &Path) -> Result<String, Fail> {
    let mut text = String::new(alloc);
    for name in path.names() {
        text.push_str(name.text())?;
        text.push(' ')?;
    }
    Ok(text)
}

// The names in a directory of the source behind one of them, in the order in which a listing shows them.
fn list<S: Site>(
    alloc: Global,
    site: &mut S,
    dir: &Path,
    after: Option<Name>,
) -> Result<String, Fail>
    requires { S.tells ≡ true
        → IsDirectory (tree_in (S.view site.old) Side.Source) (key_of dir.now) }
{
    let mut names = String::new(alloc);
    let mut after = after;
    for _ in 0..9 {
        let Some(entry) = site.next_entry(alloc, Side::Source, dir, after.as_ref())? else {
            break;
        };
        names.push_str(entry.name.text())?;
        names.push(' ')?;
        after = Some(entry.name);
    }
    Ok(names)
}

// The same of a site in memory, by texts; no name for all.
fn list_text(alloc: Global, site: &mut StopSite, dir: &str, after: &str) -> Result<String, Fail> {
    let dir = Path::read(alloc, dir)?;
    if !is_directory(alloc, site.site().tree(Side::Source), &dir)? {
        return Err("no directory")?;
    }
    let after = if after.is_empty() {
        None
    } else {
        Some(Name::read(alloc, after)?)
    };
    list(alloc, site, &dir, after)
}

// Whether a listing of a directory shows these names behind one.
fn lists(
    alloc: Global,
    site: &mut StopSite,
    dir: &str,
    after: &str,
    want: &str,
) -> Result<bool, Fail> {
    let names = list_text(alloc, site, dir, after)?;
    Ok(names.as_str() == want)
}

// Whether the files of the source have these lengths, one by one.
fn has_sizes(alloc: Global, site: &StopSite, want: &[usize]) -> Result<bool, Fail> {
    let sizes = sizes(alloc, site.site().tree(Side::Source))?;
    Ok(sizes.as_slice() == want)
}

#[test]
fn lists_by_folded_names(rt: HostRuntime) -> Result<(), Fail> {
    let alloc = rt.alloc();
    let mut site = sample(alloc)?;
    for (dir, after, want) in [
        ("", "", "a B B2 c "),
        ("", "A", "B B2 c "),
        // What stands in B and what only begins with its name lie behind it.
        ("", "b", "B2 c "),
        ("", "aa", "B B2 c "),
        ("", "C", ""),
        ("b", "", "x Y "),
        ("B", "X", "Y "),
        ("B", "y", ""),
        ("b2", "", ""),
    ] {
        assert!(rt; lists(alloc, &mut site, dir, after, want)?);
    }
    remove(alloc, &mut site, "b2")?;
    assert!(rt; lists(alloc, &mut site, "", "B", "c ")?);
    assert!(rt; has_sizes(alloc, &site, &[5, 0, 0, 0, 4, 0])?);
    Ok(())
}

// Removes a file, or a directory in which a listing shows nothing.
fn remove(alloc: Global, site: &mut StopSite, path: &str) -> Result<(), Fail> {
    let path = Path::read(alloc, path)?;
    let node = site
        .site()
        .tree(Side::Source)
        .get(alloc, &path)?
        .ok_or("nothing stands there")?;
    if node.kind == Kind::Dir && !is_empty(alloc, site, &path)? {
        return Err("entries stand in it")?;
    }
    site.remove(alloc, Side::Source, &path)?;
    Ok(())
}

// Whether a directory of the source has no entries.
fn is_empty<S: Site>(alloc: Global, site: &mut S, dir: &Path) -> Result<bool, Fail>
    requires { S.tells ≡ true
        → IsDirectory (tree_in (S.view site.old) Side.Source) (key_of dir.now) }
    ensures kept { S.tells ≡ true → (S.view site.new).told ≡ (S.view site.old).told }
    ensures empty { S.tells ≡ true → IfOk result (λ is. IsTrue is
        → IsEnd (tree_in (S.view site.old) Side.Source) (key_of dir.now) None) }
{
    match site.next_entry(alloc, Side::Source, dir, None) {
        Ok(found) => Ok(found.is_none()),
        Err(err) => Err(err)?,
    }
}

// Makes an entry, where it may stand.
fn make(alloc: Global, site: &mut StopSite, path: &Path, kind: Kind) -> Result<(), Fail> {
    let tree = site.site().tree(Side::Source);
    if !tree.has_parent(alloc, path)? || tree.get(alloc, path)?.is_some() {
        return Err("no place for an entry")?;
    }
    match kind {
        Kind::Dir => site.make_dir(alloc, Side::Source, path)?,
        Kind::File => site.make_file(alloc, Side::Source, path)?,
    }
    Ok(())
}

// Writes bytes within a file.
fn put(
    alloc: Global,
    site: &mut StopSite,
    path: &Path,
    off: usize,
    bytes: &[u8],
) -> Result<(), Fail> {
    let node = site
        .site()
        .tree(Side::Source)
        .get(alloc, path)?
        .ok_or("no file")?;
    let room = node.bytes.as_slice().len().saturating_sub(off);
    if node.kind == Kind::Dir || bytes.is_empty() || room < bytes.len() {
        return Err("no place for bytes")?;
    }
    site.put(alloc, Side::Source, path, off as u64, bytes)?;
    Ok(())
}

// Brings a file to a length of at most 1000 bytes.
fn set_len(alloc: Global, site: &mut StopSite, path: &Path, len: u64) -> Result<(), Fail> {
    let node = site
        .site()
        .tree(Side::Source)
        .get(alloc, path)?
        .ok_or("no file")?;
    if node.kind == Kind::Dir || len > 1000 {
        return Err("no file")?;
    }
    site.set_len(alloc, Side::Source, path, len)?;
    Ok(())
}

fn set_props(alloc: Global, site: &mut StopSite, path: &Path) -> Result<(), Fail> {
    if site.site().tree(Side::Source).get(alloc, path)?.is_none() {
        return Err("no entry")?;
    }
    site.set_props(alloc, Side::Source, path, &written_at_seven(alloc))?;
    Ok(())
}

// Brings the file one to a length and writes bytes into it, and answers whether it then has those.
fn rewrites(
    alloc: Global,
    site: &mut StopSite,
    len: u64,
    off: usize,
    bytes: &[u8],
    want: &[u8],
) -> Result<bool, Fail> {
    let path = Path::read(alloc, "B\\NEW\\one")?;
    set_len(alloc, site, &path, len)?;
    put(alloc, site, &path, off, bytes)?;
    let node = site
        .site()
        .tree(Side::Source)
        .get(alloc, &path)?
        .ok_or("no file")?;
    Ok(node.bytes.as_slice() == want && node.props.written.units() == 0)
}

// Makes a directory, and the file one in it.
fn make_two(alloc: Global, site: &mut StopSite) -> Result<(), Fail> {
    make(alloc, site, &Path::read(alloc, "b\\New")?, Kind::Dir)?;
    make(alloc, site, &Path::read(alloc, "B\\NEW\\one")?, Kind::File)
}

// Gives the file one properties, and answers whether it has them and is spelled as its directories are.
fn gives_props(alloc: Global, site: &mut StopSite) -> Result<bool, Fail> {
    let path = Path::read(alloc, "B\\NEW\\one")?;
    set_props(alloc, site, &path)?;
    let node = site
        .site()
        .tree(Side::Source)
        .get(alloc, &path)?
        .ok_or("no file")?;
    let text = path_text(alloc, &node.path)?;
    Ok(node.props.written.units() == 7 && text.as_str() == "B New one ")
}

#[test]
fn changes_one_file(rt: HostRuntime) -> Result<(), Fail> {
    let alloc = rt.alloc();
    let mut site = sample(alloc)?;
    make_two(alloc, &mut site)?;
    for (len, off, bytes, want) in [
        (5, 1, b"ig".as_slice(), b"\0ig\0\0".as_slice()),
        (2, 0, b"k".as_slice(), b"ki".as_slice()),
        (4, 3, b"d".as_slice(), b"ki\0d".as_slice()),
    ] {
        assert!(rt; rewrites(alloc, &mut site, len, off, bytes, want)?);
    }
    assert!(rt; gives_props(alloc, &mut site)?);
    site.sync(alloc, Side::Source)?;
    Ok(())
}

#[test]
fn lists_many_files(rt: HostRuntime) -> Result<(), Fail> {
    let alloc = rt.alloc();
    let mut site = WideSite::new(3, 7);
    let root = Path::root(alloc);
    let names = list(alloc, &mut site, &root, None)?;
    assert_eq!(rt;
        names.as_str(),
        "00000000000000000000 00000000000000000001 00000000000000000002 "
    );
    assert!(rt; site.next_entry(alloc, Side::Target, &root, None)?.is_none());
    assert!(rt; site.sync(alloc, Side::Source).is_err());
    Ok(())
}

fn receive<K: Sink>(alloc: Global, sink: &mut K, parts: &[&[u8]]) -> Result<(), Fail> {
    for part in parts {
        sink.write(alloc, part)?;
    }
    Ok(())
}

fn take<I: Input>(alloc: Global, input: &mut I) -> Result<Vec<u8>, Fail> {
    let mut taken = Vec::new(alloc);
    for _ in 0..9 {
        let mut buf = [0; 3];
        let count = input.read(alloc, &mut buf)?;
        taken.extend_from_slice(&buf[..count])?;
        taken.push(b'|')?;
    }
    Ok(taken)
}

fn pause_and_ask<C: Clock>(clock: &mut C) -> u64 {
    clock.pause(7);
    clock.moment()
}

#[test]
fn streams_bytes(rt: HostRuntime) -> Result<(), Fail> {
    let alloc = rt.alloc();
    let mut sink = MemSink::new(alloc);
    receive(alloc, &mut sink, &[b"one ", b"", b"two"])?;
    assert_eq!(rt; sink.bytes(), b"one two".as_slice());
    let mut input = MemInput::new(b"abcd".to_vec(alloc)?);
    let taken = take(alloc, &mut input)?;
    assert_eq!(rt; taken.as_slice(), b"abc|d||||||||".as_slice());
    let mut clock = FixedClock::new(9);
    assert_eq!(rt; pause_and_ask(&mut clock), 9);
    assert_eq!(rt; (clock.reads(), clock.pauses(), clock.waited()), (1, 1, 7));
    Ok(())
}

fn keep<J: JobStore>(alloc: Global, jobs: &mut J, name: &str, bytes: &[u8]) -> Result<(), Fail> {
    let name = Text::of(alloc, name)?;
    jobs.write(alloc, &name, bytes)?;
    Ok(())
}

#[test]
fn keeps_the_first_spelling(rt: HostRuntime) -> Result<(), Fail> {
    let alloc = rt.alloc();
    let mut jobs = MemJobs::new(alloc);
    for (name, bytes) in [
        ("beta", b"1".as_slice()),
        ("Alpha", b"22".as_slice()),
        ("BETA", b"333".as_slice()),
    ] {
        keep(alloc, &mut jobs, name, bytes)?;
    }
    let mut names = String::new(alloc);
    for job in jobs.files() {
        names.push_str(job.name.text())?;
        names.push(' ')?;
    }
    assert_eq!(rt; names.as_str(), "Alpha beta ");
    let found = jobs.read(alloc, &Text::of(alloc, "bEtA")?)?;
    assert_eq!(rt; found.ok_or("no job")?.as_slice(), b"333".as_slice());
    assert!(rt; jobs.read(alloc, &Text::of(alloc, "gamma")?)?.is_none());
    Ok(())
}

// Writes bytes over some of the record, then past its end, and cuts it, and answers what it then has.
fn change_notes<S: Site>(alloc: Global, site: &mut S) -> Result<Vec<u8>, Fail> {
    for (off, bytes) in [(2, b"XY".as_slice()), (4, b"123".as_slice())] {
        if off <= site.record_len(alloc)? {
            site.record_write(alloc, off, bytes)?;
        }
    }
    if 5 <= site.record_len(alloc)? {
        site.record_cut(alloc, 5)?;
    }
    let len = site.record_len(alloc)?;
    Ok(site.record_read(alloc, 0, len as usize)?)
}

fn sync_all<S: Site>(alloc: Global, site: &mut S) -> Result<(), Fail> {
    site.sync(alloc, Side::Source)?;
    site.sync(alloc, Side::Target)?;
    site.record_sync(alloc)?;
    Ok(())
}

// Two calls that fail.
fn log_two(alloc: Global, site: &mut MemSite) -> Result<(), Fail> {
    let path = Path::read(alloc, "b")?;
    site.log_failed(Side::Target, &path, EntryCall::Remove)?;
    site.log_failed_notes(NotesCall::Cut { len: 0 })?;
    Ok(())
}

#[test]
fn keeps_a_record_and_a_log(rt: HostRuntime) -> Result<(), Fail> {
    let alloc = rt.alloc();
    let notes = b"notes".to_vec(alloc)?;
    let mut site = MemSite::new(alloc, Tree::new(alloc), Tree::new(alloc), notes)?;
    let had = change_notes(alloc, &mut site)?;
    assert_eq!(rt; had.as_slice(), b"noXY1".as_slice());
    sync_all(alloc, &mut site)?;
    log_two(alloc, &mut site)?;
    // A sync of each part at the start, two writes and a cut, three syncs, and two calls that failed.
    assert_eq!(rt; site.log().len(), 11);
    Ok(())
}

// Makes a file of three bytes, syncs it and writes over it, makes three more entries and writes into the record.
fn work(alloc: Global, site: &mut StopSite) -> Result<(), Fail> {
    let path = Path::read(alloc, "a")?;
    make(alloc, site, &path, Kind::File)?;
    set_len(alloc, site, &path, 3)?;
    put(alloc, site, &path, 0, b"abc")?;
    site.sync(alloc, Side::Source)?;
    put(alloc, site, &path, 1, b"X")?;
    for (path, kind) in [("b", Kind::File), ("d", Kind::Dir), ("d\\e", Kind::File)] {
        make(alloc, site, &Path::read(alloc, path)?, kind)?;
    }
    if 1 <= site.record_len(alloc)? {
        site.record_write(alloc, 1, b"ab")?;
    }
    Ok(())
}

// What the source of an image has: the last names, and the bytes behind them.
fn shown(alloc: Global, tree: &Tree) -> Result<String, Fail> {
    let mut text = String::new(alloc);
    for node in tree.nodes() {
        if let Some(name) = node.path.names().last() {
            text.push_str(name.text())?;
        }
        text.push(':')?;
        for byte in node.bytes.as_slice() {
            text.push(*byte as char)?;
        }
        text.push(' ')?;
    }
    Ok(text)
}

// Whether the image of a choice has this source and this record.
fn image_is(
    alloc: Global,
    site: &StopSite,
    choice: u64,
    tree: &str,
    notes: &[u8],
) -> Result<bool, Fail> {
    if !site.stopped() {
        return Err("it runs")?;
    }
    let image = site.stop_image(alloc, choice)?;
    let text = shown(alloc, image.tree(Side::Source))?;
    Ok(text.as_str() == tree && image.notes() == notes)
}

// A site on which work was done, and which then stopped at a sync.
fn stopped_site(alloc: Global) -> Result<StopSite, Fail> {
    let notes = b"12345".to_vec(alloc)?;
    let mut site = StopSite::new(alloc, Tree::new(alloc), Tree::new(alloc), notes)?;
    site.stop_at(Part::Source, 9);
    work(alloc, &mut site)?;
    let _ = site.sync(alloc, Side::Source);
    Ok(site)
}

#[test]
fn stops_with_an_image_of_each_choice(rt: HostRuntime) -> Result<(), Fail> {
    let alloc = rt.alloc();
    let site = stopped_site(alloc)?;
    // The draws of choice 2 are odd, odd, even, even and odd with the low byte 143; those of 3 even, odd, odd, even and
    // odd with 105. In 3 the file e draws even, but its directory is absent.
    for (choice, tree, notes) in [
        (0, "a:aXc b: d: e: ", b"1ab45".as_slice()),
        (1, "a:abc ", b"12345".as_slice()),
        (2, "a:abc d: e: ", b"1\x8f\x8f45".as_slice()),
        (3, "a:aXc ", b"1ii45".as_slice()),
    ] {
        assert!(rt; image_is(alloc, &site, choice, tree, notes)?);
    }
    Ok(())
}
