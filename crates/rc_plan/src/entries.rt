//! The entries of a side, read whole: directory by directory, each right behind its own entry, so that keys rise.

ghost use Rattle.std.specs.Prelude.{◌≡◌, ◌++◌, ◌∷◌, [], true, None, length, option_map, IfOk, IfSome};
ghost use Rattle.std.specs.Option.{option_copied};
ghost use Rattle.rc_tree.specs.Path.{key_of};
ghost use Rattle.rc_tree.specs.Tree.{IsDirectory, IsTree};
ghost use Rattle.rc_volume.specs.Frames.{Looks};
ghost use Rattle.rc_volume.specs.Site.{IsListed, Lists, tree_in};
ghost use Rattle.rc_volume.specs.Waits.{Waits};
ghost use Rattle.rc_plan.specs.Faults.{list_cause};
ghost use Rattle.rc_plan.specs.Found.{AreAllOf, are_rising, facts_found, found_at, found_of, kind_found};
ghost use Rattle.rc_plan.specs.Walk.{IsBehind, Steps, next_place};

use rc_class::Facts;
use rc_job::Job;
use rc_tree::{Entry, Kind, Name, NoMemory, Path};
use rc_volume::{Clock, Side, Site, SiteErr};
use std::alloc::Global;

/// Why a side could not be read.
#[derive(Clone, Copy, Debug, PartialEq, Eq)]
pub(crate) enum ListErr {
    /// A directory of this side could not be listed, however often that was tried. That side's count of faults rose at
    /// each try.
    Failed { side: Side },
    NoMemory,
}

/// What is kept of an entry until it is decided: its path, its facts, and of a directory the entry, for its properties.
#[derive(Debug, Drop)]
pub(crate) struct Found {
    pub(crate) path: Path,
    pub(crate) facts: Facts,
    pub(crate) directory: Option<Entry>,
}

/// The kind of an entry. One that is kept without a directory's is a file.
pub(crate) fn kind_found(found: &Found) -> Kind
    ensures { result ≡ kind_found found.now }
{
    match &found.directory {
        Some(_) => Kind::Dir,
        None => Kind::File,
    }
}

/// Its facts.
pub(crate) fn facts_found(found: &Found) -> Facts
    ensures { result ≡ facts_found found.now }
{
    Facts {
        kind: kind_found(found),
        ..found.facts
    }
}

/// Where a walk stands: in a directory, behind one of its entries or before all.
#[derive(Debug, Drop)]
pub(crate) struct Place {
    pub(crate) dir: Path,
    pub(crate) after: Option<Name>,
}

/// One step of a walk.
#[derive(Debug, Drop)]
pub(crate) enum Step {
    /// This entry is the next one, and the walk goes on there.
    Entered { found: Found, next: Place },
    /// A directory has no more entries, and the walk goes on behind it.
    Left { next: Place },
    /// The root has no more entries.
    Ended,
}

/// All entries of a side, in the order of their keys.
pub(crate) fn read_side<S: Site, C: Clock>(
    alloc: Global,
    job: &Job,
    site: &mut S,
    side: Side,
    clock: &mut C,
) -> Result<Vec<Found>, ListErr>
    ensures all { S.tells ≡ true → IfOk result
        (λ found. AreAllOf (tree_in (S.view site.old) side) found.items) }
    ensures tree { S.tells ≡ true → IsTree (tree_in (S.view site.old) side) }
    // On every site, told or not.
    ensures rising { IfOk result (λ found. are_rising found.items ≡ true) }
    ensures root { IfOk result (λ found. found_at found.items [] ≡ None) }
    ensures frame { Looks S.tells (list_cause job.now.retries result)
        (S.view site.old) (S.view site.new) }
    ensures waits { Waits job.now.wait (list_cause job.now.retries result)
        (S.view site.old).faults (S.view site.new).faults
        (C.paused clock.old) (C.paused clock.new) }
    ensures no_pause { job.now.retries ≡ 0 → C.paused clock.new ≡ C.paused clock.old }
    ensures clock { C.tells ≡ true → C.always clock.new ≡ C.always clock.old }
    ensures last { C.last clock.new ≡ C.last clock.old }
    ensures unread { C.reads clock.new ≡ C.reads clock.old }
{
    let mut found = Vec::new(alloc);
    let mut place = Place {
        dir: Path::root(alloc),
        after: None,
    };
    'entries: loop {
        match go_on(alloc, job, site, side, place, clock) {
            Ok(Step::Entered { found: entry, next }) => {
                if found.push(entry).is_err() {
                    return Err(ListErr::NoMemory);
                }
                place = next;
            }
            Ok(Step::Left { next }) => place = next,
            Ok(Step::Ended) => return Ok(found),
            Err(e) => return Err(e),
        }
    }
}

// One step from a place.
fn go_on<S: Site, C: Clock>(
    alloc: Global,
    job: &Job,
    site: &mut S,
    side: Side,
    place: Place,
    clock: &mut C,
) -> Result<Step, ListErr>
    requires { S.tells ≡ true → IsDirectory (tree_in (S.view site.old) side) (key_of place.dir) }

    ensures steps { IfOk result (Steps S.tells (tree_in (S.view site.old) side) place) }
    ensures tree { S.tells ≡ true → IsTree (tree_in (S.view site.old) side) }
    ensures frame { Looks S.tells (list_cause job.now.retries result)
        (S.view site.old) (S.view site.new) }
    ensures waits { Waits job.now.wait (list_cause job.now.retries result)
        (S.view site.old).faults (S.view site.new).faults
        (C.paused clock.old) (C.paused clock.new) }
    ensures no_pause { job.now.retries ≡ 0 → C.paused clock.new ≡ C.paused clock.old }
    ensures clock { C.tells ≡ true → C.always clock.new ≡ C.always clock.old }
    ensures last { C.last clock.new ≡ C.last clock.old }
    ensures unread { C.reads clock.new ≡ C.reads clock.old }
{
    match next_entry(
        alloc,
        job,
        site,
        side,
        &place.dir,
        place.after.as_ref(),
        clock,
    ) {
        Ok(Some(entry)) => match enter(alloc, place, entry) {
            Ok((found, next)) => Ok(Step::Entered { found, next }),
            Err(_) => Err(ListErr::NoMemory),
        },
        Ok(None) => match leave(alloc, &place.dir) {
            Ok(Some(next)) => Ok(Step::Left { next }),
            Ok(None) => Ok(Step::Ended),
            Err(_) => Err(ListErr::NoMemory),
        },
        Err(e) => Err(e),
    }
}

// The entry of a directory behind a name. A listing that fails is tried again.
fn next_entry<S: Site, C: Clock>(
    alloc: Global,
    job: &Job,
    site: &mut S,
    side: Side,
    dir: &Path,
    after: Option<&Name>,
    clock: &mut C,
) -> Result<Option<Entry>, ListErr>
    requires { S.tells ≡ true → IsDirectory (tree_in (S.view site.old) side) (key_of dir.now) }

    ensures listed { S.tells ≡ true → IfOk result
        (Lists (tree_in (S.view site.old) side) (key_of dir.now) (option_copied after.entry)) }
    ensures tree { S.tells ≡ true → IsTree (tree_in (S.view site.old) side) }
    ensures rising { IfOk result
        (λ found. IfSome found (IsListed (length dir.now) (option_copied after.entry))) }
    ensures frame { Looks S.tells (list_cause job.now.retries result)
        (S.view site.old) (S.view site.new) }
    ensures waits { Waits job.now.wait (list_cause job.now.retries result)
        (S.view site.old).faults (S.view site.new).faults
        (C.paused clock.old) (C.paused clock.new) }
    ensures no_pause { job.now.retries ≡ 0 → C.paused clock.new ≡ C.paused clock.old }
    ensures clock { C.tells ≡ true → C.always clock.new ≡ C.always clock.old }
    ensures last { C.last clock.new ≡ C.last clock.old }
    ensures unread { C.reads clock.new ≡ C.reads clock.old }
{
    for _ in 0..job.retries {
        match site.next_entry(alloc, side, dir, after) {
            Ok(found) => return Ok(found),
            Err(SiteErr::NoMemory) => return Err(ListErr::NoMemory),
            Err(SiteErr::Failed) => clock.pause(job.wait),
        }
    }
    match site.next_entry(alloc, side, dir, after) {
        Ok(found) => Ok(found),
        Err(SiteErr::Failed) => Err(ListErr::Failed { side }),
        Err(SiteErr::NoMemory) => Err(ListErr::NoMemory),
    }
}

// What is kept of an entry of the directory of a place, and where the walk goes on.
fn enter(alloc: Global, place: Place, entry: Entry) -> Result<(Found, Place), NoMemory>
    ensures { IfOk result (λ entered.
        (entered.0 ≡ found_of (place.dir ++ entry.name ∷ []) entry)
        × (entered.1 ≡ next_place entry.kind place.dir entry.name)) }
{
    let Place { dir, after: _ } = place;
    let path = match dir.join(alloc, &entry.name) {
        Ok(path) => path,
        // A listing answers no entry below a path of the greatest depth.
        Err(_) => return Err(NoMemory),
    };
    let facts = facts_of(&entry);
    match entry.kind {
        Kind::File => {
            let next = Place {
                dir,
                after: Some(entry.name),
            };
            Ok((
                Found {
                    path,
                    facts,
                    directory: None,
                },
                next,
            ))
        }
        Kind::Dir => {
            let next = Place {
                dir: path.copy(alloc)?,
                after: None,
            };
            Ok((
                Found {
                    path,
                    facts,
                    directory: Some(entry),
                },
                next,
            ))
        }
    }
}

fn facts_of(entry: &Entry) -> Facts
    ensures { result ≡ (found_of [] entry.now).facts }
{
    Facts {
        kind: entry.kind,
        size: entry.size,
        written: entry.props.written,
        attr: entry.props.attr,
    }
}

// The place behind a directory, in the one above it.
fn leave(alloc: Global, dir: &Path) -> Result<Option<Place>, NoMemory>
    ensures { IfOk result (IsBehind dir.now) }
{
    match dir.names() {
        [] => Ok(None),
        [.., name] => {
            let after = Some(name.copy(alloc)?);
            match dir.parent(alloc)? {
                Some(dir) => Ok(Some(Place { dir, after })),
                None => Ok(None),
            }
        }
    }
}
