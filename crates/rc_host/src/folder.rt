//! A root of a site: a folder of the host with its table.

ghost use Rattle.std.specs.Prelude.{◌≤◌};
ghost use Rattle.rc_tree.specs.declared.moment.TheConstants.{GREATEST_MOMENT};

use crate::disk::{
    Standing, look, look_at_root, look_at_root_or_above, make, remove, set_len, sync_folder,
    write_at,
};
use crate::fault::{Fault, half_done};
use crate::keys::{
    GREATEST_DEPTH, depth, folded, key_in, key_of, place_above, place_in, split_key,
};
use crate::known::{Known, KnownTree, Listed};
use crate::levels::make_levels;
use crate::listing::{Found, digest_of, list};
use crate::own::OwnFiles;
use crate::roots::{Roots, beside};
use crate::rows::{drop_row, keep_row, kept_digest, made_props, next_row, props_of};
use crate::unsynced::Unsynced;
use rc_table::{Row, SqlTable, Table};
use rc_tree::{Entry, Kind, Moment, Name, Path, Props, Scan};
use rc_volume::Side;
use std::alloc::Global;
use std::collections::BTreeMap;

// A root that is bound. All its directories were listed when it was bound, but for those that could not be: they are listed
// again when they are needed. What the site itself changes is changed in the listings too.
#[derive(Drop)]
pub(crate) struct Folder {
    rt: HostRuntime,
    root: String,
    own: OwnFiles,
    table: SqlTable,
    scan: Scan,
    moment: Moment,
    // The root is not there: an empty tree, which is made at the first change.
    is_absent: bool,
    known: KnownTree,
    unsynced: Unsynced,
}

// An entry that is known: its key and its place.
#[derive(Debug, Drop)]
struct Spot {
    key: String,
    place: String,
}

impl Folder {
    // Binds a root: lists it, gives rows to what has none and to files that are not as their rows say, drops the rows of
    // what is not there, and commits its table.
    pub(crate) fn bind(
        rt: &HostRuntime,
        alloc: Global,
        roots: &Roots,
        side: Side,
        scan: Scan,
        moment: u64,
    ) -> Result<Folder, Fault>
        requires { moment ≤ GREATEST_MOMENT }
    {
        let is_absent = is_absent(rt, roots, side)?;
        let root = String::from_str(alloc, roots.of(side))?;
        let file = beside(alloc, root.as_str(), ".rct")?;
        let mut folder = Folder {
            rt: *rt,
            root,
            own: OwnFiles::new(alloc, roots, side)?,
            table: SqlTable::new(rt, alloc, file.as_str())?,
            scan,
            moment: Moment::new(moment),
            is_absent,
            known: KnownTree::new(alloc),
            unsynced: Unsynced::new(alloc),
        };
        folder.list_all(alloc)?;
        if !is_absent || look(rt, file.as_str())?.is_some() {
            folder.drop_lost_rows(alloc)?;
            folder.table.commit(alloc)?;
        }
        Ok(folder)
    }

    // Lists the root and all directories below it, but for those that can't be listed.
    fn list_all(&mut self, alloc: Global) -> Result<(), Fault> {
        let root = String::from_str(alloc, self.root.as_str())?;
        if self.is_absent {
            let empty = Listed::empty(alloc, root);
            return self.known.add_folder(String::new(alloc), empty);
        }
        let found = self.read(alloc, "", root.as_str())?;
        self.take_in(alloc, "", root, found)?;
        let mut left = Vec::new(alloc);
        self.push_folders(alloc, "", &mut left)?;
        for _ in 0..u64::MAX {
            let Some(key) = left.pop() else {
                return Ok(());
            };
            self.list_below(alloc, key.as_str(), &mut left)?;
        }
        Err(Fault::Failed)
    }

    // Lists a known directory, if that can be done, and adds those in it to what is left to list.
    fn list_below(
        &mut self,
        alloc: Global,
        key: &str,
        left: &mut Vec<String>,
    ) -> Result<(), Fault> {
        let Some(place) = self.known.place(alloc, key)? else {
            return Ok(());
        };
        match self.read(alloc, key, place.as_str()) {
            Ok(found) => {
                self.take_in(alloc, key, place, found)?;
                self.push_folders(alloc, key, left)
            }
            Err(Fault::Failed) => Ok(()),
            Err(Fault::NoMemory) => Err(Fault::NoMemory),
        }
    }

    fn push_folders(&self, alloc: Global, key: &str, left: &mut Vec<String>) -> Result<(), Fault> {
        let Some(listed) = self.known.listed(key) else {
            return Ok(());
        };
        for (name, known) in &listed.entries {
            if known.kind == Kind::Dir {
                left.push(key_in(alloc, key, name.as_str())?)?;
            }
        }
        Ok(())
    }

    // Reads the directory of a key at its place. A path of more than 64 names is a fault.
    fn read(
        &self,
        alloc: Global,
        key: &str,
        place: &str,
    ) -> Result<BTreeMap<String, Found>, Fault> {
        let marks = self.own.marks(&self.rt, alloc)?;
        let found = list(&self.rt, alloc, place, &marks, self.scan)?;
        if depth(key) >= GREATEST_DEPTH && !found.is_empty() {
            return Err(Fault::Failed);
        }
        Ok(found)
    }

    // Puts the listing of a directory in, with the properties that the table keeps.
    fn take_in(
        &mut self,
        alloc: Global,
        key: &str,
        place: String,
        found: BTreeMap<String, Found>,
    ) -> Result<(), Fault> {
        let mut listed = Listed::empty(alloc, place);
        for (name, one) in found {
            let known = self.known_as(alloc, key, name.as_str(), one)?;
            listed.entries.insert(name, known)?;
        }
        self.known.add_folder(String::from_str(alloc, key)?, listed)
    }

    fn known_as(
        &mut self,
        alloc: Global,
        dir: &str,
        name: &str,
        found: Found,
    ) -> Result<Known, Fault> {
        let key = key_in(alloc, dir, name)?;
        let moment = self.moment.units();
        let props = props_of(&mut self.table, alloc, key.as_str(), &found, moment)?;
        Ok(Known {
            name: found.name,
            kind: found.kind,
            size: found.size,
            props,
        })
    }

    // Drops the rows of what is not there. Those below a directory that could not be listed stay.
    fn drop_lost_rows(&mut self, alloc: Global) -> Result<(), Fault> {
        let mut last = None;
        for _ in 0..u64::MAX {
            let Some(key) = next_row(&mut self.table, alloc, last.as_ref())? else {
                return Ok(());
            };
            if !self.known.keeps_row(key.text()) {
                drop_row(&mut self.table, alloc, key.text())?;
            }
            last = Some(key);
        }
        Err(Fault::Failed)
    }

    // Lists those of the directories on the way to a key, and at it, that are not listed yet.
    fn reach(&mut self, alloc: Global, key: &str) -> Result<(), Fault> {
        if self.known.is_listed(key) {
            return Ok(());
        }
        for end in 1..=key.len() {
            if let Some(dir) = front_at(key, end) {
                self.list_again(alloc, dir)?;
            }
        }
        Ok(())
    }

    fn list_again(&mut self, alloc: Global, key: &str) -> Result<(), Fault> {
        if self.known.is_listed(key) || !self.known.is_folder(key) {
            return Ok(());
        }
        let Some(place) = self.known.place(alloc, key)? else {
            return Ok(());
        };
        let found = self.read(alloc, key, place.as_str())?;
        self.take_in(alloc, key, place, found)
    }

    // The entry of a path; none where nothing is known there.
    fn spot(&mut self, alloc: Global, path: &Path) -> Result<Option<Spot>, Fault> {
        let key = key_of(alloc, path.names())?;
        let (above, _) = split_key(key.as_str());
        self.reach(alloc, above)?;
        match self.known.place(alloc, key.as_str())? {
            Some(place) => Ok(Some(Spot { key, place })),
            None => Ok(None),
        }
    }

    // The entry of a path, where one is to be.
    fn spot_there(&mut self, alloc: Global, path: &Path) -> Result<Spot, Fault> {
        match self.spot(alloc, path)? {
            Some(spot) => Ok(spot),
            None => Err(Fault::Failed),
        }
    }

    // The entry of a directory with the least folded name above that of `after`, or the first one.
    pub(crate) fn next(
        &mut self,
        alloc: Global,
        dir: &Path,
        after: Option<&Name>,
    ) -> Result<Option<Entry>, Fault> {
        let key = key_of(alloc, dir.names())?;
        self.reach(alloc, key.as_str())?;
        let Some(listed) = self.known.listed(key.as_str()) else {
            return Err(Fault::Failed);
        };
        let last = folded_or_none(alloc, after)?;
        match listed.next(last.as_ref()) {
            Some(known) => Ok(Some(known.entry(alloc)?)),
            None => Ok(None),
        }
    }

    // The entry of a path, as the host has it now.
    pub(crate) fn stat(&mut self, alloc: Global, path: &Path) -> Result<Option<Entry>, Fault> {
        let Some(spot) = self.spot(alloc, path)? else {
            return Ok(None);
        };
        let Some(there) = look(&self.rt, spot.place.as_str())? else {
            return Ok(None);
        };
        match self.known.at(spot.key.as_str()) {
            Some(known) => {
                let mut entry = known.entry(alloc)?;
                entry.kind = there.kind;
                entry.size = there.size;
                Ok(Some(entry))
            }
            None => Ok(None),
        }
    }

    // Makes an entry, the root before it where that is absent.
    pub(crate) fn make(&mut self, alloc: Global, path: &Path, kind: Kind) -> Result<(), Fault> {
        self.make_root(alloc)?;
        if self.spot(alloc, path)?.is_some() {
            return Err(Fault::Failed);
        }
        let [.., name] = path.names() else {
            return Err(Fault::Failed);
        };
        let key = key_of(alloc, path.names())?;
        self.make_named(alloc, key.as_str(), name, kind)
    }

    // Makes an entry of this name at a key, where nothing is known.
    fn make_named(
        &mut self,
        alloc: Global,
        key: &str,
        name: &Name,
        kind: Kind,
    ) -> Result<(), Fault> {
        let place = self.place_for(alloc, key, name)?;
        self.unsynced
            .note_folder(alloc, place_above(place.as_str()))?;
        self.note_written(alloc, place.as_str(), kind)?;
        self.know_made(alloc, key, place.as_str(), name, kind)?;
        match make(&self.rt, place.as_str(), kind) {
            Ok(()) => {
                let row = Row {
                    props: made_props(alloc),
                    size: 0,
                    digest: [0; 32],
                };
                half_done(keep_row(&mut self.table, alloc, key, &row))
            }
            Err(fault) => {
                self.forget(key, place.as_str());
                Err(fault)
            }
        }
    }

    // The place of an entry of this name that is to be made.
    fn place_for(&self, alloc: Global, key: &str, name: &Name) -> Result<String, Fault> {
        let (above, _) = split_key(key);
        match self.known.listed(above) {
            Some(listed) => place_in(alloc, listed.place.as_str(), name.text()),
            None => Err(Fault::Failed),
        }
    }

    fn note_written(&mut self, alloc: Global, place: &str, kind: Kind) -> Result<(), Fault> {
        match kind {
            Kind::File => self.unsynced.note_file(alloc, place),
            Kind::Dir => self.unsynced.note_folder(alloc, place),
        }
    }

    fn know_made(
        &mut self,
        alloc: Global,
        key: &str,
        place: &str,
        name: &Name,
        kind: Kind,
    ) -> Result<(), Fault> {
        let known = Known {
            name: name.copy(alloc)?,
            kind,
            size: 0,
            props: made_props(alloc),
        };
        if kind == Kind::Dir {
            let empty = Listed::empty(alloc, String::from_str(alloc, place)?);
            self.known.add_folder(String::from_str(alloc, key)?, empty)?;
        }
        self.known.add(alloc, key, known)
    }

    fn forget(&mut self, key: &str, place: &str) {
        self.known.remove(key);
        self.known.remove_folder(key);
        self.unsynced.forget(place);
    }

    fn make_root(&mut self, alloc: Global) -> Result<(), Fault> {
        if self.is_absent {
            make_levels(&self.rt, alloc, &mut self.unsynced, self.root.as_str())?;
            self.is_absent = false;
        }
        Ok(())
    }

    // Writes bytes within a file's length.
    pub(crate) fn put(
        &mut self,
        alloc: Global,
        path: &Path,
        off: u64,
        bytes: &[u8],
    ) -> Result<(), Fault> {
        let spot = self.spot_there(alloc, path)?;
        if !self.has_range(spot.key.as_str(), off, bytes.len() as u64) {
            return Err(Fault::Failed);
        }
        self.unsynced.note_file(alloc, spot.place.as_str())?;
        write_at(&self.rt, spot.place.as_str(), off, bytes)
    }

    fn has_range(&self, key: &str, off: u64, len: u64) -> bool {
        match self.known.at(key) {
            Some(known) => off <= known.size && len <= known.size - off,
            None => false,
        }
    }

    pub(crate) fn set_len(&mut self, alloc: Global, path: &Path, len: u64) -> Result<(), Fault> {
        let spot = self.spot_there(alloc, path)?;
        self.unsynced.note_file(alloc, spot.place.as_str())?;
        set_len(&self.rt, spot.place.as_str(), len)?;
        if let Some(known) = self.known.at_mut(spot.key.as_str()) {
            known.size = len;
        }
        Ok(())
    }

    // Keeps the properties of an entry, with its present size and digest.
    pub(crate) fn set_props(
        &mut self,
        alloc: Global,
        path: &Path,
        props: &Props,
    ) -> Result<(), Fault> {
        let spot = self.spot_there(alloc, path)?;
        let row = self.present_row(alloc, spot.place.as_str(), props)?;
        keep_row(&mut self.table, alloc, spot.key.as_str(), &row)?;
        if let Some(known) = self.known.at_mut(spot.key.as_str()) {
            known.props = row.props;
        }
        Ok(())
    }

    // A row of these properties and of what stands at a place.
    fn present_row(&self, alloc: Global, place: &str, props: &Props) -> Result<Row, Fault> {
        let Some(there) = look(&self.rt, place)? else {
            return Err(Fault::Failed);
        };
        let digest = digest_of(&self.rt, alloc, place, there.kind, self.scan)?;
        Ok(Row {
            props: props.copy(alloc)?,
            size: there.size,
            digest: kept_digest(digest),
        })
    }

    // Removes a file or an empty directory.
    pub(crate) fn remove(&mut self, alloc: Global, path: &Path) -> Result<(), Fault> {
        let spot = self.spot_there(alloc, path)?;
        let place = spot.place.as_str();
        let key = spot.key.as_str();
        let kind = self.kind_at(key);
        self.unsynced.note_folder(alloc, place_above(place))?;
        remove(&self.rt, place, kind)?;
        self.forget(key, place);
        half_done(drop_row(&mut self.table, alloc, key))
    }

    fn kind_at(&self, key: &str) -> Kind {
        if self.known.is_folder(key) {
            Kind::Dir
        } else {
            Kind::File
        }
    }

    // Makes durable what was written, the directories in which an entry was made or removed, then the table, and at last that
    // its file is there.
    pub(crate) fn sync(&mut self, alloc: Global) -> Result<(), Fault> {
        if self.is_absent {
            return Ok(());
        }
        self.unsynced.sync(&self.rt)?;
        self.table.commit(alloc)?;
        sync_folder(&self.rt, place_above(self.root.as_str()))?;
        self.unsynced.clear();
        Ok(())
    }

    // The place of a file that is known.
    pub(crate) fn file_place(&mut self, alloc: Global, path: &Path) -> Result<String, Fault> {
        let Spot { key, place } = self.spot_there(alloc, path)?;
        match self.kind_at(key.as_str()) {
            Kind::File => Ok(place),
            Kind::Dir => Err(Fault::Failed),
        }
    }
}

// Whether a root is not there. A target may be absent; what is no directory is a fault, and so is one root that is the other
// or would be made in it.
fn is_absent(rt: &HostRuntime, roots: &Roots, side: Side) -> Result<bool, Fault> {
    let root = roots.of(side);
    match (look_at_root(rt, root)?, side) {
        (None, Side::Target) if !root.is_empty() => Ok(true),
        (
            Some(
                Standing {
                    kind: Kind::Dir,
                    id,
                    ..
                },
            ),
            _,
        ) => match look_at_root_or_above(rt, roots.of(other_side(side)))? {
            Some(other) if other.id == id => Err(Fault::Failed),
            _ => Ok(false),
        },
        _ => Err(Fault::Failed),
    }
}

fn other_side(side: Side) -> Side {
    match side {
        Side::Source => Side::Target,
        Side::Target => Side::Source,
    }
}

fn folded_or_none(alloc: Global, name: Option<&Name>) -> Result<Option<String>, Fault> {
    match name {
        Some(name) => Ok(Some(folded(alloc, name)?)),
        None => Ok(None),
    }
}

// The front of a key, where a name ends there.
fn front_at(key: &str, end: usize) -> Option<&str> {
    match key.split_at_checked(end) {
        Some((front, rest)) if rest.is_empty() || rest.starts_with('\\') => Some(front),
        _ => None,
    }
}
