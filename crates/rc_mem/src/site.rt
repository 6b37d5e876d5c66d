//! A site in memory.

ghost use Rattle.std.specs.Prelude.{◌≡◌, ◌+◌, ◌≤◌, ◌++◌, ◌∷◌, Bool, true, [], chars, drop, length, map, take, vec_len, IfErr, IfOk, MatchResult, OnErr, OnOk};
ghost use Rattle.rc_tree.specs.Path.{key_of};
ghost use Rattle.rc_volume.specs.declared.site.Side.TheVariants.{Source, Target};
ghost use Rattle.rc_volume.specs.Faults.{part_for};
ghost use Rattle.rc_volume.specs.Log.{LogsOn, changed, noted, notes_synced, synced};
ghost use Rattle.rc_volume.specs.Reading.{part_of};
ghost use Rattle.rc_volume.specs.Site.{tree_in};
ghost use Rattle.rc_mem.specs.Logged.{call_of, event_of, notes_call_of};
ghost use Rattle.rc_mem.specs.MemSite.{seen_by, told_by};

use crate::logged::log_event;
use crate::{EntryCall, Logged, MemReader, MemTally, NotesCall, Tree};
use rc_tree::{Entry, Kind, Name, NoMemory, Path, Props, Scan, Text};
use rc_volume::{BindErr, Binding, Part, Side, Site, SiteErr, Want};
use std::alloc::Global;
use std::snapshot::Snapshot;

/// A site in memory. It keeps the texts of its roots and looks at neither, and no part of it ever fails. Its log has its
/// changing calls, in order; it begins with a sync of each part.
#[derive(Debug, Drop)]
pub struct MemSite {
    source: Tree,
    target: Tree,
    notes: Vec<u8>,
    log: Vec<Logged>,
    opened: Vec<Want>,
    bound: Vec<Binding>,
}

impl MemSite {
    /// A site with these trees and these bytes as its record.
    pub fn new(
        alloc: Global,
        source: Tree,
        target: Tree,
        notes: Vec<u8>,
    ) -> Result<MemSite, NoMemory>
        ensures told { IfOk result (λ site. told_by site
            ≡ record { source = source; target = target; notes = notes.items }) }
        ensures log { IfOk result (λ site. (seen_by site).log
            ≡ synced Source source ∷ synced Target target ∷ notes_synced notes.items ∷ []) }
        ensures opened { IfOk result (λ site. (seen_by site).opened ≡ []) }
        ensures bound { IfOk result (λ site. (seen_by site).bound ≡ []) }
    {
        let mut log = Vec::new(alloc);
        log.push(Logged::Synced {
            side: Side::Source,
            tree: Snapshot::of(&source),
        })?;
        log.push(Logged::Synced {
            side: Side::Target,
            tree: Snapshot::of(&target),
        })?;
        log.push(Logged::NotesSynced {
            notes: Snapshot::of(&notes),
        })?;
        Ok(MemSite {
            source,
            target,
            notes,
            log,
            opened: Vec::new(alloc),
            bound: Vec::new(alloc),
        })
    }

    /// The tree of a side.
    pub fn tree(&self, side: Side) -> &Tree
        ensures { result.now ≡ tree_in (seen_by self.now) side }
    {
        match side {
            Side::Source => &self.source,
            Side::Target => &self.target,
        }
    }

    /// The bytes of the record.
    pub fn notes(&self) -> &[u8]
        ensures { result.now ≡ (told_by self.now).notes }
    {
        self.notes.as_slice()
    }

    /// Its changing calls and its syncs, in order.
    pub fn log(&self) -> &[Logged]
        ensures { map event_of result.now ≡ (seen_by self.now).log }
    {
        self.log.as_slice()
    }

    /// Puts a call on an entry into the log that was to be done and failed: a stop may leave it done. Nothing else changes,
    /// and at an error nothing at all.
    pub fn log_failed(&mut self, side: Side, path: &Path, call: EntryCall) -> Result<(), SiteErr>
        ensures told { told_by self.new ≡ told_by self.old }
        ensures logged { OnOk result ((seen_by self.new).log ≡ (seen_by self.old).log
            ++ changed side (key_of path.now) (call_of path.now call) ∷ []) }
        ensures only { LogsOn (part_for side) (seen_by self.old).log (seen_by self.new).log }
        ensures err { OnErr result ((seen_by self.new).log ≡ (seen_by self.old).log) }
        ensures memory { IfErr result (λ e. e ≡ SiteErr.NoMemory) }
        ensures opened { (seen_by self.new).opened ≡ (seen_by self.old).opened }
        ensures bound { (seen_by self.new).bound ≡ (seen_by self.old).bound }
    {
        log_change(&mut self.log, side, path, call)
    }

    /// The same of a call on the record.
    pub fn log_failed_notes(&mut self, call: NotesCall) -> Result<(), SiteErr>
        ensures told { told_by self.new ≡ told_by self.old }
        ensures logged { OnOk result ((seen_by self.new).log ≡ (seen_by self.old).log
            ++ noted (notes_call_of call) ∷ []) }
        ensures only { LogsOn Part.Record (seen_by self.old).log (seen_by self.new).log }
        ensures err { OnErr result ((seen_by self.new).log ≡ (seen_by self.old).log) }
        ensures memory { IfErr result (λ e. e ≡ SiteErr.NoMemory) }
        ensures opened { (seen_by self.new).opened ≡ (seen_by self.old).opened }
        ensures bound { (seen_by self.new).bound ≡ (seen_by self.old).bound }
    {
        log_notes(&mut self.log, call)
    }

    /// What readers were made for, in order.
    pub fn opened(&self) -> &[Want]
        ensures { result.now ≡ (seen_by self.now).opened }
    {
        self.opened.as_slice()
    }

    /// How its roots were named, in order.
    pub fn bound(&self) -> &[Binding]
        ensures { result.now ≡ (seen_by self.now).bound }
    {
        self.bound.as_slice()
    }
}

impl Site for MemSite {
    type Tally = MemTally;

    type Reader = MemReader;

    ghost tells = { true };

    ghost view = { seen_by };

    fn bind(
        &mut self,
        alloc: Global,
        source: &str,
        target: &str,
        scan: Scan,
        moment: u64,
    ) -> Result<(), BindErr> {
        let Ok(binding) = binding_of(alloc, source, target, scan, moment) else {
            return Err(BindErr::NoMemory);
        };
        match self.bound.push(binding) {
            Ok(()) => Ok(()),
            Err(_) => Err(BindErr::NoMemory),
        }
    }

    fn next_entry(
        &mut self,
        alloc: Global,
        side: Side,
        dir: &Path,
        after: Option<&Name>,
    ) -> Result<Option<Entry>, SiteErr> {
        let tree = self.tree(side);
        tree.keeps_shape();
        answer(tree.next_entry(alloc, dir, after))
    }

    fn stat(&mut self, alloc: Global, side: Side, path: &Path) -> Result<Option<Entry>, SiteErr> {
        let tree = self.tree(side);
        tree.keeps_shape();
        answer(tree.entry_at(alloc, path))
    }

    fn make_dir(&mut self, alloc: Global, side: Side, path: &Path) -> Result<(), SiteErr> {
        match log_change(&mut self.log, side, path, EntryCall::MakeDir) {
            Ok(()) => match side {
                Side::Source => answer(self.source.make(alloc, path, Kind::Dir)),
                Side::Target => answer(self.target.make(alloc, path, Kind::Dir)),
            },
            Err(e) => Err(e),
        }
    }

    fn make_file(&mut self, alloc: Global, side: Side, path: &Path) -> Result<(), SiteErr> {
        match log_change(&mut self.log, side, path, EntryCall::MakeFile) {
            Ok(()) => match side {
                Side::Source => answer(self.source.make(alloc, path, Kind::File)),
                Side::Target => answer(self.target.make(alloc, path, Kind::File)),
            },
            Err(e) => Err(e),
        }
    }

    fn put(
        &mut self,
        alloc: Global,
        side: Side,
        path: &Path,
        off: u64,
        bytes: &[u8],
    ) -> Result<(), SiteErr> {
        let len = bytes.len() as u64;
        match log_change(&mut self.log, side, path, EntryCall::Put { off, len }) {
            Ok(()) => match side {
                Side::Source => answer(self.source.put(alloc, path, off as usize, bytes)),
                Side::Target => answer(self.target.put(alloc, path, off as usize, bytes)),
            },
            Err(e) => Err(e),
        }
    }

    fn set_len(&mut self, alloc: Global, side: Side, path: &Path, len: u64) -> Result<(), SiteErr> {
        match log_change(&mut self.log, side, path, EntryCall::SetLen { len }) {
            Ok(()) => match side {
                Side::Source => answer(self.source.set_len(alloc, path, len as usize)),
                Side::Target => answer(self.target.set_len(alloc, path, len as usize)),
            },
            Err(e) => Err(e),
        }
    }

    fn set_props(
        &mut self,
        alloc: Global,
        side: Side,
        path: &Path,
        props: &Props,
    ) -> Result<(), SiteErr> {
        let given = Snapshot::of(props);
        match log_change(
            &mut self.log,
            side,
            path,
            EntryCall::SetProps { props: given },
        ) {
            Ok(()) => match side {
                Side::Source => answer(self.source.set_props(alloc, path, props)),
                Side::Target => answer(self.target.set_props(alloc, path, props)),
            },
            Err(e) => Err(e),
        }
    }

    fn remove(&mut self, alloc: Global, side: Side, path: &Path) -> Result<(), SiteErr> {
        match log_change(&mut self.log, side, path, EntryCall::Remove) {
            Ok(()) => match side {
                Side::Source => answer(self.source.remove(alloc, path)),
                Side::Target => answer(self.target.remove(alloc, path)),
            },
            Err(e) => Err(e),
        }
    }

    fn sync(&mut self, _alloc: Global, side: Side) -> Result<(), SiteErr> {
        self.tree(side).keeps_shape();
        let tree = match side {
            Side::Source => Snapshot::of(&self.source),
            Side::Target => Snapshot::of(&self.target),
        };
        log_event(&mut self.log, Logged::Synced { side, tree })
    }

    fn record_len(&mut self, _alloc: Global) -> Result<u64, SiteErr> {
        Ok(self.notes.len() as u64)
    }

    fn record_read(&mut self, alloc: Global, off: u64, len: usize) -> Result<Vec<u8>, SiteErr> {
        let off = off as usize;
        match self.notes[off..off + len].to_vec(alloc) {
            Ok(bytes) => Ok(bytes),
            Err(_) => Err(SiteErr::NoMemory),
        }
    }

    fn record_write(&mut self, _alloc: Global, off: u64, bytes: &[u8]) -> Result<(), SiteErr> {
        let len = bytes.len() as u64;
        match log_notes(&mut self.log, NotesCall::Write { off, len }) {
            Ok(()) => answer(write_over(&mut self.notes, off as usize, bytes)),
            Err(e) => Err(e),
        }
    }

    fn record_cut(&mut self, _alloc: Global, len: u64) -> Result<(), SiteErr> {
        match log_notes(&mut self.log, NotesCall::Cut { len }) {
            Ok(()) => {
                self.notes.truncate(len as usize);
                Ok(())
            }
            Err(e) => Err(e),
        }
    }

    fn record_sync(&mut self, _alloc: Global) -> Result<(), SiteErr> {
        let notes = Snapshot::of(&self.notes);
        log_event(&mut self.log, Logged::NotesSynced { notes })
    }

    fn reader(&mut self, alloc: Global, wants: Vec<Want>) -> Result<MemReader, SiteErr> {
        let mut copies = answer(copy_wants(alloc, wants.as_slice()))?;
        let reader = answer(MemReader::new(alloc, &self.source, wants))?;
        match self.opened.append(&mut copies) {
            Ok(()) => Ok(reader),
            Err(_) => Err(SiteErr::NoMemory),
        }
    }

    fn absorb(&mut self, _tally: MemTally) {}
}

/// Puts a call on an entry into a log.
pub fn log_change(
    log: &mut Vec<Logged>,
    side: Side,
    path: &Path,
    call: EntryCall,
) -> Result<(), SiteErr>
    ensures logged { OnOk result (map event_of log.new.items
        ≡ map event_of log.old.items
        ++ changed side (key_of path.now) (call_of path.now call) ∷ []) }
    ensures only { LogsOn (part_for side)
        (map event_of log.old.items) (map event_of log.new.items) }
    ensures err { OnErr result (map event_of log.new.items ≡ map event_of log.old.items) }
    ensures memory { IfErr result (λ e. e ≡ SiteErr.NoMemory) }
{
    let path = Snapshot::of(path);
    log_event(log, Logged::Changed { side, path, call })
}

/// Puts a call on the record into a log.
pub fn log_notes(log: &mut Vec<Logged>, call: NotesCall) -> Result<(), SiteErr>
    ensures logged { OnOk result (map event_of log.new.items
        ≡ map event_of log.old.items ++ noted (notes_call_of call) ∷ []) }
    ensures only { LogsOn Part.Record (map event_of log.old.items) (map event_of log.new.items) }
    ensures err { OnErr result (map event_of log.new.items ≡ map event_of log.old.items) }
    ensures memory { IfErr result (λ e. e ≡ SiteErr.NoMemory) }
{
    log_event(log, Logged::Noted { call })
}

// Writes bytes over those from an offset on, and past the end. After an error all is as it was.
fn write_over(notes: &mut Vec<u8>, off: usize, bytes: &[u8]) -> Result<(), NoMemory>
    requires { off ≤ vec_len notes.old }
    ensures written { OnOk result (notes.new.items
        ≡ take off notes.old.items ++ bytes.now ++ drop (off + length bytes.now) notes.old.items) }
    ensures err { OnErr result (notes.new.items ≡ notes.old.items) }
{
    let over = bytes.len().min(notes.len() - off);
    notes.extend_from_slice(&bytes[over..])?;
    notes[off..off + over].copy_from_slice(&bytes[..over]);
    Ok(())
}

fn binding_of(
    alloc: Global,
    source: &str,
    target: &str,
    scan: Scan,
    moment: u64,
) -> Result<Binding, NoMemory>
    ensures { IfOk result (λ binding. binding ≡ record {
      source = chars source.now;
      target = chars target.now;
      scan = scan;
      moment = moment;
    }) }
{
    Ok(Binding {
        source: Text::of(alloc, source)?,
        target: Text::of(alloc, target)?,
        scan,
        moment,
    })
}

// The answer of a site to a call that only want of memory can fail.
fn answer<T: Drop>(outcome: Result<T, NoMemory>) -> Result<T, SiteErr>
    ensures { MatchResult outcome (λ value. result ≡ Ok value)
        (λ _. result ≡ Err SiteErr.NoMemory) }
{
    match outcome {
        Ok(value) => Ok(value),
        Err(_) => Err(SiteErr::NoMemory),
    }
}

// Equal wants.
fn copy_wants(alloc: Global, wants: &[Want]) -> Result<Vec<Want>, NoMemory>
    ensures { IfOk result (λ copies. copies.items ≡ wants.now) }
{
    let mut copies = Vec::new(alloc);
    copies.reserve(wants.len())?;
    for want in wants {
        copies.push(want.copy(alloc)?)?;
    }
    Ok(copies)
}
