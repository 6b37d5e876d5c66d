//! A site in memory that also keeps what each part was when it was synced last, so that it can give what a stop leaves.

ghost use Rattle.std.specs.Prelude.{◌≡◌, ◌≢◌, ◌-◌, ◌≤◌, ◌++◌, ◌∷◌, [], true, length, map, take, vec_len, IfErr, IfOk, OnOk, OnErr};
ghost use Rattle.rc_tree.specs.Tree.{IsTree};
ghost use Rattle.rc_volume.specs.declared.site.Side.TheVariants.{Source, Target};
ghost use Rattle.rc_volume.specs.Images.{IsImage};
ghost use Rattle.rc_volume.specs.Log.{notes_synced, synced};
ghost use Rattle.std.specs.FinMap as fin;
ghost use Rattle.rc_stop.specs.Kept.{filled, spoiled};
ghost use Rattle.rc_stop.specs.KeptSite.{kept_of, notes_of};
ghost use Rattle.rc_mem.specs.Logged.{notes_call_of};
ghost use Rattle.rc_mem.specs.MemSite.{IsFreshSite, seen_by, told_by};
ghost use Rattle.rc_stop.specs.Stops.{IsStopImage, notes_left, record_left, side_left, state_behind};

use crate::drawing::{drawn, next_state};
use crate::image::{Picked, copy_tree, is_odd, pick_tree};
use rc_mem::{Logged, MemReader, MemSite, MemTally, NotesCall, Tree};
use rc_tree::{Entry, Name, NoMemory, Path, Props, Scan};
use rc_volume::{BindErr, Side, Site, SiteErr, Want};
use std::alloc::Global;
use std::marker::Model;

/// A call on an entry.
#[derive(Debug, Drop)]
pub(crate) struct Touched {
    pub side: Side,
    pub path: Path,
}

/// What a side was when it was synced last, and how many calls on entries there were before.
#[derive(Debug, Drop)]
pub(crate) struct SyncedSide {
    pub tree: Tree,
    pub from: usize,
}

/// What the record was when it was synced last, and the calls on it since.
#[derive(Debug, Drop)]
pub(crate) struct SyncedNotes {
    pub bytes: Vec<u8>,
    pub calls: Vec<NotesCall>,
}

/// A site in memory, which contracts see, and beside it what each part was when it was synced last.
#[derive(Debug, Drop)]
pub struct KeptSite {
    behind: MemSite,
    source: SyncedSide,
    target: SyncedSide,
    notes: SyncedNotes,
    touched: Vec<Touched>,
}

impl Model for KeptSite {
    ghost use Rattle.rc_mem.specs.declared.site.MemSite.{MemSite};
    ghost use Rattle.rc_mem.specs.contracts.site.MemSite as row;

    ghost Value = { MemSite };

    ghost coded = { row.the_row.coded };

    ghost use Rattle.rc_stop.specs.KeptSite.{IsKept};

    ghost view = { λ k. k.behind };

    ghost invariant = { λ k. IsKept k.behind k.source k.target k.notes k.touched.items };
}

impl KeptSite {
    /// A site with these trees and these bytes as its record, all of it synced.
    pub fn new(
        alloc: Global,
        source: Tree,
        target: Tree,
        notes: Vec<u8>,
    ) -> Result<KeptSite, NoMemory>
        ensures told { IfOk result (λ site. told_by site
            ≡ record { source = source; target = target; notes = notes.items }) }
        ensures log { IfOk result (λ site. (seen_by site).log
            ≡ synced Source source ∷ synced Target target ∷ notes_synced notes.items ∷ []) }
        ensures opened { IfOk result (λ site. (seen_by site).opened ≡ []) }
        ensures bound { IfOk result (λ site. (seen_by site).bound ≡ []) }
    {
        source.keeps_shape();
        target.keeps_shape();
        let first = copy_tree(alloc, &source)?;
        let second = copy_tree(alloc, &target)?;
        let bytes = notes.as_slice().to_vec(alloc)?;
        Ok(KeptSite {
            behind: MemSite::new(alloc, source, target, notes)?,
            source: SyncedSide {
                tree: first,
                from: 0,
            },
            target: SyncedSide {
                tree: second,
                from: 0,
            },
            notes: SyncedNotes {
                bytes,
                calls: Vec::new(alloc),
            },
            touched: Vec::new(alloc),
        })
    }

    /// The site without what it kept.
    pub fn site(&self) -> &MemSite
        ensures { result.now ≡ self.now }
    {
        &self.behind
    }

    /// A fresh site on the image that a choice picks: 0 what reads, 1 what was synced last, and any other what is drawn,
    /// key by key. It is one that a stop may leave.
    pub fn image(&self, alloc: Global, choice: u64) -> Result<MemSite, NoMemory>
        ensures left { IfOk result (λ site. IsImage (seen_by self.now).log (told_by site)) }
        ensures picked { IfOk result (λ site.
            IsStopImage choice (seen_by self.now).log (told_by self.now) (told_by site)) }
        ensures fresh { IfOk result (λ site. IsFreshSite (told_by site) (seen_by site)) }
    {
        let first = side_image(
            alloc,
            choice,
            choice,
            Side::Source,
            &self.source,
            &self.touched,
            self.behind.tree(Side::Source),
        )?;
        let second = side_image(
            alloc,
            choice,
            first.state,
            Side::Target,
            &self.target,
            &self.touched,
            self.behind.tree(Side::Target),
        )?;
        let notes = notes_image(
            alloc,
            choice,
            second.state,
            &self.notes,
            self.behind.notes(),
        )?;
        MemSite::new(alloc, first.tree, second.tree, notes)
    }
}

// What a choice leaves of a side, and the state behind its draws.
fn side_image(
    alloc: Global,
    choice: u64,
    state: u64,
    side: Side,
    synced: &SyncedSide,
    touched: &[Touched],
    reads: &Tree,
) -> Result<Picked, NoMemory>
    requires { synced.now.from ≤ length touched.now }
    ensures left { IfOk result (λ p.
        side_left choice state (kept_of side synced.now touched.now) reads.now p.tree) }
    ensures state { IfOk result (λ p. 2 ≤ choice → p.state
        ≡ state_behind state (fin.keys (kept_of side synced.now touched.now).touched)) }
{
    match choice {
        0 => Ok(Picked {
            tree: copy_tree(alloc, reads)?,
            state,
        }),
        1 => Ok(Picked {
            tree: copy_tree(alloc, &synced.tree)?,
            state,
        }),
        _ => pick_tree(
            alloc,
            state,
            side,
            &touched[synced.from..],
            &synced.tree,
            reads,
        ),
    }
}

// What a choice leaves of the record.
fn notes_image(
    alloc: Global,
    choice: u64,
    state: u64,
    synced: &SyncedNotes,
    reads: &[u8],
) -> Result<Vec<u8>, NoMemory>
    ensures { IfOk result (λ notes. notes.items
        ≡ record_left choice state (notes_of synced.now) reads.now) }
{
    match choice {
        0 => Ok(reads.to_vec(alloc)?),
        1 => Ok(synced.bytes.as_slice().to_vec(alloc)?),
        _ => draw_notes(alloc, state, synced, reads),
    }
}

// What a draw leaves of the record.
fn draw_notes(
    alloc: Global,
    state: u64,
    synced: &SyncedNotes,
    reads: &[u8],
) -> Result<Vec<u8>, NoMemory>
    ensures { IfOk result (λ notes. notes.items ≡ notes_left state (notes_of synced.now) reads.now) }
{
    let state = next_state(state);
    if synced.calls.is_empty() || !is_odd(state) {
        return Ok(reads.to_vec(alloc)?);
    }
    let mut bytes = synced.bytes.as_slice().to_vec(alloc)?;
    let limit = bytes.len().min(reads.len());
    spoil(
        &mut bytes,
        &synced.calls,
        limit as u64,
        (drawn(state) % 256) as u8,
    );
    Ok(bytes)
}

// Gives each place of a written range that lies below the limit this byte.
fn spoil(bytes: &mut Vec<u8>, calls: &[NotesCall], limit: u64, byte: u8)
    requires { limit ≤ length bytes.old.items }
    ensures { bytes.new.items ≡ spoiled byte limit (map notes_call_of calls.now) bytes.old.items }
{
    for call in calls {
        fill(bytes, *call, limit, byte);
    }
}

// The same of one call.
fn fill(bytes: &mut Vec<u8>, call: NotesCall, limit: u64, byte: u8)
    requires { limit ≤ length bytes.old.items }
    ensures { bytes.new.items ≡ filled byte limit (notes_call_of call) bytes.old.items }
{
    if let NotesCall::Write { off, len } = call {
        let end = off.saturating_add(len).min(limit) as usize;
        let start = off.min(limit) as usize;
        bytes[start..end].fill(byte);
    }
}

// The trees of a site are trees.
fn keep_shapes(site: &MemSite)
    ensures source { IsTree (told_by site.now).source }
    ensures target { IsTree (told_by site.now).target }
{
    site.tree(Side::Source).keeps_shape();
    site.tree(Side::Target).keeps_shape();
}

// How many events are in the log of a site.
fn log_len(site: &MemSite) -> usize
    ensures { result ≡ length (seen_by site.now).log }
{
    site.log().len()
}

// Takes back the call on an entry that was noted last, where it is not in the log.
fn settle(site: &MemSite, before: usize, touched: &mut Vec<Touched>)
    ensures stood { length (seen_by site.now).log ≡ before →
        touched.new.items ≡ take (length touched.old.items - 1) touched.old.items }
    ensures came { length (seen_by site.now).log ≢ before →
        touched.new.items ≡ touched.old.items }
    ensures source { IsTree (told_by site.now).source }
    ensures target { IsTree (told_by site.now).target }
{
    keep_shapes(site);
    if log_len(site) == before {
        touched.pop();
    }
}

// The same of a call on the record.
fn settle_notes(site: &MemSite, before: usize, calls: &mut Vec<NotesCall>)
    ensures stood { length (seen_by site.now).log ≡ before →
        calls.new.items ≡ take (length calls.old.items - 1) calls.old.items }
    ensures came { length (seen_by site.now).log ≢ before → calls.new.items ≡ calls.old.items }
{
    if log_len(site) == before {
        calls.pop();
    }
}

// Notes a call on an entry that is about to come.
fn touch(alloc: Global, touched: &mut Vec<Touched>, side: Side, path: &Path) -> Result<(), SiteErr>
    ensures touched { OnOk result (touched.new.items
        ≡ touched.old.items ++ record { side = side; path = path.now } ∷ []) }
    ensures err { OnErr result (touched.new.items ≡ touched.old.items) }
    ensures memory { IfErr result (λ e. e ≡ SiteErr.NoMemory) }
{
    let Ok(path) = path.copy(alloc) else {
        return Err(SiteErr::NoMemory);
    };
    match touched.push(Touched { side, path }) {
        Ok(()) => Ok(()),
        Err(_) => Err(SiteErr::NoMemory),
    }
}

impl Site for KeptSite {
    type Tally = MemTally;

    type Reader = MemReader;

    ghost tells = { true };

    ghost view = { seen_by };

    fn bind(
        &mut self,
        alloc: Global,
        source: &str,
        target: &str,
        scan: Scan,
        moment: u64,
    ) -> Result<(), BindErr> {
        self.behind.bind(alloc, source, target, scan, moment)
    }

    fn next_entry(
        &mut self,
        alloc: Global,
        side: Side,
        dir: &Path,
        after: Option<&Name>,
    ) -> Result<Option<Entry>, SiteErr> {
        self.behind.next_entry(alloc, side, dir, after)
    }

    fn stat(&mut self, alloc: Global, side: Side, path: &Path) -> Result<Option<Entry>, SiteErr> {
        self.behind.stat(alloc, side, path)
    }

    fn make_dir(&mut self, alloc: Global, side: Side, path: &Path) -> Result<(), SiteErr> {
        match touch(alloc, &mut self.touched, side, path) {
            Ok(()) => {
                let before = log_len(&self.behind);
                let answer = self.behind.make_dir(alloc, side, path);
                settle(&self.behind, before, &mut self.touched);
                answer
            }
            Err(e) => Err(e),
        }
    }

    fn make_file(&mut self, alloc: Global, side: Side, path: &Path) -> Result<(), SiteErr> {
        match touch(alloc, &mut self.touched, side, path) {
            Ok(()) => {
                let before = log_len(&self.behind);
                let answer = self.behind.make_file(alloc, side, path);
                settle(&self.behind, before, &mut self.touched);
                answer
            }
            Err(e) => Err(e),
        }
    }

    fn put(
        &mut self,
        alloc: Global,
        side: Side,
        path: &Path,
        off: u64,
        bytes: &[u8],
    ) -> Result<(), SiteErr> {
        match touch(alloc, &mut self.touched, side, path) {
            Ok(()) => {
                let before = log_len(&self.behind);
                let answer = self.behind.put(alloc, side, path, off, bytes);
                settle(&self.behind, before, &mut self.touched);
                answer
            }
            Err(e) => Err(e),
        }
    }

    fn set_len(&mut self, alloc: Global, side: Side, path: &Path, len: u64) -> Result<(), SiteErr> {
        match touch(alloc, &mut self.touched, side, path) {
            Ok(()) => {
                let before = log_len(&self.behind);
                let answer = self.behind.set_len(alloc, side, path, len);
                settle(&self.behind, before, &mut self.touched);
                answer
            }
            Err(e) => Err(e),
        }
    }

    fn set_props(
        &mut self,
        alloc: Global,
        side: Side,
        path: &Path,
        props: &Props,
    ) -> Result<(), SiteErr> {
        match touch(alloc, &mut self.touched, side, path) {
            Ok(()) => {
                let before = log_len(&self.behind);
                let answer = self.behind.set_props(alloc, side, path, props);
                settle(&self.behind, before, &mut self.touched);
                answer
            }
            Err(e) => Err(e),
        }
    }

    fn remove(&mut self, alloc: Global, side: Side, path: &Path) -> Result<(), SiteErr> {
        match touch(alloc, &mut self.touched, side, path) {
            Ok(()) => {
                let before = log_len(&self.behind);
                let answer = self.behind.remove(alloc, side, path);
                settle(&self.behind, before, &mut self.touched);
                answer
            }
            Err(e) => Err(e),
        }
    }

    fn sync(&mut self, alloc: Global, side: Side) -> Result<(), SiteErr> {
        let Ok(tree) = copy_tree(alloc, self.behind.tree(side)) else {
            keep_shapes(&self.behind);
            return Err(SiteErr::NoMemory);
        };
        let synced = SyncedSide {
            tree,
            from: self.touched.len(),
        };
        keep_shapes(&self.behind);
        match self.behind.sync(alloc, side) {
            Ok(()) => {
                match side {
                    Side::Source => self.source = synced,
                    Side::Target => self.target = synced,
                }
                Ok(())
            }
            Err(e) => Err(e),
        }
    }

    fn record_len(&mut self, alloc: Global) -> Result<u64, SiteErr> {
        self.behind.record_len(alloc)
    }

    fn record_read(&mut self, alloc: Global, off: u64, len: usize) -> Result<Vec<u8>, SiteErr> {
        self.behind.record_read(alloc, off, len)
    }

    fn record_write(&mut self, alloc: Global, off: u64, bytes: &[u8]) -> Result<(), SiteErr> {
        let len = bytes.len() as u64;
        match note(&mut self.notes.calls, NotesCall::Write { off, len }) {
            Ok(()) => {
                let before = log_len(&self.behind);
                let answer = self.behind.record_write(alloc, off, bytes);
                settle_notes(&self.behind, before, &mut self.notes.calls);
                answer
            }
            Err(e) => Err(e),
        }
    }

    fn record_cut(&mut self, alloc: Global, len: u64) -> Result<(), SiteErr> {
        match note(&mut self.notes.calls, NotesCall::Cut { len }) {
            Ok(()) => {
                let before = log_len(&self.behind);
                let answer = self.behind.record_cut(alloc, len);
                settle_notes(&self.behind, before, &mut self.notes.calls);
                answer
            }
            Err(e) => Err(e),
        }
    }

    fn record_sync(&mut self, alloc: Global) -> Result<(), SiteErr> {
        let Ok(bytes) = self.behind.notes().to_vec(alloc) else {
            return Err(SiteErr::NoMemory);
        };
        match self.behind.record_sync(alloc) {
            Ok(()) => {
                self.notes = SyncedNotes {
                    bytes,
                    calls: Vec::new(alloc),
                };
                Ok(())
            }
            Err(e) => Err(e),
        }
    }

    fn reader(&mut self, alloc: Global, wants: Vec<Want>) -> Result<MemReader, SiteErr> {
        self.behind.reader(alloc, wants)
    }

    fn absorb(&mut self, tally: MemTally) {
        self.behind.absorb(tally);
    }
}

// Notes a call on the record that is about to come.
fn note(calls: &mut Vec<NotesCall>, call: NotesCall) -> Result<(), SiteErr>
    ensures noted { OnOk result (map notes_call_of calls.new.items
        ≡ map notes_call_of calls.old.items ++ notes_call_of call ∷ []) }
    ensures items { OnOk result (calls.new.items ≡ calls.old.items ++ call ∷ []) }
    ensures err { OnErr result (calls.new.items ≡ calls.old.items) }
    ensures memory { IfErr result (λ e. e ≡ SiteErr.NoMemory) }
{
    match calls.push(call) {
        Ok(()) => Ok(()),
        Err(_) => Err(SiteErr::NoMemory),
    }
}
