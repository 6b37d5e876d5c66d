//! A site in memory that stops at a call, and gives what the stop leaves.

ghost use Rattle.std.specs.Prelude.{◌≡◌, true, false, length, Err, IfErr, IfOk, OnOk};
ghost use Rattle.rc_tree.specs.Path.{key_of};
ghost use Rattle.rc_volume.specs.Faults.{Counts, bind_cause, on, part_cause, part_for, quiet, side_cause};
ghost use Rattle.rc_volume.specs.Images.{IsImage};
ghost use Rattle.rc_volume.specs.Log.{Logs, LogsOn, changed, noted};
ghost use Rattle.rc_mem.specs.Logged.{call_of, notes_call_of};
ghost use Rattle.rc_mem.specs.MemSite.{IsFreshSite, seen_by, told_by};
ghost use Rattle.rc_stop.specs.Stopping.{RunsOn, due_in, failures_in, same_part, log_before, seen_stopping};
ghost use Rattle.rc_stop.specs.Stops.{IsStopImage};

use crate::kept::KeptSite;
use rc_mem::{
    EntryCall, Logged, MemReader, MemSite, MemTally, NotesCall, Tree, log_change, log_notes,
};
use rc_tree::{Entry, Name, NoMemory, Path, Props, Scan};
use rc_volume::{BindErr, Part, Side, Site, SiteErr, Want};
use std::alloc::Global;
use std::snapshot::Snapshot;

/// A site in memory of which a changing call that is named fails, and every call after it. Until then it is one of which
/// nothing fails. A changing call that fails is in its log.
#[derive(Debug, Drop)]
pub struct StopSite {
    kept: KeptSite,
    part: Part,
    number: u64,
    stopped: bool,
    later: Vec<Logged>,
    source_calls: u64,
    target_calls: u64,
    record_calls: u64,
    source_failures: u64,
    target_failures: u64,
    record_failures: u64,
}

impl StopSite {
    /// A site with these trees and these bytes as its record, all of it synced, that stops at no call.
    pub fn new(
        alloc: Global,
        source: Tree,
        target: Tree,
        notes: Vec<u8>,
    ) -> Result<StopSite, NoMemory>
        ensures fresh { IfOk result (λ site. IsFreshSite
            (record { source = source; target = target; notes = notes.items })
            (seen_stopping site)) }
        ensures running { IfOk result (λ site. site.stopped ≡ false) }
    {
        Ok(StopSite {
            kept: KeptSite::new(alloc, source, target, notes)?,
            part: Part::Source,
            number: 0,
            stopped: false,
            later: Vec::new(alloc),
            source_calls: 0,
            target_calls: 0,
            record_calls: 0,
            source_failures: 0,
            target_failures: 0,
            record_failures: 0,
        })
    }

    /// Makes the changing call of this number on this part fail, counted from 1 on from when the site was made, and every
    /// call after it. Syncs are changing calls. A call that was named before is not named any more.
    pub fn stop_at(&mut self, part: Part, number: u64)
        ensures seen { seen_stopping self.new ≡ seen_stopping self.old }
        ensures stopped { self.new.stopped ≡ self.old.stopped }
        ensures part { self.new.part ≡ part }
        ensures number { self.new.number ≡ number }
    {
        self.part = part;
        self.number = number;
    }

    /// Whether the stopping call came.
    pub fn stopped(&self) -> bool
        ensures { result ≡ self.now.stopped }
    {
        self.stopped
    }

    /// The moment at which the stopping call began: how many events were in the log.
    pub fn stop_moment(&self) -> usize
        requires { self.now.stopped ≡ true }
        ensures { result ≡ length (log_before self.now) }
    {
        self.site().log().len()
    }

    /// A fresh site on the image that a choice picks at the stopping call: 0 what reads, 1 what was synced last, and any
    /// other what is drawn key by key. It is one that a stop might have left when that call began.
    pub fn stop_image(&self, alloc: Global, choice: u64) -> Result<MemSite, NoMemory>
        requires { self.now.stopped ≡ true }
        ensures left { IfOk result (λ site. IsImage (log_before self.now) (told_by site)) }
        ensures picked { IfOk result (λ site. IsStopImage choice (log_before self.now)
            (seen_stopping self.now).told (told_by site)) }
        ensures fresh { IfOk result (λ site. IsFreshSite (told_by site) (seen_by site)) }
    {
        self.kept.image(alloc, choice)
    }

    /// The site as it reads, with the log that it had before it stopped.
    pub fn site(&self) -> &MemSite
        ensures { result.now ≡ self.now.kept }
    {
        self.kept.site()
    }

    // Counts a changing call on a part of a site that runs, and whether it is the stopping one.
    fn is_due(&mut self, part: Part) -> bool
        requires { self.old.stopped ≡ false }
        ensures kept { self.new.kept ≡ self.old.kept }
        ensures stopped { self.new.stopped ≡ false }
        ensures due { result ≡ due_in self.old part }
        ensures counts { Counts quiet (failures_in self.old) (failures_in self.new) }
    {
        let count = match part {
            Part::Source => {
                self.source_calls = self.source_calls.saturating_add(1);
                self.source_calls
            }
            Part::Target => {
                self.target_calls = self.target_calls.saturating_add(1);
                self.target_calls
            }
            Part::Record => {
                self.record_calls = self.record_calls.saturating_add(1);
                self.record_calls
            }
        };
        is_part(self.part, part) && count == self.number
    }

    // Whether a changing call on a part may be done; where it may not, the site has stopped.
    fn runs(&mut self, part: Part) -> bool
        ensures kept { self.new.kept ≡ self.old.kept }
        ensures runs { result ≡ true →
            RunsOn self.old self.new × (due_in self.old part ≡ false) }
        ensures fails { result ≡ false → (self.new.stopped ≡ true)
            × (self.old.stopped ≡ false → due_in self.old part ≡ true) }
        ensures log { (seen_stopping self.new).log ≡ (seen_stopping self.old).log }
        ensures counts { Counts quiet (failures_in self.old) (failures_in self.new) }
    {
        if self.stopped {
            return false;
        }
        if !self.is_due(part) {
            return true;
        }
        self.later.clear();
        self.stopped = true;
        false
    }

    // Counts a failure of a part.
    fn count(&mut self, part: Part)
        ensures kept { self.new.kept ≡ self.old.kept }
        ensures stopped { self.new.stopped ≡ self.old.stopped }
        ensures later { self.new.later ≡ self.old.later }
        ensures counts { Counts (on part 1) (failures_in self.old) (failures_in self.new) }
    {
        match part {
            Part::Source => self.source_failures = self.source_failures.saturating_add(1),
            Part::Target => self.target_failures = self.target_failures.saturating_add(1),
            Part::Record => self.record_failures = self.record_failures.saturating_add(1),
        }
    }
}

impl StopSite {
    // Whether a call that changes nothing fails, which its part's count of faults counts.
    fn fails(&mut self, part: Part) -> bool
        ensures kept { self.new.kept ≡ self.old.kept }
        ensures log { (seen_stopping self.new).log ≡ (seen_stopping self.old).log }
        ensures failed { result ≡ true →
            Counts (on part 1) (failures_in self.old) (failures_in self.new) }
        ensures passed { result ≡ false →
            Counts quiet (failures_in self.old) (failures_in self.new) }
    {
        if self.stopped {
            self.count(part);
            return true;
        }
        false
    }

    // The error of a call on an entry where it fails: then it is in the log.
    fn change(&mut self, side: Side, path: &Path, call: EntryCall) -> Result<(), SiteErr>
        ensures kept { self.new.kept ≡ self.old.kept }
        ensures passed { OnOk result
            (RunsOn self.old self.new × (due_in self.old (part_for side) ≡ false)) }
        ensures logged { IfErr result (λ e. Logs {T = Unit {0}} (Err e)
            (changed side (key_of path.now) (call_of path.now call))
            (seen_stopping self.old).log (seen_stopping self.new).log) }
        ensures only { LogsOn (part_for side)
            (seen_stopping self.old).log (seen_stopping self.new).log }
        ensures cause { Counts (side_cause side result)
            (failures_in self.old) (failures_in self.new) }
    {
        if self.runs(part_for(side)) {
            return Ok(());
        }
        match log_change(&mut self.later, side, path, call) {
            Ok(()) => {
                self.count(part_for(side));
                Err(SiteErr::Failed)
            }
            Err(_) => Err(SiteErr::NoMemory),
        }
    }

    // The same of a call on the record.
    fn change_notes(&mut self, call: NotesCall) -> Result<(), SiteErr>
        ensures kept { self.new.kept ≡ self.old.kept }
        ensures passed { OnOk result
            (RunsOn self.old self.new × (due_in self.old Part.Record ≡ false)) }
        ensures logged { IfErr result (λ e. Logs {T = Unit {0}} (Err e) (noted (notes_call_of call))
            (seen_stopping self.old).log (seen_stopping self.new).log) }
        ensures only { LogsOn Part.Record
            (seen_stopping self.old).log (seen_stopping self.new).log }
        ensures cause { Counts (part_cause Part.Record result)
            (failures_in self.old) (failures_in self.new) }
    {
        if self.runs(Part::Record) {
            return Ok(());
        }
        match log_notes(&mut self.later, call) {
            Ok(()) => {
                self.count(Part::Record);
                Err(SiteErr::Failed)
            }
            Err(_) => Err(SiteErr::NoMemory),
        }
    }

    // Whether a sync of a part may be done; where it may not, it is counted as failed.
    fn syncs(&mut self, part: Part) -> bool
        ensures kept { self.new.kept ≡ self.old.kept }
        ensures passed { result ≡ true →
            RunsOn self.old self.new × (due_in self.old part ≡ false) }
        ensures log { (seen_stopping self.new).log ≡ (seen_stopping self.old).log }
        ensures quiet { result ≡ true →
            Counts quiet (failures_in self.old) (failures_in self.new) }
        ensures failed { result ≡ false →
            Counts (on part 1) (failures_in self.old) (failures_in self.new) }
    {
        let runs = self.runs(part);
        if !runs {
            self.count(part);
        }
        runs
    }
}

// Whether two parts are one.
fn is_part(one: Part, other: Part) -> bool
    ensures { result ≡ same_part one other }
{
    match one {
        Part::Source => match other {
            Part::Source => true,
            Part::Target => false,
            Part::Record => false,
        },
        Part::Target => match other {
            Part::Source => false,
            Part::Target => true,
            Part::Record => false,
        },
        Part::Record => match other {
            Part::Source => false,
            Part::Target => false,
            Part::Record => true,
        },
    }
}

// The part whose count a side's faults go to.
fn part_for(side: Side) -> Part
    ensures { result ≡ part_for side }
{
    match side {
        Side::Source => Part::Source,
        Side::Target => Part::Target,
    }
}

impl Site for StopSite {
    type Tally = MemTally;

    type Reader = MemReader;

    ghost tells = { true };

    ghost view = { seen_stopping };

    fn bind(
        &mut self,
        alloc: Global,
        source: &str,
        target: &str,
        scan: Scan,
        moment: u64,
    ) -> Result<(), BindErr> {
        if self.fails(Part::Source) {
            return Err(BindErr::Failed { side: Side::Source });
        }
        self.kept.bind(alloc, source, target, scan, moment)
    }

    fn next_entry(
        &mut self,
        alloc: Global,
        side: Side,
        dir: &Path,
        after: Option<&Name>,
    ) -> Result<Option<Entry>, SiteErr> {
        if self.fails(part_for(side)) {
            self.site().tree(side).keeps_shape();
            return Err(SiteErr::Failed);
        }
        self.kept.next_entry(alloc, side, dir, after)
    }

    fn stat(&mut self, alloc: Global, side: Side, path: &Path) -> Result<Option<Entry>, SiteErr> {
        if self.fails(part_for(side)) {
            self.site().tree(side).keeps_shape();
            return Err(SiteErr::Failed);
        }
        self.kept.stat(alloc, side, path)
    }

    fn make_dir(&mut self, alloc: Global, side: Side, path: &Path) -> Result<(), SiteErr> {
        match self.change(side, path, EntryCall::MakeDir) {
            Ok(()) => self.kept.make_dir(alloc, side, path),
            Err(SiteErr::Failed) => Err(SiteErr::Failed),
            Err(SiteErr::NoMemory) => Err(SiteErr::NoMemory),
        }
    }

    fn make_file(&mut self, alloc: Global, side: Side, path: &Path) -> Result<(), SiteErr> {
        match self.change(side, path, EntryCall::MakeFile) {
            Ok(()) => self.kept.make_file(alloc, side, path),
            Err(SiteErr::Failed) => Err(SiteErr::Failed),
            Err(SiteErr::NoMemory) => Err(SiteErr::NoMemory),
        }
    }

    fn put(
        &mut self,
        alloc: Global,
        side: Side,
        path: &Path,
        off: u64,
        bytes: &[u8],
    ) -> Result<(), SiteErr> {
        let len = bytes.len() as u64;
        match self.change(side, path, EntryCall::Put { off, len }) {
            Ok(()) => self.kept.put(alloc, side, path, off, bytes),
            Err(SiteErr::Failed) => Err(SiteErr::Failed),
            Err(SiteErr::NoMemory) => Err(SiteErr::NoMemory),
        }
    }

    fn set_len(&mut self, alloc: Global, side: Side, path: &Path, len: u64) -> Result<(), SiteErr> {
        match self.change(side, path, EntryCall::SetLen { len }) {
            Ok(()) => self.kept.set_len(alloc, side, path, len),
            Err(SiteErr::Failed) => Err(SiteErr::Failed),
            Err(SiteErr::NoMemory) => Err(SiteErr::NoMemory),
        }
    }

    fn set_props(
        &mut self,
        alloc: Global,
        side: Side,
        path: &Path,
        props: &Props,
    ) -> Result<(), SiteErr> {
        let given = Snapshot::of(props);
        match self.change(side, path, EntryCall::SetProps { props: given }) {
            Ok(()) => self.kept.set_props(alloc, side, path, props),
            Err(SiteErr::Failed) => Err(SiteErr::Failed),
            Err(SiteErr::NoMemory) => Err(SiteErr::NoMemory),
        }
    }

    fn remove(&mut self, alloc: Global, side: Side, path: &Path) -> Result<(), SiteErr> {
        match self.change(side, path, EntryCall::Remove) {
            Ok(()) => self.kept.remove(alloc, side, path),
            Err(SiteErr::Failed) => Err(SiteErr::Failed),
            Err(SiteErr::NoMemory) => Err(SiteErr::NoMemory),
        }
    }

    fn sync(&mut self, alloc: Global, side: Side) -> Result<(), SiteErr> {
        if !self.syncs(part_for(side)) {
            self.site().tree(side).keeps_shape();
            return Err(SiteErr::Failed);
        }
        self.kept.sync(alloc, side)
    }

    fn record_len(&mut self, alloc: Global) -> Result<u64, SiteErr> {
        if self.fails(Part::Record) {
            return Err(SiteErr::Failed);
        }
        self.kept.record_len(alloc)
    }

    fn record_read(&mut self, alloc: Global, off: u64, len: usize) -> Result<Vec<u8>, SiteErr> {
        if self.fails(Part::Record) {
            return Err(SiteErr::Failed);
        }
        self.kept.record_read(alloc, off, len)
    }

    fn record_write(&mut self, alloc: Global, off: u64, bytes: &[u8]) -> Result<(), SiteErr> {
        let len = bytes.len() as u64;
        match self.change_notes(NotesCall::Write { off, len }) {
            Ok(()) => self.kept.record_write(alloc, off, bytes),
            Err(SiteErr::Failed) => Err(SiteErr::Failed),
            Err(SiteErr::NoMemory) => Err(SiteErr::NoMemory),
        }
    }

    fn record_cut(&mut self, alloc: Global, len: u64) -> Result<(), SiteErr> {
        match self.change_notes(NotesCall::Cut { len }) {
            Ok(()) => self.kept.record_cut(alloc, len),
            Err(SiteErr::Failed) => Err(SiteErr::Failed),
            Err(SiteErr::NoMemory) => Err(SiteErr::NoMemory),
        }
    }

    fn record_sync(&mut self, alloc: Global) -> Result<(), SiteErr> {
        if !self.syncs(Part::Record) {
            return Err(SiteErr::Failed);
        }
        self.kept.record_sync(alloc)
    }

    fn reader(&mut self, alloc: Global, wants: Vec<Want>) -> Result<MemReader, SiteErr> {
        if self.fails(Part::Source) {
            return Err(SiteErr::Failed);
        }
        self.kept.reader(alloc, wants)
    }

    fn absorb(&mut self, tally: MemTally) {
        self.kept.absorb(tally);
        // A tally in memory has no failure.
        self.source_failures = self.source_failures.saturating_add(0);
    }
}
