//! A site in memory of which named calls fail.

ghost use Rattle.std.specs.Prelude.{◌≡◌, Bool, true, false, Err, IfErr, IfNone, IfSome, OnErr, OnOk, Some, is_err};
ghost use Rattle.rc_tree.specs.Path.{key_of};
ghost use Rattle.rc_volume.specs.declared.site.Part.{Part};
ghost use Rattle.rc_volume.specs.Faults.{on, part_cause, part_for, quiet, side_cause, Counts};
ghost use Rattle.rc_volume.specs.Log.{Logs, LogsOn, changed, noted};
ghost use Rattle.rc_mem.specs.Logged.{call_of, notes_call_of};
ghost use Rattle.rc_failing.specs.Failing.{failures_in, seen_failing};
ghost use Rattle.rc_failing.specs.Named.{Comes, ComesToBind, NamesCall, NamesNothing, NamesReads, SameReads};

use crate::call::FailingKind;
use crate::named::Named;
use crate::{Call, FailingReader, Failures};
use rc_mem::{EntryCall, MemSite, NotesCall};
use rc_tree::{Entry, Name, NoMemory, Path, Props, Scan};
use rc_volume::{BindErr, Part, Side, Site, SiteErr, Want};
use std::alloc::Global;
use std::snapshot::Snapshot;

/// A site in memory of which calls fail where they are named, changing nothing of what is told. A changing call that fails
/// is in the log of the site behind it.
#[derive(Debug, Drop)]
pub struct FailingSite {
    pub behind: MemSite,
    named: Named,
    source_failures: u64,
    target_failures: u64,
    record_failures: u64,
}

impl FailingSite {
    /// The site, of which nothing fails yet.
    pub fn new(alloc: Global, behind: MemSite) -> FailingSite
        ensures behind { result.behind ≡ behind }
        ensures nowhere { NamesNothing result.named }
        ensures faults { (part : Part) → failures_in result part ≡ 0 }
    {
        FailingSite {
            behind,
            named: Named::new(alloc),
            source_failures: 0,
            target_failures: 0,
            record_failures: 0,
        }
    }

    /// Makes the call of this number on this part fail, counted from 1 on from when this site was made; there is no call of
    /// number 0. `bind` is a call on the source, and where that does not fail one on the target; `reader` is one on the
    /// source, and `absorb` is none; each other call is one on its part.
    pub fn fail_call(&mut self, part: Part, number: u64) -> Result<(), NoMemory>
        ensures seen { seen_failing self.new ≡ seen_failing self.old }
        ensures named { OnOk result (NamesCall part number self.old.named self.new.named) }
        ensures err { OnErr result (self.new.named ≡ self.old.named) }
    {
        self.named.name_call(part, number)
    }

    /// Makes the first so many attempts at each read of the file at this path fail, whatever its spelling: those whose
    /// `attempt` is below `times`. Of a path that is named twice the larger number holds. Readers that were made before do
    /// not change.
    pub fn fail_reads(&mut self, alloc: Global, path: &Path, times: u32) -> Result<(), NoMemory>
        ensures seen { seen_failing self.new ≡ seen_failing self.old }
        ensures named { OnOk result
            (NamesReads (key_of path.now) times self.old.named self.new.named) }
        ensures err { OnErr result (SameReads self.old.named self.new.named) }
    {
        self.named.name_reads(alloc, path, times)
    }

    /// Makes so many calls of this kind fail, behind so many others of it that come from now on, in the place of the kind that
    /// was named before. [`Call::Fill`] makes all reads fail of the readers that are made from now on.
    pub fn fail_kind(&mut self, call: Call, before: u64, times: u64)
        ensures seen { seen_failing self.new ≡ seen_failing self.old }
        ensures named { self.new.named ≡ record self.old.named {
          kind = Some (record { call = call; before = before; times = times });
        } }
    {
        self.named.kind = Some(FailingKind {
            call,
            before,
            times,
        });
    }

    // Counts a failure of a part.
    fn count(&mut self, part: Part)
        ensures behind { self.new.behind ≡ self.old.behind }
        ensures named { self.new.named ≡ self.old.named }
        ensures counts { Counts (on part 1) (failures_in self.old) (failures_in self.new) }
    {
        match part {
            Part::Source => self.source_failures = self.source_failures.saturating_add(1),
            Part::Target => self.target_failures = self.target_failures.saturating_add(1),
            Part::Record => self.record_failures = self.record_failures.saturating_add(1),
        }
    }

    // Whether this call, which comes now, fails: then its part's count of faults rises.
    fn fails(&mut self, call: Call, part: Part) -> bool
        ensures comes { Comes part call result self.old.named self.new.named }
        ensures behind { self.new.behind ≡ self.old.behind }
        ensures failed { result ≡ true →
            Counts (on part 1) (failures_in self.old) (failures_in self.new) }
        ensures passed { result ≡ false →
            Counts quiet (failures_in self.old) (failures_in self.new) }
    {
        let fails = self.named.is_due(part, call);
        if fails {
            self.count(part);
        }
        fails
    }

    // The error of this call on an entry where it fails: then it is in the log.
    fn change(
        &mut self,
        call: Call,
        side: Side,
        path: &Path,
        logged: EntryCall,
    ) -> Result<(), SiteErr>
        ensures comes { Comes (part_for side) call (is_err result) self.old.named self.new.named }
        ensures passed { OnOk result (self.new.behind ≡ self.old.behind) }
        ensures logged { IfErr result (λ e. Logs {T = Unit {0}} (Err e)
            (changed side (key_of path.now) (call_of path.now logged))
            (seen_failing self.old).log (seen_failing self.new).log) }
        ensures only { LogsOn (part_for side)
            (seen_failing self.old).log (seen_failing self.new).log }
        ensures told { (seen_failing self.new).told ≡ (seen_failing self.old).told }
        ensures opened { (seen_failing self.new).opened ≡ (seen_failing self.old).opened }
        ensures bound { (seen_failing self.new).bound ≡ (seen_failing self.old).bound }
        ensures cause { Counts (side_cause side result)
            (failures_in self.old) (failures_in self.new) }
    {
        if !self.named.is_due(part_for(side), call) {
            return Ok(());
        }
        match self.behind.log_failed(side, path, logged) {
            Ok(()) => {
                self.count(part_for(side));
                Err(SiteErr::Failed)
            }
            Err(_) => Err(SiteErr::NoMemory),
        }
    }

    // The same of a call on the record.
    fn change_notes(&mut self, call: Call, logged: NotesCall) -> Result<(), SiteErr>
        ensures comes { Comes Part.Record call (is_err result) self.old.named self.new.named }
        ensures passed { OnOk result (self.new.behind ≡ self.old.behind) }
        ensures logged { IfErr result (λ e. Logs {T = Unit {0}} (Err e) (noted (notes_call_of logged))
            (seen_failing self.old).log (seen_failing self.new).log) }
        ensures only { LogsOn Part.Record (seen_failing self.old).log (seen_failing self.new).log }
        ensures told { (seen_failing self.new).told ≡ (seen_failing self.old).told }
        ensures opened { (seen_failing self.new).opened ≡ (seen_failing self.old).opened }
        ensures bound { (seen_failing self.new).bound ≡ (seen_failing self.old).bound }
        ensures cause { Counts (part_cause Part.Record result)
            (failures_in self.old) (failures_in self.new) }
    {
        if !self.named.is_due(Part::Record, call) {
            return Ok(());
        }
        match self.behind.log_failed_notes(logged) {
            Ok(()) => {
                self.count(Part::Record);
                Err(SiteErr::Failed)
            }
            Err(_) => Err(SiteErr::NoMemory),
        }
    }

    // The side that can't be bound, where one can't: the target is not asked where the source fails.
    fn unbound_side(&mut self) -> Option<Side>
        ensures comes { ComesToBind result self.old.named self.new.named }
        ensures behind { self.new.behind ≡ self.old.behind }
        ensures failed { IfSome result
            (λ side. Counts (on (part_for side) 1) (failures_in self.old) (failures_in self.new)) }
        ensures passed { IfNone result
            (Counts quiet (failures_in self.old) (failures_in self.new)) }
    {
        if self.fails(Call::Bind(Side::Source), Part::Source) {
            return Some(Side::Source);
        }
        if self.fails(Call::Bind(Side::Target), Part::Target) {
            return Some(Side::Target);
        }
        None
    }
}

// The part whose count a side's faults go to.
fn part_for(side: Side) -> Part
    ensures { result ≡ part_for side }
{
    match side {
        Side::Source => Part::Source,
        Side::Target => Part::Target,
    }
}

impl Site for FailingSite {
    type Tally = Failures;

    type Reader = FailingReader;

    ghost tells = { true };

    ghost view = { seen_failing };

    fn bind(
        &mut self,
        alloc: Global,
        source: &str,
        target: &str,
        scan: Scan,
        moment: u64,
    ) -> Result<(), BindErr> {
        match self.unbound_side() {
            Some(side) => Err(BindErr::Failed { side }),
            None => self.behind.bind(alloc, source, target, scan, moment),
        }
    }

    fn next_entry(
        &mut self,
        alloc: Global,
        side: Side,
        dir: &Path,
        after: Option<&Name>,
    ) -> Result<Option<Entry>, SiteErr> {
        if self.fails(Call::NextEntry(side), part_for(side)) {
            self.behind.tree(side).keeps_shape();
            return Err(SiteErr::Failed);
        }
        self.behind.next_entry(alloc, side, dir, after)
    }

    fn stat(&mut self, alloc: Global, side: Side, path: &Path) -> Result<Option<Entry>, SiteErr> {
        if self.fails(Call::Stat(side), part_for(side)) {
            self.behind.tree(side).keeps_shape();
            return Err(SiteErr::Failed);
        }
        self.behind.stat(alloc, side, path)
    }

    fn make_dir(&mut self, alloc: Global, side: Side, path: &Path) -> Result<(), SiteErr> {
        match self.change(Call::MakeDir, side, path, EntryCall::MakeDir) {
            Ok(()) => self.behind.make_dir(alloc, side, path),
            Err(SiteErr::Failed) => Err(SiteErr::Failed),
            Err(SiteErr::NoMemory) => Err(SiteErr::NoMemory),
        }
    }

    fn make_file(&mut self, alloc: Global, side: Side, path: &Path) -> Result<(), SiteErr> {
        match self.change(Call::MakeFile, side, path, EntryCall::MakeFile) {
            Ok(()) => self.behind.make_file(alloc, side, path),
            Err(SiteErr::Failed) => Err(SiteErr::Failed),
            Err(SiteErr::NoMemory) => Err(SiteErr::NoMemory),
        }
    }

    fn put(
        &mut self,
        alloc: Global,
        side: Side,
        path: &Path,
        off: u64,
        bytes: &[u8],
    ) -> Result<(), SiteErr> {
        let len = bytes.len() as u64;
        match self.change(Call::Put, side, path, EntryCall::Put { off, len }) {
            Ok(()) => self.behind.put(alloc, side, path, off, bytes),
            Err(SiteErr::Failed) => Err(SiteErr::Failed),
            Err(SiteErr::NoMemory) => Err(SiteErr::NoMemory),
        }
    }

    fn set_len(&mut self, alloc: Global, side: Side, path: &Path, len: u64) -> Result<(), SiteErr> {
        match self.change(Call::SetLen, side, path, EntryCall::SetLen { len }) {
            Ok(()) => self.behind.set_len(alloc, side, path, len),
            Err(SiteErr::Failed) => Err(SiteErr::Failed),
            Err(SiteErr::NoMemory) => Err(SiteErr::NoMemory),
        }
    }

    fn set_props(
        &mut self,
        alloc: Global,
        side: Side,
        path: &Path,
        props: &Props,
    ) -> Result<(), SiteErr> {
        let given = Snapshot::of(props);
        match self.change(
            Call::SetProps,
            side,
            path,
            EntryCall::SetProps { props: given },
        ) {
            Ok(()) => self.behind.set_props(alloc, side, path, props),
            Err(SiteErr::Failed) => Err(SiteErr::Failed),
            Err(SiteErr::NoMemory) => Err(SiteErr::NoMemory),
        }
    }

    fn remove(&mut self, alloc: Global, side: Side, path: &Path) -> Result<(), SiteErr> {
        match self.change(Call::Remove, side, path, EntryCall::Remove) {
            Ok(()) => self.behind.remove(alloc, side, path),
            Err(SiteErr::Failed) => Err(SiteErr::Failed),
            Err(SiteErr::NoMemory) => Err(SiteErr::NoMemory),
        }
    }

    fn sync(&mut self, alloc: Global, side: Side) -> Result<(), SiteErr> {
        if self.fails(Call::Sync, part_for(side)) {
            self.behind.tree(side).keeps_shape();
            return Err(SiteErr::Failed);
        }
        self.behind.sync(alloc, side)
    }

    fn record_len(&mut self, alloc: Global) -> Result<u64, SiteErr> {
        if self.fails(Call::RecordLen, Part::Record) {
            return Err(SiteErr::Failed);
        }
        self.behind.record_len(alloc)
    }

    fn record_read(&mut self, alloc: Global, off: u64, len: usize) -> Result<Vec<u8>, SiteErr> {
        if self.fails(Call::RecordRead, Part::Record) {
            return Err(SiteErr::Failed);
        }
        self.behind.record_read(alloc, off, len)
    }

    fn record_write(&mut self, alloc: Global, off: u64, bytes: &[u8]) -> Result<(), SiteErr> {
        let len = bytes.len() as u64;
        match self.change_notes(Call::RecordWrite, NotesCall::Write { off, len }) {
            Ok(()) => self.behind.record_write(alloc, off, bytes),
            Err(SiteErr::Failed) => Err(SiteErr::Failed),
            Err(SiteErr::NoMemory) => Err(SiteErr::NoMemory),
        }
    }

    fn record_cut(&mut self, alloc: Global, len: u64) -> Result<(), SiteErr> {
        match self.change_notes(Call::RecordCut, NotesCall::Cut { len }) {
            Ok(()) => self.behind.record_cut(alloc, len),
            Err(SiteErr::Failed) => Err(SiteErr::Failed),
            Err(SiteErr::NoMemory) => Err(SiteErr::NoMemory),
        }
    }

    fn record_sync(&mut self, alloc: Global) -> Result<(), SiteErr> {
        if self.fails(Call::RecordSync, Part::Record) {
            return Err(SiteErr::Failed);
        }
        self.behind.record_sync(alloc)
    }

    fn reader(&mut self, alloc: Global, wants: Vec<Want>) -> Result<FailingReader, SiteErr> {
        if self.fails(Call::Reader, Part::Source) {
            return Err(SiteErr::Failed);
        }
        match self.named.failing_reads(alloc, wants.as_slice()) {
            Ok(failing) => match self.behind.reader(alloc, wants) {
                Ok(behind) => Ok(FailingReader { behind, failing }),
                Err(e) => Err(e),
            },
            Err(NoMemory) => Err(SiteErr::NoMemory),
        }
    }

    fn absorb(&mut self, tally: Failures) {
        self.source_failures = self.source_failures.saturating_add(tally.count);
    }
}
