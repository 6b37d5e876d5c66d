//! Which calls of a site fail.

ghost use Rattle.std.specs.Prelude.{◌≡◌, ◌↔◌, IfOk, IsTrue, OnErr, OnOk};
ghost use Rattle.rc_tree.specs.Path.{key_of};
ghost use Rattle.rc_failing.specs.Named.{CountsNumber, FailsAsNamed, IsDue, IsKindDue, IsOfAllReads, NamesCall, NamesNothing, NamesReads, PassesKind, SameReads, is_among, next_number, numbers_on};

use crate::Call;
use crate::call::FailingKind;
use crate::numbers::Numbers;
use crate::reads::{FailingReads, times_of, times_wanted};
use rc_tree::{Key, NoMemory, Path};
use rc_volume::{Part, Want};
use std::alloc::Global;
use std::collections::BTreeMap;

// Which calls fail: by their numbers on each part, by their kind, and the reads of a file by its key, so many times each.
#[derive(Debug, Drop)]
pub(crate) struct Named {
    pub(crate) source: Numbers,
    pub(crate) target: Numbers,
    pub(crate) notes: Numbers,
    pub(crate) kind: Option<FailingKind>,
    pub(crate) reads: BTreeMap<Key, u32>,
}

impl Named {
    pub(crate) fn new(alloc: Global) -> Named
        ensures { NamesNothing result }
    {
        Named {
            source: Numbers::new(alloc),
            target: Numbers::new(alloc),
            notes: Numbers::new(alloc),
            kind: None,
            reads: BTreeMap::new(alloc),
        }
    }

    pub(crate) fn name_call(&mut self, part: Part, number: u64) -> Result<(), NoMemory>
        ensures named { OnOk result (NamesCall part number self.old self.new) }
        ensures err { OnErr result (self.new ≡ self.old) }
    {
        match part {
            Part::Source => self.source.name(number),
            Part::Target => self.target.name(number),
            Part::Record => self.notes.name(number),
        }
    }

    pub(crate) fn name_reads(
        &mut self,
        alloc: Global,
        path: &Path,
        times: u32,
    ) -> Result<(), NoMemory>
        ensures named { OnOk result (NamesReads (key_of path.now) times self.old self.new) }
        ensures err { OnErr result (SameReads self.old self.new) }
    {
        let key = path.key(alloc)?;
        let had = times_of(&self.reads, &key);
        let most = had.max(times);
        self.reads.insert(key, most)?;
        Ok(())
    }

    // Whether this call on a part, which comes now, fails.
    pub(crate) fn is_due(&mut self, part: Part, call: Call) -> bool
        ensures due { IsTrue result ↔ IsDue self.old part call }
        ensures number { CountsNumber part self.old self.new }
        ensures kind { PassesKind call self.old.kind self.new.kind }
    {
        let by_kind = self.is_kind_due(call);
        let by_number = self.is_number_due(part);
        by_number | by_kind
    }

    fn is_number_due(&mut self, part: Part) -> bool
        ensures due { let numbers = numbers_on self.old part in
            result ≡ is_among numbers (next_number numbers) }
        ensures counted { CountsNumber part self.old self.new }
        ensures kind { self.new.kind ≡ self.old.kind }
    {
        match part {
            Part::Source => self.source.is_due(),
            Part::Target => self.target.is_due(),
            Part::Record => self.notes.is_due(),
        }
    }

    fn is_kind_due(&mut self, call: Call) -> bool
        ensures due { IsTrue result ↔ IsKindDue self.old.kind call }
        ensures passes { PassesKind call self.old.kind self.new.kind }
        ensures others { self.new ≡ record self.old { kind = self.new.kind } }
    {
        match &mut self.kind {
            Some(kind) => kind.is_due(call),
            None => false,
        }
    }

    // Which reads fail of a reader that is made for these wants.
    pub(crate) fn failing_reads(
        &self,
        alloc: Global,
        wants: &[Want],
    ) -> Result<FailingReads, NoMemory>
        ensures { IfOk result (FailsAsNamed self.now wants.now) }
    {
        Ok(FailingReads {
            all: self.fails_all_reads(),
            times: times_wanted(alloc, &self.reads, wants)?,
        })
    }

    fn fails_all_reads(&self) -> bool
        ensures { IsTrue result ↔ IsOfAllReads self.now.kind }
    {
        match &self.kind {
            Some(kind) => kind.call == Call::Fill,
            None => false,
        }
    }
}
