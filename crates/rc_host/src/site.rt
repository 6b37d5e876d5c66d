//! A site over two folders of the host.

ghost use Rattle.std.specs.Prelude.{◌≡◌, ◌≤◌, ◌++◌, ◌∷◌, Bool, false, [], chars, length, vec_len, IfOk, IfSome};
ghost use Rattle.std.specs.Option.{option_copied};
ghost use Rattle.rc_tree.specs.declared.attr.Kind.TheVariants.{Dir};
ghost use Rattle.rc_tree.specs.declared.moment.TheConstants.{GREATEST_MOMENT};
ghost use Rattle.rc_volume.specs.Faults.{Counts, bind_cause, on, part_cause, part_for};
ghost use Rattle.rc_volume.specs.Site.{ComesAfter, IsListed};
ghost use Rattle.rc_host.specs.HostSite.{answer_of, counts_in, seen_by};

use crate::calls::{
    bind_root, make_in, next_in, put_in, reader_in, record_cut, record_len, record_read,
    record_sync, record_write, remove_in, set_len_in, set_props_in, stat_in, sync_in,
};
use crate::fault::Fault;
use crate::folder::Folder;
use crate::record::Record;
use crate::roots::Roots;
use crate::{HostReader, HostTally};
use rc_tree::{Entry, Kind, Name, NoMemory, Path, Props, Scan, Text};
use rc_volume::{BindErr, Binding, Part, Side, Site, SiteErr, Want};
use std::alloc::Global;
use std::snapshot::Snapshot;

/// A site over two folders of the host. It tells nothing; contracts see what its readers were made for, how its roots were
/// named, and how often each part failed. Before its roots are bound, each call but `bind` fails.
///
/// What a folder can't keep of its entries stands in a table, in the file named as the root with `.rct` behind it, and the
/// record in the one named as the target root with `.rcr` behind it. Where such a file lies inside a root, it is not listed.
/// A text of a root has `\` read as `/`. A target root that is absent is an empty tree, and is made at the first change.
///
/// `bind` lists both trees. A file without a row gets the attribute A and this moment as both of its times, and a file whose
/// size is not that of its row, or under `Scan::Digest` whose SHA-256 is not, the attribute A and this moment as the time it
/// was written; rows without an entry are dropped; then the tables are committed. A directory that can't be listed then fails
/// when it is listed.
///
/// Faults are whatever the host refuses, names that no entry can have, two names in a directory that fold to one, paths of
/// more than 64 names, what is neither file nor directory, and one root in the other, as it stands or as it would be made.
/// Others that change a root while a site has it are not kept out: who puts a link in the place of a directory then leads
/// the calls below it along.
#[derive(Drop)]
pub struct HostSite {
    rt: HostRuntime,
    source: Option<Folder>,
    target: Option<Folder>,
    record: Option<Record>,
    opened: Vec<Snapshot<Vec<Want>>>,
    bound: Vec<Binding>,
    source_failures: u64,
    target_failures: u64,
    record_failures: u64,
}

impl HostSite {
    /// A site whose roots are not bound yet.
    pub fn new(rt: &HostRuntime, alloc: Global) -> HostSite
        ensures opened { (seen_by result).opened ≡ [] }
        ensures bound { (seen_by result).bound ≡ [] }
        ensures faults { (part : Part) → (seen_by result).faults part ≡ 0 }
    {
        HostSite {
            rt: *rt,
            source: None,
            target: None,
            record: None,
            opened: Vec::new(alloc),
            bound: Vec::new(alloc),
            source_failures: 0,
            target_failures: 0,
            record_failures: 0,
        }
    }

    // Counts a failure of a part.
    fn count(&mut self, part: Part)
        ensures opened { self.new.opened ≡ self.old.opened }
        ensures bound { self.new.bound ≡ self.old.bound }
        ensures counts { Counts (on part 1) (counts_in self.old) (counts_in self.new) }
    {
        match part {
            Part::Source => self.source_failures = self.source_failures.saturating_add(1),
            Part::Target => self.target_failures = self.target_failures.saturating_add(1),
            Part::Record => self.record_failures = self.record_failures.saturating_add(1),
        }
    }

    // Hands the answer of a call on a part on, and counts it where it failed.
    fn counted<T: Drop>(&mut self, part: Part, answer: Result<T, Fault>) -> Result<T, SiteErr>
        ensures answer { result ≡ answer_of answer }
        ensures opened { self.new.opened ≡ self.old.opened }
        ensures bound { self.new.bound ≡ self.old.bound }
        ensures counts { Counts (part_cause part result) (counts_in self.old) (counts_in self.new) }
    {
        match answer {
            Ok(value) => Ok(value),
            Err(Fault::Failed) => {
                self.count(part);
                Err(SiteErr::Failed)
            }
            Err(Fault::NoMemory) => Err(SiteErr::NoMemory),
        }
    }

    // The same of binding a root.
    fn counted_root(&mut self, side: Side, answer: Result<(), Fault>) -> Result<(), BindErr>
        ensures opened { self.new.opened ≡ self.old.opened }
        ensures bound { self.new.bound ≡ self.old.bound }
        ensures counts { Counts (bind_cause result) (counts_in self.old) (counts_in self.new) }
    {
        match answer {
            Ok(()) => Ok(()),
            Err(Fault::Failed) => {
                self.count(part_of(side));
                Err(BindErr::Failed { side })
            }
            Err(Fault::NoMemory) => Err(BindErr::NoMemory),
        }
    }

    // Binds both roots anew. Those that were bound before are let go first, since a table has one opener.
    fn bind_roots(
        &mut self,
        alloc: Global,
        source: &str,
        target: &str,
        scan: Scan,
        moment: u64,
    ) -> Result<(), BindErr>
        requires { moment ≤ GREATEST_MOMENT }
        ensures opened { self.new.opened ≡ self.old.opened }
        ensures bound { self.new.bound ≡ self.old.bound }
        ensures counts { Counts (bind_cause result) (counts_in self.old) (counts_in self.new) }
    {
        self.source = None;
        self.target = None;
        self.record = None;
        let Ok(roots) = Roots::new(alloc, source, target) else {
            return Err(BindErr::NoMemory);
        };
        let bound = bind_root(
            &self.rt,
            alloc,
            &roots,
            Side::Source,
            scan,
            moment,
            &mut self.source,
        );
        if bound.is_err() {
            return self.counted_root(Side::Source, bound);
        }
        let bound = bind_root(
            &self.rt,
            alloc,
            &roots,
            Side::Target,
            scan,
            moment,
            &mut self.target,
        );
        if bound.is_err() {
            return self.counted_root(Side::Target, bound);
        }
        match Record::new(&self.rt, alloc, roots.of(Side::Target)) {
            Ok(record) => {
                self.record = Some(record);
                Ok(())
            }
            Err(_) => Err(BindErr::NoMemory),
        }
    }
}

impl Site for HostSite {
    type Tally = HostTally;

    type Reader = HostReader;

    ghost tells = { false };

    ghost view = { seen_by };

    fn bind(
        &mut self,
        alloc: Global,
        source: &str,
        target: &str,
        scan: Scan,
        moment: u64,
    ) -> Result<(), BindErr> {
        let Ok(binding) = binding_of(alloc, source, target, scan, moment) else {
            return Err(BindErr::NoMemory);
        };
        match self.bound.push(binding) {
            Ok(()) => self.bind_roots(alloc, source, target, scan, moment),
            Err(_) => Err(BindErr::NoMemory),
        }
    }

    fn next_entry(
        &mut self,
        alloc: Global,
        side: Side,
        dir: &Path,
        after: Option<&Name>,
    ) -> Result<Option<Entry>, SiteErr> {
        let found = match side {
            Side::Source => next_in(&mut self.source, alloc, dir, after),
            Side::Target => next_in(&mut self.target, alloc, dir, after),
        };
        self.counted(part_of(side), found)
    }

    fn stat(&mut self, alloc: Global, side: Side, path: &Path) -> Result<Option<Entry>, SiteErr> {
        let found = match side {
            Side::Source => stat_in(&mut self.source, alloc, path),
            Side::Target => stat_in(&mut self.target, alloc, path),
        };
        self.counted(part_of(side), found)
    }

    fn make_dir(&mut self, alloc: Global, side: Side, path: &Path) -> Result<(), SiteErr> {
        let made = match side {
            Side::Source => make_in(&mut self.source, alloc, path, Kind::Dir),
            Side::Target => make_in(&mut self.target, alloc, path, Kind::Dir),
        };
        self.counted(part_of(side), made)
    }

    fn make_file(&mut self, alloc: Global, side: Side, path: &Path) -> Result<(), SiteErr> {
        let made = match side {
            Side::Source => make_in(&mut self.source, alloc, path, Kind::File),
            Side::Target => make_in(&mut self.target, alloc, path, Kind::File),
        };
        self.counted(part_of(side), made)
    }

    fn put(
        &mut self,
        alloc: Global,
        side: Side,
        path: &Path,
        off: u64,
        bytes: &[u8],
    ) -> Result<(), SiteErr> {
        let put = match side {
            Side::Source => put_in(&mut self.source, alloc, path, off, bytes),
            Side::Target => put_in(&mut self.target, alloc, path, off, bytes),
        };
        self.counted(part_of(side), put)
    }

    fn set_len(&mut self, alloc: Global, side: Side, path: &Path, len: u64) -> Result<(), SiteErr> {
        let resized = match side {
            Side::Source => set_len_in(&mut self.source, alloc, path, len),
            Side::Target => set_len_in(&mut self.target, alloc, path, len),
        };
        self.counted(part_of(side), resized)
    }

    fn set_props(
        &mut self,
        alloc: Global,
        side: Side,
        path: &Path,
        props: &Props,
    ) -> Result<(), SiteErr> {
        let kept = match side {
            Side::Source => set_props_in(&mut self.source, alloc, path, props),
            Side::Target => set_props_in(&mut self.target, alloc, path, props),
        };
        self.counted(part_of(side), kept)
    }

    fn remove(&mut self, alloc: Global, side: Side, path: &Path) -> Result<(), SiteErr> {
        let removed = match side {
            Side::Source => remove_in(&mut self.source, alloc, path),
            Side::Target => remove_in(&mut self.target, alloc, path),
        };
        self.counted(part_of(side), removed)
    }

    fn sync(&mut self, alloc: Global, side: Side) -> Result<(), SiteErr> {
        let synced = match side {
            Side::Source => sync_in(&mut self.source, alloc),
            Side::Target => sync_in(&mut self.target, alloc),
        };
        self.counted(part_of(side), synced)
    }

    fn record_len(&mut self, _alloc: Global) -> Result<u64, SiteErr> {
        let len = record_len(&self.record);
        self.counted(Part::Record, len)
    }

    fn record_read(&mut self, alloc: Global, off: u64, len: usize) -> Result<Vec<u8>, SiteErr> {
        let bytes = record_read(&self.record, alloc, off, len);
        self.counted(Part::Record, bytes)
    }

    fn record_write(&mut self, alloc: Global, off: u64, bytes: &[u8]) -> Result<(), SiteErr> {
        let written = record_write(&mut self.record, alloc, off, bytes);
        self.counted(Part::Record, written)
    }

    fn record_cut(&mut self, alloc: Global, len: u64) -> Result<(), SiteErr> {
        let cut = record_cut(&mut self.record, alloc, len);
        self.counted(Part::Record, cut)
    }

    fn record_sync(&mut self, _alloc: Global) -> Result<(), SiteErr> {
        let synced = record_sync(&mut self.record);
        self.counted(Part::Record, synced)
    }

    fn reader(&mut self, alloc: Global, wants: Vec<Want>) -> Result<HostReader, SiteErr> {
        let made = reader_in(&self.rt, alloc, &mut self.source, &wants);
        let reader = self.counted(Part::Source, made)?;
        match self.opened.push(Snapshot::of(&wants)) {
            Ok(()) => Ok(reader),
            Err(_) => Err(SiteErr::NoMemory),
        }
    }

    fn absorb(&mut self, tally: HostTally) {
        self.source_failures = self.source_failures.saturating_add(tally.failures);
    }
}

fn part_of(side: Side) -> Part
    ensures { result ≡ part_for side }
{
    match side {
        Side::Source => Part::Source,
        Side::Target => Part::Target,
    }
}

fn binding_of(
    alloc: Global,
    source: &str,
    target: &str,
    scan: Scan,
    moment: u64,
) -> Result<Binding, NoMemory>
    ensures { IfOk result (λ binding. binding ≡ record {
      source = chars source.now;
      target = chars target.now;
      scan = scan;
      moment = moment;
    }) }
{
    Ok(Binding {
        source: Text::of(alloc, source)?,
        target: Text::of(alloc, target)?,
        scan,
        moment,
    })
}
