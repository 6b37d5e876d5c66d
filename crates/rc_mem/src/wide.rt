//! A site of many files, for limits.

ghost use Rattle.std.specs.Prelude.{◌≡◌, ◌≢◌, ◌<◌, Bool, false, [], None, Ok, Err, length, IsTrue, IfOk, IfSome, IsSome};
ghost use Rattle.std.specs.Option.{option_copied};
ghost use Rattle.rc_tree.specs.declared.attr.Kind.TheVariants.{File};
ghost use Rattle.rc_volume.specs.declared.site.Part.{Part};
ghost use Rattle.rc_tree.specs.Name.{folded};
ghost use Rattle.rc_volume.specs.Faults.{on, Counts, part_for, side_cause};
ghost use Rattle.rc_volume.specs.Frames.{Looks};
ghost use Rattle.rc_volume.specs.Site.{ComesAfter, IsListed};
ghost use Rattle.rc_mem.specs.WideSite.{archive_props, counts_by, seen_wide, FailsOn, ShowsFile};

use crate::{MemReader, MemTally};
use rc_tree::{Attr, Entry, Kind, Moment, Name, NoMemory, Path, Props, Scan, Security};
use rc_volume::{BindErr, Part, Side, Site, SiteErr, Want};
use std::alloc::Global;

/// A site that tells no tree. In its source root it lists many files of one size, in which the same amount of memory
/// serves for any number of them: they are named by their numbers from 0 in 20 decimal digits, and have the archive
/// attribute alone, both times 0 and no security. Its target root is empty. Any other call fails, `bind` on the source.
///
/// A listing goes on behind a name that it has shown; behind any other one it ends.
#[derive(Debug, Drop)]
pub struct WideSite {
    files: u64,
    size: u64,
    source_faults: u64,
    target_faults: u64,
    record_faults: u64,
}

impl WideSite {
    /// A site with so many files of so many bytes each.
    pub fn new(files: u64, size: u64) -> WideSite
        ensures counts { (part : Part) → (seen_wide result).faults part ≡ 0 }
        ensures files { result.files ≡ files }
        ensures size { result.size ≡ size }
    {
        WideSite {
            files,
            size,
            source_faults: 0,
            target_faults: 0,
            record_faults: 0,
        }
    }

    // The number behind that of a name, or the first one, where there is a file of it.
    fn number_after(&self, after: Option<&Name>) -> Option<u64>
        ensures { option_copied after.entry ≡ None → 0 < self.now.files → IsSome result }
    {
        let number = match after {
            Some(name) => number_of(name)?.checked_add(1)?,
            None => 0,
        };
        (number < self.files).then_some(number)
    }

    // The file of the next number.
    fn next_file(&self, alloc: Global, after: Option<&Name>) -> Result<Option<Entry>, NoMemory>
        ensures rising { IfOk result
            (λ found. IfSome found (IsListed 0 (option_copied after.entry))) }
        ensures shown { IfOk result (λ found. IfSome found (ShowsFile self.now)) }
        ensures first { option_copied after.entry ≡ None → 0 < self.now.files → IfOk result IsSome }
    {
        let Some(number) = self.number_after(after) else {
            return Ok(None);
        };
        let name = file_name(alloc, number)?;
        if !is_after(after, &name) {
            return Ok(None);
        }
        Ok(Some(file_entry(alloc, name, self.size)))
    }

    // The answer of a call on a side that fails.
    fn refuse<T>(&mut self, side: Side) -> Result<T, SiteErr>
        ensures { FailsOn (part_for side) result self.old self.new }
    {
        match side {
            Side::Source => self.fail(Part::Source),
            Side::Target => self.fail(Part::Target),
        }
        Err(SiteErr::Failed)
    }

    // Raises the count of a part.
    fn fail(&mut self, part: Part)
        ensures counts { Counts (on part 1) (counts_by self.old) (counts_by self.new) }
        ensures files { self.new.files ≡ self.old.files }
        ensures size { self.new.size ≡ self.old.size }
    {
        match part {
            Part::Source => self.source_faults = self.source_faults.saturating_add(1),
            Part::Target => self.target_faults = self.target_faults.saturating_add(1),
            Part::Record => self.record_faults = self.record_faults.saturating_add(1),
        }
    }
}

// The number that a name of 20 decimal digits spells, where it is one of 64 bits.
fn number_of(name: &Name) -> Option<u64> {
    let text = name.text();
    if text.len() == 20 && text.bytes().all(|byte| byte.is_ascii_digit()) {
        text.parse().ok()
    } else {
        None
    }
}

// The name of a number. A text of 20 digits is a name, so that only memory may be wanting.
fn file_name(alloc: Global, number: u64) -> Result<Name, NoMemory> {
    let text = format!(in alloc; "{number:020}")?;
    match Name::read(alloc, text.as_str()) {
        Ok(name) => Ok(name),
        Err(_) => Err(NoMemory),
    }
}

// Whether a name comes behind the one from which a listing goes on.
fn is_after(after: Option<&Name>, name: &Name) -> bool
    ensures later { IsTrue result → ComesAfter (option_copied after.entry) (folded name.now) }
    ensures first { option_copied after.entry ≡ None → IsTrue result }
{
    match after {
        Some(last) => last.cmp_folded(name).is_lt(),
        None => true,
    }
}

// What a listing shows of a file.
fn file_entry(alloc: Global, name: Name, size: u64) -> Entry
    ensures { result ≡ record { name = name; kind = File; size = size; props = archive_props } }
{
    Entry {
        name,
        kind: Kind::File,
        size,
        props: Props {
            attr: Attr {
                archive: true,
                ..Attr::NONE
            },
            created: Moment::new(0),
            written: Moment::new(0),
            access: Security::empty(alloc),
            owner: Security::empty(alloc),
            audit: Security::empty(alloc),
        },
    }
}

impl Site for WideSite {
    type Tally = MemTally;

    type Reader = MemReader;

    ghost tells = { false };

    ghost view = { seen_wide };

    fn bind(
        &mut self,
        _alloc: Global,
        _source: &str,
        _target: &str,
        _scan: Scan,
        _moment: u64,
    ) -> Result<(), BindErr>
        ensures answer { result ≡ Err (BindErr.Failed Side.Source) }
        ensures counts { Counts (on Part.Source 1) (counts_by self.old) (counts_by self.new) }
    {
        self.fail(Part::Source);
        Err(BindErr::Failed { side: Side::Source })
    }

    fn next_entry(
        &mut self,
        alloc: Global,
        side: Side,
        dir: &Path,
        after: Option<&Name>,
    ) -> Result<Option<Entry>, SiteErr>
        ensures frame { Looks false (side_cause side result)
            (seen_wide self.old) (seen_wide self.new) }
        ensures rising { IfOk result
            (λ found. IfSome found (IsListed (length dir.now) (option_copied after.entry))) }
        ensures below { dir.now ≢ [] → FailsOn (part_for side) result self.old self.new }
        ensures root { dir.now ≡ [] → self.new ≡ self.old }
        ensures shown { IfOk result (λ found. IfSome found (ShowsFile self.old)) }
        ensures first { dir.now ≡ [] → side ≡ Side.Source → option_copied after.entry ≡ None
            → 0 < self.old.files → IfOk result IsSome }
        ensures target { dir.now ≡ [] → side ≡ Side.Target → result ≡ Ok None }
    {
        if !dir.names().is_empty() {
            return self.refuse(side);
        }
        match side {
            Side::Source => match self.next_file(alloc, after) {
                Ok(found) => Ok(found),
                Err(NoMemory) => Err(SiteErr::NoMemory),
            },
            Side::Target => Ok(None),
        }
    }

    fn stat(&mut self, _alloc: Global, side: Side, _path: &Path) -> Result<Option<Entry>, SiteErr>
        ensures { FailsOn (part_for side) result self.old self.new }
    {
        self.refuse(side)
    }

    fn make_dir(&mut self, _alloc: Global, side: Side, _path: &Path) -> Result<(), SiteErr>
        ensures { FailsOn (part_for side) result self.old self.new }
    {
        self.refuse(side)
    }

    fn make_file(&mut self, _alloc: Global, side: Side, _path: &Path) -> Result<(), SiteErr>
        ensures { FailsOn (part_for side) result self.old self.new }
    {
        self.refuse(side)
    }

    fn put(
        &mut self,
        _alloc: Global,
        side: Side,
        _path: &Path,
        _off: u64,
        _bytes: &[u8],
    ) -> Result<(), SiteErr>
        ensures { FailsOn (part_for side) result self.old self.new }
    {
        self.refuse(side)
    }

    fn set_len(
        &mut self,
        _alloc: Global,
        side: Side,
        _path: &Path,
        _len: u64,
    ) -> Result<(), SiteErr>
        ensures { FailsOn (part_for side) result self.old self.new }
    {
        self.refuse(side)
    }

    fn set_props(
        &mut self,
        _alloc: Global,
        side: Side,
        _path: &Path,
        _props: &Props,
    ) -> Result<(), SiteErr>
        ensures { FailsOn (part_for side) result self.old self.new }
    {
        self.refuse(side)
    }

    fn remove(&mut self, _alloc: Global, side: Side, _path: &Path) -> Result<(), SiteErr>
        ensures { FailsOn (part_for side) result self.old self.new }
    {
        self.refuse(side)
    }

    fn sync(&mut self, _alloc: Global, side: Side) -> Result<(), SiteErr>
        ensures { FailsOn (part_for side) result self.old self.new }
    {
        self.refuse(side)
    }

    fn record_len(&mut self, _alloc: Global) -> Result<u64, SiteErr>
        ensures { FailsOn Part.Record result self.old self.new }
    {
        self.fail(Part::Record);
        Err(SiteErr::Failed)
    }

    fn record_read(&mut self, _alloc: Global, _off: u64, _len: usize) -> Result<Vec<u8>, SiteErr>
        ensures { FailsOn Part.Record result self.old self.new }
    {
        self.fail(Part::Record);
        Err(SiteErr::Failed)
    }

    fn record_write(&mut self, _alloc: Global, _off: u64, _bytes: &[u8]) -> Result<(), SiteErr>
        ensures { FailsOn Part.Record result self.old self.new }
    {
        self.fail(Part::Record);
        Err(SiteErr::Failed)
    }

    fn record_cut(&mut self, _alloc: Global, _len: u64) -> Result<(), SiteErr>
        ensures { FailsOn Part.Record result self.old self.new }
    {
        self.fail(Part::Record);
        Err(SiteErr::Failed)
    }

    fn record_sync(&mut self, _alloc: Global) -> Result<(), SiteErr>
        ensures { FailsOn Part.Record result self.old self.new }
    {
        self.fail(Part::Record);
        Err(SiteErr::Failed)
    }

    fn reader(&mut self, _alloc: Global, _wants: Vec<Want>) -> Result<MemReader, SiteErr>
        ensures { FailsOn Part.Source result self.old self.new }
    {
        self.fail(Part::Source);
        Err(SiteErr::Failed)
    }

    fn absorb(&mut self, _tally: MemTally) {
        // No read was counted. A count that is read is known to be within its type.
        let _count = self.source_faults;
    }
}
