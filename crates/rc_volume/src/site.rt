//! The site of a mirror: its two trees and the record of a run.

ghost use Rattle.std.specs.Prelude.{◌≡◌, ◌+◌, ◌^◌, ◌≤◌, ◌<◌, ⊤, true, Bool, List, ◌++◌, chars, length, vec_len, All, IfOk, IfSome, IsSome, option_map};
ghost use Rattle.std.specs.Option.{option_copied};
ghost use Rattle.std.specs.FinMap.{get};
ghost use Rattle.rc_tree.specs.declared.attr.Kind.TheVariants.{Dir};
ghost use Rattle.rc_tree.specs.declared.moment.TheConstants.{GREATEST_MOMENT};
ghost use Rattle.rc_tree.specs.Path.{key_of, last_name};
ghost use Rattle.rc_tree.specs.Tree.{IsDirectory, IsTree};
ghost use Rattle.rc_volume.specs.Faults.{bind_cause, part_cause, part_for, side_cause};
ghost use Rattle.rc_volume.specs.Frames.{Absorbs, Binds, ChangesAt, ChangesNotes, IsBound, Looks, MakesReader, Syncs, opened_by};
ghost use Rattle.rc_volume.specs.Log.{Logs, LogsSync, changed, cut, make, noted, notes_synced, put, remove, resize, set_props, synced, write};
ghost use Rattle.rc_volume.specs.Reading.{part_of};
ghost use Rattle.rc_volume.specs.Site.{Seen, tree_in, node_at, fresh_dir, fresh_file, entry_of, Makes, Puts, Removes, Resizes, SetsProps, Cuts, Writes, IsVacant, IsRemovable, IsWithin, HasFile, IsListed, Lists, ReadsFrom};

use crate::{Reader, Want};
use rc_tree::{Entry, Name, Path, Props, Scan};
use std::alloc::Global;
use thiserror::Error;

/// The tree that is mirrored, or the one that mirrors it.
#[derive(Clone, Copy, Debug, PartialEq, Eq)]
pub enum Side {
    Source,
    Target,
}

/// A part of a site that fails by itself.
#[derive(Clone, Copy, Debug, PartialEq, Eq)]
pub enum Part {
    Source,
    Target,
    Record,
}

#[derive(Clone, Copy, Debug, PartialEq, Eq, Error)]
pub enum SiteErr {
    /// The outside refused. The part's count of faults rose.
    #[error("the volume failed")]
    Failed,
    #[error("out of memory")]
    NoMemory,
}

#[derive(Clone, Copy, Debug, PartialEq, Eq, Error)]
pub enum BindErr {
    /// A root could not be bound. That side's count of faults rose.
    #[error("a root could not be bound")]
    Failed { side: Side },
    #[error("out of memory")]
    NoMemory,
}

/// The two trees, and the record of a run in bytes.
///
/// Each call says in one clause, its frame, what it leaves as it was and which count of faults its answer raised, and
/// in others what it answers. A call that changes an entry leaves all other entries, the other tree and the record as
/// they were, whatever it answers; after `NoMemory` the entry is as it was too, and after `Failed` it may be half
/// changed.
///
/// What a stop may leave is said of the log: each changing call that is not followed by a sync of its part that succeeded
/// may be done, half done or not done, whatever it answered.
pub trait Site {
    /// What the readers of the source count their failed reads in.
    type Tally: Send + Drop;

    type Reader: Reader<Tally = Self::Tally> + Send + Sync + Drop;

    /// Whether the site tells its trees and its record.
    ghost tells: { Bool };

    /// All that contracts see of the site. What is told means something where the site tells; counts of faults never
    /// fall, and stop at the greatest number of their type.
    ghost view: { Self → Seen };

    /// Names the two roots, says how changes of files are found, and at which moment the run began. A site that tells
    /// its trees ignores the two texts.
    fn bind(
        &mut self,
        alloc: Global,
        source: &str,
        target: &str,
        scan: Scan,
        moment: u64,
    ) -> Result<(), BindErr>
        requires { moment ≤ GREATEST_MOMENT }
        ensures frame { Binds tells (bind_cause result) (view self.old) (view self.new) }
        ensures bound { IsBound result
            (record {
              source = chars source.now;
              target = chars target.now;
              scan = scan;
              moment = moment;
            })
            (view self.old).bound (view self.new).bound };

    /// The entry of a directory with the least folded name above that of `after`, or the first one; none at the end.
    fn next_entry(
        &mut self,
        alloc: Global,
        side: Side,
        dir: &Path,
        after: Option<&Name>,
    ) -> Result<Option<Entry>, SiteErr>
        requires { tells ≡ true → IsDirectory (tree_in (view self.old) side) (key_of dir.now) }
        ensures frame { Looks tells (side_cause side result) (view self.old) (view self.new) }
        ensures tree { tells ≡ true → IsTree (tree_in (view self.old) side) }
        ensures listed { tells ≡ true → IfOk result
            (Lists (tree_in (view self.old) side) (key_of dir.now) (option_copied after.entry)) }
        // On every site, told or not.
        ensures rising { IfOk result
            (λ found. IfSome found (IsListed (length dir.now) (option_copied after.entry))) };

    /// The entry at the key of a path that is not the root; none where nothing stands there.
    fn stat(&mut self, alloc: Global, side: Side, path: &Path) -> Result<Option<Entry>, SiteErr>
        requires { 0 < length path.now }
        ensures frame { Looks tells (side_cause side result) (view self.old) (view self.new) }
        ensures tree { tells ≡ true → IsTree (tree_in (view self.old) side) }
        ensures found { tells ≡ true →
            let node = node_at (view self.old).told side (key_of path.now) in
            IfOk result (λ found. found ≡ option_map entry_of node) }
        ensures no_size { IfOk result
            (λ found. IfSome found (λ entry. entry.kind ≡ Dir → entry.size ≡ 0)) };

    /// Makes a directory without entries, attributes and security, and with both times 0.
    fn make_dir(&mut self, alloc: Global, side: Side, path: &Path) -> Result<(), SiteErr>
        requires { tells ≡ true → IsVacant (tree_in (view self.old) side) path.now }
        ensures frame { ChangesAt tells side (key_of path.now)
            (Makes result (fresh_dir (last_name path.now)))
            (side_cause side result) (view self.old) (view self.new) }
        ensures log { tells ≡ true → Logs result (changed side (key_of path.now)
            (make (fresh_dir (last_name path.now)))) (view self.old).log (view self.new).log };

    /// Makes a file without bytes, attributes and security, and with both times 0.
    fn make_file(&mut self, alloc: Global, side: Side, path: &Path) -> Result<(), SiteErr>
        requires { tells ≡ true → IsVacant (tree_in (view self.old) side) path.now }
        ensures frame { ChangesAt tells side (key_of path.now)
            (Makes result (fresh_file (last_name path.now)))
            (side_cause side result) (view self.old) (view self.new) }
        ensures log { tells ≡ true → Logs result (changed side (key_of path.now)
            (make (fresh_file (last_name path.now)))) (view self.old).log (view self.new).log };

    /// Writes bytes at an offset of a file, within its length.
    fn put(
        &mut self,
        alloc: Global,
        side: Side,
        path: &Path,
        off: u64,
        bytes: &[u8],
    ) -> Result<(), SiteErr>
        requires some_bytes { 0 < length bytes.now }
        requires within { tells ≡ true → HasFile (tree_in (view self.old) side) (key_of path.now)
            (λ node. off + length bytes.now ≤ length node.bytes) }
        ensures frame { ChangesAt tells side (key_of path.now) (Puts result off bytes.now)
            (side_cause side result) (view self.old) (view self.new) }
        ensures log { tells ≡ true → Logs result (changed side (key_of path.now)
            (put off (length bytes.now))) (view self.old).log (view self.new).log };

    /// Brings a file to a length of at most 2^40 bytes. Bytes that come are 0.
    fn set_len(&mut self, alloc: Global, side: Side, path: &Path, len: u64) -> Result<(), SiteErr>
        requires bound { len ≤ 2 ^ 40 }
        requires file { tells ≡ true →
            HasFile (tree_in (view self.old) side) (key_of path.now) (λ _. ⊤) }
        ensures frame { ChangesAt tells side (key_of path.now) (Resizes result len)
            (side_cause side result) (view self.old) (view self.new) }
        ensures log { tells ≡ true → Logs result (changed side (key_of path.now)
            (resize len)) (view self.old).log (view self.new).log };

    /// Gives an entry these properties.
    fn set_props(
        &mut self,
        alloc: Global,
        side: Side,
        path: &Path,
        props: &Props,
    ) -> Result<(), SiteErr>
        requires { tells ≡ true → IsSome (node_at (view self.old).told side (key_of path.now)) }
        ensures frame { ChangesAt tells side (key_of path.now) (SetsProps result props.now)
            (side_cause side result) (view self.old) (view self.new) }
        ensures log { tells ≡ true → Logs result (changed side (key_of path.now)
            (set_props props.now)) (view self.old).log (view self.new).log };

    /// Removes a file, or a directory that has no entries.
    fn remove(&mut self, alloc: Global, side: Side, path: &Path) -> Result<(), SiteErr>
        requires { tells ≡ true → IsRemovable (tree_in (view self.old) side) (key_of path.now) }
        ensures frame { ChangesAt tells side (key_of path.now) (Removes result)
            (side_cause side result) (view self.old) (view self.new) }
        ensures log { tells ≡ true → Logs result (changed side (key_of path.now)
            remove) (view self.old).log (view self.new).log };

    /// Makes what was changed on a side durable: after `Ok` a stop leaves of it what reads. After an error it leaves what
    /// it might have left before.
    fn sync(&mut self, alloc: Global, side: Side) -> Result<(), SiteErr>
        ensures frame { Syncs tells (part_for side) (side_cause side result)
            (view self.old) (view self.new) }
        ensures tree { tells ≡ true → IsTree (tree_in (view self.old) side) }
        ensures log { tells ≡ true → LogsSync result (synced side (tree_in (view self.old) side))
            (view self.old).log (view self.new).log };

    /// How many bytes the record has.
    fn record_len(&mut self, alloc: Global) -> Result<u64, SiteErr>
        ensures frame { Looks tells (part_cause Part.Record result)
            (view self.old) (view self.new) }
        ensures length { tells ≡ true → IfOk result
            (λ len. len ≡ length (view self.old).told.notes) };

    /// Bytes of the record: so many from an offset on, a range within it.
    fn record_read(&mut self, alloc: Global, off: u64, len: usize) -> Result<Vec<u8>, SiteErr>
        requires { tells ≡ true → off + len ≤ length (view self.old).told.notes }
        ensures frame { Looks tells (part_cause Part.Record result)
            (view self.old) (view self.new) }
        ensures bytes { tells ≡ true → IfOk result
            (λ bytes. bytes.items ≡ part_of off len (view self.old).told.notes) }
        ensures count { IfOk result (λ bytes. vec_len bytes ≡ len) };

    /// Writes bytes into the record, from an offset of at most its length on, over those that are there and past its end.
    fn record_write(&mut self, alloc: Global, off: u64, bytes: &[u8]) -> Result<(), SiteErr>
        requires some_bytes { 0 < length bytes.now }
        requires within { tells ≡ true → off ≤ length (view self.old).told.notes }
        ensures frame { ChangesNotes tells (Writes result off bytes.now)
            (part_cause Part.Record result) (view self.old) (view self.new) }
        ensures log { tells ≡ true → Logs result (noted (write off (length bytes.now)))
            (view self.old).log (view self.new).log };

    /// Cuts the record to a length of at most its own.
    fn record_cut(&mut self, alloc: Global, len: u64) -> Result<(), SiteErr>
        requires { tells ≡ true → len ≤ length (view self.old).told.notes }
        ensures frame { ChangesNotes tells (Cuts result len)
            (part_cause Part.Record result) (view self.old) (view self.new) }
        ensures log { tells ≡ true → Logs result (noted (cut len))
            (view self.old).log (view self.new).log };

    /// Makes what was changed of the record durable, as `sync` does for a side.
    fn record_sync(&mut self, alloc: Global) -> Result<(), SiteErr>
        ensures frame { Syncs tells Part.Record (part_cause Part.Record result)
            (view self.old) (view self.new) }
        ensures log { tells ≡ true → LogsSync result (notes_synced (view self.old).told.notes)
            (view self.old).log (view self.new).log };

    /// A reader of these ranges, which lie within files of the source. Its fault counts on the source.
    fn reader(&mut self, alloc: Global, wants: Vec<Want>) -> Result<Self::Reader, SiteErr>
        requires { tells ≡ true → All (IsWithin (view self.old).told.source) wants.items }
        ensures frame { MakesReader tells (opened_by result wants.items (view self.old).opened)
            (part_cause Part.Source result) (view self.old) (view self.new) }
        ensures wants { IfOk result (λ reader. Self.Reader.wants reader ≡ wants.items) }
        ensures bytes { tells ≡ true → IfOk result (λ reader. (Self.Reader.tells ≡ true)
            × ReadsFrom (view self.old).told.source wants.items (Self.Reader.bytes reader)) };

    /// Adds the failed reads of a tally to the source's count.
    fn absorb(&mut self, tally: Self::Tally)
        ensures { Absorbs tells (Self.Reader.count tally) (view self.old) (view self.new) };
}
