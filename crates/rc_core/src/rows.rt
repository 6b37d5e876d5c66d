//! The rows of a state: one for each file that is copied, and one for each unit.

ghost use Rattle.std.specs.Prelude.{◌≡◌, ◌<◌, ◌∷◌, IfOk, length, map, slice_set};
ghost use Rattle.rc_core.specs.Rows.{changed_at, synced, touch, Leaves};

use crate::{Standing, Touched};
use rc_class::Item;
use rc_tree::NoMemory;
use std::alloc::Global;
use std::marker::Model;

/// A file that is copied, as the opening has it.
#[derive(Debug, Drop)]
pub struct Copied {
    /// The item's place in the plan, from 0.
    pub place: u32,
    pub item: Item,
    pub source: Option<Standing>,
    /// What the target had when copying began.
    pub start: Option<Standing>,
}

/// How a file stands.
#[derive(Clone, Copy, Debug, PartialEq, Eq)]
pub enum FileState {
    Open,
    /// It is as it is to be, and its mark may stand.
    Doubtful,
    /// It is as it is to be, and its mark stands.
    Finished,
    /// It is not tried again.
    GivenUp,
}

/// A file that is copied: what stands there, and what a stop may leave of it.
#[derive(Debug, Drop)]
pub struct FileRow {
    pub file: Copied,
    /// What the target has there.
    pub stands: Option<Standing>,
    /// What it had there since the last sync, beside this, and what was put there since then.
    pub touched: Touched,
    pub state: FileState,
    /// How many attempts at its finish failed.
    pub attempts: u32,
}

impl FileRow {
    // This stands at the file's key now; it had what it had, and these; and these ranges were put.
    pub(crate) fn touch(
        &mut self,
        alloc: Global,
        had: Vec<Option<Standing>>,
        puts: Vec<(u64, u64)>,
        now: Option<Standing>,
    ) -> Result<(), NoMemory>
        ensures { Leaves result self.old (touch had.items puts.items now self.old) self.new }
    {
        let all = with_first(alloc, copy_some(alloc, &self.stands)?, had)?;
        self.touched.add(all, puts)?;
        self.stands = now;
        Ok(())
    }
}

// These with another before them.
fn with_first(
    alloc: Global,
    first: Option<Standing>,
    later: Vec<Option<Standing>>,
) -> Result<Vec<Option<Standing>>, NoMemory>
    ensures { IfOk result (λ all. all.items ≡ first ∷ later.items) }
{
    let mut later = later;
    let mut all = Vec::new(alloc);
    all.push(first)?;
    all.append(&mut later)?;
    Ok(all)
}

// The same, where something stands.
pub(crate) fn copy_some(
    alloc: Global,
    standing: &Option<Standing>,
) -> Result<Option<Standing>, NoMemory>
    ensures { IfOk result (λ copy. copy ≡ standing.now) }
{
    match standing {
        Some(standing) => match standing.copy(alloc) {
            Ok(copy) => Ok(Some(copy)),
            Err(e) => Err(e),
        },
        None => Ok(None),
    }
}

// The same file.
pub(crate) fn copy_file(alloc: Global, file: &Copied) -> Result<Copied, NoMemory>
    ensures { IfOk result (λ copy. copy ≡ file.now) }
{
    Ok(Copied {
        place: file.place,
        item: file.item.copy(alloc)?,
        source: copy_some(alloc, &file.source)?,
        start: copy_some(alloc, &file.start)?,
    })
}

/// Where a unit lies: its file's number among the copied files, from 0, and its range of bytes.
#[derive(Clone, Copy, Debug, PartialEq, Eq)]
pub struct Extent {
    pub file: u32,
    pub off: u64,
    pub len: u64,
}

/// A unit that is held.
#[derive(Clone, Copy, Debug, PartialEq, Eq)]
pub struct Holding {
    pub ticket: u64,
    /// How many of its bytes are put.
    pub put: u64,
    /// Whether its file was brought to its length.
    pub prepared: bool,
    /// Whether its bytes are durable.
    pub settled: bool,
}

/// How a unit stands.
#[derive(Clone, Copy, Debug, PartialEq, Eq)]
pub enum UnitState {
    Free,
    Held(Holding),
    /// Its bytes are durable, and its mark may stand.
    Doubtful,
    /// Its bytes are durable, and its mark stands.
    Marked,
}

/// A unit of a file that is copied.
#[derive(Clone, Copy, Debug, PartialEq, Eq)]
pub struct UnitRow {
    pub extent: Extent,
    pub state: UnitState,
    /// How many attempts at it failed.
    pub attempts: u32,
}

/// The files that are copied, in the order of the items. Contracts see them as the list.
#[derive(Debug, Drop)]
pub struct FileRows {
    pub(crate) rows: Vec<FileRow>,
}

impl Model for FileRows {
    ghost use Rattle.std.specs.Prelude.{List};
    ghost use Rattle.rc_core.specs.declared.rows.FileRow as row;

    ghost Value = { List row.FileRow };

    ghost view = { λ f. f.rows.items };
}

impl FileRows {
    /// These rows.
    pub fn new(rows: Vec<FileRow>) -> FileRows
        ensures { result ≡ rows.items }
    {
        FileRows { rows }
    }

    /// The rows.
    pub fn rows(&self) -> &[FileRow]
        ensures { result.now ≡ self.now }
    {
        self.rows.as_slice()
    }

    // The target was synced: of each file there is what stands.
    pub(crate) fn sync(&mut self)
        ensures { self.new ≡ map synced self.old }
    {
        sync_rows(self.rows.as_mut_slice());
    }
}

fn sync_rows(rows: &mut [FileRow])
    ensures { rows.new ≡ map synced rows.old }
{
    for row in rows.iter_mut() {
        row.touched.clear();
    }
}

/// The units, in their order. Contracts see them as the list.
#[derive(Debug, Drop)]
pub struct UnitRows {
    pub(crate) rows: Vec<UnitRow>,
}

impl Model for UnitRows {
    ghost use Rattle.std.specs.Prelude.{List};
    ghost use Rattle.rc_core.specs.declared.rows.UnitRow as row;

    ghost Value = { List row.UnitRow };

    ghost view = { λ u. u.rows.items };
}

impl UnitRows {
    /// These rows.
    pub fn new(rows: Vec<UnitRow>) -> UnitRows
        ensures { result ≡ rows.items }
    {
        UnitRows { rows }
    }

    /// The rows.
    pub fn rows(&self) -> &[UnitRow]
        ensures { result.now ≡ self.now }
    {
        self.rows.as_slice()
    }

    // Puts another row in the place of the one with this number.
    pub(crate) fn set(&mut self, n: u32, row: UnitRow)
        requires { n < length self.old }
        ensures { self.new ≡ slice_set self.old n row }
    {
        self.rows[n as usize] = row;
    }
}
