//! The rows of one side in memory.

ghost use Rattle.std.specs.Prelude.{◌≡◌, ◌≤◌, None, Some, length, IfOk, IfErr, IfSome, OnOk, OnErr};
ghost use Rattle.std.specs.Option.{option_copied};
ghost use Rattle.std.specs.FinMap.{empty, get};
ghost use Rattle.std.specs.Range.Bound.{bound_map};
ghost use Rattle.rc_table.specs.Rows.{FindsNext, IsListed};
ghost use Rattle.rc_table.specs.SideRows.{AreBounded, PutsAt, held, start_of};

use crate::table::GREATEST_PATH_TEXT;
use crate::{Row, TableErr};
use rc_tree::{NoMemory, Text};
use std::alloc::Global;
use std::collections::BTreeMap;
use std::marker::Model;
use std::ops::Bound;

// Rows by path texts of at most 16383 characters. Contracts see the map from texts to rows.
#[derive(Debug, Drop)]
pub(crate) struct SideRows {
    rows: BTreeMap<Text, Row>,
}

impl Model for SideRows {
    ghost use Rattle.rc_table.specs.Codes.{coded_row_map};
    ghost use Rattle.rc_table.specs.Rows.{RowMap};
    ghost use Rattle.rc_table.specs.SideRows.{AreBounded, held};

    ghost Value = { RowMap };

    ghost coded = { coded_row_map };

    ghost view = { λ s. held s.rows };

    ghost invariant = { λ s. AreBounded s.rows };
}

impl SideRows {
    pub(crate) fn new(alloc: Global) -> SideRows
        ensures { result ≡ empty }
    {
        SideRows {
            rows: BTreeMap::new(alloc),
        }
    }

    // The row at a path.
    pub(crate) fn at(&self, alloc: Global, path: &Text) -> Result<Option<Row>, TableErr>
        ensures found { IfOk result (λ found. found ≡ get self.now path.now) }
        ensures refused { IfErr result (λ e. e ≡ TableErr.NoMemory) }
    {
        match self.rows.get(path) {
            Some(row) => Ok(Some(copy_row(alloc, row)?)),
            None => Ok(None),
        }
    }

    // Keeps a row at a path, in the place of one that stood there.
    pub(crate) fn keep(&mut self, alloc: Global, path: &Text, row: &Row) -> Result<(), TableErr>
        requires { length path.now ≤ GREATEST_PATH_TEXT }
        ensures kept { OnOk result (PutsAt path.now (Some row.now) self.old self.new) }
        ensures stays { OnErr result (self.new ≡ self.old) }
        ensures refused { IfErr result (λ e. e ≡ TableErr.NoMemory) }
    {
        let path = copy_text(alloc, path)?;
        let row = copy_row(alloc, row)?;
        match self.rows.insert(path, row) {
            Ok(_) => Ok(()),
            Err(_) => Err(TableErr::NoMemory),
        }
    }

    // Takes the row of a path away.
    pub(crate) fn remove(&mut self, path: &Text)
        ensures { PutsAt path.now None self.old self.new }
    {
        let _ = self.rows.remove(path);
    }

    // The least path above `after` at which a row stands.
    pub(crate) fn next(&self, alloc: Global, after: Option<&Text>) -> Result<Option<Text>, TableErr>
        ensures found { IfOk result (FindsNext self.now (option_copied after.entry)) }
        ensures rising { IfOk result
            (λ found. IfSome found (IsListed (option_copied after.entry))) }
        ensures refused { IfErr result (λ e. e ≡ TableErr.NoMemory) }
    {
        match next_text(&self.rows, after) {
            Some(text) => Ok(Some(copy_text(alloc, text)?)),
            None => Ok(None),
        }
    }
}

// The least key above `after`.
fn next_text<'a>(rows: &'a BTreeMap<Text, Row>, after: Option<&Text>) -> Option<&'a Text>
    requires { AreBounded rows.now }
    ensures found { FindsNext (held rows.now) (option_copied after.entry) (option_copied result) }
    ensures rising { IfSome result (λ text. IsListed (option_copied after.entry) text.now) }
{
    match rows.range((start_behind(after), Bound::Unbounded)).next() {
        Some((text, _)) => Some(text),
        None => None,
    }
}

fn start_behind<'a>(after: Option<&'a Text>) -> Bound<&'a Text>
    ensures { bound_map (λ text. text.now) result ≡ start_of (option_copied after.entry) }
{
    match after {
        Some(last) => Bound::Excluded(last),
        None => Bound::Unbounded,
    }
}

fn copy_row(alloc: Global, row: &Row) -> Result<Row, TableErr>
    ensures copied { IfOk result (λ copy. copy ≡ row.now) }
    ensures refused { IfErr result (λ e. e ≡ TableErr.NoMemory) }
{
    match row.copy(alloc) {
        Ok(copy) => Ok(copy),
        Err(NoMemory) => Err(TableErr::NoMemory),
    }
}

fn copy_text(alloc: Global, text: &Text) -> Result<Text, TableErr>
    ensures copied { IfOk result (λ copy. copy ≡ text.now) }
    ensures refused { IfErr result (λ e. e ≡ TableErr.NoMemory) }
{
    match text.copy(alloc) {
        Ok(copy) => Ok(copy),
        Err(NoMemory) => Err(TableErr::NoMemory),
    }
}
