//! A table in a database file.

ghost use Rattle.std.specs.Prelude.{◌≡◌, false, IfOk, IfSome, IsTrue};
ghost use Rattle.std.specs.FinMap.{empty};
ghost use Rattle.std.specs.Option.{option_copied};
ghost use Rattle.rc_volume.specs.Faults.{RisesIf};
ghost use Rattle.rc_table.specs.Rows.{IsAbove, IsListed, table_failed};

use crate::link::Link;
use crate::statements::{delete_row, first_path, insert_row, path_above, select_row};
use crate::stored::{read_row, read_text};
use crate::table::is_path_text;
use crate::{Row, Table, TableErr};
use rc_tree::{NoMemory, Text};
use rc_volume::Side;
use std::alloc::Global;
use std::marker::Model;

/// A table in a database file, which it opens at its first call, and makes where there is none. It tells nothing; contracts
/// see how often it failed.
///
/// A transaction begins at the first `put` or `drop_key` and ends at `commit`: what was not committed is not in the file.
/// While the table stands, nobody else opens its file. Each refusal of the database but want of memory is a fault, and so
/// are a row that does not read back, a row with a size above 2^63 - 1, and a path that a listing finds not above the last
/// one or with more than 16383 characters. Where a failure loses the changes of a transaction, each later call fails.
#[derive(Drop)]
pub struct SqlTable {
    link: Link,
    faults: u64,
}

impl Model for SqlTable {
    ghost use Rattle.std.specs.Prelude.{ℕ};

    ghost Value = { ℕ };

    ghost view = { λ t. t.faults };
}

impl SqlTable {
    /// The table in the file of this name. The file is not opened yet.
    pub fn new(rt: &HostRuntime, alloc: Global, file: &str) -> Result<SqlTable, NoMemory>
        ensures { IfOk result (λ table. table ≡ 0) }
    {
        let file = String::from_str(alloc, file)?;
        Ok(SqlTable {
            link: Link::new(*rt, file),
            faults: 0,
        })
    }

    // Hands an answer on, and counts it where it failed.
    fn counted<T>(&mut self, answer: Result<T, TableErr>) -> Result<T, TableErr>
        ensures same { result ≡ answer }
        ensures cause { RisesIf (table_failed result) self.old self.new }
    {
        if let Err(TableErr::Failed) = &answer {
            self.faults = self.faults.saturating_add(1);
        }
        answer
    }
}

impl Table for SqlTable {
    ghost tells = { false };

    ghost rows = { λ _. record { source = empty; target = empty } };

    ghost faults = { λ t. t };

    fn get(&mut self, _: Global, side: Side, path: &Text) -> Result<Option<Row>, TableErr> {
        let found = find(&mut self.link, side, path.text());
        self.counted(found)
    }

    fn put(&mut self, _: Global, side: Side, path: &Text, row: &Row) -> Result<(), TableErr> {
        let kept = keep(&mut self.link, side, path.text(), row);
        self.counted(kept)
    }

    fn drop_key(&mut self, _: Global, side: Side, path: &Text) -> Result<(), TableErr> {
        let dropped = remove(&mut self.link, side, path.text());
        self.counted(dropped)
    }

    fn next_key(
        &mut self,
        alloc: Global,
        side: Side,
        after: Option<&Text>,
    ) -> Result<Option<Text>, TableErr> {
        let found = find_next(&mut self.link, alloc, side, after);
        self.counted(found)
    }

    fn commit(&mut self, _: Global) -> Result<(), TableErr> {
        let committed = self.link.commit();
        self.counted(committed)
    }
}

fn find(link: &mut Link, side: Side, path: &str) -> Result<Option<Row>, TableErr> {
    match select_row(link.reading()?, side, path)? {
        Some(columns) => Ok(Some(read_row(&columns)?)),
        None => Ok(None),
    }
}

fn keep(link: &mut Link, side: Side, path: &str, row: &Row) -> Result<(), TableErr> {
    insert_row(link.changing()?, side, path, row)
}

fn remove(link: &mut Link, side: Side, path: &str) -> Result<(), TableErr> {
    delete_row(link.changing()?, side, path)
}

// The next path of a listing, where the file gives one that may come there.
fn find_next(
    link: &mut Link,
    alloc: Global,
    side: Side,
    after: Option<&Text>,
) -> Result<Option<Text>, TableErr>
    ensures { IfOk result (λ found. IfSome found (IsListed (option_copied after.entry))) }
{
    let Some(columns) = next_columns(link, side, after)? else {
        return Ok(None);
    };
    let text = text_of(alloc, &columns)?;
    if is_path_text(&text) & is_above(after, &text) {
        Ok(Some(text))
    } else {
        Err(TableErr::Failed)
    }
}

fn next_columns(
    link: &mut Link,
    side: Side,
    after: Option<&Text>,
) -> Result<Option<sqlite::Row>, TableErr> {
    match after {
        Some(last) => path_above(link.reading()?, side, last.text()),
        None => first_path(link.reading()?, side),
    }
}

fn text_of(alloc: Global, columns: &sqlite::Row) -> Result<Text, TableErr> {
    let text = read_text(columns)?;
    match Text::of(alloc, text.as_str()) {
        Ok(text) => Ok(text),
        Err(NoMemory) => Err(TableErr::NoMemory),
    }
}

fn is_above(after: Option<&Text>, text: &Text) -> bool
    ensures { IsTrue result → IsAbove (option_copied after.entry) text.now }
{
    match after {
        Some(last) => *last < *text,
        None => true,
    }
}
