//! A table in memory.

ghost use Rattle.std.specs.Prelude.{◌≡◌, true};
ghost use Rattle.std.specs.FinMap.{empty};

use crate::side_rows::SideRows;
use crate::{Row, Table, TableErr};
use rc_tree::Text;
use rc_volume::Side;
use std::alloc::Global;
use std::marker::Model;

/// A table in memory, which never fails. Contracts see the rows of both sides.
#[derive(Debug, Drop)]
pub struct MapTable {
    source: SideRows,
    target: SideRows,
}

impl Model for MapTable {
    ghost use Rattle.rc_table.specs.Codes.{coded_rows};
    ghost use Rattle.rc_table.specs.Rows.{Rows};

    ghost Value = { Rows };

    ghost coded = { coded_rows };

    ghost view = { λ t. record { source = t.source; target = t.target } };
}

impl MapTable {
    /// A table without rows.
    pub fn new(alloc: Global) -> MapTable
        ensures { result ≡ record { source = empty; target = empty } }
    {
        MapTable {
            source: SideRows::new(alloc),
            target: SideRows::new(alloc),
        }
    }
}

impl Table for MapTable {
    ghost tells = { true };

    ghost rows = { λ t. t };

    ghost faults = { λ _. 0 };

    fn get(&mut self, alloc: Global, side: Side, path: &Text) -> Result<Option<Row>, TableErr> {
        match side {
            Side::Source => self.source.at(alloc, path),
            Side::Target => self.target.at(alloc, path),
        }
    }

    fn put(&mut self, alloc: Global, side: Side, path: &Text, row: &Row) -> Result<(), TableErr> {
        match side {
            Side::Source => self.source.keep(alloc, path, row),
            Side::Target => self.target.keep(alloc, path, row),
        }
    }

    fn drop_key(&mut self, _: Global, side: Side, path: &Text) -> Result<(), TableErr> {
        match side {
            Side::Source => self.source.remove(path),
            Side::Target => self.target.remove(path),
        }
        Ok(())
    }

    fn next_key(
        &mut self,
        alloc: Global,
        side: Side,
        after: Option<&Text>,
    ) -> Result<Option<Text>, TableErr> {
        match side {
            Side::Source => self.source.next(alloc, after),
            Side::Target => self.target.next(alloc, after),
        }
    }

    fn commit(&mut self, _: Global) -> Result<(), TableErr> {
        Ok(())
    }
}
