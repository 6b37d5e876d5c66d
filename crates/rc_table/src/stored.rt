//! A row as the values that a database file keeps of it, and back.

ghost use Rattle.std.specs.Prelude.{◌≡◌, ◌≤◌, ◌^◌, ◌↔◌, pos, IfOk, IfErr};
ghost use Rattle.rc_tree.specs.declared.attr.Kind.TheVariants.{File};
ghost use Rattle.rc_tree.specs.Attr.{stored_of};
ghost use Rattle.sqlite.specs.declared.error.Error.TheVariants.{SqliteFailure};
ghost use Rattle.sqlite.specs.declared.error.ErrorCode.TheVariants.{OutOfMemory};
ghost use Rattle.sqlite_value.specs.Order.{column};
ghost use Rattle.sqlite_value.specs.declared.value.Value.TheVariants.{Blob, Int};
ghost use Rattle.rc_table.specs.Columns.{AreNumbersOf, HoldsRow};

use crate::{Row, TableErr};
use rc_tree::{Attr, GREATEST_MOMENT, GREATEST_SECURITY, Kind, Moment, Props, Security};
use sqlite::{Error, ErrorCode};

// The numbers of a row as a file keeps them: its attributes in the stored form of a file, its times and its size.
pub(crate) struct Numbers {
    pub(crate) attr: u32,
    pub(crate) created: i64,
    pub(crate) written: i64,
    pub(crate) size: i64,
}

// The numbers of a row. A size above 2^63 - 1 is refused.
pub(crate) fn numbers_of(row: &Row) -> Result<Numbers, TableErr>
    ensures numbers { IfOk result (AreNumbersOf row.now) }
    ensures refused { IfErr result (λ e. (e ≡ TableErr.Failed) × (2 ^ 63 ≤ row.now.size)) }
{
    Ok(Numbers {
        attr: row.props.attr.stored(Kind::File),
        created: signed(row.props.created.units())?,
        written: signed(row.props.written.units())?,
        size: signed(row.size)?,
    })
}

fn signed(value: u64) -> Result<i64, TableErr>
    ensures same { IfOk result (λ n. n ≡ pos value) }
    ensures refused { IfErr result (λ e. (e ≡ TableErr.Failed) × (2 ^ 63 ≤ value)) }
{
    match i64::try_from(value) {
        Ok(value) => Ok(value),
        Err(_) => Err(TableErr::Failed),
    }
}

// The row of the columns attr, created, written, access, owner, audit, size and digest. What is no row is refused.
pub(crate) fn read_row(columns: &sqlite::Row) -> Result<Row, TableErr>
    ensures { IfOk result (HoldsRow columns.now) }
{
    Ok(Row {
        props: Props {
            attr: read_attr(columns, 0)?,
            created: read_moment(columns, 1)?,
            written: read_moment(columns, 2)?,
            access: read_security(columns, 3)?,
            owner: read_security(columns, 4)?,
            audit: read_security(columns, 5)?,
        },
        size: read_number(columns, 6)?,
        digest: read_digest(columns, 7)?,
    })
}

fn read_attr(columns: &sqlite::Row, at: usize) -> Result<Attr, TableErr>
    ensures { IfOk result (λ attr. column columns.now at ≡ Int (pos (stored_of File attr))) }
{
    let Ok(stored) = u32::try_from(read_number(columns, at)?) else {
        return Err(TableErr::Failed);
    };
    match Attr::read(stored, Kind::File) {
        Some(attr) => Ok(attr),
        None => Err(TableErr::Failed),
    }
}

fn read_moment(columns: &sqlite::Row, at: usize) -> Result<Moment, TableErr>
    ensures { IfOk result (λ moment. column columns.now at ≡ Int (pos moment)) }
{
    let units = read_number(columns, at)?;
    if units <= GREATEST_MOMENT {
        Ok(Moment::new(units))
    } else {
        Err(TableErr::Failed)
    }
}

fn read_security(columns: &sqlite::Row, at: usize) -> Result<Security, TableErr>
    ensures { IfOk result (λ security. column columns.now at ≡ Blob security) }
{
    let bytes = read_bytes(columns, at)?;
    if bytes.len() <= GREATEST_SECURITY {
        Ok(Security::new(bytes))
    } else {
        Err(TableErr::Failed)
    }
}

fn read_digest(columns: &sqlite::Row, at: usize) -> Result<[u8; 32], TableErr>
    ensures { IfOk result (λ digest. column columns.now at ≡ Blob digest) }
{
    let bytes = read_bytes(columns, at)?;
    match <[u8; 32]>::try_from(bytes.as_slice()) {
        Ok(digest) => Ok(digest),
        Err(_) => Err(TableErr::Failed),
    }
}

fn read_number(columns: &sqlite::Row, at: usize) -> Result<u64, TableErr>
    ensures { IfOk result (λ n. column columns.now at ≡ Int (pos n)) }
{
    columns.get(at).map_err(refused)
}

fn read_bytes(columns: &sqlite::Row, at: usize) -> Result<Vec<u8>, TableErr>
    ensures { IfOk result (λ bytes. column columns.now at ≡ Blob bytes.items) }
{
    columns.get(at).map_err(refused)
}

// The text of the only column.
pub(crate) fn read_text(columns: &sqlite::Row) -> Result<String, TableErr> {
    columns.get(0).map_err(refused)
}

// What the database refused a call for: want of memory, or anything else.
pub(crate) fn refused(error: Error) -> TableErr
    ensures { (result ≡ TableErr.NoMemory) ↔ (error ≡ SqliteFailure OutOfMemory) }
{
    match error {
        Error::SqliteFailure(ErrorCode::OutOfMemory) => TableErr::NoMemory,
        _ => TableErr::Failed,
    }
}
