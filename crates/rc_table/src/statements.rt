//! The statements on a table's file: each function is one call of the database.

ghost use Rattle.std.specs.Prelude.{◌≡◌, Ok, Err, IfOk, MatchOption};
ghost use Rattle.sqlite.specs.declared.error.Error.TheVariants.{QueryReturnedNoRows};

use crate::stored::{Numbers, numbers_of, refused};
use crate::{Row, TableErr};
use rc_volume::Side;
use sqlite::{Connection, Error, File, FileStore, params};

pub(crate) type Database = Connection<FileStore<File>>;

// Opens the file, or makes it. It is then closed to every other opener until the database is dropped.
pub(crate) fn open_file(rt: &HostRuntime, file: &str) -> Result<Database, TableErr> {
    Connection::open(rt, file).map_err(refused)
}

// Closes the file: what was committed is copied from the log beside it into it.
pub(crate) fn close_file(database: Database) -> Result<(), TableErr> {
    database.close().map_err(refused)
}

// Makes the table, where the file has none yet.
pub(crate) fn make_entries(database: &mut Database) -> Result<(), TableErr> {
    run(
        database,
        "CREATE TABLE IF NOT EXISTS entries (side INTEGER NOT NULL, path TEXT NOT NULL, \
        attr INTEGER NOT NULL, created INTEGER NOT NULL, written INTEGER NOT NULL, access BLOB NOT NULL, \
        owner BLOB NOT NULL, audit BLOB NOT NULL, size INTEGER NOT NULL, digest BLOB NOT NULL, \
        PRIMARY KEY (side, path)) STRICT",
    )
}

// Begins a transaction, where none is open.
pub(crate) fn begin(database: &mut Database) -> Result<(), TableErr> {
    run(database, "BEGIN")
}

// Ends the transaction, so that what it changed is kept.
pub(crate) fn end(database: &mut Database) -> Result<(), TableErr> {
    run(database, "COMMIT")
}

fn run(database: &mut Database, statement: &str) -> Result<(), TableErr> {
    match database.execute(statement, &[]) {
        Ok(_) => Ok(()),
        Err(error) => Err(refused(error)),
    }
}

// Whether a transaction that was begun is still open. A failure that loses its changes has ended it.
pub(crate) fn is_open(database: &Database) -> bool {
    !database.is_autocommit()
}

// Keeps a row at a path, in the place of one that stood there.
pub(crate) fn insert_row(
    database: &mut Database,
    side: Side,
    path: &str,
    row: &Row,
) -> Result<(), TableErr> {
    let Numbers {
        attr,
        created,
        written,
        size,
    } = numbers_of(row)?;
    match database.execute(
        "INSERT OR REPLACE INTO entries (side, path, attr, created, written, access, owner, audit, size, digest) \
         VALUES (?1, ?2, ?3, ?4, ?5, ?6, ?7, ?8, ?9, ?10)",
        params![
            number_of(side),
            path,
            attr,
            created,
            written,
            row.props.access.bytes(),
            row.props.owner.bytes(),
            row.props.audit.bytes(),
            size,
            row.digest.as_slice(),
        ],
    ) {
        Ok(_) => Ok(()),
        Err(error) => Err(refused(error)),
    }
}

// Takes the row of a path away.
pub(crate) fn delete_row(database: &mut Database, side: Side, path: &str) -> Result<(), TableErr> {
    match database.execute(
        "DELETE FROM entries WHERE side = ?1 AND path = ?2",
        params![number_of(side), path],
    ) {
        Ok(_) => Ok(()),
        Err(error) => Err(refused(error)),
    }
}

// The columns of the row of a path.
pub(crate) fn select_row(
    database: &mut Database,
    side: Side,
    path: &str,
) -> Result<Option<sqlite::Row>, TableErr> {
    at_most_one(database.query_row(
        "SELECT attr, created, written, access, owner, audit, size, digest FROM entries \
         WHERE side = ?1 AND path = ?2",
        params![number_of(side), path],
    ))
}

// The least path of a side.
pub(crate) fn first_path(
    database: &mut Database,
    side: Side,
) -> Result<Option<sqlite::Row>, TableErr> {
    at_most_one(database.query_row(
        "SELECT path FROM entries WHERE side = ?1 ORDER BY path LIMIT 1",
        params![number_of(side)],
    ))
}

// The least path of a side above this one.
pub(crate) fn path_above(
    database: &mut Database,
    side: Side,
    last: &str,
) -> Result<Option<sqlite::Row>, TableErr> {
    at_most_one(database.query_row(
        "SELECT path FROM entries WHERE side = ?1 AND path > ?2 ORDER BY path LIMIT 1",
        params![number_of(side), last],
    ))
}

// The row of a query that may have none.
fn at_most_one(row: Result<sqlite::Row, Error>) -> Result<Option<sqlite::Row>, TableErr>
    ensures found { IfOk result (λ found.
        MatchOption found (row ≡ Err QueryReturnedNoRows) (λ columns. row ≡ Ok columns)) }
{
    match row {
        Ok(row) => Ok(Some(row)),
        Err(Error::QueryReturnedNoRows) => Ok(None),
        Err(error) => Err(refused(error)),
    }
}

fn number_of(side: Side) -> i64 {
    match side {
        Side::Source => 0,
        Side::Target => 1,
    }
}
