//! The rows of a root's table: what the host can't keep of an entry.

ghost use Rattle.std.specs.Prelude.{◌≤◌};
ghost use Rattle.rc_tree.specs.declared.moment.TheConstants.{GREATEST_MOMENT};

use crate::fault::Fault;
use crate::listing::Found;
use rc_table::{Row, SqlTable, Table, is_path_text};
use rc_tree::{Attr, Kind, Moment, Props, Security, Text};
use rc_volume::Side;
use std::alloc::Global;

// The side of a table's rows: the same in each file, so that a root's table serves it as a source and as a target.
const ROWS: Side = Side::Source;

// The attributes of a file that nobody has mirrored yet: it is to be archived.
const ARCHIVE: Attr = Attr {
    archive: true,
    ..Attr::NONE
};

// The properties of what was found at a key. Without a row they are fresh ones, and where a file is not as its row says, the
// row's, but that it was written at this moment and is to be archived; the row is then kept.
pub(crate) fn props_of(
    table: &mut SqlTable,
    alloc: Global,
    key: &str,
    found: &Found,
    moment: u64,
) -> Result<Props, Fault>
    requires { moment ≤ GREATEST_MOMENT }
{
    let text = Text::of(alloc, key)?;
    let row = match table.get(alloc, ROWS, &text)? {
        Some(row) if is_as_kept(&row, found) => return Ok(row.props),
        Some(row) => changed_row(row, found, moment),
        None => fresh_row(alloc, found, moment),
    };
    keep(table, alloc, &text, &row)?;
    Ok(row.props)
}

fn is_as_kept(row: &Row, found: &Found) -> bool {
    match found.kind {
        Kind::Dir => true,
        Kind::File => row.size == found.size && is_digest(row, found.digest),
    }
}

fn is_digest(row: &Row, digest: Option<[u8; 32]>) -> bool {
    match digest {
        Some(digest) => row.digest == digest,
        None => true,
    }
}

// How a row keeps a digest: as 32 zero bytes where none was taken.
pub(crate) fn kept_digest(digest: Option<[u8; 32]>) -> [u8; 32] {
    match digest {
        Some(digest) => digest,
        None => [0; 32],
    }
}

fn changed_row(row: Row, found: &Found, moment: u64) -> Row
    requires { moment ≤ GREATEST_MOMENT }
{
    let Row { mut props, .. } = row;
    props.attr.archive = true;
    props.written = Moment::new(moment);
    Row {
        props,
        size: found.size,
        digest: kept_digest(found.digest),
    }
}

fn fresh_row(alloc: Global, found: &Found, moment: u64) -> Row
    requires { moment ≤ GREATEST_MOMENT }
{
    let attr = match found.kind {
        Kind::File => ARCHIVE,
        Kind::Dir => Attr::NONE,
    };
    Row {
        props: Props {
            attr,
            created: Moment::new(moment),
            written: Moment::new(moment),
            access: Security::empty(alloc),
            owner: Security::empty(alloc),
            audit: Security::empty(alloc),
        },
        size: found.size,
        digest: kept_digest(found.digest),
    }
}

// The properties of an entry as it is made: no attribute, both times 0 and no security.
pub(crate) fn made_props(alloc: Global) -> Props {
    Props {
        attr: Attr::NONE,
        created: Moment::new(0),
        written: Moment::new(0),
        access: Security::empty(alloc),
        owner: Security::empty(alloc),
        audit: Security::empty(alloc),
    }
}

// Keeps the row of a key.
pub(crate) fn keep_row(
    table: &mut SqlTable,
    alloc: Global,
    key: &str,
    row: &Row,
) -> Result<(), Fault> {
    let text = Text::of(alloc, key)?;
    keep(table, alloc, &text, row)
}

fn keep(table: &mut SqlTable, alloc: Global, text: &Text, row: &Row) -> Result<(), Fault> {
    if !is_path_text(text) {
        return Err(Fault::Failed);
    }
    table.put(alloc, ROWS, text, row)?;
    Ok(())
}

// Takes the row of a key away.
pub(crate) fn drop_row(table: &mut SqlTable, alloc: Global, key: &str) -> Result<(), Fault> {
    let text = Text::of(alloc, key)?;
    table.drop_key(alloc, ROWS, &text)?;
    Ok(())
}

// The least key above this one at which a row stands.
pub(crate) fn next_row(
    table: &mut SqlTable,
    alloc: Global,
    after: Option<&Text>,
) -> Result<Option<Text>, Fault> {
    Ok(table.next_key(alloc, ROWS, after)?)
}
