//! The totals of a plan, and its exit bits.

ghost use Rattle.std.specs.Prelude.{◌≡◌, ◌+◌, ◌≤◌, ◌^◌, ℕ, get_or, length, map};
ghost use Rattle.rc_report.specs.Totals.{added, bit_where, bits_of, columns, count_in, counts_in, has_source, is_in, share_of, totals_of, HasRoom, Reported};

use crate::given::{is_given_up, is_rising};
use rc_class::{Act, Class, GivenUp, Item, Plan};
use rc_tree::Kind;

/// A column of the summary.
#[derive(Clone, Copy, Debug, PartialEq, Eq)]
pub enum Column {
    /// The source has an entry.
    Total,
    /// It is copied or made.
    Copied,
    /// The source has an entry, and the target's stays or gets properties alone.
    Skipped,
    /// A file and a directory.
    Mismatch,
    /// It was given up.
    Failed,
    /// The target alone has an entry, which is reported or removed.
    Extras,
}

/// The rows of the summary, each with a number for each [`Column`] in their order.
#[derive(Clone, Copy, Debug, PartialEq, Eq)]
pub struct Totals {
    /// Directories.
    pub dirs: [u64; 6],
    /// Files.
    pub files: [u64; 6],
    /// The bytes of these files.
    pub bytes: [u128; 6],
}

impl Totals {
    // Nothing was counted.
    const NONE: Totals = Totals {
        dirs: [0; 6],
        files: [0; 6],
        bytes: [0; 6],
    };
}

/// The totals of a plan's items, of which these files were given up: they count as failed and not
/// as copied. Their order says nothing; a place that names no copy counts nothing, and one that is
/// named twice counts once. Takes no memory, and goes through the items once.
pub fn count_totals(plan: &Plan, failed: &[GivenUp]) -> Totals
    ensures { result ≡ totals_of plan.now.items failed.now }
{
    let rising = is_rising(failed);
    let items = plan.items.items();
    let mut totals = Totals::NONE;
    for (place, item) in items.iter().enumerate() {
        let given_up = is_given_up(failed, rising, place, item);
        let dirs = shares(Kind::Dir, 1, item, given_up);
        let files = shares(Kind::File, 1, item, given_up);
        let bytes = shares(Kind::File, item.facts.size, item, given_up);
        let all_dirs = count_more(totals.dirs, dirs);
        let all_files = count_more(totals.files, files);
        let all_bytes = add_more(totals.bytes, bytes);
        totals = Totals {
            dirs: all_dirs,
            files: all_files,
            bytes: all_bytes,
        };
    }
    totals
}

/// The exit bits of these totals, added: 1 for copied files, 2 for extras, 4 for mismatches, 8 for
/// files that were given up. Takes no memory.
pub fn bits(totals: &Totals) -> u8
    ensures { result ≡ bits_of totals.now }
{
    let (dirs, files) = (totals.dirs, totals.files);
    bit_where(0, count_in(Column::Copied, files), 1)
        + bit_where(
            count_in(Column::Extras, dirs),
            count_in(Column::Extras, files),
            2,
        )
        + bit_where(
            count_in(Column::Mismatch, dirs),
            count_in(Column::Mismatch, files),
            4,
        )
        + bit_where(
            count_in(Column::Failed, dirs),
            count_in(Column::Failed, files),
            8,
        )
}

// This bit where one of the counts is not 0.
fn bit_where(count: u64, other: u64, bit: u8) -> u8
    ensures bit { result ≡ bit_where (count + other) bit }
    ensures bound { result ≤ bit }
{
    if count > 0 || other > 0 { bit } else { 0 }
}

// The number of a column.
fn count_in(column: Column, row: [u64; 6]) -> u64
    ensures { result ≡ count_in column row }
{
    match column {
        Column::Total => row[0],
        Column::Copied => row[1],
        Column::Skipped => row[2],
        Column::Mismatch => row[3],
        Column::Failed => row[4],
        Column::Extras => row[5],
    }
}

// A row of keys, and what one more adds to it.
fn count_more(row: [u64; 6], shares: [u64; 6]) -> [u64; 6]
    requires { HasRoom (2 ^ 64) row shares }
    ensures { result ≡ added row shares }
{
    [
        row[0] + shares[0],
        row[1] + shares[1],
        row[2] + shares[2],
        row[3] + shares[3],
        row[4] + shares[4],
        row[5] + shares[5],
    ]
}

// A row of bytes, and what one more adds to it.
fn add_more(row: [u128; 6], shares: [u64; 6]) -> [u128; 6]
    requires { HasRoom (2 ^ 128) row shares }
    ensures { result ≡ added row shares }
{
    [
        row[0] + u128::from(shares[0]),
        row[1] + u128::from(shares[1]),
        row[2] + u128::from(shares[2]),
        row[3] + u128::from(shares[3]),
        row[4] + u128::from(shares[4]),
        row[5] + u128::from(shares[5]),
    ]
}

// What an item of this value adds to each column of the row of a kind.
fn shares(kind: Kind, value: u64, item: &Item, given_up: bool) -> [u64; 6]
    ensures { let r : Reported = record { item = item.now; given_up = given_up } in
        result ≡ map (share_of kind value r) columns }
{
    [
        share_of(kind, value, item, given_up, Column::Total),
        share_of(kind, value, item, given_up, Column::Copied),
        share_of(kind, value, item, given_up, Column::Skipped),
        share_of(kind, value, item, given_up, Column::Mismatch),
        share_of(kind, value, item, given_up, Column::Failed),
        share_of(kind, value, item, given_up, Column::Extras),
    ]
}

// What it adds to a column.
fn share_of(kind: Kind, value: u64, item: &Item, given_up: bool, column: Column) -> u64
    ensures { let r : Reported = record { item = item.now; given_up = given_up } in
        result ≡ share_of kind value r column }
{
    if is_in(kind, item, given_up, column) {
        value
    } else {
        0
    }
}

// Whether an item counts in a column of the row of a kind.
fn is_in(kind: Kind, item: &Item, given_up: bool, column: Column) -> bool
    ensures { result ≡ is_in kind (record { item = item.now; given_up = given_up }) column }
{
    kind == item.facts.kind && counts_in(column, item.act, has_source(item), given_up)
}

// Whether the source has an entry of the item's key.
fn has_source(item: &Item) -> bool
    ensures { result ≡ has_source item.now }
{
    item.class != Class::Extra
}

// Whether a key with this act counts in a column.
fn counts_in(column: Column, act: Act, in_source: bool, given_up: bool) -> bool
    ensures { result ≡ counts_in column act in_source given_up }
{
    match column {
        Column::Total => in_source,
        Column::Copied => act == Act::Make || act == Act::Copy && !given_up,
        Column::Skipped => in_source && matches!(act, Act::Touch | Act::Fix | Act::Keep(_)),
        Column::Mismatch => in_source && act == Act::Mismatch,
        Column::Failed => given_up && act == Act::Copy,
        Column::Extras => matches!(act, Act::Extra | Act::Purge),
    }
}
