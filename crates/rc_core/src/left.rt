//! What a failed attempt may leave of a file.

ghost use Rattle.std.specs.Prelude.{◌≡◌, ◌↔◌, ◌+◌, ◌≤◌, IsTrue, IsSomeAnd, drop, length, max, min, take};
ghost use Rattle.rc_volume.specs.Site.{IsHalfResized, IsTorn};
ghost use Rattle.rc_core.specs.Events.{IsLeftPrepared, IsLeftUnprepared};
ghost use Rattle.rc_core.specs.Rows.{begun};

use crate::parts::{before, past};
use crate::{Extent, FileRow, Standing};
use rc_tree::{Attr, Props, Security, Text};

pub(crate) fn is_same_text(a: &Text, b: &Text) -> bool
    ensures { IsTrue result ↔ a.now ≡ b.now }
{
    a == b
}

pub(crate) fn is_same_security(a: &Security, b: &Security) -> bool
    ensures { IsTrue result ↔ a.now ≡ b.now }
{
    a.bytes() == b.bytes()
}

fn are_same_props(a: &Props, b: &Props) -> bool
    ensures { IsTrue result ↔ a.now ≡ b.now }
{
    let attr = is_same_attr(a.attr, b.attr);
    let times = are_same_times(a, b);
    let security = are_same_security(a, b);
    attr & times & security
}

pub(crate) fn is_same_attr(a: Attr, b: Attr) -> bool
    ensures { IsTrue result ↔ a ≡ b }
{
    a == b
}

fn are_same_times(a: &Props, b: &Props) -> bool
    ensures { IsTrue result ↔ (a.now.created ≡ b.now.created) × (a.now.written ≡ b.now.written) }
{
    a.created.units() == b.created.units() && a.written.units() == b.written.units()
}

fn are_same_security(a: &Props, b: &Props) -> bool
    ensures { IsTrue result
        ↔ (a.now.access ≡ b.now.access) × (a.now.owner ≡ b.now.owner)
        × (a.now.audit ≡ b.now.audit) }
{
    is_same_security(&a.access, &b.access)
        && is_same_security(&a.owner, &b.owner)
        && is_same_security(&a.audit, &b.audit)
}

// Whether two nodes differ in their bytes alone.
fn is_same_beside_bytes(old: &Standing, new: &Standing) -> bool
    ensures { IsTrue result ↔ new.now ≡ (record old.now { bytes = new.now.bytes }) }
{
    is_same_text(old.name(), new.name())
        && old.kind() == new.kind()
        && are_same_props(old.props(), new.props())
}

fn is_same_node(old: &Standing, new: &Standing) -> bool
    ensures { IsTrue result ↔ new.now ≡ old.now }
{
    is_same_beside_bytes(old, new) && old.bytes() == new.bytes()
}

// Whether the same stands, or nothing in both.
pub(crate) fn is_same(old: &Option<Standing>, new: &Option<Standing>) -> bool
    ensures { IsTrue result ↔ new.now ≡ old.now }
{
    match (old, new) {
        (None, None) => true,
        (Some(old), Some(new)) => is_same_node(old, new),
        _ => false,
    }
}

// Whether any bytes stand in a range, and all else as it was.
fn is_torn(off: u64, len: u64, old: &Standing, new: &Standing) -> bool
    ensures { IsTrue result ↔ IsTorn off len old.now new.now }
{
    is_same_beside_bytes(old, new) && are_torn(off, len, old.bytes(), new.bytes())
}

fn are_torn(off: u64, len: u64, old: &[u8], new: &[u8]) -> bool
    ensures { IsTrue result ↔ (length new.now ≡ length old.now)
        × (take off new.now ≡ take off old.now)
        × (drop (off + len) new.now ≡ drop (off + len) old.now) }
{
    old.len() == new.len()
        && before(old, off) == before(new, off)
        && past(old, off, len) == past(new, off, len)
}

// Whether the length is on its way to this one.
fn is_half_resized(len: u64, old: &Standing, new: &Standing) -> bool
    ensures { IsTrue result ↔ IsHalfResized len old.now new.now }
{
    is_same_beside_bytes(old, new) && are_half_resized(len, old.bytes(), new.bytes())
}

fn are_half_resized(len: u64, old: &[u8], new: &[u8]) -> bool
    ensures { IsTrue result ↔ (min (length old.now) len ≤ length new.now)
        × (length new.now ≤ max (length old.now) len)
        × (take (min (length old.now) len) new.now ≡ take (min (length old.now) len) old.now) }
{
    let least = (old.len() as u64).min(len);
    let greatest = (old.len() as u64).max(len);
    let size = new.len() as u64;
    least <= size && size <= greatest && before(old, least) == before(new, least)
}

// What a failed attempt leaves that still had to make the file and set its length.
pub(crate) fn is_left_unprepared(
    size: u64,
    row: &FileRow,
    base: &Standing,
    left: &Option<Standing>,
) -> bool
    requires { base.now ≡ begun row.now row.now.stands }
    ensures { IsTrue result ↔ IsLeftUnprepared size row.now left.now }
{
    is_same(&row.stands, left) || is_half_resized_to(size, base, left)
}

fn is_half_resized_to(size: u64, base: &Standing, left: &Option<Standing>) -> bool
    ensures { IsTrue result ↔ IsSomeAnd left.now (IsHalfResized size base.now) }
{
    match left {
        Some(left) => is_half_resized(size, base, left),
        None => false,
    }
}

// And one that only had bytes to put.
pub(crate) fn is_left_prepared(extent: Extent, row: &FileRow, left: &Option<Standing>) -> bool
    ensures { IsTrue result ↔ IsLeftPrepared extent row.now left.now }
{
    is_same(&row.stands, left) || is_torn_in(extent, &row.stands, left)
}

fn is_torn_in(extent: Extent, stands: &Option<Standing>, left: &Option<Standing>) -> bool
    ensures { IsTrue result
        ↔ IsSomeAnd stands.now (λ node. IsSomeAnd left.now (IsTorn extent.off extent.len node)) }
{
    match (stands, left) {
        (Some(stands), Some(left)) => is_torn(extent.off, extent.len, stands, left),
        _ => false,
    }
}
