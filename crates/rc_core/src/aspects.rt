//! What a stop may leave at the key of a file: each aspect of it as any node had it that stood there.

ghost use Rattle.std.specs.Prelude.{◌≡◌, ◌↔◌, ◌<◌, ◌≤◌, ◌+◌, ◌⊎◌, ℕ, IsTrue, IsSomeAnd, Contains, None, length, slice_get};
ghost use Rattle.rc_core.specs.Rows.{all_had};
ghost use Rattle.rc_core.specs.Stops.{Agrees, IsPut, MayBeByte, MayBeLeft, MayBeNode, Stood};
ghost use Rattle.rc_core.specs.declared.aspects.Aspect.TheVariants as aspect;

use crate::left::{is_same_attr, is_same_security, is_same_text};
use crate::{FileRow, Standing};

/// In what a node may agree with one that stood.
#[derive(Clone, Copy)]
pub(crate) enum Aspect {
    Spelling,
    Kind,
    Attr,
    Created,
    Written,
    Access,
    Owner,
    Audit,
    /// It is no shorter.
    NoShorter,
    /// It is no longer.
    NoLonger,
    /// It has the same byte at this place, or one where the other had none.
    Byte(u64),
}

// Whether a node agrees so with one that stood.
fn agrees(aspect: Aspect, image: &Standing, stood: &Standing) -> bool
    ensures { IsTrue result ↔ Agrees aspect image.now stood.now }
{
    let (of, had) = (image.props(), stood.props());
    match aspect {
        Aspect::Spelling => is_same_text(image.name(), stood.name()),
        Aspect::Kind => image.kind() == stood.kind(),
        Aspect::Attr => is_same_attr(of.attr, had.attr),
        Aspect::Created => of.created.units() == had.created.units(),
        Aspect::Written => of.written.units() == had.written.units(),
        Aspect::Access => is_same_security(&of.access, &had.access),
        Aspect::Owner => is_same_security(&of.owner, &had.owner),
        Aspect::Audit => is_same_security(&of.audit, &had.audit),
        Aspect::NoShorter => stood.bytes().len() <= image.bytes().len(),
        Aspect::NoLonger => image.bytes().len() <= stood.bytes().len(),
        Aspect::Byte(at) => agrees_at(at, image.bytes(), stood.bytes()),
    }
}

fn agrees_at(at: u64, image: &[u8], stood: &[u8]) -> bool
    ensures { IsTrue result
        ↔ (slice_get stood.now at ≡ slice_get image.now at) ⊎ (length stood.now ≤ at) }
{
    stood.get(at as usize).copied() == image.get(at as usize).copied() || stood.len() as u64 <= at
}

fn agrees_some(aspect: Aspect, image: &Standing, stood: &Option<Standing>) -> bool
    ensures { IsTrue result ↔ IsSomeAnd stood.now (Agrees aspect image.now) }
{
    match stood {
        Some(stood) => agrees(aspect, image, stood),
        None => false,
    }
}

// Whether it agrees so with any of these.
fn agrees_any(aspect: Aspect, image: &Standing, had: &[Option<Standing>]) -> bool
    ensures { IsTrue result ↔ Stood had.now (Agrees aspect image.now) }
{
    let mut rest = had;
    while let [first, later @ ..] = rest {
        if agrees_some(aspect, image, first) {
            return true;
        }
        rest = later;
    }
    false
}

// Whether it agrees so with any that stood since the last sync.
fn has_stood(aspect: Aspect, image: &Standing, row: &FileRow) -> bool
    ensures { IsTrue result ↔ Stood (all_had row.now) (Agrees aspect image.now) }
{
    agrees_some(aspect, image, &row.stands) || agrees_any(aspect, image, row.touched.had())
}

fn has_stood_named(image: &Standing, row: &FileRow) -> bool
    ensures { IsTrue result
        ↔ Stood (all_had row.now) (Agrees aspect.Spelling image.now)
        × Stood (all_had row.now) (Agrees aspect.Kind image.now) }
{
    has_stood(Aspect::Spelling, image, row) && has_stood(Aspect::Kind, image, row)
}

fn has_stood_dated(image: &Standing, row: &FileRow) -> bool
    ensures { IsTrue result
        ↔ Stood (all_had row.now) (Agrees aspect.Attr image.now)
        × Stood (all_had row.now) (Agrees aspect.Created image.now)
        × Stood (all_had row.now) (Agrees aspect.Written image.now) }
{
    has_stood(Aspect::Attr, image, row)
        && has_stood(Aspect::Created, image, row)
        && has_stood(Aspect::Written, image, row)
}

fn has_stood_secured(image: &Standing, row: &FileRow) -> bool
    ensures { IsTrue result
        ↔ Stood (all_had row.now) (Agrees aspect.Access image.now)
        × Stood (all_had row.now) (Agrees aspect.Owner image.now)
        × Stood (all_had row.now) (Agrees aspect.Audit image.now) }
{
    has_stood(Aspect::Access, image, row)
        && has_stood(Aspect::Owner, image, row)
        && has_stood(Aspect::Audit, image, row)
}

fn has_stood_long(image: &Standing, row: &FileRow) -> bool
    ensures { IsTrue result
        ↔ Stood (all_had row.now) (Agrees aspect.NoShorter image.now)
        × Stood (all_had row.now) (Agrees aspect.NoLonger image.now) }
{
    has_stood(Aspect::NoShorter, image, row) && has_stood(Aspect::NoLonger, image, row)
}

// Whether a place is in a range that was put.
fn is_put(puts: &[(u64, u64)], at: u64) -> bool
    ensures { IsTrue result ↔ IsPut puts.now at }
{
    let mut rest = puts;
    while let [first, later @ ..] = rest {
        if is_in(*first, at) {
            return true;
        }
        rest = later;
    }
    false
}

fn is_in(range: (u64, u64), at: u64) -> bool
    ensures { IsTrue result ↔ (range.0 ≤ at) × (at < range.0 + range.1) }
{
    let (off, len) = range;
    off <= at && at - off < len
}

fn may_be_byte(at: u64, image: &Standing, row: &FileRow) -> bool
    ensures { IsTrue result
        ↔ MayBeByte (all_had row.now) row.now.touched.puts at (slice_get image.now.bytes at) }
{
    has_stood(Aspect::Byte(at), image, row) || is_put(row.touched.puts(), at)
}

fn may_be_bytes(image: &Standing, row: &FileRow) -> bool
    ensures { IsTrue result ↔ ((at : ℕ) → at < length image.now.bytes →
        MayBeByte (all_had row.now) row.now.touched.puts at (slice_get image.now.bytes at)) }
{
    for at in 0..image.bytes().len() {
        if !may_be_byte(at as u64, image, row) {
            return false;
        }
    }
    true
}

// Whether a stop may leave this node.
fn may_be_node(image: &Standing, row: &FileRow) -> bool
    ensures { IsTrue result ↔ MayBeNode (all_had row.now) row.now.touched.puts image.now }
{
    let named = has_stood_named(image, row);
    let dated = has_stood_dated(image, row);
    let secured = has_stood_secured(image, row);
    let long = has_stood_long(image, row);
    let bytes = may_be_bytes(image, row);
    named & dated & secured & long & bytes
}

// Whether nothing was there at some time.
fn had_none(row: &FileRow) -> bool
    ensures { IsTrue result ↔ Contains (all_had row.now) None }
{
    row.stands.is_none() || contains_none(row.touched.had())
}

fn contains_none(had: &[Option<Standing>]) -> bool
    ensures { IsTrue result ↔ Contains had.now None }
{
    let mut rest = had;
    while let [first, later @ ..] = rest {
        if first.is_none() {
            return true;
        }
        rest = later;
    }
    false
}

// Whether a stop may leave this, or nothing, at the file's key.
pub(crate) fn may_be_left(image: &Option<Standing>, row: &FileRow) -> bool
    ensures { IsTrue result ↔ MayBeLeft (all_had row.now) row.now.touched.puts image.now }
{
    match image {
        Some(node) => may_be_node(node, row),
        None => had_none(row),
    }
}
