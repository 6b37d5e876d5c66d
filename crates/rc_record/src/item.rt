//! An item of a record.

ghost use Rattle.std.specs.Prelude.{◌≡◌, ◌≤◌, ◌<◌, ◌+◌, true, length, chars, ok_or, IfErr, IfOk};
ghost use Rattle.rc_record.specs.Answers.{Gives, IsOfBytes};
ghost use Rattle.rc_record.specs.Codes.{act_of, after_of, class_of, kind_of};
ghost use Rattle.rc_record.specs.Fields.{code_at};
ghost use Rattle.rc_record.specs.Grammar.{attr_at, facts_at, is_kind_for, is_size_for, item_at, kind_at, names_of, no_limit, path_at, size_at};
ghost use Rattle.rc_record.specs.Rooms.{limit_of};

use crate::codes;
use crate::err::RecordErr;
use crate::fields::{byte_at, text_at, u16_at, u32_at, u64_at};
use crate::head::moment_at;
use crate::room::{Room, UNITS_MAX};
use rc_class::{Act, After, Class, Facts, Item};
use rc_tree::{Attr, Kind, Path, PathErr};
use std::alloc::Global;

/// The item at an offset and the offset behind it, or the place of its first field that is at fault. It is read by
/// itself: neither its size nor its units are limited, and its key is compared with none. It refuses `RecordFault` never.
pub fn item_at(alloc: Global, bytes: &[u8], off: u64) -> Result<(Item, u64), RecordErr>
    ensures item { Gives (λ read. read) result (item_at no_limit off bytes.now) }
    ensures causes { IfErr result IsOfBytes }
{
    item_in(alloc, bytes, off, Room::NO_LIMIT)
}

/// The item at an offset and the offset behind it, where it has this room.
#[tactic(auto, unfolding(crate::specs::Grammar::item_at))]
pub(crate) fn item_in(
    alloc: Global,
    bytes: &[u8],
    off: u64,
    room: Room,
) -> Result<(Item, u64), RecordErr>
    requires whole { room.stride ≡ 0 }
    requires bound { room.units ≤ UNITS_MAX }
    ensures item { Gives (λ read. read) result (item_at (limit_of room) off bytes.now) }
    ensures below { IfOk result (λ read. 0 < length read.0.path) }
    ensures place { IfOk result (λ _. off + 26 ≤ length bytes.now) }
    ensures fits { IfOk result (λ read. limit_of room read.0.act read.0.facts.size ≡ true) }
    ensures causes { IfErr result IsOfBytes }
{
    let act = act_at(bytes, off)?;
    let class = class_at(bytes, off + 1)?;
    let after = after_at(bytes, off + 2)?;
    let facts = facts_at(bytes, off + 3, act, room)?;
    let (path, end) = path_at(alloc, bytes, off + 24)?;
    Ok((
        Item {
            path,
            act,
            class,
            after,
            facts,
        },
        end,
    ))
}

#[tactic(auto, unfolding(crate::specs::Fields::code_at))]
fn act_at(bytes: &[u8], off: u64) -> Result<Act, u64>
    ensures act { result ≡ code_at act_of off bytes.now }
    ensures within { IfOk result (λ _. off + 1 ≤ length bytes.now) }
{
    let code = byte_at(bytes, off)?;
    codes::act_of(code).ok_or(off)
}

#[tactic(auto, unfolding(crate::specs::Fields::code_at))]
fn class_at(bytes: &[u8], off: u64) -> Result<Class, u64>
    ensures class { result ≡ code_at class_of off bytes.now }
    ensures within { IfOk result (λ _. off + 1 ≤ length bytes.now) }
{
    let code = byte_at(bytes, off)?;
    codes::class_of(code).ok_or(off)
}

#[tactic(auto, unfolding(crate::specs::Fields::code_at))]
fn after_at(bytes: &[u8], off: u64) -> Result<After, u64>
    ensures after { result ≡ code_at after_of off bytes.now }
    ensures within { IfOk result (λ _. off + 1 ≤ length bytes.now) }
{
    let code = byte_at(bytes, off)?;
    codes::after_of(code).ok_or(off)
}

// The facts of an item with this act, and the kind is the first of them.
#[tactic(auto, unfolding(crate::specs::Grammar::facts_at))]
fn facts_at(bytes: &[u8], off: u64, act: Act, room: Room) -> Result<Facts, u64>
    requires whole { room.stride ≡ 0 }
    requires bound { room.units ≤ UNITS_MAX }
    ensures facts { result ≡ facts_at (limit_of room) act off bytes.now }
    ensures fits { IfOk result (λ facts. limit_of room act facts.size ≡ true) }
    ensures within { IfOk result (λ _. off + 21 ≤ length bytes.now) }
{
    let kind = kind_at(bytes, off, act)?;
    let size = size_at(bytes, off + 1, act, kind, room)?;
    let written = moment_at(bytes, off + 9)?;
    let attr = attr_at(bytes, off + 17, kind)?;
    Ok(Facts {
        kind,
        size,
        written,
        attr,
    })
}

#[tactic(auto, unfolding(crate::specs::Grammar::kind_at, crate::specs::Fields::code_at))]
fn kind_at(bytes: &[u8], off: u64, act: Act) -> Result<Kind, u64>
    ensures kind { result ≡ kind_at act off bytes.now }
    ensures within { IfOk result (λ _. off + 1 ≤ length bytes.now) }
{
    let code = byte_at(bytes, off)?;
    match codes::kind_of(code) {
        Some(kind) if is_kind_for(act, kind) => Ok(kind),
        _ => Err(off),
    }
}

// A copy is of a file, and what is made or touched is a directory.
fn is_kind_for(act: Act, kind: Kind) -> bool
    ensures { result ≡ is_kind_for act kind }
{
    match act {
        Act::Copy => kind == Kind::File,
        Act::Make | Act::Touch => kind == Kind::Dir,
        _ => true,
    }
}

#[tactic(auto, unfolding(crate::specs::Grammar::size_at))]
fn size_at(bytes: &[u8], off: u64, act: Act, kind: Kind, room: Room) -> Result<u64, u64>
    requires whole { room.stride ≡ 0 }
    requires bound { room.units ≤ UNITS_MAX }
    ensures size { result ≡ size_at (limit_of room) act kind off bytes.now }
    ensures fits { IfOk result (λ size. limit_of room act size ≡ true) }
    ensures within { IfOk result (λ _. off + 8 ≤ length bytes.now) }
{
    let size = u64_at(bytes, off)?;
    if is_size_for(kind, size) && room.is_for(act, size) {
        Ok(size)
    } else {
        Err(off)
    }
}

// A directory has no size.
fn is_size_for(kind: Kind, size: u64) -> bool
    ensures { result ≡ is_size_for kind size }
{
    match kind {
        Kind::Dir => size == 0,
        Kind::File => true,
    }
}

#[tactic(auto, unfolding(crate::specs::Grammar::attr_at))]
fn attr_at(bytes: &[u8], off: u64, kind: Kind) -> Result<Attr, u64>
    ensures attr { result ≡ attr_at kind off bytes.now }
    ensures within { IfOk result (λ _. off + 4 ≤ length bytes.now) }
{
    let stored = u32_at(bytes, off)?;
    codes::attr_of(kind, stored).ok_or(off)
}

// A path behind its length, and the offset behind it.
#[tactic(auto, unfolding(crate::specs::Grammar::path_at))]
fn path_at(alloc: Global, bytes: &[u8], off: u64) -> Result<(Path, u64), RecordErr>
    ensures path { Gives (λ read. read) result (path_at off bytes.now) }
    ensures below { IfOk result (λ read. 0 < length read.0) }
    ensures within { IfOk result (λ read. off + 2 ≤ length bytes.now) }
    ensures causes { IfErr result IsOfBytes }
{
    let len = u16_at(bytes, off)?;
    let text = text_at(bytes, off + 2, u64::from(len))?;
    let path = path_of(alloc, text, off + 2)?;
    Ok((path, off + 2 + u64::from(len)))
}

// The path below the root that a text spells; any other text is at fault at this place.
fn path_of(alloc: Global, text: &str, place: u64) -> Result<Path, RecordErr>
    ensures path { Gives (λ path. path) result (ok_or (names_of (chars text.now)) place) }
    ensures below { IfOk result (λ path. 0 < length path) }
    ensures causes { IfErr result IsOfBytes }
{
    match Path::read(alloc, text) {
        Ok(path) if !path.names().is_empty() => Ok(path),
        Err(PathErr::NoMemory) => Err(RecordErr::NoMemory),
        _ => Err(RecordErr::BadRecord { place }),
    }
}
