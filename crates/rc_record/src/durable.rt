//! The steps in which a record is written, each made durable before the next one.

ghost use Rattle.std.specs.Prelude.{◌≡◌, ◌≤◌, ◌<◌, ◌+◌, ◌∷◌, [], ◌++◌, true, length, take, drop, IfOk};
ghost use Rattle.rc_volume.specs.declared.site.Part.TheVariants.{Record};
ghost use Rattle.rc_volume.specs.Faults.{part_cause};
ghost use Rattle.rc_volume.specs.Log.{cut, write};
ghost use Rattle.rc_volume.specs.Site.{IsTornBytes};
ghost use Rattle.rc_record.specs.Moments.{EachNow, EachSince, Grows};
ghost use Rattle.rc_record.specs.Writing.{BeginsClosed, ChangesRecord, IsKept, LogsCall, LogsStep, ReadsLeft, StandsForNothing};

use rc_volume::{Site, SiteErr};
use std::alloc::Global;

// How many bytes are written at a time.
const PIECE: usize = 65536;

/// Writes bytes, and syncs.
pub(crate) fn write_durably<S: Site>(
    alloc: Global,
    site: &mut S,
    off: u64,
    bytes: &[u8],
) -> Result<(), SiteErr>
    requires some_bytes { 0 < length bytes.now }
    requires within { S.tells ≡ true → off ≤ length (S.view site.old).told.notes }
    ensures frame { ChangesRecord S.tells (part_cause Record result)
        (S.view site.old) (S.view site.new) }
    ensures log { S.tells ≡ true → LogsStep result (write off (length bytes.now))
        (S.view site.new).told.notes (S.view site.old).log (S.view site.new).log }
    ensures notes { S.tells ≡ true → IfOk result (λ _. (S.view site.new).told.notes ≡
        take off (S.view site.old).told.notes ++ bytes.now
        ++ drop (off + length bytes.now) (S.view site.old).told.notes) }
    ensures torn { S.tells ≡ true → IsTornBytes off (length bytes.now)
        (S.view site.old).told.notes (S.view site.new).told.notes }
    ensures left { S.tells ≡ true → ReadsLeft (S.view site.old) → ReadsLeft (S.view site.new) }
{
    match site.record_write(alloc, off, bytes) {
        Ok(()) => site.record_sync(alloc),
        Err(e) => Err(e),
    }
}

/// Cuts the record, and syncs.
pub(crate) fn cut_durably<S: Site>(alloc: Global, site: &mut S, len: u64) -> Result<(), SiteErr>
    requires within { S.tells ≡ true → len ≤ length (S.view site.old).told.notes }
    ensures frame { ChangesRecord S.tells (part_cause Record result)
        (S.view site.old) (S.view site.new) }
    ensures log { S.tells ≡ true → LogsStep result (cut len)
        (S.view site.new).told.notes (S.view site.old).log (S.view site.new).log }
    ensures notes { S.tells ≡ true → IfOk result (λ _. (S.view site.new).told.notes ≡
        take len (S.view site.old).told.notes) }
    ensures left { S.tells ≡ true → ReadsLeft (S.view site.old) → ReadsLeft (S.view site.new) }
{
    match site.record_cut(alloc, len) {
        Ok(()) => site.record_sync(alloc),
        Err(e) => Err(e),
    }
}

// Cuts the record to one byte where it is longer.
fn cut_to_one<S: Site>(alloc: Global, site: &mut S) -> Result<(), SiteErr>
    ensures frame { ChangesRecord S.tells (part_cause Record result)
        (S.view site.old) (S.view site.new) }
    ensures log { S.tells ≡ true → LogsCall (cut 1)
        (S.view site.old).log (S.view site.new).log }
    ensures short { S.tells ≡ true → IfOk result
        (λ _. length (S.view site.new).told.notes ≤ 1) }
    ensures left { S.tells ≡ true → ReadsLeft (S.view site.old) → ReadsLeft (S.view site.new) }
{
    match site.record_len(alloc) {
        Ok(len) if len > 1 => site.record_cut(alloc, 1),
        Ok(_) => Ok(()),
        Err(e) => Err(e),
    }
}

/// Makes the record one byte that makes it stand for nothing.
pub(crate) fn close<S: Site>(alloc: Global, site: &mut S) -> Result<(), SiteErr>
    ensures frame { ChangesRecord S.tells (part_cause Record result)
        (S.view site.old) (S.view site.new) }
    ensures log { S.tells ≡ true → Grows (S.view site.old).log (S.view site.new).log }
    ensures images { S.tells ≡ true → EachNow (S.view site.old).log StandsForNothing →
        EachSince (S.view site.new).log (length (S.view site.old).log) StandsForNothing }
    ensures closed { S.tells ≡ true → IfOk result (λ _. IsKept (0 ∷ []) (S.view site.new)) }
    ensures left { S.tells ≡ true → ReadsLeft (S.view site.old) → ReadsLeft (S.view site.new) }
{
    match cut_to_one(alloc, site) {
        Ok(()) => {}
        Err(e) => return Err(e),
    }
    match site.record_sync(alloc) {
        Ok(()) => {}
        Err(e) => return Err(e),
    }
    write_durably(alloc, site, 0, &[0])
}

/// Writes bytes behind the one of a record that stands for nothing, in pieces, and syncs.
pub(crate) fn write_behind<S: Site>(
    alloc: Global,
    site: &mut S,
    bytes: &[u8],
) -> Result<(), SiteErr>
    requires closed { S.tells ≡ true → IsKept (0 ∷ []) (S.view site.old) }
    ensures frame { ChangesRecord S.tells (part_cause Record result)
        (S.view site.old) (S.view site.new) }
    ensures log { S.tells ≡ true → Grows (S.view site.old).log (S.view site.new).log }
    ensures images { S.tells ≡ true →
        EachSince (S.view site.new).log (length (S.view site.old).log) StandsForNothing }
    ensures written { S.tells ≡ true → IfOk result
        (λ _. IsKept (0 ∷ bytes.now) (S.view site.new)) }
    ensures left { S.tells ≡ true → ReadsLeft (S.view site.new) }
{
    match write_pieces(alloc, site, bytes) {
        Ok(()) => site.record_sync(alloc),
        Err(e) => Err(e),
    }
}

fn write_pieces<S: Site>(alloc: Global, site: &mut S, bytes: &[u8]) -> Result<(), SiteErr>
    requires closed { S.tells ≡ true → IsKept (0 ∷ []) (S.view site.old) }
    ensures frame { ChangesRecord S.tells (part_cause Record result)
        (S.view site.old) (S.view site.new) }
    ensures log { S.tells ≡ true → Grows (S.view site.old).log (S.view site.new).log }
    ensures images { S.tells ≡ true →
        EachSince (S.view site.new).log (length (S.view site.old).log) BeginsClosed }
    ensures written { S.tells ≡ true → IfOk result
        (λ _. (S.view site.new).told.notes ≡ 0 ∷ bytes.now) }
    ensures left { S.tells ≡ true → ReadsLeft (S.view site.new) }
{
    let mut done = 0;
    'pieces: while done < bytes.len() {
        let len = (bytes.len() - done).min(PIECE);
        match site.record_write(alloc, 1 + done as u64, &bytes[done..done + len]) {
            Ok(()) => {}
            Err(e) => return Err(e),
        }
        done += len;
    }
    Ok(())
}
