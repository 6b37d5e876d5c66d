//! Reading the record of a site.

ghost use Rattle.std.specs.Prelude.{◌≡◌, ◌+◌, ◌≤◌, ◌∷◌, [], ◌++◌, true, length, IfOk, IfSome, OnOk};
ghost use Rattle.rc_volume.specs.declared.site.Part.TheVariants.{Record};
ghost use Rattle.rc_volume.specs.Faults.{part_cause};
ghost use Rattle.rc_volume.specs.Frames.{Syncs};
ghost use Rattle.rc_record.specs.Answers.{Gives, IsDecided, LogsLoad, LogsSynced, fault_of, record_cause};
ghost use Rattle.rc_record.specs.Grammar.{stands};
ghost use Rattle.rc_record.specs.Spelling.{IsAllowed};
ghost use Rattle.rc_record.specs.Writing.{IsOpened};

use crate::err::RecordErr;
use crate::noted::read;
use rc_class::Noted;
use rc_volume::{Site, SiteErr};
use std::alloc::Global;

/// What the record stands for: `None` where that is nothing. The record's length is asked for, the record synced, and only
/// then its bytes are read, so that what is answered stays so.
///
/// `BadRecord` is answered where the record is bad, and `RecordFault` only where its count of faults rose. What is told
/// stands, whatever is answered.
pub fn load<S: Site>(alloc: Global, site: &mut S) -> Result<Option<Noted>, RecordErr>
    ensures frame { Syncs S.tells Record (record_cause result)
        (S.view site.old) (S.view site.new) }
    ensures exact { S.tells ≡ true → Gives (λ noted. noted) result
        (stands (S.view site.old).told.notes) }
    ensures log { S.tells ≡ true → LogsLoad result (S.view site.old).told.notes
        (S.view site.old).log (S.view site.new).log }
    ensures decided { S.tells ≡ true → IsDecided result
        (S.view site.new).log (S.view site.new).told.notes }
    ensures allowed { IfOk result (λ noted. IfSome noted (λ noted. IsAllowed noted.plan)) }
    ensures opened { S.tells ≡ true → IfOk result (λ noted. IfSome noted
        (λ noted. IsOpened noted.plan (S.view site.new))) }
{
    match durable_bytes(alloc, site) {
        Ok(bytes) => read(alloc, &bytes),
        Err(e) => Err(fault(e)),
    }
}

// The record's bytes, read once it was synced.
fn durable_bytes<S: Site>(alloc: Global, site: &mut S) -> Result<Vec<u8>, SiteErr>
    ensures frame { Syncs S.tells Record (part_cause Record result)
        (S.view site.old) (S.view site.new) }
    ensures bytes { S.tells ≡ true → IfOk result
        (λ bytes. bytes.items ≡ (S.view site.old).told.notes) }
    ensures log { S.tells ≡ true → LogsSynced result (S.view site.old).told.notes
        (S.view site.old).log (S.view site.new).log }
{
    let len = match site.record_len(alloc) {
        Ok(len) => len,
        Err(e) => return Err(e),
    };
    match site.record_sync(alloc) {
        Ok(()) => {}
        Err(e) => return Err(e),
    }
    site.record_read(alloc, 0, len as usize)
}

/// The answer where a call on the record gave this error.
pub(crate) fn fault(e: SiteErr) -> RecordErr
    ensures { result ≡ fault_of e }
{
    match e {
        SiteErr::Failed => RecordErr::RecordFault,
        SiteErr::NoMemory => RecordErr::NoMemory,
    }
}
