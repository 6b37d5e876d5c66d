//! Writing the record of a site: a plan, its gate, marks, and clearing.

ghost use Rattle.std.specs.Prelude.{◌≡◌, ◌⊎◌, ◌∷◌, [], true, length, IfOk};
ghost use Rattle.rc_class.specs.declared.noted.Noted.{Noted};
ghost use Rattle.rc_class.specs.declared.plan.Plan.{Plan};
ghost use Rattle.rc_volume.specs.declared.site.Part.TheVariants.{Record};
ghost use Rattle.rc_volume.specs.Faults.{part_cause};
ghost use Rattle.rc_volume.specs.Images.{AreOnlyNotes};
ghost use Rattle.rc_record.specs.Answers.{write_cause};
ghost use Rattle.rc_record.specs.Moments.{EachNow, EachSince, Grows};
ghost use Rattle.rc_record.specs.Spelling.{open_record, IsAllowed, IsWritable};
ghost use Rattle.rc_record.specs.Writing.{unmarked, with_mark, BeginsOpen, ChangesRecord, HasPlace, IsBegun, IsClearedImage, IsKept, IsMarkedBy, IsMarkedImage, IsOpened, ReadsLeft, StandsFor, StandsForNothing, StandsMarked};

use crate::durable::{close, cut_durably, write_behind, write_durably};
use crate::err::RecordErr;
use crate::loading::fault;
use crate::marks::{MarkPlace, mark_off};
use crate::spelling::body_of;
use rc_class::Plan;
use rc_volume::{Site, SiteErr};
use std::alloc::Global;

// What a gate or a mark is where it stands, and what is written where it does not.
const OPEN: [u8; 1] = [0xA5];

const CLOSED: [u8; 1] = [0];

/// Writes a plan with no mark under a gate that does not stand. The record is first one byte that makes it stand for
/// nothing, and stays so.
pub fn begin<S: Site>(alloc: Global, site: &mut S, plan: &Plan) -> Result<(), RecordErr>
    requires writable { IsWritable plan.now }
    ensures frame { ChangesRecord S.tells (write_cause result)
        (S.view site.old) (S.view site.new) }
    ensures log { S.tells ≡ true → Grows (S.view site.old).log (S.view site.new).log }
    ensures images { S.tells ≡ true → EachNow (S.view site.old).log StandsForNothing →
        EachSince (S.view site.new).log (length (S.view site.old).log) StandsForNothing }
    ensures begun { S.tells ≡ true → IfOk result (λ _. IsBegun plan.now (S.view site.new)) }
    ensures left { S.tells ≡ true → ReadsLeft (S.view site.old) → ReadsLeft (S.view site.new) }
{
    let body = match body_of(alloc, plan) {
        Ok(body) => body,
        Err(_) => return Err(RecordErr::NoMemory),
    };
    match write_closed(alloc, site, &body) {
        Ok(()) => Ok(()),
        Err(e) => Err(fault(e)),
    }
}

/// Opens the gate of the plan that `begin` wrote.
pub fn open_gate<S: Site>(alloc: Global, site: &mut S) -> Result<(), RecordErr>
    ensures frame { ChangesRecord S.tells (write_cause result)
        (S.view site.old) (S.view site.new) }
    ensures log { S.tells ≡ true → Grows (S.view site.old).log (S.view site.new).log }
    ensures images { S.tells ≡ true → (plan : Plan) → IsBegun plan (S.view site.old) →
        EachSince (S.view site.new).log (length (S.view site.old).log)
        (λ image. StandsForNothing image ⊎ StandsFor (unmarked plan) image) }
    ensures opened { S.tells ≡ true → (plan : Plan) → IsBegun plan (S.view site.old) →
        IfOk result (λ _. IsKept (open_record plan) (S.view site.new)
        × IsOpened plan (S.view site.new)) }
    ensures stands { S.tells ≡ true → (plan : Plan) → IsBegun plan (S.view site.old) →
        IfOk result (λ _. StandsFor (unmarked plan) (S.view site.new).told.notes) }
    ensures left { S.tells ≡ true → ReadsLeft (S.view site.old) → ReadsLeft (S.view site.new) }
{
    match write_durably(alloc, site, 0, &OPEN) {
        Ok(()) => Ok(()),
        Err(e) => Err(fault(e)),
    }
}

/// Marks a unit, a copied file, or that all is done on the target, in the open record of this plan.
pub fn mark<S: Site>(
    alloc: Global,
    site: &mut S,
    plan: &Plan,
    place: MarkPlace,
) -> Result<(), RecordErr>
    requires allowed { IsAllowed plan.now }
    requires place { HasPlace plan.now place }
    requires opened { S.tells ≡ true → IsOpened plan.now (S.view site.old) }
    ensures frame { ChangesRecord S.tells (write_cause result)
        (S.view site.old) (S.view site.new) }
    ensures log { S.tells ≡ true → Grows (S.view site.old).log (S.view site.new).log }
    ensures images { S.tells ≡ true →
        EachSince (S.view site.new).log (length (S.view site.old).log)
        (IsMarkedImage plan.now place (S.view site.old).log) }
    ensures stands { S.tells ≡ true →
        EachSince (S.view site.new).log (length (S.view site.old).log)
        (StandsMarked place (S.view site.old).log) }
    ensures adds { S.tells ≡ true → (note : Noted) →
        StandsFor note (S.view site.old).told.notes → IfOk result (λ _.
        StandsFor (with_mark place true note) (S.view site.new).told.notes) }
    ensures marked { S.tells ≡ true → IfOk result (λ _. IsMarkedBy plan.now place 0xA5
        (S.view site.old).told.notes (S.view site.new).told.notes) }
    ensures only { S.tells ≡ true → IfOk result (λ _.
        AreOnlyNotes (S.view site.new).log (S.view site.new).told.notes) }
    ensures opened { S.tells ≡ true → IsOpened plan.now (S.view site.new) }
{
    match write_durably(alloc, site, mark_off(plan, place), &OPEN) {
        Ok(()) => Ok(()),
        Err(e) => Err(fault(e)),
    }
}

/// Empties the record. Its gate is closed before anything is cut, so that no plan is left that was never written.
pub fn clear<S: Site>(alloc: Global, site: &mut S) -> Result<(), RecordErr>
    ensures frame { ChangesRecord S.tells (write_cause result)
        (S.view site.old) (S.view site.new) }
    ensures log { S.tells ≡ true → Grows (S.view site.old).log (S.view site.new).log }
    ensures images { S.tells ≡ true →
        EachNow (S.view site.old).log BeginsOpen →
        EachSince (S.view site.new).log (length (S.view site.old).log)
        (IsClearedImage (S.view site.old).log) }
    ensures empty { S.tells ≡ true → IfOk result (λ _. IsKept [] (S.view site.new)) }
    ensures left { S.tells ≡ true → ReadsLeft (S.view site.old) → ReadsLeft (S.view site.new) }
{
    match close_and_cut(alloc, site) {
        Ok(()) => Ok(()),
        Err(e) => Err(fault(e)),
    }
}

// One byte that makes the record stand for nothing, and then all that comes behind it.
fn write_closed<S: Site>(alloc: Global, site: &mut S, body: &[u8]) -> Result<(), SiteErr>
    ensures frame { ChangesRecord S.tells (part_cause Record result)
        (S.view site.old) (S.view site.new) }
    ensures log { S.tells ≡ true → Grows (S.view site.old).log (S.view site.new).log }
    ensures images { S.tells ≡ true → EachNow (S.view site.old).log StandsForNothing →
        EachSince (S.view site.new).log (length (S.view site.old).log) StandsForNothing }
    ensures written { S.tells ≡ true → IfOk result
        (λ _. IsKept (0 ∷ body.now) (S.view site.new)) }
    ensures left { S.tells ≡ true → ReadsLeft (S.view site.old) → ReadsLeft (S.view site.new) }
{
    match close(alloc, site) {
        Ok(()) => write_behind(alloc, site, body),
        Err(e) => Err(e),
    }
}

// Closes the gate, cuts all behind it, and then the gate.
fn close_and_cut<S: Site>(alloc: Global, site: &mut S) -> Result<(), SiteErr>
    ensures frame { ChangesRecord S.tells (part_cause Record result)
        (S.view site.old) (S.view site.new) }
    ensures log { S.tells ≡ true → Grows (S.view site.old).log (S.view site.new).log }
    ensures images { S.tells ≡ true →
        EachNow (S.view site.old).log BeginsOpen →
        EachSince (S.view site.new).log (length (S.view site.old).log)
        (IsClearedImage (S.view site.old).log) }
    ensures empty { S.tells ≡ true → IfOk result (λ _. IsKept [] (S.view site.new)) }
    ensures left { S.tells ≡ true → ReadsLeft (S.view site.old) → ReadsLeft (S.view site.new) }
{
    match write_durably(alloc, site, 0, &CLOSED) {
        Ok(()) => {}
        Err(e) => return Err(e),
    }
    match cut_durably(alloc, site, 1) {
        Ok(()) => cut_durably(alloc, site, 0),
        Err(e) => Err(e),
    }
}
