//! A drill: what its arguments ask for, a mirror over a site in memory, and the report, the status and the site at the
//! end out.

ghost use Rattle.std.specs.Prelude.{◌≡◌, ◌⊎◌, ◌+◌, ◌<◌, ◌≤◌, ℕ, List, None, true, drop, IfOk};
ghost use Rattle.std.specs.Option.{is_some};
ghost use Rattle.rc_tree.specs.declared.moment.TheConstants.{GREATEST_MOMENT};
ghost use Rattle.rc_volume.specs.Faults.{RoseBy};
ghost use Rattle.rc_mem.specs.MemSite.{IsFreshSite, seen_by, told_by};
ghost use Rattle.rc_drillwords.specs.Asking.{IsAsked, first_bad, spellings};
ghost use Rattle.drill.specs.declared.begin.TheConstants.{GREATEST_TEXT};
ghost use Rattle.drill.specs.Drilling.{Drills, OfSome, ReadsInput, WritesOne};
ghost use Rattle.drill.specs.Finishing.{EndsAsked, ShowsAsked, end_of, start_of};

use crate::begin::begin;
use crate::mirror::mirror;
use crate::output::{Printing, refuse, refuse_argument, write_finished};
use rc_drillwords::{ArgumentErr, Asked, read_arguments};
use rc_sitetext::SiteFile;
use rc_tree::NoMemory;
use rc_volume::{Input, Sink};
use std::alloc::Global;

/// Takes the drill's own words out of the arguments, reads a site text or generates a site, runs a mirror over it with the
/// words that are left, and writes the report, the line of a refusal or a fault, the status, and the site text of the end
/// or its digest. It answers the exit status: that of the run, 16 where an argument or the text is refused, the input can't
/// be read, or something can't be written, and 32 where memory runs out.
pub fn drill_run<I: Input, K: Sink>(
    alloc: Global,
    args: &[String],
    input: &mut I,
    out: &mut K,
) -> u8
    ensures drilled { I.tells ≡ true → K.tells ≡ true → Drills
        (RoseBy 1 (I.faults input.old) (I.faults input.new))
        (RoseBy 1 (K.faults out.old) (K.faults out.new))
        (spellings args.now) (I.rest input.old)
        (K.received out.old) (K.received out.new) result }
    // On inputs and outputs that do not tell too: it is a drill of some text with some output.
    ensures answered { OfSome I.tells (I.rest input.old) (λ text.
        OfSome K.tells (K.received out.new) (λ new. Drills
        (RoseBy 1 (I.faults input.old) (I.faults input.new))
        (RoseBy 1 (K.faults out.old) (K.faults out.new))
        (spellings args.now) text (K.received out.old) new result)) }
    // Where the input is read: to its end, or past the greatest length by one byte.
    ensures read { I.tells ≡ true → ReadsInput (spellings args.now) →
        (RoseBy 1 (I.faults input.old) (I.faults input.new) → ⊥) →
        (result ≡ 32 → ⊥) → I.rest input.new ≡ drop (GREATEST_TEXT + 1) (I.rest input.old) }
    ensures no_further { I.tells ≡ true → (n : ℕ) × (n ≤ GREATEST_TEXT + 1)
        × (I.rest input.new ≡ drop n (I.rest input.old)) }
    // And else not at all.
    ensures unread { (ReadsInput (spellings args.now) → ⊥) → input.new ≡ input.old }
    ensures input_counts { I.faults input.old ≤ I.faults input.new }
    ensures output_counts { K.faults out.old ≤ K.faults out.new }
    // Of every output: where it failed, that is answered.
    ensures output_fault { K.faults out.old < K.faults out.new → result ≡ 16 }
{
    match read_arguments(alloc, args) {
        Ok(asked) => drill_asked(alloc, &asked, input, out),
        Err(ArgumentErr::Bad { place }) => refuse_argument(alloc, place, out),
        Err(ArgumentErr::NoMemory) => 32,
    }
}

// Reads or generates the site, and runs on it.
fn drill_asked<I: Input, K: Sink>(alloc: Global, asked: &Asked, input: &mut I, out: &mut K) -> u8
    ensures answered { (args : List (List ℕ)) → first_bad args ≡ None → IsAsked args asked.now →
        OfSome I.tells (I.rest input.old) (λ text.
        OfSome K.tells (K.received out.new) (λ new. Drills
        (RoseBy 1 (I.faults input.old) (I.faults input.new))
        (RoseBy 1 (K.faults out.old) (K.faults out.new))
        args text (K.received out.old) new result)) }
    ensures read { I.tells ≡ true → asked.now.number ≡ None →
        (RoseBy 1 (I.faults input.old) (I.faults input.new) → ⊥) →
        (result ≡ 32 → ⊥) → I.rest input.new ≡ drop (GREATEST_TEXT + 1) (I.rest input.old) }
    ensures no_further { I.tells ≡ true → (n : ℕ) × (n ≤ GREATEST_TEXT + 1)
        × (I.rest input.new ≡ drop n (I.rest input.old)) }
    ensures unread { is_some asked.now.number ≡ true → input.new ≡ input.old }
    ensures input_counts { I.faults input.old ≤ I.faults input.new }
    ensures output_counts { K.faults out.old ≤ K.faults out.new }
    ensures output_fault { K.faults out.old < K.faults out.new → result ≡ 16 }
{
    match begin(alloc, asked.number, input) {
        Ok(file) => run_file(alloc, asked, file, out),
        Err(stop) => refuse(alloc, stop, out),
    }
}

// Mirrors the site of a file, and writes how that ended.
fn run_file<K: Sink>(alloc: Global, asked: &Asked, file: SiteFile, out: &mut K) -> u8
    requires moment { file.moment ≤ GREATEST_MOMENT }
    requires fresh { IsFreshSite (told_by file.site) (seen_by file.site) }
    ensures written { OfSome K.tells (K.received out.new) (λ new.
        WritesOne (ShowsAsked asked.now (start_of file))
        (RoseBy 1 (K.faults out.old) (K.faults out.new)) (K.received out.old) new result
        ⊎ ((new ≡ K.received out.old) × (result ≡ 32))) }
    ensures counts { K.faults out.old ≤ K.faults out.new }
    ensures fault { K.faults out.old < K.faults out.new → result ≡ 16 }
{
    match finish(alloc, asked, file) {
        Ok(printing) => write_finished(alloc, out, &printing),
        Err(NoMemory) => 32,
    }
}

// Mirrors the site of a file.
fn finish(alloc: Global, asked: &Asked, file: SiteFile) -> Result<Printing, NoMemory>
    requires moment { file.moment ≤ GREATEST_MOMENT }
    requires fresh { IsFreshSite (told_by file.site) (seen_by file.site) }
    ensures ends { IfOk result (λ printing.
        EndsAsked asked.now (start_of file) (end_of printing.finished printing.jobs)) }
    ensures digests { IfOk result (λ printing. printing.digests ≡ is_some asked.now.number) }
    ensures moment { IfOk result (λ printing. printing.moment ≡ file.moment) }
{
    let SiteFile {
        site,
        moment,
        mut jobs,
    } = file;
    match mirror(alloc, asked, site, moment, &mut jobs) {
        Ok(finished) => Ok(Printing {
            digests: asked.number.is_some(),
            moment,
            jobs,
            finished,
        }),
        Err(e) => Err(e),
    }
}
