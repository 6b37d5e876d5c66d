//! A run over a site, with its end said to a sink of errors.

ghost use Rattle.std.specs.Prelude.{◌≡◌, ◌⊎◌, ◌++◌, ◌+◌, ◌<◌, ◌≤◌, true, min, OnOk, OnErr};
ghost use Rattle.rc_jobfiles.specs.Ask.{texts};
ghost use Rattle.rc_jobfiles.specs.Resolving.{names_no_file};
ghost use Rattle.rc_volume.specs.declared.site.Part.{Part};
ghost use Rattle.rc_volume.specs.Faults.{last_count, RisesIf, RoseBy};
ghost use Rattle.rc_volume.specs.Streams.{AppendsFront, sink_failed};
ghost use Rattle.rc_run.specs.Answers.{start_refusal, IsExpected};
ghost use Rattle.rc_run.specs.Keeping.{Keeps, SavesNothing, ShowsJob};
ghost use Rattle.rc_run.specs.Mirroring.{Mirrors};
ghost use Rattle.rc_run.specs.Outcome.{at_copies, at_report, at_roots, at_words, ending, first_step, is_reported, last_step, line_of, status_of, CausesInSink, CausesInStore, IfDone, IsOrFault};
ghost use Rattle.rc_run.specs.Words.{asked, AreKnown, IfRefused, IfRun, IfShown};
ghost use Rattle.robocopy.specs.Lines.{whole_line};

use crate::saying::say;
use rc_run::{Outcome, mirror_alone, status};
use rc_volume::{Clock, JobStore, Sink, SinkErr, Site};
use std::alloc::Global;

/// How a run ended, with the site on which it ran.
#[derive(Debug, Drop)]
pub struct Closed<S> {
    pub site: S,
    pub outcome: Outcome,
    /// The exit status: that of the outcome.
    pub status: u8,
    /// What the sink of errors answered to the outcome's line; `Ok` where it has none.
    pub said: Result<(), SinkErr>,
}

/// Mirrors the source of a site onto its target, as [`mirror_alone`] does of all these words, and sends the line of a refusal
/// or a fault, with a line end, to `errors`. Whatever `errors` answers, the status is that of the outcome.
pub fn robocopy_run<S: Site, J: JobStore, K: Sink, E: Sink, C: Clock + Sync>(
    alloc: Global,
    args: &[String],
    site: S,
    jobs: &mut J,
    out: &mut K,
    errors: &mut E,
    clock: &mut C,
) -> Closed<S>
    // Words that are refused.
    ensures refused { AreKnown J.tells (texts args.now) →
        IfRefused (asked (texts args.now) (J.files jobs.old))
        (λ refusal. IsOrFault refusal result.outcome) }
    ensures untouched { AreKnown J.tells (texts args.now) →
        IfRefused (asked (texts args.now) (J.files jobs.old)) (λ _.
        (result.site ≡ site) × (out.new ≡ out.old) × (clock.new ≡ clock.old)) }
    // Also where it is not known what they ask for, a refusal at the words and a fault of the store touch nothing.
    ensures stopped { last_step (ending result.outcome) ≤ at_words →
        (result.site ≡ site) × (out.new ≡ out.old) × (clock.new ≡ clock.old) }

    // What becomes of the store of job files.
    ensures kept { J.tells ≡ true →
        Keeps (asked (texts args.now) (J.files jobs.old)) result.outcome
        (J.files jobs.old) (J.files jobs.new) }
    ensures idle { names_no_file (texts args.now) ≡ true →
        SavesNothing (asked (texts args.now) (J.files jobs.old)) → jobs.new ≡ jobs.old }
    ensures store_cause { CausesInStore result.outcome (J.faults jobs.old) (J.faults jobs.new) }

    // Words that are accepted with `/QUIT`: the job is shown, and the site rests.
    ensures shown { AreKnown J.tells (texts args.now) →
        IfShown (asked (texts args.now) (J.files jobs.old)) (λ job.
        ShowsJob K.tells job result.outcome (K.received out.old) (K.received out.new)) }
    ensures rests { AreKnown J.tells (texts args.now) →
        IfShown (asked (texts args.now) (J.files jobs.old)) (λ _.
        (result.site ≡ site) × (clock.new ≡ clock.old)) }

    // Words that are accepted without it: what is answered, and what becomes of the site.
    ensures mirrors { AreKnown J.tells (texts args.now) →
        IfRun (asked (texts args.now) (J.files jobs.old)) (λ job.
        Mirrors S.tells K.tells job (C.last clock.new) result.outcome
        (S.view site) (S.view result.site)
        (K.received out.old) (K.received out.new)
        (C.paused clock.old) (C.paused clock.new)) }

    // Where nothing fails, each refusal comes where it is due, and else all is done. `errors` may fail meanwhile.
    ensures complete { S.tells ≡ true → AreKnown J.tells (texts args.now) →
        ((part : Part) →
        RoseBy 1 ((S.view site).faults part) ((S.view result.site).faults part) → ⊥) →
        (RoseBy 1 (K.faults out.old) (K.faults out.new) → ⊥) →
        (RoseBy 1 (J.faults jobs.old) (J.faults jobs.new) → ⊥) →
        IsExpected
        (start_refusal (asked (texts args.now) (J.files jobs.old))
        (S.view site).told (C.last clock.new))
        result.outcome }

    // Whatever the words.
    ensures unopened { last_step (ending result.outcome) < at_copies →
        (S.view result.site).opened ≡ (S.view site).opened }
    ensures moment { IfDone result.outcome (λ _ moment. moment ≡ C.last clock.new) }
    ensures silent { last_step (ending result.outcome) < at_report →
        K.received out.new ≡ K.received out.old }
    ensures sink_cause { CausesInSink result.outcome (K.faults out.old) (K.faults out.new) }
    // The clock is read once, for a job that is run, and otherwise left alone.
    ensures clock { C.tells ≡ true → C.always clock.new ≡ C.always clock.old }
    ensures read { (C.reads clock.new ≡ min (C.reads clock.old + 1) last_count)
        ⊎ (clock.new ≡ clock.old) }
    ensures read_once { AreKnown J.tells (texts args.now) →
        IfRun (asked (texts args.now) (J.files jobs.old)) (λ _.
        at_roots ≤ first_step (ending result.outcome) →
        C.reads clock.new ≡ min (C.reads clock.old + 1) last_count) }

    // What is answered of the outcome.
    ensures status { result.status ≡ status_of result.outcome }
    // What is said of it: its whole line, or a front of it where `errors` failed, which its count says, or memory was wanting.
    ensures said { E.tells ≡ true → OnOk result.said (E.received errors.new
        ≡ E.received errors.old ++ whole_line (line_of result.outcome)) }
    ensures said_front { E.tells ≡ true → OnErr result.said
        (AppendsFront (E.received errors.old) (whole_line (line_of result.outcome))
        (E.received errors.new)) }
    ensures said_cause { RisesIf (sink_failed result.said)
        (E.faults errors.old) (E.faults errors.new) }
    // Nothing is said at `Done` and at `Listed`.
    ensures unsaid { is_reported (ending result.outcome) ≡ true →
        (errors.new ≡ errors.old) × (result.said ≡ Ok tt) }
{
    let ended = mirror_alone(alloc, args, site, jobs, out, clock);
    let said = say(alloc, &ended.outcome, errors);
    let status = status(&ended.outcome);
    Closed {
        site: ended.site,
        outcome: ended.outcome,
        status,
        said,
    }
}
