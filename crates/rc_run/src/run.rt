//! The steps of a run, in their order.

ghost use Rattle.std.specs.Prelude.{◌≡◌, ◌⊎◌, ◌+◌, ◌<◌, ◌≤◌, ◌++◌, ◌∷◌, ℕ, true, false, [], None, Some, chars, option_map, IfOk, IfErr, OnOk, min};
ghost use Rattle.rc_class.specs.Start.{IsPlanOf};
ghost use Rattle.rc_copy.specs.Copying.{copies_any};
ghost use Rattle.rc_copy.specs.Reading.{wants_of};
ghost use Rattle.rc_filter.specs.Acts.{copies_bytes};
ghost use Rattle.rc_jobfiles.specs.Ask.{texts};
ghost use Rattle.rc_jobfiles.specs.Resolving.{names_no_file};
ghost use Rattle.rc_plan.specs.Plan.{limit_in, start_in, AreTrees, IsMadeFor};
ghost use Rattle.rc_volume.specs.declared.site.Part.{Part};
ghost use Rattle.rc_volume.specs.Faults.{free, last_count, RoseBy};
ghost use Rattle.rc_volume.specs.Frames.{Binds, IsBound, Looks};
ghost use Rattle.rc_volume.specs.Streams.{AppendsFront};
ghost use Rattle.rc_volume.specs.Waits.{Waits};
ghost use Rattle.rc_run.specs.Answers.{bits_by, bits_in, copying_of, is_empty, report_by, reported, site_refusal, start_refusal, unplanned, Answers, IsExpected, IsInMode, IsNamed, IsOpened, IsSilentBefore, RunLeaves, Sends};
ghost use Rattle.rc_run.specs.Goal.{items_at, read_by, wants_in};
ghost use Rattle.rc_run.specs.Keeping.{Keeps, SavesNothing, ShowsJob};
ghost use Rattle.rc_run.specs.Mirroring.{Mirrors};
ghost use Rattle.rc_run.specs.Outcome.{at_words, at_copies, at_end, at_limits, at_listing, at_record, at_report, at_roots, cause_of, ending, first_step, is_reported, last_step, run_cause, Causes, CausesInSink, EndsAt, IfDone, IfReported, IsOrFault, CausesInStore, FailedBy, WaitsFor};
ghost use Rattle.rc_run.specs.Under.{ChangesTrees, IsLasting, ReleasesLast};
ghost use Rattle.rc_run.specs.Words.{asked, binding_of, root_text, AreKnown, IfRefused, IfRun, IfShown};

use crate::keeping::{ask, show};
use crate::trees::change_unless_listed;
use crate::{Outcome, Unbuilt};
use rc_class::Plan;
use rc_filter::plans_have_the_planned_items;
use rc_job::Job;
use rc_plan::{PlanErr, make_plan};
use rc_report::{bits, count_totals, report_to};
use rc_tree::{Moment, Text};
use rc_volume::{BindErr, Clock, JobStore, Sink, SinkErr, Site, SiteErr};
use std::alloc::Global;

/// How a run ended, with the site on which it ran.
#[derive(Debug, Drop)]
pub struct Ended<S> {
    pub site: S,
    pub outcome: Outcome,
}

/// Mirrors the source of a site onto its target, alone: with no threads and no locks. It returns.
///
/// The words are the two roots and switches behind them, with the job files that they name. Where the site tells its
/// trees, `Done` says that both are now the goals of the trees at the start, at every key, and that the report and the
/// bits are those of the same decisions; under `/L` nothing is changed, and `Listed` has the report and the bits of what
/// would be done. `/SAVE` keeps the job in the store, and `/QUIT` sends its text and ends with `Listed`.
/// Each fault comes only where the count of its part rose in this call. Words that are refused touch nothing.
///
/// A listing, and what makes, removes and changes entries, is tried again as often as the job says; a copy is not.
pub fn mirror_alone<S: Site, J: JobStore, K: Sink, C: Clock>(
    alloc: Global,
    words: &[String],
    site: S,
    jobs: &mut J,
    sink: &mut K,
    clock: &mut C,
) -> Ended<S>
    // Words that are refused.
    ensures refused { AreKnown J.tells (texts words.now) →
        IfRefused (asked (texts words.now) (J.files jobs.old))
        (λ refusal. IsOrFault refusal result.outcome) }
    ensures untouched { AreKnown J.tells (texts words.now) →
        IfRefused (asked (texts words.now) (J.files jobs.old)) (λ _.
        (result.site ≡ site) × (sink.new ≡ sink.old) × (clock.new ≡ clock.old)) }
    // Also where it is not known what they ask for, a refusal at the words and a fault of the store touch nothing.
    ensures stopped { last_step (ending result.outcome) ≤ at_words →
        (result.site ≡ site) × (sink.new ≡ sink.old) × (clock.new ≡ clock.old) }

    // What becomes of the store of job files.
    ensures kept { J.tells ≡ true →
        Keeps (asked (texts words.now) (J.files jobs.old)) result.outcome
        (J.files jobs.old) (J.files jobs.new) }
    ensures idle { names_no_file (texts words.now) ≡ true →
        SavesNothing (asked (texts words.now) (J.files jobs.old)) → jobs.new ≡ jobs.old }
    ensures store_cause { CausesInStore result.outcome (J.faults jobs.old) (J.faults jobs.new) }

    // Words that are accepted with `/QUIT`: the job is shown, and the site rests.
    ensures shown { AreKnown J.tells (texts words.now) →
        IfShown (asked (texts words.now) (J.files jobs.old)) (λ job.
        ShowsJob K.tells job result.outcome (K.received sink.old) (K.received sink.new)) }
    ensures rests { AreKnown J.tells (texts words.now) →
        IfShown (asked (texts words.now) (J.files jobs.old)) (λ _.
        (result.site ≡ site) × (clock.new ≡ clock.old)) }

    // Words that are accepted without it: what is answered, and what becomes of the site.
    ensures mirrors { AreKnown J.tells (texts words.now) →
        IfRun (asked (texts words.now) (J.files jobs.old)) (λ job.
        Mirrors S.tells K.tells job (C.last clock.new) result.outcome
        (S.view site) (S.view result.site)
        (K.received sink.old) (K.received sink.new)
        (C.paused clock.old) (C.paused clock.new)) }

    // Where nothing fails, each refusal comes where it is due, and else all is done.
    ensures complete { S.tells ≡ true → AreKnown J.tells (texts words.now) →
        ((part : Part) →
        RoseBy 1 ((S.view site).faults part) ((S.view result.site).faults part) → ⊥) →
        (RoseBy 1 (K.faults sink.old) (K.faults sink.new) → ⊥) →
        (RoseBy 1 (J.faults jobs.old) (J.faults jobs.new) → ⊥) →
        IsExpected
        (start_refusal (asked (texts words.now) (J.files jobs.old))
        (S.view site).told (C.last clock.new))
        result.outcome }

    // Whatever the words.
    ensures unopened { last_step (ending result.outcome) < at_copies →
        (S.view result.site).opened ≡ (S.view site).opened }
    ensures moment { IfDone result.outcome (λ _ moment. moment ≡ C.last clock.new) }
    ensures silent { last_step (ending result.outcome) < at_report →
        K.received sink.new ≡ K.received sink.old }
    ensures sink_cause { CausesInSink result.outcome (K.faults sink.old) (K.faults sink.new) }
    // The clock is read once, for a job that is run, and otherwise left alone.
    ensures clock { C.tells ≡ true → C.always clock.new ≡ C.always clock.old }
    ensures read { (C.reads clock.new ≡ min (C.reads clock.old + 1) last_count)
        ⊎ (clock.new ≡ clock.old) }
    ensures read_once { AreKnown J.tells (texts words.now) →
        IfRun (asked (texts words.now) (J.files jobs.old)) (λ _.
        at_roots ≤ first_step (ending result.outcome) →
        C.reads clock.new ≡ min (C.reads clock.old + 1) last_count) }
{
    let mut site = site;
    match ask(alloc, words, jobs) {
        Ok(accepted) if accepted.quit => {
            let outcome = show(alloc, &accepted.job, sink);
            Ended { site, outcome }
        }
        Ok(accepted) => {
            let outcome = run(alloc, &accepted.job, &mut site, sink, clock);
            Ended { site, outcome }
        }
        Err(outcome) => Ended { site, outcome },
    }
}

// The steps of a run behind its words.
fn run<S: Site, K: Sink, C: Clock>(
    alloc: Global,
    job: &Job,
    site: &mut S,
    sink: &mut K,
    clock: &mut C,
) -> Outcome
    ensures answers { Answers S.tells job.now
        (S.view site.old).told (C.last clock.new) result }
    ensures behind { at_words < last_step (ending result) }
    ensures cause { Causes job.now.retries result (S.view site.old) (S.view site.new) }
    ensures tried { S.tells ≡ true →
        copies_any (items_at job.now (S.view site.old).told (C.last clock.new)) ≡ false →
        FailedBy (job.now.retries + 1) result (S.view site.old) (S.view site.new) }
    ensures sink_cause { CausesInSink result (K.faults sink.old) (K.faults sink.new) }
    ensures leaves { S.tells ≡ true → RunLeaves job.now (C.last clock.new)
        (S.view site.old).told (S.view site.new).told result }
    ensures lasting { S.tells ≡ true → job.now.list_only ≡ false →
        at_report ≤ first_step (ending result) →
        IsLasting (items_at job.now (S.view site.old).told (C.last clock.new))
        (S.view site.new) }
    ensures listed { S.tells ≡ true → job.now.list_only ≡ true →
        (S.view site.new).log ≡ (S.view site.old).log }
    ensures in_order { S.tells ≡ true → ReleasesLast (copying_of job.now (C.last clock.new))
        (items_at job.now (S.view site.old).told (C.last clock.new))
        (S.view site.old) (S.view site.new) }
    ensures opened { S.tells ≡ true → IsOpened result
        (read_by job.now (C.last clock.new) (S.view site.old).told)
        (S.view site.old).opened (S.view site.new).opened }
    ensures unopened { last_step (ending result) < at_copies →
        (S.view site.new).opened ≡ (S.view site.old).opened }
    ensures bound { IsNamed result (binding_of job.now (C.last clock.new))
        (S.view site.old).bound (S.view site.new).bound }
    ensures bits { S.tells ≡ true →
        IfReported result
        (λ bits. bits ≡ bits_in job.now (S.view site.old).told (C.last clock.new)) }
    ensures moment { IfDone result (λ _ moment. moment ≡ C.last clock.new) }
    ensures sends { S.tells ≡ true → K.tells ≡ true →
        Sends job.now (C.last clock.new) (S.view site.old).told result
        (K.received sink.old) (K.received sink.new) }
    ensures silent { last_step (ending result) < at_report →
        K.received sink.new ≡ K.received sink.old }
    ensures reported { S.tells ≡ true →
        IsSilentBefore (K.received sink.old) (K.received sink.new)
        job.now (C.last clock.new) (S.view site.old).told (S.view site.new).told }
    ensures clock { C.tells ≡ true → C.always clock.new ≡ C.always clock.old }
    ensures read { C.reads clock.new ≡ min (C.reads clock.old + 1) last_count }
    ensures waits { WaitsFor job.now.wait job.now.retries result (S.view site.old) (S.view site.new)
        (C.paused clock.old) (C.paused clock.new) }
    ensures no_pause { job.now.retries ≡ 0 → C.paused clock.new ≡ C.paused clock.old }
{
    let moment = match start(alloc, job, site, clock) {
        Ok(moment) => moment,
        Err(e) => return e,
    };
    let plan = match plan(alloc, site, job, moment, clock) {
        Ok(plan) => plan,
        Err(e) => return e,
    };
    carry_out(alloc, site, sink, job, &plan, clock)
}

// Reads the clock, names the roots and looks that there is no record; under `/L` the record is not looked at.
fn start<S: Site, C: Clock>(
    alloc: Global,
    job: &Job,
    site: &mut S,
    clock: &mut C,
) -> Result<Moment, Outcome>
    ensures frame { Binds S.tells (run_cause job.now.retries result)
        (S.view site.old) (S.view site.new) }
    ensures bound { IsBound result (binding_of job.now (C.last clock.new))
        (S.view site.old).bound (S.view site.new).bound }
    ensures named { IfErr result (λ e. at_roots < first_step (ending e) →
        let binding = binding_of job.now (C.last clock.new) in
        (S.view site.new).bound ≡ (S.view site.old).bound ++ binding ∷ []) }
    ensures no_record { S.tells ≡ true → OnOk result
        (job.now.list_only ≡ false → (S.view site.old).told.notes ≡ []) }
    ensures ends { IfErr result (λ e. EndsAt at_roots at_record
        ((e ≡ Outcome.NotYet Unbuilt.Record) × (job.now.list_only ≡ false)
        × (S.tells ≡ true → is_empty (S.view site.old).told.notes ≡ false)) (ending e)) }
    ensures moment { IfOk result (λ moment. moment ≡ C.last clock.new) }
    ensures clock { C.tells ≡ true → C.always clock.new ≡ C.always clock.old }
    ensures read { C.reads clock.new ≡ min (C.reads clock.old + 1) last_count }
    ensures no_pause { C.paused clock.new ≡ C.paused clock.old }
{
    match bind(alloc, job, site, clock) {
        Ok(moment) if job.list_only => Ok(moment),
        Ok(moment) => match site.record_len(alloc) {
            Ok(0) => Ok(moment),
            Ok(_) => Err(Outcome::NotYet {
                what: Unbuilt::Record,
            }),
            Err(SiteErr::Failed) => Err(Outcome::RecordFault),
            Err(SiteErr::NoMemory) => Err(Outcome::NoMemory),
        },
        Err(e) => Err(e),
    }
}

// Reads the clock and names the roots.
fn bind<S: Site, C: Clock>(
    alloc: Global,
    job: &Job,
    site: &mut S,
    clock: &mut C,
) -> Result<Moment, Outcome>
    ensures frame { Binds S.tells (run_cause job.now.retries result)
        (S.view site.old) (S.view site.new) }
    ensures bound { IsBound result (binding_of job.now (C.last clock.new))
        (S.view site.old).bound (S.view site.new).bound }
    ensures ends { IfErr result (λ e. EndsAt at_roots at_roots ⊥ (ending e)) }
    ensures moment { IfOk result (λ moment. moment ≡ C.last clock.new) }
    ensures clock { C.tells ≡ true → C.always clock.new ≡ C.always clock.old }
    ensures read { C.reads clock.new ≡ min (C.reads clock.old + 1) last_count }
    ensures no_pause { C.paused clock.new ≡ C.paused clock.old }
{
    let moment = clock.moment();
    let (source, target) = (root_text(&job.source), root_text(&job.target));
    match site.bind(alloc, source, target, job.scan, moment) {
        Ok(()) => Ok(Moment::new(moment)),
        Err(BindErr::Failed { side }) => Err(Outcome::RootFault { side }),
        Err(BindErr::NoMemory) => Err(Outcome::NoMemory),
    }
}

// A root as a job names it; the empty text where it names none.
fn root_text(root: &Option<Text>) -> &str
    ensures { chars result.now ≡ root_text root.now }
{
    match root {
        Some(root) => root.text(),
        None => "",
    }
}

// Decides all keys.
fn plan<S: Site, C: Clock>(
    alloc: Global,
    site: &mut S,
    job: &Job,
    moment: Moment,
    clock: &mut C,
) -> Result<Plan, Outcome>
    ensures frame { Looks S.tells (run_cause job.now.retries result)
        (S.view site.old) (S.view site.new) }
    ensures waits { Waits job.now.wait (run_cause job.now.retries result)
        (S.view site.old).faults (S.view site.new).faults
        (C.paused clock.old) (C.paused clock.new) }
    ensures no_pause { job.now.retries ≡ 0 → C.paused clock.new ≡ C.paused clock.old }
    ensures clock { C.tells ≡ true → C.always clock.new ≡ C.always clock.old }
    ensures last { C.last clock.new ≡ C.last clock.old }
    ensures unread { C.reads clock.new ≡ C.reads clock.old }
    ensures plan { S.tells ≡ true →
        IfOk result (IsPlanOf (start_in job.now (S.view site.old).told)) }
    ensures trees { S.tells ≡ true → OnOk result (AreTrees (S.view site.old).told) }
    ensures within { S.tells ≡ true →
        OnOk result (limit_in job.now (S.view site.old).told moment ≡ None) }
    ensures ends { IfErr result (λ e. EndsAt at_listing at_limits (S.tells ≡ true →
        option_map unplanned (limit_in job.now (S.view site.old).told moment) ≡ Some e)
        (ending e)) }
    ensures made { IfOk result (IsMadeFor job.now moment) }
{
    match make_plan(alloc, job, moment, site, clock) {
        Ok(plan) => Ok(plan),
        Err(e) => Err(unplanned(e)),
    }
}

fn unplanned(e: PlanErr) -> Outcome
    ensures { result ≡ unplanned e }
{
    match e {
        PlanErr::ListFault { side } => Outcome::ListFault { side },
        PlanErr::TooMany { side, count } => Outcome::TooMany { side, count },
        PlanErr::TooBig { path, size } => Outcome::TooBig { path, size },
        PlanErr::NoMemory => Outcome::NoMemory,
    }
}

// Does what the plan says, unless it is to be listed alone, and writes the report.
fn carry_out<S: Site, K: Sink, C: Clock>(
    alloc: Global,
    site: &mut S,
    sink: &mut K,
    job: &Job,
    plan: &Plan,
    clock: &mut C,
) -> Outcome
    requires plan { S.tells ≡ true → IsPlanOf (start_in job.now (S.view site.old).told) plan.now }
    requires trees { S.tells ≡ true → AreTrees (S.view site.old).told }
    requires made { IsMadeFor job.now plan.now.moment plan.now }
    requires no_record { S.tells ≡ true → job.now.list_only ≡ false →
        (S.view site.old).told.notes ≡ [] }

    ensures frame { ChangesTrees S.tells (cause_of job.now.retries (ending result))
        (S.view site.old) (S.view site.new) }
    ensures sink_cause { CausesInSink result (K.faults sink.old) (K.faults sink.new) }
    ensures ends { EndsAt at_copies at_end ⊥ (ending result) }
    ensures tried { copies_any plan.now.items ≡ false →
        FailedBy (job.now.retries + 1) result (S.view site.old) (S.view site.new) }
    ensures leaves { S.tells ≡ true → RunLeaves job.now plan.now.moment
        (S.view site.old).told (S.view site.new).told result }
    ensures lasting { S.tells ≡ true → job.now.list_only ≡ false →
        at_report ≤ first_step (ending result) → IsLasting plan.now.items (S.view site.new) }
    ensures listed { S.tells ≡ true → job.now.list_only ≡ true →
        (S.view site.new).log ≡ (S.view site.old).log }
    ensures modes { IsInMode job.now result }
    ensures in_order { S.tells ≡ true →
        ReleasesLast (copying_of job.now plan.now.moment) plan.now.items
        (S.view site.old) (S.view site.new) }
    ensures opened { IsOpened result (wants_in job.now plan.now.items)
        (S.view site.old).opened (S.view site.new).opened }
    ensures items { S.tells ≡ true →
        plan.now.items ≡ items_at job.now (S.view site.old).told plan.now.moment }
    ensures bits { IfReported result (λ bits. bits ≡ bits_by plan.now) }
    ensures moment { IfDone result (λ _ moment. moment ≡ plan.now.moment) }
    ensures whole { K.tells ≡ true → is_reported (ending result) ≡ true →
        K.received sink.new ≡ K.received sink.old ++ report_by job.now plan.now }
    ensures front { K.tells ≡ true → AppendsFront
        (K.received sink.old) (report_by job.now plan.now) (K.received sink.new) }
    ensures silent { last_step (ending result) < at_report →
        K.received sink.new ≡ K.received sink.old }
    ensures reported { S.tells ≡ true →
        IsSilentBefore (K.received sink.old) (K.received sink.new)
        job.now plan.now.moment (S.view site.old).told (S.view site.new).told }
    ensures clock { C.tells ≡ true → C.always clock.new ≡ C.always clock.old }
    ensures last { C.last clock.new ≡ C.last clock.old }
    ensures unread { C.reads clock.new ≡ C.reads clock.old }
    ensures waits { WaitsFor job.now.wait job.now.retries result (S.view site.old) (S.view site.new)
        (C.paused clock.old) (C.paused clock.new) }
    ensures no_pause { job.now.retries ≡ 0 → C.paused clock.new ≡ C.paused clock.old }
{
    plans_have_the_planned_items();
    match change_unless_listed(alloc, site, job, plan, clock) {
        Ok(()) => write_report(alloc, sink, job, plan),
        Err(e) => e,
    }
}

// Writes the report of a plan: of what was done, or is to be listed.
fn write_report<K: Sink>(alloc: Global, sink: &mut K, job: &Job, plan: &Plan) -> Outcome
    ensures sink_cause { CausesInSink result (K.faults sink.old) (K.faults sink.new) }
    ensures ends { EndsAt at_report at_end ⊥ (ending result) }
    ensures no_fault { (retries : ℕ) → cause_of retries (ending result) ≡ free }
    ensures modes { IsInMode job.now result }
    ensures bits { IfReported result (λ bits. bits ≡ bits_by plan.now) }
    ensures moment { IfDone result (λ _ moment. moment ≡ plan.now.moment) }
    ensures whole { K.tells ≡ true → is_reported (ending result) ≡ true →
        K.received sink.new ≡ K.received sink.old ++ report_by job.now plan.now }
    ensures front { K.tells ≡ true → AppendsFront
        (K.received sink.old) (report_by job.now plan.now) (K.received sink.new) }
{
    match report_to(alloc, sink, job, plan, &[]) {
        Ok(()) => reported(job, bits(&count_totals(plan, &[])), plan.moment),
        Err(SinkErr::Failed) => Outcome::SinkFault,
        Err(SinkErr::NoMemory) => Outcome::NoMemory,
    }
}

// How a run ends whose report was written.
fn reported(job: &Job, bits: u8, moment: Moment) -> Outcome
    ensures { result ≡ reported job.now bits moment }
{
    if job.list_only {
        Outcome::Listed { bits }
    } else {
        Outcome::Done {
            bits,
            moment: moment.units(),
        }
    }
}
