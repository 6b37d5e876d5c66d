//! The run of a drill, on a site in memory of which calls may fail.

ghost use Rattle.std.specs.Prelude.{◌≡◌, ◌⊎◌, ◌≤◌, ◌&&◌, ◌==◌, List, length, IfOk, OnOk};
ghost use Rattle.rc_tree.specs.declared.moment.TheConstants.{GREATEST_MOMENT};
ghost use Rattle.rc_mem.specs.MemSite.{IsFreshSite, seen_by, told_by};
ghost use Rattle.rc_volume.specs.Site.{Told};
ghost use Rattle.rc_drillwords.specs.declared.reading.FailingCall.{FailingCall};
ghost use Rattle.rc_drillwords.specs.declared.reading.FailingReads.{FailingReads};
ghost use Rattle.rc_failing.specs.Failing.{seen_failing};
ghost use Rattle.rc_failing.specs.Named.{NamesCall};
ghost use Rattle.rc_jobfiles.specs.Ask.{texts};
ghost use Rattle.drill.specs.Drilling.{EndsBy};
ghost use Rattle.drill.specs.Finishing.{end_of, start_at};
ghost use Rattle.drill.specs.Runs.{Ends, IsSetUp, MayEnd, NamesAllReads, NamesCalls};

use rc_drillwords::{Asked, FailingCall, FailingReads};
use rc_failing::FailingSite;
use rc_mem::{FixedClock, MemJobs, MemSink, MemSite};
use rc_run::{Outcome, mirror_alone};
use rc_tree::NoMemory;
use std::alloc::Global;

/// How a run over a site in memory ended, and what it reported.
#[derive(Drop)]
pub(crate) struct Finished {
    pub(crate) report: MemSink,
    pub(crate) outcome: Outcome,
    pub(crate) site: MemSite,
}

/// Mirrors a site, of which the calls and reads fail that are asked for. What the run reports is kept.
pub(crate) fn mirror(
    alloc: Global,
    asked: &Asked,
    site: MemSite,
    moment: u64,
    jobs: &mut MemJobs,
) -> Result<Finished, NoMemory>
    requires moment { moment ≤ GREATEST_MOMENT }
    requires fresh { IsFreshSite (told_by site) (seen_by site) }
    ensures { IfOk result (λ finished. EndsBy asked.now.calls.items asked.now.reads.items
        (texts asked.now.words.items) (start_at (told_by site) moment jobs.old)
        (end_of finished jobs.new)) }
{
    if fails_nowhere(asked) {
        Ok(mirror_whole(alloc, &asked.words, site, moment, jobs))
    } else {
        mirror_failing(alloc, asked, site, moment, jobs)
    }
}

// Whether no call and no read is to fail.
fn fails_nowhere(asked: &Asked) -> bool
    ensures { result ≡ (length asked.now.calls.items == 0) && (length asked.now.reads.items == 0) }
{
    asked.calls.is_empty() && asked.reads.is_empty()
}

// Mirrors a site of which nothing fails.
// (The one goal takes ten of the clauses of `mirror_alone`, each by its name. Search over all of them takes minutes.)
#[tactic(none)]
fn mirror_whole(
    alloc: Global,
    words: &[String],
    site: MemSite,
    moment: u64,
    jobs: &mut MemJobs,
) -> Finished
    requires { moment ≤ GREATEST_MOMENT }
    ensures { Ends (texts words.now) (start_at (told_by site) moment jobs.old)
        (end_of result jobs.new) }
{
    let mut report = MemSink::new(alloc);
    let mut clock = FixedClock::new(moment);
    let ended = mirror_alone(alloc, words, site, jobs, &mut report, &mut clock);
    Finished {
        report,
        outcome: ended.outcome,
        site: ended.site,
    }
}

// Mirrors a site of which the calls and reads fail that are asked for.
fn mirror_failing(
    alloc: Global,
    asked: &Asked,
    site: MemSite,
    moment: u64,
    jobs: &mut MemJobs,
) -> Result<Finished, NoMemory>
    requires moment { moment ≤ GREATEST_MOMENT }
    requires fresh { IsFreshSite (told_by site) (seen_by site) }
    ensures { IfOk result (λ finished. MayEnd asked.now.calls.items asked.now.reads.items
        (texts asked.now.words.items) (start_at (told_by site) moment jobs.old)
        (end_of finished jobs.new)) }
{
    match failing_site(alloc, asked, site) {
        Ok(failing) => Ok(mirror_set_up(alloc, &asked.words, failing, moment, jobs)),
        Err(e) => Err(e),
    }
}

// Mirrors a site of which calls and reads are named that fail.
#[tactic(none)]
fn mirror_set_up(
    alloc: Global,
    words: &[String],
    site: FailingSite,
    moment: u64,
    jobs: &mut MemJobs,
) -> Finished
    requires { moment ≤ GREATEST_MOMENT }
    ensures { (calls : List FailingCall) (reads : List FailingReads) (start : Told) →
        IsSetUp calls reads start site →
        MayEnd calls reads (texts words.now) (start_at start moment jobs.old)
        (end_of result jobs.new) }
{
    let mut report = MemSink::new(alloc);
    let mut clock = FixedClock::new(moment);
    let ended = mirror_alone(alloc, words, site, jobs, &mut report, &mut clock);
    Finished {
        report,
        outcome: ended.outcome,
        site: ended.site.behind,
    }
}

// The site, with the calls and reads named that are asked for.
fn failing_site(alloc: Global, asked: &Asked, site: MemSite) -> Result<FailingSite, NoMemory>
    requires { IsFreshSite (told_by site) (seen_by site) }
    ensures { IfOk result
        (IsSetUp asked.now.calls.items asked.now.reads.items (told_by site)) }
{
    let mut failing = FailingSite::new(alloc, site);
    name_calls(&asked.calls, &mut failing)?;
    name_reads(alloc, &asked.reads, &mut failing)?;
    Ok(failing)
}

fn name_calls(calls: &[FailingCall], site: &mut FailingSite) -> Result<(), NoMemory>
    ensures named { OnOk result (NamesCalls calls.now site.old.named site.new.named) }
    ensures seen { seen_failing site.new ≡ seen_failing site.old }
{
    let mut rest = calls;
    'calls: while let [first, later @ ..] = rest {
        match name_call(first, site) {
            Ok(()) => rest = later,
            Err(e) => return Err(e),
        }
    }
    Ok(())
}

fn name_call(call: &FailingCall, site: &mut FailingSite) -> Result<(), NoMemory>
    ensures named { OnOk result
        (NamesCall call.now.part call.now.number site.old.named site.new.named) }
    ensures seen { seen_failing site.new ≡ seen_failing site.old }
{
    site.fail_call(call.part, call.number)
}

fn name_reads(alloc: Global, reads: &[FailingReads], site: &mut FailingSite) -> Result<(), NoMemory>
    ensures named { OnOk result (NamesAllReads reads.now site.old.named site.new.named) }
    ensures seen { seen_failing site.new ≡ seen_failing site.old }
{
    let mut rest = reads;
    'reads: while let [first, later @ ..] = rest {
        match site.fail_reads(alloc, &first.path, first.times) {
            Ok(()) => rest = later,
            Err(e) => return Err(e),
        }
    }
    Ok(())
}
