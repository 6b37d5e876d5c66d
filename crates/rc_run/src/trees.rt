//! The trees of a run are changed: directories are made and what is to be purged is removed, then files are copied, then
//! properties given, and behind all of that what the plan says is done to the source.

ghost use Rattle.std.specs.Prelude.{◌≡◌, ◌+◌, true, false, IfErr, OnOk};
ghost use Rattle.rc_class.specs.Items.{are_rising};
ghost use Rattle.rc_class.specs.Start.{IsPlanOf};
ghost use Rattle.rc_copy.specs.Copying.{copies_any, readied, AddsWants, CopiesFiles, Rests};
ghost use Rattle.rc_copy.specs.Reading.{wants_of};
ghost use Rattle.rc_filter.specs.Acts.{copies_bytes};
ghost use Rattle.rc_finish.specs.Calls.{finish_cause};
ghost use Rattle.rc_finish.specs.Passes.{has_any, is_purge, AreBelowRoot, AreFit, HasPassed, IsPassing};
ghost use Rattle.rc_plan.specs.Plan.{start_in, AreTrees, IsMadeFor};
ghost use Rattle.rc_volume.specs.declared.site.Side.TheVariants.{Target};
ghost use Rattle.rc_volume.specs.Frames.{ChangesSide};
ghost use Rattle.rc_volume.specs.Images.{IsOnlyTree};
ghost use Rattle.rc_volume.specs.Waits.{Waits};
ghost use Rattle.rc_run.specs.Answers.{copying_of, uncopied, unfinished};
ghost use Rattle.rc_run.specs.Goal.{wants_in};
ghost use Rattle.rc_run.specs.Outcome.{at_copies, ending, run_cause, EndsAt, FailedBy};
ghost use Rattle.rc_run.specs.Under.{AreReleased, AreReleasing, AreUnderWay, ChangesTrees, HaveGoals, IsLasting, IsLastingOn, ReleasesLast};

use crate::Outcome;
use rc_class::Plan;
use rc_copy::{CopyErr, Copying, copy_files, files_follow_their_directories};
use rc_filter::{decided_items, rules};
use rc_finish::{
    FinishErr, a_freed_source_has_its_goal, a_pass_is_durable, a_plan_fits, make_dirs, props_pass,
    purge, release_sources, trees_on_their_way_fit,
};
use rc_job::Job;
use rc_volume::{Clock, Site};
use std::alloc::Global;

/// Does what the plan of a job says, or nothing where it is to be listed alone.
pub(crate) fn change_unless_listed<S: Site, C: Clock>(
    alloc: Global,
    site: &mut S,
    job: &Job,
    plan: &Plan,
    clock: &mut C,
) -> Result<(), Outcome>
    requires plan { S.tells ≡ true → IsPlanOf (start_in job.now (S.view site.old).told) plan.now }
    requires trees { S.tells ≡ true → AreTrees (S.view site.old).told }
    requires made { IsMadeFor job.now plan.now.moment plan.now }

    ensures frame { ChangesTrees S.tells (run_cause job.now.retries result)
        (S.view site.old) (S.view site.new) }
    ensures ends { IfErr result (λ e. EndsAt at_copies at_copies ⊥ (ending e)) }
    ensures tried { copies_any plan.now.items ≡ false → IfErr result
        (λ e. FailedBy (job.now.retries + 1) e (S.view site.old) (S.view site.new)) }
    ensures listed { S.tells ≡ true → job.now.list_only ≡ true →
        Rests (S.view site.old) (S.view site.new) }
    ensures goals { S.tells ≡ true → job.now.list_only ≡ false → OnOk result
        (HaveGoals (copying_of job.now plan.now.moment) plan.now.items
        (S.view site.old).told (S.view site.new).told.target) }
    ensures released { S.tells ≡ true → job.now.list_only ≡ false → OnOk result
        (AreReleased plan.now.items (S.view site.old).told (S.view site.new).told.source) }
    ensures under_way { S.tells ≡ true →
        AreUnderWay (copying_of job.now plan.now.moment) plan.now.items
        (S.view site.old).told (S.view site.new).told.target }
    ensures releasing { S.tells ≡ true →
        AreReleasing plan.now.items (S.view site.old).told (S.view site.new).told.source }
    ensures in_order { S.tells ≡ true →
        ReleasesLast (copying_of job.now plan.now.moment) plan.now.items
        (S.view site.old) (S.view site.new) }
    ensures lasting { S.tells ≡ true → job.now.list_only ≡ false →
        OnOk result (IsLasting plan.now.items (S.view site.new)) }
    ensures opened { AddsWants result (wants_in job.now plan.now.items)
        (S.view site.old).opened (S.view site.new).opened }
    ensures clock { C.tells ≡ true → C.always clock.new ≡ C.always clock.old }
    ensures last { C.last clock.new ≡ C.last clock.old }
    ensures unread { C.reads clock.new ≡ C.reads clock.old }
    ensures waits { Waits job.now.wait (run_cause job.now.retries result)
        (S.view site.old).faults (S.view site.new).faults
        (C.paused clock.old) (C.paused clock.new) }
    ensures no_pause { job.now.retries ≡ 0 → C.paused clock.new ≡ C.paused clock.old }
{
    if job.list_only {
        return Ok(());
    }
    change_trees(alloc, site, job, plan, clock)
}

// Does what the plan of a job says, to the target and then to the source. No entry of the source is removed or changed
// before all that the target gets stands there and is durable.
fn change_trees<S: Site, C: Clock>(
    alloc: Global,
    site: &mut S,
    job: &Job,
    plan: &Plan,
    clock: &mut C,
) -> Result<(), Outcome>
    requires plan { S.tells ≡ true → IsPlanOf (start_in job.now (S.view site.old).told) plan.now }
    requires trees { S.tells ≡ true → AreTrees (S.view site.old).told }
    requires made { IsMadeFor job.now plan.now.moment plan.now }

    ensures frame { ChangesTrees S.tells (run_cause job.now.retries result)
        (S.view site.old) (S.view site.new) }
    ensures ends { IfErr result (λ e. EndsAt at_copies at_copies ⊥ (ending e)) }
    ensures tried { copies_any plan.now.items ≡ false → IfErr result
        (λ e. FailedBy (job.now.retries + 1) e (S.view site.old) (S.view site.new)) }
    ensures goals { S.tells ≡ true → OnOk result
        (HaveGoals (copying_of job.now plan.now.moment) plan.now.items
        (S.view site.old).told (S.view site.new).told.target) }
    ensures released { S.tells ≡ true → OnOk result
        (AreReleased plan.now.items (S.view site.old).told (S.view site.new).told.source) }
    ensures under_way { S.tells ≡ true →
        AreUnderWay (copying_of job.now plan.now.moment) plan.now.items
        (S.view site.old).told (S.view site.new).told.target }
    ensures releasing { S.tells ≡ true →
        AreReleasing plan.now.items (S.view site.old).told (S.view site.new).told.source }
    ensures in_order { S.tells ≡ true →
        ReleasesLast (copying_of job.now plan.now.moment) plan.now.items
        (S.view site.old) (S.view site.new) }
    ensures lasting { S.tells ≡ true → OnOk result (IsLasting plan.now.items (S.view site.new)) }
    ensures opened { AddsWants result (wants_of 0 (copies_bytes job.now) plan.now.items)
        (S.view site.old).opened (S.view site.new).opened }
    ensures clock { C.tells ≡ true → C.always clock.new ≡ C.always clock.old }
    ensures last { C.last clock.new ≡ C.last clock.old }
    ensures unread { C.reads clock.new ≡ C.reads clock.old }
    ensures waits { Waits job.now.wait (run_cause job.now.retries result)
        (S.view site.old).faults (S.view site.new).faults
        (C.paused clock.old) (C.paused clock.new) }
    ensures no_pause { job.now.retries ≡ 0 → C.paused clock.new ≡ C.paused clock.old }
{
    decided_items();
    a_plan_fits();
    trees_on_their_way_fit();
    a_freed_source_has_its_goal();
    a_pass_is_durable();
    match change_target(alloc, site, job, plan, clock) {
        Ok(()) => match release_sources(alloc, site, plan, job.retries, job.wait, clock) {
            Ok(()) => Ok(()),
            Err(e) => Err(unfinished(e)),
        },
        Err(e) => Err(e),
    }
}

// Does what the plan says to the target: each directory is made before what stands in it, what is to be purged is
// removed, files are copied, and then properties are given from the last key to the first.
fn change_target<S: Site, C: Clock>(
    alloc: Global,
    site: &mut S,
    job: &Job,
    plan: &Plan,
    clock: &mut C,
) -> Result<(), Outcome>
    requires plan { S.tells ≡ true → IsPlanOf (start_in job.now (S.view site.old).told) plan.now }
    requires trees { S.tells ≡ true → AreTrees (S.view site.old).told }
    requires made { IsMadeFor job.now plan.now.moment plan.now }

    ensures frame { CopiesFiles S.tells (run_cause job.now.retries result)
        (S.view site.old) (S.view site.new) }
    ensures ends { IfErr result (λ e. EndsAt at_copies at_copies ⊥ (ending e)) }
    ensures tried { copies_any plan.now.items ≡ false → IfErr result
        (λ e. FailedBy (job.now.retries + 1) e (S.view site.old) (S.view site.new)) }
    ensures goals { S.tells ≡ true → OnOk result
        (HaveGoals (copying_of job.now plan.now.moment) plan.now.items
        (S.view site.old).told (S.view site.new).told.target) }
    ensures under_way { S.tells ≡ true →
        AreUnderWay (copying_of job.now plan.now.moment) plan.now.items
        (S.view site.old).told (S.view site.new).told.target }
    ensures lasting { S.tells ≡ true → OnOk result (IsLastingOn Target plan.now.items
        (S.view site.new).log (S.view site.new).told.target) }
    ensures opened { AddsWants result (wants_of 0 (copies_bytes job.now) plan.now.items)
        (S.view site.old).opened (S.view site.new).opened }
    ensures clock { C.tells ≡ true → C.always clock.new ≡ C.always clock.old }
    ensures last { C.last clock.new ≡ C.last clock.old }
    ensures unread { C.reads clock.new ≡ C.reads clock.old }
    ensures waits { Waits job.now.wait (run_cause job.now.retries result)
        (S.view site.old).faults (S.view site.new).faults
        (C.paused clock.old) (C.paused clock.new) }
    ensures no_pause { job.now.retries ≡ 0 → C.paused clock.new ≡ C.paused clock.old }
{
    decided_items();
    a_plan_fits();
    files_follow_their_directories();
    a_pass_is_durable();
    let copying = Copying {
        rules: rules(job),
        with_bytes: plan.with_bytes,
        moment: plan.moment,
    };
    match ready_target(alloc, site, plan, job.retries, job.wait, clock) {
        Ok(()) => match copy_files(alloc, site, &copying, plan.items.items()) {
            Ok(()) => match props_pass(
                alloc,
                site,
                plan,
                rules(job),
                job.retries,
                job.wait,
                clock,
            ) {
                Ok(()) => Ok(()),
                Err(e) => Err(unfinished(e)),
            },
            Err(e) => Err(uncopied(e)),
        },
        Err(e) => Err(unfinished(e)),
    }
}

// Makes directories in the target, and removes what is to be purged.
fn ready_target<S: Site, C: Clock>(
    alloc: Global,
    site: &mut S,
    plan: &Plan,
    retries: u32,
    wait: u32,
    clock: &mut C,
) -> Result<(), FinishErr>
    requires rising { are_rising plan.now.items ≡ true }
    requires below { AreBelowRoot plan.now.items }
    requires fit { S.tells ≡ true → AreFit plan.now.items (S.view site.old).told }

    ensures frame { ChangesSide S.tells Target (finish_cause retries result)
        (S.view site.old) (S.view site.new) }
    ensures readied { S.tells ≡ true → OnOk result (HasPassed readied plan.now.items
        (S.view site.old).told (S.view site.new).told.target) }
    ensures between { S.tells ≡ true → IsPassing readied plan.now.items
        (S.view site.old).told (S.view site.new).told.target }
    ensures durable { S.tells ≡ true → OnOk result (has_any is_purge plan.now.items ≡ true →
        IsOnlyTree Target (S.view site.new).log (S.view site.new).told.target) }
    ensures clock { C.tells ≡ true → C.always clock.new ≡ C.always clock.old }
    ensures last { C.last clock.new ≡ C.last clock.old }
    ensures unread { C.reads clock.new ≡ C.reads clock.old }
    ensures waits { Waits wait (finish_cause retries result)
        (S.view site.old).faults (S.view site.new).faults
        (C.paused clock.old) (C.paused clock.new) }
    ensures no_pause { retries ≡ 0 → C.paused clock.new ≡ C.paused clock.old }
{
    trees_on_their_way_fit();
    a_pass_is_durable();
    match make_dirs(alloc, site, plan, retries, wait, clock) {
        Ok(()) => purge(alloc, site, plan, retries, wait, clock),
        Err(e) => Err(e),
    }
}

fn unfinished(e: FinishErr) -> Outcome
    ensures { result ≡ unfinished e }
{
    match e {
        FinishErr::SiteFault { side } => Outcome::SiteFault { side },
        FinishErr::NoMemory => Outcome::NoMemory,
    }
}

fn uncopied(e: CopyErr) -> Outcome
    ensures { result ≡ uncopied e }
{
    match e {
        CopyErr::Failed { side } => Outcome::SiteFault { side },
        CopyErr::NoMemory => Outcome::NoMemory,
    }
}
