//! The plan of a job on the two whole trees of a site, within the limits.
//!
//! Both sides are read whole, paired key by key and decided: scope going forwards, and the decisions, which ask for what
//! becomes of all that lies below a directory, going backwards. No tree is changed.

ghost use Rattle.std.specs.Prelude.{◌≡◌, true, None, IfErr, IfOk, OnOk};
ghost use Rattle.rc_class.specs.Start.{IsPlanOf};
ghost use Rattle.rc_volume.specs.Frames.{Looks};
ghost use Rattle.rc_volume.specs.Waits.{Waits};
ghost use Rattle.rc_plan.specs.Plan.{limit_in, plan_cause, plan_with, start_in, AreTrees, IsMadeFor, MayRefuse};

use crate::entries::ListErr;
use crate::limits::check_limits;
use crate::sides::decide_site;
use rc_class::{Item, Items, Plan};
use rc_filter::{copies_bytes, plans_have_the_planned_items};
use rc_job::Job;
use rc_tree::{Moment, Path, Text};
use rc_volume::{Clock, Side, Site};
use std::alloc::Global;
use thiserror::Error;

/// Why there is no plan. The causes are looked for in this order, and want of memory may come in place of any.
#[derive(Debug, Drop, Error)]
pub enum PlanErr {
    /// A directory of this side could not be listed, however often that was tried. That side's count of faults rose at
    /// each try.
    #[error("a directory could not be listed")]
    ListFault { side: Side },
    /// This side has more than 500000 decided entries: at least `count`.
    #[error("a side has too many entries")]
    TooMany { side: Side, count: u64 },
    /// This file would be copied, and has more than 2^40 bytes: `size`. Of several, the one with the least key.
    #[error("a file is too big")]
    TooBig { path: Path, size: u64 },
    #[error("out of memory")]
    NoMemory,
}

/// The plan of a job on the two trees of a site, at a moment. No tree is changed. A listing that fails is tried again as
/// often as the job says, with its wait before each retry.
pub fn make_plan<S: Site, C: Clock>(
    alloc: Global,
    job: &Job,
    moment: Moment,
    site: &mut S,
    clock: &mut C,
) -> Result<Plan, PlanErr>
    ensures plan { S.tells ≡ true →
        IfOk result (IsPlanOf (start_in job.now (S.view site.old).told)) }
    ensures trees { S.tells ≡ true → OnOk result (AreTrees (S.view site.old).told) }
    ensures within { S.tells ≡ true →
        OnOk result (limit_in job.now (S.view site.old).told moment ≡ None) }
    ensures refused { S.tells ≡ true →
        IfErr result (MayRefuse (limit_in job.now (S.view site.old).told moment)) }
    // On every site, told or not.
    ensures made { IfOk result (IsMadeFor job.now moment) }
    ensures frame { Looks S.tells (plan_cause job.now.retries result)
        (S.view site.old) (S.view site.new) }
    ensures waits { Waits job.now.wait (plan_cause job.now.retries result)
        (S.view site.old).faults (S.view site.new).faults
        (C.paused clock.old) (C.paused clock.new) }
    ensures no_pause { job.now.retries ≡ 0 → C.paused clock.new ≡ C.paused clock.old }
    ensures clock { C.tells ≡ true → C.always clock.new ≡ C.always clock.old }
    ensures last { C.last clock.new ≡ C.last clock.old }
    ensures unread { C.reads clock.new ≡ C.reads clock.old }
{
    plans_have_the_planned_items();
    match decide_site(alloc, job, moment, site, clock) {
        Ok(items) => match check_limits(alloc, copies_bytes(job), &items) {
            Ok(()) => Ok(plan_of(alloc, job, moment, items)),
            Err(e) => Err(e),
        },
        Err(ListErr::Failed { side }) => Err(PlanErr::ListFault { side }),
        Err(ListErr::NoMemory) => Err(PlanErr::NoMemory),
    }
}

// The plan that has these items.
fn plan_of(alloc: Global, job: &Job, moment: Moment, items: Vec<Item>) -> Plan
    ensures { result ≡ plan_with job.now moment items.items }
{
    Plan {
        job: Text::empty(alloc),
        moment,
        stride: 0,
        with_bytes: copies_bytes(job),
        items: Items::new(items),
    }
}
