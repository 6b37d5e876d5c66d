//! The decisions of rows, from the last one up: those of what lies below a directory stand right behind it.

ghost use Rattle.std.specs.Prelude.{◌≡◌, IfOk};
ghost use Rattle.std.specs.Option.{option_copied};
ghost use Rattle.rc_plan.specs.Settled.{decisions_of, is_copied, is_moved, is_purged, leads_to, next_where, settled_from, stays_in_source, stays_on_target};

use crate::decisions::{Below, Decision, decide_row};
use crate::pairs::{Pair, pair_path, source_kind, target_kind};
use crate::rows::Row;
use rc_class::{Act, After};
use rc_job::Job;
use rc_tree::{Moment, NoMemory, Path};
use std::alloc::Global;
use std::collections::VecDeque;

/// What is decided of each row; none of one that is not decided.
pub(crate) fn settle(
    alloc: Global,
    job: &Job,
    moment: &Moment,
    rows: &[Row],
) -> Result<VecDeque<Option<Decision>>, NoMemory>
    ensures { IfOk result (λ decisions.
        decisions.items ≡ decisions_of (settled_from job.now moment.now rows.now)) }
{
    let mut decisions = VecDeque::new(alloc);
    let mut left = rows;
    // The first rows behind that are copied, stay on the target and stay in the source.
    let mut copied: Option<&Path> = None;
    let mut on_target: Option<&Path> = None;
    let mut in_source: Option<&Path> = None;
    'rows: loop {
        match left {
            [] => return Ok(decisions),
            [rest @ .., row] => {
                let path = pair_path(&row.pair);
                let below = Below {
                    some_copied: leads_to(path, copied),
                    all_purged: !leads_to(path, on_target),
                    all_moved: !leads_to(path, in_source),
                };
                let decision = decide_row(job, moment, below, row);
                if decisions.push_front(decision).is_err() {
                    return Err(NoMemory);
                }
                copied = next_where(is_copied(decision), path, copied);
                on_target = next_where(stays_on_target(&row.pair, decision), path, on_target);
                in_source = next_where(stays_in_source(&row.pair, decision), path, in_source);
                left = rest;
            }
        }
    }
}

fn leads_to(path: &Path, later: Option<&Path>) -> bool
    ensures { result ≡ leads_to path.now (option_copied later.entry) }
{
    match later {
        Some(later) => later.cmp_front(path.names().len(), path).is_eq(),
        None => false,
    }
}

// A path where a test holds there, or that of a later row where it does.
fn next_where<'a>(holds: bool, path: &'a Path, later: Option<&'a Path>) -> Option<&'a Path>
    ensures { option_copied result ≡ next_where holds path.now (option_copied later.entry) }
{
    if holds { Some(path) } else { later }
}

fn is_copied(decision: Option<Decision>) -> bool
    ensures { result ≡ is_copied decision }
{
    match decision {
        Some(decision) => decision.act.is_copy(),
        None => false,
    }
}

fn is_purged(decision: Option<Decision>) -> bool
    ensures { result ≡ is_purged decision }
{
    match decision {
        Some(decision) => decision.act == Act::Purge,
        None => false,
    }
}

fn is_moved(decision: Option<Decision>) -> bool
    ensures { result ≡ is_moved decision }
{
    match decision {
        Some(decision) => decision.after == After::RemoveSource,
        None => false,
    }
}

// Whether the target has an entry that is not removed.
fn stays_on_target(pair: &Pair, decision: Option<Decision>) -> bool
    ensures { result ≡ stays_on_target pair.now decision }
{
    target_kind(pair).is_some() && !is_purged(decision)
}

// Whether the source has one.
fn stays_in_source(pair: &Pair, decision: Option<Decision>) -> bool
    ensures { result ≡ stays_in_source pair.now decision }
{
    source_kind(pair).is_some() && !is_moved(decision)
}
