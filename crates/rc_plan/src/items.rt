//! The items of rows with their decisions.

ghost use Rattle.std.specs.Prelude.{◌≡◌, ◌++◌, IfOk, OnOk, option_map};
ghost use Rattle.std.specs.List.{filter_map, zip};
ghost use Rattle.std.specs.Option.{option_copied, option_to_list};
ghost use Rattle.rc_class.specs.Class.{class_against};
ghost use Rattle.rc_filter.specs.Acts.{grain_of};
ghost use Rattle.rc_plan.specs.Deciding.{extra_item, pair_item, source_item};
ghost use Rattle.rc_plan.specs.Found.{facts_found};
ghost use Rattle.rc_plan.specs.Settled.{settled_item};

use crate::decisions::Decision;
use crate::entries::{Found, facts_found};
use crate::pairs::Pair;
use crate::rows::Row;
use rc_class::{Class, Item, class_of};
use rc_filter::grain;
use rc_job::Job;
use rc_tree::NoMemory;
use std::alloc::Global;
use std::collections::VecDeque;

/// The items of rows, where these are their decisions. A row without one has no item.
pub(crate) fn make_items(
    alloc: Global,
    job: &Job,
    rows: Vec<Row>,
    decisions: VecDeque<Option<Decision>>,
) -> Result<Vec<Item>, NoMemory>
    ensures { IfOk result (λ items.
        items.items ≡ filter_map (settled_item job.now) (zip rows.items decisions.items)) }
{
    let mut items = Vec::new(alloc);
    let mut left = VecDeque::from(rows);
    let mut decisions = decisions;
    'rows: loop {
        match (left.pop_front(), decisions.pop_front()) {
            (Some(row), Some(decision)) => {
                if push_some(&mut items, settled_item(job, row, decision)).is_err() {
                    return Err(NoMemory);
                }
            }
            _ => return Ok(items),
        }
    }
}

fn push_some(items: &mut Vec<Item>, item: Option<Item>) -> Result<(), NoMemory>
    ensures { OnOk result (items.new.items ≡ items.old.items ++ option_to_list item) }
{
    match item {
        Some(item) => match items.push(item) {
            Ok(()) => Ok(()),
            Err(_) => Err(NoMemory),
        },
        None => Ok(()),
    }
}

fn settled_item(job: &Job, row: Row, decision: Option<Decision>) -> Option<Item>
    ensures { result ≡ settled_item job.now (row, decision) }
{
    match decision {
        Some(decision) => Some(pair_item(job, decision, row.pair)),
        None => None,
    }
}

fn pair_item(job: &Job, decision: Decision, pair: Pair) -> Item
    ensures { result ≡ pair_item job.now decision pair }
{
    match pair {
        Pair::Source { source, target } => source_item(job, decision, source, target.as_ref()),
        Pair::Extra { target } => extra_item(decision, target),
    }
}

// The item of an entry that the source has.
fn source_item(job: &Job, decision: Decision, source: Found, target: Option<&Found>) -> Item
    ensures { result ≡ source_item job.now decision source (option_copied target.entry) }
{
    let class = class_against(job, &source, target);
    let facts = facts_found(&source);
    let Found { path, .. } = source;
    Item {
        path,
        act: decision.act,
        class,
        after: decision.after,
        facts,
    }
}

fn class_against(job: &Job, source: &Found, target: Option<&Found>) -> Class
    ensures { result ≡ class_against (grain_of job.now) (facts_found source.now)
        (option_map facts_found (option_copied target.entry)) }
{
    let there = target.map(facts_found);
    class_of(Some(facts_found(source)), there, grain(job)).unwrap_or(Class::Lonely)
}

// The item of an entry that the target alone has.
fn extra_item(decision: Decision, target: Found) -> Item
    ensures { result ≡ extra_item decision target }
{
    let facts = facts_found(&target);
    let Found { path, .. } = target;
    Item {
        path,
        act: decision.act,
        class: Class::Extra,
        after: decision.after,
        facts,
    }
}
