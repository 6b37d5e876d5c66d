//! The items of all keys that a job decides on the two sides of a site.

ghost use Rattle.std.specs.Prelude.{◌≡◌, [], true, None, IfOk, OnOk};
ghost use Rattle.rc_tree.specs.Tree.{IsTree, Tree};
ghost use Rattle.rc_class.specs.Items.{are_rising, item_at};
ghost use Rattle.rc_volume.specs.Frames.{Looks};
ghost use Rattle.rc_volume.specs.Waits.{Waits};
ghost use Rattle.rc_plan.specs.Deciding.{AreDecided};
ghost use Rattle.rc_plan.specs.Faults.{list_cause};
ghost use Rattle.rc_plan.specs.Found.{AreAllOf, are_rising as are_found_rising, found_at};
ghost use Rattle.rc_plan.specs.Pair.{are_pairs_rising, pair_at};
ghost use Rattle.rc_plan.specs.Plan.{AreTrees};
ghost use Rattle.rc_plan.specs.Rows.{ArePairsOf};

use crate::entries::{Found, ListErr, read_side};
use crate::items::make_items;
use crate::pairs::{Pair, pair_sides};
use crate::rows::scope_pairs;
use crate::settling::settle;
use rc_class::Item;
use rc_filter::decisions_by_neighbours;
use rc_job::Job;
use rc_tree::{Moment, NoMemory};
use rc_volume::{Clock, Side, Site};
use std::alloc::Global;

/// The items of all keys that a job decides on the two sides of a site, in the order of keys.
pub(crate) fn decide_site<S: Site, C: Clock>(
    alloc: Global,
    job: &Job,
    moment: Moment,
    site: &mut S,
    clock: &mut C,
) -> Result<Vec<Item>, ListErr>
    ensures decided { S.tells ≡ true → IfOk result (λ items.
        AreDecided job.now (S.view site.old).told.source (S.view site.old).told.target
        moment items.items) }
    ensures trees { S.tells ≡ true → OnOk result (AreTrees (S.view site.old).told) }
    // On every site, told or not.
    ensures rising { IfOk result (λ items. are_rising items.items ≡ true) }
    ensures root { IfOk result (λ items. item_at items.items [] ≡ None) }
    ensures frame { Looks S.tells (list_cause job.now.retries result)
        (S.view site.old) (S.view site.new) }
    ensures waits { Waits job.now.wait (list_cause job.now.retries result)
        (S.view site.old).faults (S.view site.new).faults
        (C.paused clock.old) (C.paused clock.new) }
    ensures no_pause { job.now.retries ≡ 0 → C.paused clock.new ≡ C.paused clock.old }
    ensures clock { C.tells ≡ true → C.always clock.new ≡ C.always clock.old }
    ensures last { C.last clock.new ≡ C.last clock.old }
    ensures unread { C.reads clock.new ≡ C.reads clock.old }
{
    match read_sides(alloc, job, site, clock) {
        Ok((source, target)) => match decide_sides(alloc, job, moment, source, target) {
            Ok(items) => Ok(items),
            Err(_) => Err(ListErr::NoMemory),
        },
        Err(e) => Err(e),
    }
}

// All entries of both sides, each in the order of keys.
fn read_sides<S: Site, C: Clock>(
    alloc: Global,
    job: &Job,
    site: &mut S,
    clock: &mut C,
) -> Result<(Vec<Found>, Vec<Found>), ListErr>
    ensures source { S.tells ≡ true →
        IfOk result (λ sides. AreAllOf (S.view site.old).told.source sides.0.items) }
    ensures target { S.tells ≡ true →
        IfOk result (λ sides. AreAllOf (S.view site.old).told.target sides.1.items) }
    ensures trees { S.tells ≡ true → OnOk result (AreTrees (S.view site.old).told) }
    ensures ours { IfOk result (λ sides. are_found_rising sides.0.items ≡ true) }
    ensures theirs { IfOk result (λ sides. are_found_rising sides.1.items ≡ true) }
    ensures our_root { IfOk result (λ sides. found_at sides.0.items [] ≡ None) }
    ensures their_root { IfOk result (λ sides. found_at sides.1.items [] ≡ None) }
    ensures frame { Looks S.tells (list_cause job.now.retries result)
        (S.view site.old) (S.view site.new) }
    ensures waits { Waits job.now.wait (list_cause job.now.retries result)
        (S.view site.old).faults (S.view site.new).faults
        (C.paused clock.old) (C.paused clock.new) }
    ensures no_pause { job.now.retries ≡ 0 → C.paused clock.new ≡ C.paused clock.old }
    ensures clock { C.tells ≡ true → C.always clock.new ≡ C.always clock.old }
    ensures last { C.last clock.new ≡ C.last clock.old }
    ensures unread { C.reads clock.new ≡ C.reads clock.old }
{
    match read_side(alloc, job, site, Side::Source, clock) {
        Ok(source) => match read_side(alloc, job, site, Side::Target, clock) {
            Ok(target) => Ok((source, target)),
            Err(e) => Err(e),
        },
        Err(e) => Err(e),
    }
}

// The items of all keys that a job decides, where the two sides have these entries.
fn decide_sides(
    alloc: Global,
    job: &Job,
    moment: Moment,
    source: Vec<Found>,
    target: Vec<Found>,
) -> Result<Vec<Item>, NoMemory>
    requires ours { are_found_rising source.items ≡ true }
    requires theirs { are_found_rising target.items ≡ true }
    requires our_root { found_at source.items [] ≡ None }
    requires their_root { found_at target.items [] ≡ None }
    ensures rising { IfOk result (λ items. are_rising items.items ≡ true) }
    ensures root { IfOk result (λ items. item_at items.items [] ≡ None) }
    ensures decided { (ours theirs : Tree) → IsTree ours → IsTree theirs →
        AreAllOf ours source.items → AreAllOf theirs target.items →
        IfOk result (λ items. AreDecided job.now ours theirs moment items.items) }
{
    match pair_sides(alloc, source, target) {
        Ok(pairs) => match decide_pairs(alloc, job, moment, pairs) {
            Ok(items) => Ok(items),
            Err(e) => Err(e),
        },
        Err(e) => Err(e),
    }
}

// The items of all keys that a job decides, where the two sides have these pairs.
fn decide_pairs(
    alloc: Global,
    job: &Job,
    moment: Moment,
    pairs: Vec<Pair>,
) -> Result<Vec<Item>, NoMemory>
    requires { are_pairs_rising pairs.items ≡ true }
    ensures rising { IfOk result (λ items. are_rising items.items ≡ true) }
    ensures root { pair_at pairs.items [] ≡ None →
        IfOk result (λ items. item_at items.items [] ≡ None) }
    ensures decided { (source target : Tree) →
        IsTree source → IsTree target → ArePairsOf source target pairs.items →
        IfOk result (λ items. AreDecided job.now source target moment items.items) }
{
    decisions_by_neighbours();
    match scope_pairs(alloc, job, pairs) {
        Ok(rows) => match settle(alloc, job, &moment, &rows) {
            Ok(decisions) => match make_items(alloc, job, rows, decisions) {
                Ok(items) => Ok(items),
                Err(e) => Err(e),
            },
            Err(e) => Err(e),
        },
        Err(e) => Err(e),
    }
}
