//! The entries of two sides, paired key by key.

ghost use Rattle.std.specs.Prelude.{◌≡◌, true, IfOk};
ghost use Rattle.rc_plan.specs.Found.{are_rising};
ghost use Rattle.rc_plan.specs.Pair.{ArePaired, are_pairs_rising, behind, first_order, least, pair_of, pair_path, source_kind, target_kind};

use crate::entries::{Found, kind_found};
use rc_tree::{Kind, NoMemory, Path};
use std::alloc::Global;
use std::cmp::Ordering;
use std::collections::VecDeque;

/// What the two sides have at a key at which one of them has an entry.
#[derive(Debug, Drop)]
pub(crate) enum Pair {
    /// The source has one, and maybe the target too.
    Source {
        source: Found,
        target: Option<Found>,
    },
    /// The target alone has one.
    Extra {
        target: Found,
    },
}

/// The path of a pair: the source's where that has an entry.
pub(crate) fn pair_path(pair: &Pair) -> &Path
    ensures { result.now ≡ pair_path pair.now }
{
    match pair {
        Pair::Source { source, .. } => &source.path,
        Pair::Extra { target } => &target.path,
    }
}

/// What the source has at a pair's key.
pub(crate) fn source_kind(pair: &Pair) -> Option<Kind>
    ensures { result ≡ source_kind pair.now }
{
    match pair {
        Pair::Source { source, .. } => Some(kind_found(source)),
        Pair::Extra { .. } => None,
    }
}

/// And the target.
pub(crate) fn target_kind(pair: &Pair) -> Option<Kind>
    ensures { result ≡ target_kind pair.now }
{
    match pair {
        Pair::Source { target, .. } => match target {
            Some(target) => Some(kind_found(target)),
            None => None,
        },
        Pair::Extra { target } => Some(kind_found(target)),
    }
}

/// What two sides have at each key of either, in the order of keys.
pub(crate) fn pair_sides(
    alloc: Global,
    source: Vec<Found>,
    target: Vec<Found>,
) -> Result<Vec<Pair>, NoMemory>
    requires ours { are_rising source.items ≡ true }
    requires theirs { are_rising target.items ≡ true }
    ensures rising { IfOk result (λ pairs. are_pairs_rising pairs.items ≡ true) }
    ensures pairs { IfOk result (λ pairs. ArePaired source.items target.items pairs.items) }
{
    let mut pairs = Vec::new(alloc);
    let mut ours = VecDeque::from(source);
    let mut theirs = VecDeque::from(target);
    'keys: loop {
        match take_least(&mut ours, &mut theirs) {
            Some(pair) => {
                if pairs.push(pair).is_err() {
                    return Err(NoMemory);
                }
            }
            None => return Ok(pairs),
        }
    }
}

// Takes what the two sides have at the least key of both.
fn take_least(ours: &mut VecDeque<Found>, theirs: &mut VecDeque<Found>) -> Option<Pair>
    ensures taken { result
        ≡ pair_of (least ours.old.items theirs.old.items).0
        (least ours.old.items theirs.old.items).1 }
    ensures ours { ours.new.items
        ≡ behind (least ours.old.items theirs.old.items).0 ours.old.items }
    ensures theirs { theirs.new.items
        ≡ behind (least ours.old.items theirs.old.items).1 theirs.old.items }
{
    match first_order(ours, theirs) {
        Some(Ordering::Less) => pair_of(ours.pop_front(), None),
        Some(Ordering::Equal) => pair_of(ours.pop_front(), theirs.pop_front()),
        Some(Ordering::Greater) => pair_of(None, theirs.pop_front()),
        None => None,
    }
}

fn pair_of(source: Option<Found>, target: Option<Found>) -> Option<Pair>
    ensures { result ≡ pair_of source target }
{
    match (source, target) {
        (Some(source), target) => Some(Pair::Source { source, target }),
        (None, Some(target)) => Some(Pair::Extra { target }),
        (None, None) => None,
    }
}

// How the first keys of the two sides stand: a side without entries stands behind the other.
fn first_order(ours: &VecDeque<Found>, theirs: &VecDeque<Found>) -> Option<Ordering>
    ensures { result ≡ first_order ours.now.items theirs.now.items }
{
    match (ours.front(), theirs.front()) {
        (Some(source), Some(target)) => Some(source.path.cmp(&target.path)),
        (Some(_), None) => Some(Ordering::Less),
        (None, Some(_)) => Some(Ordering::Greater),
        (None, None) => None,
    }
}
