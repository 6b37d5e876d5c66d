//! The pairs of two sides, each with whether the directory above it is gone into.
//!
//! Pairs stand in the order of their keys, so the directory above a pair is at or above the pair before. One number says
//! which of those directories are gone into: that of the names that lead through them.

ghost use Rattle.std.specs.Prelude.{◌≡◌, [], true, None, IfOk};
ghost use Rattle.rc_tree.specs.Path.{key_of};
ghost use Rattle.rc_tree.specs.Tree.{IsTree, Tree};
ghost use Rattle.rc_plan.specs.Pair.{are_pairs_rising, pair_at};
ghost use Rattle.rc_plan.specs.Rows.{ArePairsOf, AreRowsOf, are_rows_rising, is_inside, names_open, next_open, row_at, row_of};

use crate::pairs::{Pair, pair_path, source_kind, target_kind};
use rc_filter::{decisions_by_neighbours, in_scope};
use rc_job::Job;
use rc_tree::{Kind, NoMemory, Path};
use std::alloc::Global;
use std::collections::VecDeque;

/// A pair, and whether the directory above it is gone into.
#[derive(Debug, Drop)]
pub(crate) struct Row {
    pub(crate) pair: Pair,
    pub(crate) inside: bool,
}

/// The rows of pairs, in their order.
pub(crate) fn scope_pairs(alloc: Global, job: &Job, pairs: Vec<Pair>) -> Result<Vec<Row>, NoMemory>
    requires { are_pairs_rising pairs.items ≡ true }
    ensures rising { IfOk result (λ rows. are_rows_rising rows.items ≡ true) }
    ensures root { pair_at pairs.items [] ≡ None →
        IfOk result (λ rows. row_at rows.items [] ≡ None) }
    ensures scoped { (source target : Tree) →
        IsTree source → IsTree target → ArePairsOf source target pairs.items →
        IfOk result (λ rows. AreRowsOf job.now source target rows.items) }
{
    decisions_by_neighbours();
    let mut rows = Vec::new(alloc);
    let mut left = VecDeque::from(pairs);
    let mut depth = 0;
    'pairs: loop {
        match left.pop_front() {
            Some(pair) => {
                let next = next_open(job, depth, &pair);
                if rows.push(row_of(depth, pair)).is_err() {
                    return Err(NoMemory);
                }
                depth = next;
            }
            None => return Ok(rows),
        }
    }
}

// The row of a pair behind a path of which so many names lead through directories that are gone into.
fn row_of(depth: usize, pair: Pair) -> Row
    ensures { result ≡ row_of depth pair }
{
    let inside = is_inside(depth, pair_path(&pair));
    Row { pair, inside }
}

// How many names of a pair's path lead through directories that are gone into.
fn next_open(job: &Job, depth: usize, pair: &Pair) -> usize
    ensures { result ≡ next_open job.now depth pair.now }
{
    names_open(
        job,
        depth,
        pair_path(pair),
        source_kind(pair),
        target_kind(pair),
    )
}

fn names_open(
    job: &Job,
    depth: usize,
    path: &Path,
    source: Option<Kind>,
    target: Option<Kind>,
) -> usize
    ensures { result ≡ names_open job.now depth (key_of path.now) source target }
{
    let names = path.names().len();
    if !is_inside(depth, path) {
        depth
    } else if in_scope(job, path, source, target) {
        names
    } else {
        names.saturating_sub(1)
    }
}

// Whether the directory above a path is gone into.
fn is_inside(depth: usize, path: &Path) -> bool
    ensures { result ≡ is_inside depth (key_of path.now) }
{
    path.names().len().saturating_sub(1) <= depth
}
