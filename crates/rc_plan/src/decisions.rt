//! What a job decides of a row, by what becomes of what lies below it.

ghost use Rattle.std.specs.Prelude.{◌≡◌, true, Some, option_map};
ghost use Rattle.std.specs.Option.{option_copied};
ghost use Rattle.rc_tree.specs.declared.attr.Kind.TheVariants.{Dir};
ghost use Rattle.rc_tree.specs.Path.{key_of};
ghost use Rattle.rc_filter.specs.Scope.{decides};
ghost use Rattle.rc_plan.specs.Deciding.{act_of_directory, extra_decision, row_decision, source_act, source_decision};
ghost use Rattle.rc_plan.specs.Found.{kind_found};

use crate::entries::{Found, facts_found, kind_found};
use crate::pairs::{Pair, pair_path, source_kind, target_kind};
use crate::rows::Row;
use rc_class::{Act, After};
use rc_filter::{decide_after, decide_dir, decide_extra, decide_file, is_decided};
use rc_job::Job;
use rc_tree::{Entry, Moment, Path};

/// What is decided of a key.
#[derive(Clone, Copy, Debug, PartialEq, Eq)]
pub(crate) struct Decision {
    pub(crate) act: Act,
    pub(crate) after: After,
}

/// What becomes of what lies below a key.
#[derive(Clone, Copy, Debug, PartialEq, Eq)]
pub(crate) struct Below {
    /// Some file is copied.
    pub(crate) some_copied: bool,
    /// All that the target has there is removed.
    pub(crate) all_purged: bool,
    /// All that the source has there is removed.
    pub(crate) all_moved: bool,
}

/// What is decided of a row; none where it is not decided.
pub(crate) fn decide_row(job: &Job, moment: &Moment, below: Below, row: &Row) -> Option<Decision>
    ensures { result ≡ row_decision job.now moment.now below row.now }
{
    let (source, target) = (source_kind(&row.pair), target_kind(&row.pair));
    if !is_decided(job, pair_path(&row.pair), source, target) || !row.inside {
        return None;
    }
    match &row.pair {
        Pair::Source { source, target } => Some(source_decision(
            job,
            moment,
            below,
            source,
            target.as_ref(),
        )),
        Pair::Extra { target } => Some(extra_decision(job, below, target)),
    }
}

// Of what the source has.
fn source_decision(
    job: &Job,
    moment: &Moment,
    below: Below,
    source: &Found,
    target: Option<&Found>,
) -> Decision
    requires { decides job.now (key_of source.now.path) (Some (kind_found source.now))
        (option_map kind_found (option_copied target)) ≡ true }
    ensures { result ≡ source_decision job.now moment.now below source.now
        (option_copied target.entry) }
{
    let act = source_act(job, moment, below.some_copied, source, target);
    let there = target.map(kind_found);
    let after = decide_after(
        job,
        &source.path,
        kind_found(source),
        there,
        act,
        below.all_moved,
    );
    Decision { act, after }
}

fn source_act(
    job: &Job,
    moment: &Moment,
    some_copied: bool,
    source: &Found,
    target: Option<&Found>,
) -> Act
    requires { decides job.now (key_of source.now.path) (Some (kind_found source.now))
        (option_map kind_found (option_copied target)) ≡ true }
    ensures { result ≡ source_act job.now moment.now some_copied source.now
        (option_copied target.entry) source.now.directory }
{
    match &source.directory {
        None => decide_file(
            job,
            *moment,
            &source.path,
            facts_found(source),
            target.map(facts_found),
        ),
        Some(directory) => act_of_directory(job, some_copied, &source.path, directory, target),
    }
}

// Of a directory of the source.
fn act_of_directory(
    job: &Job,
    some_copied: bool,
    path: &Path,
    directory: &Entry,
    target: Option<&Found>,
) -> Act
    requires { decides job.now (key_of path.now) (Some Dir)
        (option_map kind_found (option_copied target)) ≡ true }
    ensures { result ≡ act_of_directory job.now some_copied (key_of path.now) directory.now
        (option_copied target.entry) }
{
    match target {
        None => decide_dir(job, path, &directory.props, None, some_copied),
        Some(target) => match &target.directory {
            None => Act::Mismatch,
            Some(there) => decide_dir(job, path, &directory.props, Some(there), some_copied),
        },
    }
}

// Of what the target alone has.
fn extra_decision(job: &Job, below: Below, target: &Found) -> Decision
    requires { decides job.now (key_of target.now.path) None (Some (kind_found target.now)) ≡ true }
    ensures { result ≡ extra_decision job.now below target.now }
{
    Decision {
        act: decide_extra(job, &target.path, facts_found(target), below.all_purged),
        after: After::Nothing,
    }
}
