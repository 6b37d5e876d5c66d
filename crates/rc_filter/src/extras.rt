//! What is done with entries that the target alone has.

ghost use Rattle.std.specs.Prelude.{◌≡◌, ◌⊎◌, true};
ghost use Rattle.rc_tree.specs.declared.attr.Kind.TheVariants.{File};
ghost use Rattle.rc_tree.specs.Path.{key_of};
ghost use Rattle.rc_filter.specs.Acts.{extra_act, extra_directory_act, extra_file_act};
ghost use Rattle.rc_filter.specs.Scope.{reaches};

use crate::matching::{is_excluded_directory, is_excluded_file, is_named};
use rc_class::{Act, Facts, Reason};
use rc_job::Job;
use rc_tree::{Kind, Path};

/// What a job does with what the target alone has at a decided path. `all_purged` says whether all that it has below a
/// directory is removed; it says nothing of a file.
pub fn decide_extra(job: &Job, path: &Path, target: Facts, all_purged: bool) -> Act
    requires { (target.kind ≡ File) ⊎ (reaches job.now (key_of path.now) ≡ true) }
    ensures { result ≡ extra_act job.now (key_of path.now) target.kind all_purged }
{
    if job.xx {
        return Act::Keep(Reason::Class);
    }
    match target.kind {
        Kind::File => extra_file_act(job, path),
        Kind::Dir => extra_directory_act(job, path, all_purged),
    }
}

fn extra_file_act(job: &Job, path: &Path) -> Act
    ensures { result ≡ extra_file_act job.now (key_of path.now) }
{
    if is_excluded_file(job, path) {
        Act::Keep(Reason::Excluded)
    } else if !is_named(job, path) {
        if job.all_extras {
            Act::Extra
        } else {
            Act::Keep(Reason::NotNamed)
        }
    } else if job.purge {
        Act::Purge
    } else {
        Act::Extra
    }
}

fn extra_directory_act(job: &Job, path: &Path, all_purged: bool) -> Act
    ensures { result ≡ extra_directory_act job.now (key_of path.now) all_purged }
{
    if is_excluded_directory(job, path) {
        Act::Keep(Reason::Excluded)
    } else if all_purged && job.purge {
        Act::Purge
    } else {
        Act::Extra
    }
}
