//! What becomes of the source's entry of a key once its copy stands.

ghost use Rattle.std.specs.Prelude.{◌≡◌, Some};
ghost use Rattle.rc_tree.specs.declared.attr.Kind.TheVariants.{Dir};
ghost use Rattle.rc_tree.specs.Path.{key_of};
ghost use Rattle.rc_filter.specs.Releases.{after_act, directory_after, file_after, has_directory, is_make, moves_directories, moves_files};

use crate::scope::in_scope;
use rc_class::{Act, After};
use rc_job::{Job, Moving};
use rc_tree::{Kind, Path};

/// What becomes of an entry that the source has at a decided path, of this kind and act, where the target has that there.
/// `all_moved` says whether all that the source has below a directory is removed; it says nothing of a file.
pub fn decide_after(
    job: &Job,
    path: &Path,
    source: Kind,
    target: Option<Kind>,
    act: Act,
    all_moved: bool,
) -> After
    ensures { result ≡ after_act job.now (key_of path.now) source target act all_moved }
{
    match source {
        Kind::File => file_after(job, act),
        Kind::Dir => directory_after(job, path, target, act, all_moved),
    }
}

fn file_after(job: &Job, act: Act) -> After
    ensures { result ≡ file_after job.now act }
{
    if !act.is_copy() {
        After::Nothing
    } else if moves_files(job.moving) {
        After::RemoveSource
    } else if job.only_m {
        After::ClearArchive
    } else {
        After::Nothing
    }
}

fn moves_files(moving: Moving) -> bool
    ensures { result ≡ moves_files moving }
{
    moving != Moving::No
}

fn moves_directories(moving: Moving) -> bool
    ensures { result ≡ moves_directories moving }
{
    moving == Moving::All
}

// Of a directory, where all that the source has below it is removed or something stays.
fn directory_after(job: &Job, path: &Path, target: Option<Kind>, act: Act, all_moved: bool) -> After
    ensures { result ≡ directory_after job.now (key_of path.now) target act all_moved }
{
    let may_go = all_moved && moves_directories(job.moving);
    if may_go && has_directory(act, target) && in_scope(job, path, Some(Kind::Dir), target) {
        After::RemoveSource
    } else {
        After::Nothing
    }
}

// Whether the target has a directory in the end where the source has one.
fn has_directory(act: Act, target: Option<Kind>) -> bool
    ensures { result ≡ has_directory act target }
{
    target == Some(Kind::Dir) || is_make(act)
}

fn is_make(act: Act) -> bool
    ensures { result ≡ is_make act }
{
    act == Act::Make
}
