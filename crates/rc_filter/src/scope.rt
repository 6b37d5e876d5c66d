//! Which directories a run goes into, and which keys it decides.

ghost use Rattle.std.specs.Prelude.{◌≡◌, length};
ghost use Rattle.rc_tree.specs.Path.{key_of};
ghost use Rattle.rc_filter.specs.Scope.{are_directories, decides, enters, has_subtrees, is_directory, is_file, is_level, reaches};

use crate::matching::is_excluded_directory;
use rc_job::{Job, Sub};
use rc_tree::{Kind, Path};

/// Whether a directory is gone into, where the one above it is: the two sides have these there. The root is.
pub fn in_scope(job: &Job, path: &Path, source: Option<Kind>, target: Option<Kind>) -> bool
    ensures { result ≡ enters job.now (key_of path.now) source target }
{
    path.names().is_empty()
        || (reaches(job, path)
            && !is_excluded_directory(job, path)
            && are_directories(source, target))
}

/// Whether a path is decided, where the directory above it is gone into: the two sides have these there.
pub fn is_decided(job: &Job, path: &Path, source: Option<Kind>, target: Option<Kind>) -> bool
    ensures { result ≡ decides job.now (key_of path.now) source target }
{
    is_file(source)
        || is_file(target)
        || ((is_directory(source) || is_directory(target)) && reaches(job, path))
}

/// Whether directories of this path's level count: `/S` or `/E` is on, and the level is at most that of `/LEV`.
pub fn reaches(job: &Job, path: &Path) -> bool
    ensures { result ≡ reaches job.now (key_of path.now) }
{
    has_subtrees(job.sub) && is_level(job.lev, path)
}

fn has_subtrees(sub: Sub) -> bool
    ensures { result ≡ has_subtrees sub }
{
    sub != Sub::None
}

// The level of a directory is one more than the number of its names.
fn is_level(deepest: Option<u32>, path: &Path) -> bool
    ensures { result ≡ is_level deepest (key_of path.now) }
{
    match deepest {
        None => true,
        Some(deepest) => path.names().len() as u64 + 1 <= u64::from(deepest),
    }
}

fn are_directories(source: Option<Kind>, target: Option<Kind>) -> bool
    ensures { result ≡ are_directories source target }
{
    (is_directory(source) || is_directory(target)) && !(is_file(source) || is_file(target))
}

fn is_file(found: Option<Kind>) -> bool
    ensures { result ≡ is_file found }
{
    found == Some(Kind::File)
}

fn is_directory(found: Option<Kind>) -> bool
    ensures { result ≡ is_directory found }
{
    found == Some(Kind::Dir)
}
