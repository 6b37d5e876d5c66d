//! What the patterns of a job say of a path.

ghost use Rattle.std.specs.Prelude.{◌≡◌, chars};
ghost use Rattle.std.specs.List.{list_any};
ghost use Rattle.rc_tree.specs.Path.{key_of, last_name};
ghost use Rattle.rc_wild.specs.Pattern.{matches_name};
ghost use Rattle.rc_filter.specs.Matching.{excludes, is_excluded_directory, is_excluded_file, is_named, root_text};

use rc_job::{Exclude, Job};
use rc_tree::{Path, Text};
use rc_wild::{Pattern, matching_by_folding};

/// Whether a file pattern names a file of this path.
pub(crate) fn is_named(job: &Job, path: &Path) -> bool
    ensures { result ≡ is_named job.now (key_of path.now) }
{
    job.files
        .as_slice()
        .iter()
        .any(|pattern| matches_last(pattern, path))
}

/// Whether a value of `/XF` excludes a file of this path.
pub(crate) fn is_excluded_file(job: &Job, path: &Path) -> bool
    ensures { result ≡ is_excluded_file job.now (key_of path.now) }
{
    job.xf
        .as_slice()
        .iter()
        .any(|value| excludes(job, path, value))
}

/// Whether a value of `/XD` excludes a directory of this path.
pub(crate) fn is_excluded_directory(job: &Job, path: &Path) -> bool
    ensures { result ≡ is_excluded_directory job.now (key_of path.now) }
{
    job.xd
        .as_slice()
        .iter()
        .any(|value| excludes(job, path, value))
}

// Whether a value matches a path: by its last name, or whole.
fn excludes(job: &Job, path: &Path, value: &Exclude) -> bool
    ensures { result ≡ excludes job.now (key_of path.now) value.now }
{
    match value {
        Exclude::Name(pattern) => matches_last(pattern, path),
        Exclude::Path(pattern) => {
            matching_by_folding();
            pattern.matches(root_text(&job.source), root_text(&job.target), path)
        }
    }
}

// Whether a pattern matches a path's last name.
fn matches_last(pattern: &Pattern, path: &Path) -> bool
    ensures { result ≡ matches_name pattern.now (last_name (key_of path.now)) }
{
    matching_by_folding();
    pattern.matches(last_name(path))
}

// The last name of a path; no characters for the root.
fn last_name(path: &Path) -> &str
    ensures { chars result.now ≡ last_name path.now }
{
    match path.names() {
        [] => "",
        [.., name] => name.text(),
    }
}

// A root's text; it is empty where the root isn't given.
fn root_text(root: &Option<Text>) -> &str
    ensures { chars result.now ≡ root_text root.now }
{
    match root {
        None => "",
        Some(text) => text.text(),
    }
}
