//! The names of directories and files by their numbers.

ghost use Rattle.std.specs.Prelude.{◌≡◌, ◌<◌, ◌++◌, ◌∷◌, [], IfOk, chars, string_bytes};
ghost use Rattle.rc_generate.specs.Generated.{dir_name, file_end, file_name, two_digits};

use rc_tree::{Name, NoMemory, Path};
use std::alloc::{AllocError, Global};

/// The path of a directory.
pub(crate) fn dir_path(alloc: Global, i: u64) -> Result<Path, NoMemory>
    requires small { i < 100 }
    ensures { IfOk result (λ path. path ≡ dir_name i ∷ []) }
{
    let text = dir_text(alloc, i)?;
    child(alloc, &Path::root(alloc), text.as_str())
}

/// The path of a file in a directory.
pub(crate) fn file_path(alloc: Global, dir: &Path, j: u64) -> Result<Path, NoMemory>
    requires small { j < 100 }
    ensures { IfOk result (λ path. path ≡ dir.now ++ file_name j ∷ []) }
{
    let text = file_text(alloc, j)?;
    child(alloc, dir, text.as_str())
}

// The path of the entry that has this text as its name, in a directory of a generated site: only memory may be wanting.
fn child(alloc: Global, dir: &Path, text: &str) -> Result<Path, NoMemory>
    ensures { IfOk result (λ path. path ≡ dir.now ++ chars text.now ∷ []) }
{
    let Ok(name) = Name::read(alloc, text) else {
        return Err(NoMemory);
    };
    match dir.join(alloc, &name) {
        Ok(path) => Ok(path),
        Err(_) => Err(NoMemory),
    }
}

#[tactic(auto, unfolding(crate::specs::Generated::dir_name))]
fn dir_text(alloc: Global, i: u64) -> Result<String, AllocError>
    requires small { i < 100 }
    ensures { IfOk result (λ text. string_bytes text ≡ dir_name i) }
{
    if i == 50 {
        String::from_str(alloc, "cache")
    } else {
        numbered(alloc, "d", i, "")
    }
}

#[tactic(auto, unfolding(crate::specs::Generated::file_name))]
fn file_text(alloc: Global, j: u64) -> Result<String, AllocError>
    requires small { j < 100 }
    ensures { IfOk result (λ text. string_bytes text ≡ file_name j) }
{
    numbered(alloc, "f", j, file_end(j))
}

// The two digits of a number between two texts.
fn numbered(alloc: Global, start: &str, number: u64, end: &str) -> Result<String, AllocError>
    requires small { number < 100 }
    ensures { IfOk result
        (λ text. string_bytes text ≡ start.now ++ two_digits number ++ end.now) }
{
    let tens = number / 10;
    let ones = number % 10;
    format!(in alloc; "{start}{tens}{ones}{end}")
}

// What a file's name ends with.
fn file_end(j: u64) -> &'static str
    ensures { result.now ≡ file_end j }
{
    if j % 10 == 9 { ".tmp" } else { ".txt" }
}
