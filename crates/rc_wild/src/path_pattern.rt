//! The pattern of a path below the roots.
ghost use Rattle.std.specs.Prelude.{◌≡◌, ◌⊎◌, ◌↔◌, None, Some, IfOk, IfErr, IsTrue, chars};
ghost use Rattle.rc_wild.specs.declared.fault.PatternErr.TheVariants.{NoMemory as OutOfMemory};
ghost use Rattle.rc_wild.specs.PathPattern.{path_pattern_fault, parts_of, asked_parts, matches_part, matches_parts, matches_path, MatchesPath};

use crate::PatternErr;
use crate::fault::path_pattern_fault;
use crate::parts::{behind_root, has_colon, next_part};
use crate::walk::matches_name;
use rc_tree::{Name, NoMemory, Path};
use std::alloc::Global;
use std::marker::Model;

/// A pattern for paths: a text with a `\` or a `/`, without a character below 32 and without `" < > |`. Its parts stand
/// between the separators, those that are empty or `.` left out. Contracts see it as the list of its characters.
#[derive(Debug, Drop)]
pub struct PathPattern {
    text: String,
}

impl Model for PathPattern {
    ghost use Rattle.std.specs.Prelude.{◌≡◌, List, ℕ, None, chars, string_bytes};
    ghost use Rattle.rc_wild.specs.PathPattern.{path_pattern_fault};

    ghost Value = { List ℕ };

    ghost view = { λ p. chars (string_bytes p.text) };

    ghost invariant = { λ p. path_pattern_fault (chars (string_bytes p.text)) ≡ None };
}

impl PathPattern {
    /// The path pattern that is written `text`. It refuses `BadChar` and then `NoSeparator`.
    pub fn read(alloc: Global, text: &str) -> Result<PathPattern, PatternErr>
        ensures same { IfOk result (λ pattern. pattern ≡ chars text.now) }
        ensures allowed { IfOk result (λ _. path_pattern_fault (chars text.now) ≡ None) }
        ensures refused { IfErr result
            (λ e. (e ≡ OutOfMemory) ⊎ (path_pattern_fault (chars text.now) ≡ Some e)) }
    {
        match path_pattern_fault(text) {
            Some(fault) => Err(fault),
            None => Ok(PathPattern {
                text: String::from_str(alloc, text)?,
            }),
        }
    }

    /// As it was read.
    pub fn text(&self) -> &str
        ensures same { chars result.now ≡ self.now }
        ensures allowed { path_pattern_fault self.now ≡ None }
    {
        self.text.as_str()
    }

    /// Whether it matches a path below two roots, of which a text is empty where the root isn't given. The pattern's
    /// parts are held against the path's names, behind the parts of the source root, or else of the target root, where
    /// it begins with them. A part that holds `:` matches no name. It takes no memory, and beside one pass over the texts
    /// time in proportion to the product of the two lengths at most, for each part and its name.
    #[tactic(auto, unfolding(crate::specs::PathPattern::matches_path))]
    pub fn matches(&self, source: &str, target: &str, path: &Path) -> bool
        ensures test { result
            ≡ matches_path (chars source.now) (chars target.now) self.now path.now }
        ensures case_by_case { IsTrue result
            ↔ MatchesPath (chars source.now) (chars target.now) self.now path.now }
    {
        let value = self.text.as_str();
        matches_parts(asked_parts(source, target, value), path.names())
    }

    /// An equal path pattern.
    pub fn copy(&self, alloc: Global) -> Result<PathPattern, NoMemory>
        ensures { IfOk result (λ copy. copy ≡ self.now) }
    {
        Ok(PathPattern {
            text: String::from_str(alloc, self.text.as_str())?,
        })
    }
}

// The end of a value that a path is held against.
fn asked_parts<'a>(source: &str, target: &str, value: &'a str) -> &'a str
    ensures { parts_of (chars result.now)
        ≡ asked_parts (chars source.now) (chars target.now) (chars value.now) }
{
    match behind_root(source, value) {
        Some(rest) => rest,
        None => match behind_root(target, value) {
            Some(below) => below,
            None => value,
        },
    }
}

// Whether there are as many names as parts, each matched by its part.
fn matches_parts(parts: &str, names: &[Name]) -> bool
    ensures { result ≡ matches_parts (parts_of (chars parts.now)) names.now }
{
    let mut left = parts;
    'names: for name in names {
        match next_part(left) {
            Some((part, rest)) if matches_part(part, name.text()) => left = rest,
            _ => return false,
        }
    }
    next_part(left).is_none()
}

// A part that holds `:` matches no name.
fn matches_part(part: &str, name: &str) -> bool
    ensures { result ≡ matches_part (chars part.now) (chars name.now) }
{
    !has_colon(part) && matches_name(part, name)
}
