//! What keeps a text from being a pattern or a path pattern.
ghost use Rattle.std.specs.Prelude.{◌≡◌, chars, position, not};
ghost use Rattle.std.specs.List.{list_any};
ghost use Rattle.rc_wild.specs.declared.fault.PatternErr.TheVariants.{NoMemory as OutOfMemory};
ghost use Rattle.rc_wild.specs.Pattern.{is_pattern_char, pattern_fault};
ghost use Rattle.rc_wild.specs.PathPattern.{is_path_char, is_separator, path_pattern_fault};

use crate::text::is_empty;
use std::alloc::AllocError;
use thiserror::Error;

/// Why a text is no pattern, or no path pattern. The causes are looked for in this order, and want of memory may come in
/// place of any.
#[derive(Clone, Copy, Debug, PartialEq, Eq, Error)]
pub enum PatternErr {
    /// The text has no character. A path pattern is never refused so.
    #[error("a pattern has at least one character")]
    Empty,
    /// A character below 32, or one of `\ / : " < > |`, of which `place` is the first one's number from 0. In a path
    /// pattern `\`, `/` and `:` may stand.
    #[error("character {place} may not stand in a pattern")]
    BadChar { place: u64 },
    /// The text of a path pattern has neither `\` nor `/`.
    #[error("a path pattern has a `\\` or a `/`")]
    NoSeparator,
    #[error("out of memory")]
    NoMemory,
}

impl From<AllocError> for PatternErr {
    ghost from_gives = { λ _ e. e ≡ OutOfMemory };

    fn from(_: AllocError) -> Self {
        PatternErr::NoMemory
    }
}

// What keeps a text from being a pattern, the first cause in the order of `PatternErr`.
#[tactic(auto, unfolding(crate::specs::Pattern::pattern_fault))]
pub(crate) fn pattern_fault(text: &str) -> Option<PatternErr>
    ensures { result ≡ pattern_fault (chars text.now) }
{
    if is_empty(text) {
        return Some(PatternErr::Empty);
    }
    let place = bad_pattern_place(text)?;
    Some(PatternErr::BadChar {
        place: place as u64,
    })
}

// What keeps a text from being a path pattern.
#[tactic(auto, unfolding(crate::specs::PathPattern::path_pattern_fault))]
pub(crate) fn path_pattern_fault(text: &str) -> Option<PatternErr>
    ensures { result ≡ path_pattern_fault (chars text.now) }
{
    match bad_path_place(text) {
        Some(place) => Some(PatternErr::BadChar {
            place: place as u64,
        }),
        None if has_separator(text) => None,
        None => Some(PatternErr::NoSeparator),
    }
}

#[tactic(auto, using(std::proofs::lemmas::Str::chars_from_encodes))]
fn bad_pattern_place(text: &str) -> Option<usize>
    ensures { result ≡ position (λ c. not (is_pattern_char c)) (chars text.now) }
{
    text.chars().position(|c| !is_pattern_char(c))
}

#[tactic(auto, using(std::proofs::lemmas::Str::chars_from_encodes))]
fn bad_path_place(text: &str) -> Option<usize>
    ensures { result ≡ position (λ c. not (is_path_char c)) (chars text.now) }
{
    text.chars().position(|c| !is_path_char(c))
}

#[tactic(auto, using(std::proofs::lemmas::Str::chars_from_encodes))]
fn has_separator(text: &str) -> bool
    ensures { result ≡ list_any is_separator (chars text.now) }
{
    text.chars().any(is_separator)
}

fn is_pattern_char(c: char) -> bool
    ensures { result ≡ is_pattern_char c }
{
    c >= ' ' && !matches!(c, '\\' | '/' | ':' | '"' | '<' | '>' | '|')
}

fn is_path_char(c: char) -> bool
    ensures { result ≡ is_path_char c }
{
    c >= ' ' && !matches!(c, '"' | '<' | '>' | '|')
}

/// `\`, or `/`, which is read as `\`.
pub fn is_separator(c: char) -> bool
    ensures { result ≡ is_separator c }
{
    c == '\\' || c == '/'
}
