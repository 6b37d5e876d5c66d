//! The parts of a text between its separators, taken off one by one.
ghost use Rattle.std.specs.Prelude.{◌≡◌, ◌<◌, ◌==◌, [], ◌∷◌, MatchOption, chars, codes, length, if◌then◌else◌};
ghost use Rattle.std.specs.List.{list_any};
ghost use Rattle.std.specs.Str.{bytes_eq};
ghost use Rattle.rc_tree.specs.Name.{folded};
ghost use Rattle.rc_wild.specs.PathPattern.{is_part, parts_of, behind_root};

use crate::fault::is_separator;
use crate::text::is_empty;
use unicode::case::simple_fold;

// What follows a root's parts in a value, where the value's first parts equal them by folding.
pub(crate) fn behind_root<'a>(root: &str, value: &'a str) -> Option<&'a str>
    ensures { let found = behind_root (parts_of (chars root.now)) (parts_of (chars value.now)) in
        MatchOption result (found ≡ None) (λ rest. found ≡ Some (parts_of (chars rest.now))) }
{
    let mut roots = root;
    let mut values = value;
    'parts: loop {
        let Some((part, later)) = next_part(roots) else {
            return Some(values);
        };
        match next_part(values) {
            Some((own, rest)) if is_same(part, own) => {
                roots = later;
                values = rest;
            }
            _ => return None,
        }
    }
}

/// The first part of a root's or a value's text, and the text that follows it. A part stands between separators, and is
/// neither empty nor `.`.
pub fn next_part(text: &str) -> Option<(&str, &str)>
    ensures { MatchOption result
        (parts_of (chars text.now) ≡ [])
        (λ first. parts_of (chars text.now) ≡ chars first.0.now ∷ parts_of (chars first.1.now)) }
{
    let mut left = text;
    'parts: while !left.is_empty() {
        let (part, rest) = cut(left);
        if is_part(part) {
            return Some((part, rest));
        }
        left = rest;
    }
    None
}

// What stands before the first separator of a text, and what follows it: nothing, where there is none.
fn cut(text: &str) -> (&str, &str)
    ensures parts { let part = chars result.0.now in let later = parts_of (chars result.1.now) in
        parts_of (chars text.now) ≡ (if is_part part then part ∷ later else later) }
    ensures shorter { 0 < length text.now → length result.1.now < length text.now }
{
    let mut rest = text.chars();
    'chars: loop {
        let at = text.len() - rest.as_str().len();
        match rest.next() {
            None => return (text, ""),
            Some(c) if is_separator(c) => return (&text[..at], rest.as_str()),
            Some(_) => {}
        }
    }
}

// Neither empty nor `.`.
fn is_part(text: &str) -> bool
    ensures { result ≡ is_part (chars text.now) }
{
    !is_empty(text) && !is_dot(text)
}

fn is_dot(text: &str) -> bool
    ensures { result ≡ bytes_eq (chars text.now) (codes ".") }
{
    text == "."
}

// Whether a part holds `:`.
#[tactic(auto, using(std::proofs::lemmas::Str::chars_from_encodes))]
pub(crate) fn has_colon(text: &str) -> bool
    ensures { result ≡ list_any (λ c. c == 58) (chars text.now) }
{
    text.chars().any(|c| c == ':')
}

// Whether two parts have equal foldings.
fn is_same(a: &str, b: &str) -> bool
    ensures { result ≡ bytes_eq (folded (chars a.now)) (folded (chars b.now)) }
{
    let order = a.chars().map(simple_fold).cmp(b.chars().map(simple_fold));
    order.is_eq()
}
