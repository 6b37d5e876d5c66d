//! The name of an entry: how it is read, shown and folded.

ghost use Rattle.std.specs.Prelude.{◌≡◌, ◌==◌, ◌⊎◌, ◌≤◌, None, Some, Option, length, IfOk, IfErr, chars, position, not};
ghost use Rattle.std.specs.List.{list_all};
ghost use Rattle.rc_tree.specs.declared.name.NameErr.TheVariants.{NoMemory as OutOfMemory};
ghost use Rattle.rc_tree.specs.Name.{is_name_char, name_fault, folded};
ghost use Rattle.rc_tree.specs.Path.{name_cmp};

use crate::NoMemory;
use std::alloc::{AllocError, Global};
use std::cmp::Ordering;
use std::marker::Model;
use thiserror::Error;
use unicode::case::simple_fold;

/// Why a text is no name. The causes are looked for in this order, and want of memory may come in place of any.
#[derive(Clone, Copy, Debug, PartialEq, Eq, Error)]
pub enum NameErr {
    /// The text has no character.
    #[error("a name has at least one character")]
    Empty,
    /// The text has more than 255 characters.
    #[error("a name has at most 255 characters")]
    TooLong,
    /// A character below 32, or one of `\ / : * ? " < > |`, of which `place` is the first one's number from 0.
    #[error("character {place} may not stand in a name")]
    BadChar { place: u64 },
    /// The text is `.` or `..`.
    #[error("`.` and `..` are no names")]
    Dots,
    #[error("out of memory")]
    NoMemory,
}

impl From<AllocError> for NameErr {
    ghost from_gives = { λ _ e. e ≡ OutOfMemory };

    fn from(_: AllocError) -> Self {
        NameErr::NoMemory
    }
}

/// The name of an entry: 1 to 255 characters, none below 32 and none of `\ / : * ? " < > |`, and neither `.` nor `..`.
/// Contracts see it as its spelling, the list of its characters.
#[derive(Debug, Drop)]
pub struct Name {
    text: String,
}

impl Model for Name {
    ghost use Rattle.std.specs.Prelude.{◌≡◌, List, ℕ, None, chars, string_bytes};
    ghost use Rattle.rc_tree.specs.Name.{name_fault};

    ghost Value = { List ℕ };

    ghost view = { λ n. chars (string_bytes n.text) };

    ghost invariant = { λ n. name_fault (chars (string_bytes n.text)) ≡ None };
}

impl Name {
    /// The name that is spelled `text`.
    pub fn read(alloc: Global, text: &str) -> Result<Name, NameErr>
        ensures named { IfOk result
            (λ name. (name ≡ chars text.now) × (name_fault (chars text.now) ≡ None)) }
        ensures refused { IfErr result
            (λ e. (e ≡ OutOfMemory) ⊎ (name_fault (chars text.now) ≡ Some e)) }
    {
        match fault_of(text) {
            Some(fault) => Err(fault),
            None => Ok(Name {
                text: String::from_str(alloc, text)?,
            }),
        }
    }

    /// Its spelling.
    pub fn text(&self) -> &str
        ensures spelling { chars result.now ≡ self.now }
        ensures is_name { name_fault self.now ≡ None }
    {
        self.text.as_str()
    }

    /// How the folded forms of two names stand, by the numbers of their characters. It takes no memory.
    pub fn cmp_folded(&self, other: &Name) -> Ordering
        ensures { result ≡ name_cmp (folded self.now) (folded other.now) }
    {
        cmp_folded(&self.text, &other.text)
    }

    /// An equal name.
    pub fn copy(&self, alloc: Global) -> Result<Name, NoMemory>
        ensures { IfOk result (λ copy. copy ≡ self.now) }
    {
        Ok(Name {
            text: String::from_str(alloc, self.text.as_str())?,
        })
    }
}

// What keeps a text from being a name, the first cause in the order of `NameErr`.
fn fault_of(text: &str) -> Option<NameErr>
    ensures { result ≡ name_fault (chars text.now) }
{
    let count = char_count(text);
    if count == 0 {
        return Some(NameErr::Empty);
    }
    if count > 255 {
        return Some(NameErr::TooLong);
    }
    match bad_place(text) {
        Some(place) => Some(NameErr::BadChar {
            place: place as u64,
        }),
        None if all_dots(text) && count <= 2 => Some(NameErr::Dots),
        None => None,
    }
}

#[tactic(auto, using(std::proofs::lemmas::Str::chars_from_encodes))]
fn char_count(text: &str) -> usize
    ensures { result ≡ length (chars text.now) }
{
    text.chars().count()
}

// The place of the first character that may not stand in a name.
#[tactic(auto, using(std::proofs::lemmas::Str::chars_from_encodes))]
fn bad_place(text: &str) -> Option<usize>
    ensures { result ≡ position (λ c. not (is_name_char c)) (chars text.now) }
{
    text.chars().position(|c| !is_name_char(c))
}

#[tactic(auto, using(std::proofs::lemmas::Str::chars_from_encodes))]
fn all_dots(text: &str) -> bool
    ensures { result ≡ list_all (λ c. c == 46) (chars text.now) }
{
    text.chars().all(|c| c == '.')
}

fn is_name_char(c: char) -> bool
    ensures { result ≡ is_name_char c }
{
    c >= ' ' && !matches!(c, '\\' | '/' | ':' | '*' | '?' | '"' | '<' | '>' | '|')
}

// How the folded forms of two texts stand, by the numbers of their characters.
pub(crate) fn cmp_folded(a: &str, b: &str) -> Ordering
    ensures { result ≡ name_cmp (folded (chars a.now)) (folded (chars b.now)) }
{
    a.chars().map(simple_fold).cmp(b.chars().map(simple_fold))
}
