//! Letters behind a switch. They may repeat, in any order and either case.
ghost use Rattle.std.specs.Prelude.{◌≡◌, chars, codes, ◌==◌};
ghost use Rattle.std.specs.Char.{to_ascii_uppercase};
ghost use Rattle.std.specs.List.{list_all, list_any};
ghost use Rattle.rc_words.specs.Values.{is_letter_of, has_letter, copy_in, directory_in, attr_in};

use rc_job::{CopyFlags, DirectoryFlags};
use rc_tree::Attr;

/// The copy flags of letters among D, A, T, S, O, U and X; none where there is another. X has no effect.
pub(crate) fn copy_in(text: &str) -> Option<CopyFlags>
    ensures { result ≡ copy_in (chars text.now) }
{
    if !are_copy_letters(text) {
        return None;
    }
    Some(CopyFlags {
        data_bytes: has_letter(text, 'D'),
        attributes: has_letter(text, 'A'),
        times: has_letter(text, 'T'),
        security: has_letter(text, 'S'),
        owner: has_letter(text, 'O'),
        auditing: has_letter(text, 'U'),
    })
}

/// The directory flags of letters among D, A, T, E and X, of which A and T have an effect.
pub(crate) fn directory_in(text: &str) -> Option<DirectoryFlags>
    ensures { result ≡ directory_in (chars text.now) }
{
    if !are_directory_letters(text) {
        return None;
    }
    Some(DirectoryFlags {
        attributes: has_letter(text, 'A'),
        times: has_letter(text, 'T'),
    })
}

/// The attributes of letters among R, A, S, H, C, N, E, T and O.
pub(crate) fn attr_in(text: &str) -> Option<Attr>
    ensures { result ≡ attr_in (chars text.now) }
{
    if !are_attr_letters(text) {
        return None;
    }
    Some(Attr {
        readonly: has_letter(text, 'R'),
        hidden: has_letter(text, 'H'),
        system: has_letter(text, 'S'),
        archive: has_letter(text, 'A'),
        temporary: has_letter(text, 'T'),
        sparse: false,
        compressed: has_letter(text, 'C'),
        offline: has_letter(text, 'O'),
        not_indexed: has_letter(text, 'N'),
        encrypted: has_letter(text, 'E'),
    })
}

#[tactic(auto, using(std::proofs::lemmas::Str::chars_from_encodes))]
fn has_letter(text: &str, letter: char) -> bool
    ensures { result ≡ has_letter letter (chars text.now) }
{
    text.chars().any(|c| c.to_ascii_uppercase() == letter)
}

#[tactic(auto, using(std::proofs::lemmas::Str::chars_from_encodes))]
fn are_copy_letters(text: &str) -> bool
    ensures { result ≡ list_all (is_letter_of (codes "DATSOUX")) (chars text.now) }
{
    text.chars().all(is_copy_letter)
}

#[tactic(auto, using(std::proofs::lemmas::Str::chars_from_encodes))]
fn are_directory_letters(text: &str) -> bool
    ensures { result ≡ list_all (is_letter_of (codes "DATEX")) (chars text.now) }
{
    text.chars().all(is_directory_letter)
}

#[tactic(auto, using(std::proofs::lemmas::Str::chars_from_encodes))]
fn are_attr_letters(text: &str) -> bool
    ensures { result ≡ list_all (is_letter_of (codes "RASHCNETO")) (chars text.now) }
{
    text.chars().all(is_attr_letter)
}

fn is_copy_letter(c: char) -> bool
    ensures { result ≡ is_letter_of (codes "DATSOUX") c }
{
    matches!(
        c.to_ascii_uppercase(),
        'D' | 'A' | 'T' | 'S' | 'O' | 'U' | 'X'
    )
}

fn is_directory_letter(c: char) -> bool
    ensures { result ≡ is_letter_of (codes "DATEX") c }
{
    matches!(c.to_ascii_uppercase(), 'D' | 'A' | 'T' | 'E' | 'X')
}

fn is_attr_letter(c: char) -> bool
    ensures { result ≡ is_letter_of (codes "RASHCNETO") c }
{
    matches!(
        c.to_ascii_uppercase(),
        'R' | 'A' | 'S' | 'H' | 'C' | 'N' | 'E' | 'T' | 'O'
    )
}
