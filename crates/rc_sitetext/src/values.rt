//! The values of single fields, read from their texts.

ghost use Rattle.std.specs.Prelude.{◌≡◌, ◌==◌, ◌≤◌, ◌<◌, length, IfOk};
ghost use Rattle.std.specs.Char.{is_ascii_digit};
ghost use Rattle.std.specs.List.{list_all, list_any};
ghost use Rattle.std.specs.Str.{all_ascii_digits};
ghost use Rattle.rc_sitetext.specs.SiteText.{is_repeated};
ghost use Rattle.rc_sitetext.specs.Reading.{Gives, number_at, path_at, letter_at, is_numeral, is_padded, is_upper, attr_at, bytes_at, hex_at, job_name_at, repeated_at, plain_at, content_at};

use crate::err::ValueErr;
use rc_tree::{Attr, Path, Text};
use std::alloc::Global;

/// How many bytes a file has at most.
pub const GREATEST_SIZE: u64 = 268435456;

/// The number that `text` spells: decimal, without needless zeros, and at most `greatest`.
#[tactic(auto, unfolding(crate::specs::Reading::number_at))]
pub(crate) fn number_of(text: &str, greatest: u64) -> Result<u64, ValueErr>
    ensures value { Gives (λ n. n) result (number_at greatest text.now) }
    ensures bound { IfOk result (λ n. n ≤ greatest) }
{
    if is_padded(text) {
        return Err(ValueErr::Refused);
    }
    let Ok(number) = text.parse::<u64>() else {
        return Err(ValueErr::Refused);
    };
    if number > greatest {
        return Err(ValueErr::Refused);
    }
    Ok(number)
}

/// Whether `text` is a decimal number without needless zeros, of any length.
pub(crate) fn is_numeral(text: &str) -> bool
    ensures { result ≡ is_numeral text.now }
{
    !is_padded(text) && (are_digits(text) && !text.is_empty())
}

fn are_digits(text: &str) -> bool
    ensures { result ≡ all_ascii_digits text.now }
{
    are_all_digits(text)
}

fn are_all_digits(text: &str) -> bool
    ensures { result ≡ list_all is_ascii_digit text.now }
{
    text.bytes().all(|b| b.is_ascii_digit())
}

// Whether a sign or a needless zero begins the text.
fn is_padded(text: &str) -> bool
    ensures { result ≡ is_padded text.now }
{
    text.starts_with('+') || (text.starts_with('0') && text.len() > 1)
}

/// The path that `text` spells: 1 to 64 names with `\` between them.
#[tactic(auto, unfolding(crate::specs::Reading::path_at))]
pub(crate) fn path_of(alloc: Global, text: &str) -> Result<Path, ValueErr>
    ensures { Gives (λ p. p) result (path_at text.now) }
{
    let path = Path::read(alloc, text)?;
    if path.names().is_empty() {
        return Err(ValueErr::Refused);
    }
    Ok(path)
}

// What is left of a text of letters.
#[derive(Drop)]
struct Letters<'a> {
    rest: &'a str,
}

impl Letters<'_> {
    // Whether this letter is the next one, which is then taken.
    fn take(&mut self, letter: char) -> bool
        requires { letter < 128 }
        ensures found { result ≡ (letter_at letter self.old.rest.now).0 }
        ensures rest { self.new.rest.now ≡ (letter_at letter self.old.rest.now).1 }
    {
        match self.rest.strip_prefix(letter) {
            Some(rest) => {
                self.rest = rest;
                true
            }
            None => false,
        }
    }
}

/// The attributes that `text` spells: their letters in the order `RASHCNETOP`, or `-` for none.
#[tactic(auto, unfolding(crate::specs::Reading::attr_at))]
pub(crate) fn attr_of(text: &str) -> Result<Attr, ValueErr>
    ensures { Gives (λ a. a) result (attr_at text.now) }
{
    if text == "-" {
        return Ok(Attr::NONE);
    }
    if text.is_empty() {
        return Err(ValueErr::Refused);
    }
    let mut letters = Letters { rest: text };
    let attr = Attr {
        readonly: letters.take('R'),
        archive: letters.take('A'),
        system: letters.take('S'),
        hidden: letters.take('H'),
        compressed: letters.take('C'),
        not_indexed: letters.take('N'),
        encrypted: letters.take('E'),
        temporary: letters.take('T'),
        offline: letters.take('O'),
        sparse: letters.take('P'),
    };
    if !letters.rest.is_empty() {
        return Err(ValueErr::Refused);
    }
    Ok(attr)
}

// The bytes that `text` spells in lower-case hexadecimal.
#[tactic(auto, unfolding(crate::specs::Reading::bytes_at))]
fn bytes_of(alloc: Global, text: &str) -> Result<Vec<u8>, ValueErr>
    ensures { Gives (λ v. v.items) result (bytes_at text.now) }
{
    if has_upper(text) {
        return Err(ValueErr::Refused);
    }
    Ok(hex::decode(alloc, text)?)
}

fn has_upper(text: &str) -> bool
    ensures { result ≡ list_any is_upper text.now }
{
    text.bytes().any(|c| matches!(c, b'A'..=b'Z'))
}

/// The bytes that `text` spells: lower-case hexadecimal, or `-` for no bytes.
#[tactic(auto, unfolding(crate::specs::Reading::hex_at))]
pub(crate) fn hex_of(alloc: Global, text: &str) -> Result<Vec<u8>, ValueErr>
    ensures { Gives (λ v. v.items) result (hex_at text.now) }
{
    if text == "-" {
        return Ok(Vec::new(alloc));
    }
    let bytes = bytes_of(alloc, text)?;
    if bytes.is_empty() {
        return Err(ValueErr::Refused);
    }
    Ok(bytes)
}

/// The name of a job file: at least one character.
#[tactic(auto, unfolding(crate::specs::Reading::job_name_at))]
pub(crate) fn job_name_of(alloc: Global, text: &str) -> Result<Text, ValueErr>
    ensures { Gives (λ t. t) result (job_name_at text.now) }
{
    if text.is_empty() {
        return Err(ValueErr::Refused);
    }
    Ok(Text::of(alloc, text)?)
}

/// Whether `bytes` are two or more, and all the same.
pub(crate) fn is_repeated(bytes: &[u8]) -> bool
    ensures { result ≡ is_repeated bytes.now }
{
    match bytes {
        [first, others @ ..] => !others.is_empty() && are_all(others, *first),
        [] => false,
    }
}

fn are_all(bytes: &[u8], byte: u8) -> bool
    ensures { result ≡ list_all (λ b. b == byte) bytes.now }
{
    bytes.iter().all(|b| *b == byte)
}

/// The content of `size` bytes that `text` spells: `-` for none, `*` and a byte where two or more are all that byte,
/// and else each byte.
#[tactic(auto, unfolding(crate::specs::Reading::content_at))]
pub(crate) fn content_of(alloc: Global, size: u64, text: &str) -> Result<Vec<u8>, ValueErr>
    ensures { Gives (λ v. v.items) result (content_at size text.now) }
{
    if size == 0 {
        return if text == "-" {
            Ok(Vec::new(alloc))
        } else {
            Err(ValueErr::Refused)
        };
    }
    match text.strip_prefix('*') {
        Some(digits) => repeated(alloc, size, digits),
        None => written_out(alloc, size, text),
    }
}

// `size` times the byte that `digits` spells, where that is more than once.
#[tactic(auto, unfolding(crate::specs::Reading::repeated_at))]
fn repeated(alloc: Global, size: u64, digits: &str) -> Result<Vec<u8>, ValueErr>
    ensures { Gives (λ v. v.items) result (repeated_at size digits.now) }
{
    match bytes_of(alloc, digits)?.as_slice() {
        [byte] if size > 1 => Ok(vec![in alloc; *byte; size as usize]?),
        _ => Err(ValueErr::Refused),
    }
}

// The bytes that `text` spells one by one, where they are `size` and not repeated.
#[tactic(auto, unfolding(crate::specs::Reading::plain_at))]
fn written_out(alloc: Global, size: u64, text: &str) -> Result<Vec<u8>, ValueErr>
    ensures { Gives (λ v. v.items) result (plain_at size text.now) }
{
    let bytes = bytes_of(alloc, text)?;
    if bytes.len() as u64 != size || is_repeated(&bytes) {
        return Err(ValueErr::Refused);
    }
    Ok(bytes)
}
