//! Which switch a word spells.
ghost use Rattle.std.specs.Prelude.{◌≡◌, ◌∷◌, [], ◌≤◌, MatchOption, chars, map, option_map, drop, length};
ghost use Rattle.rc_words.specs.Meaning.{known, spelled};
ghost use Rattle.rc_words.specs.Table.{named};
ghost use Rattle.rc_words.specs.Shown.{shown, as_spelled};
ghost use Rattle.rc_words.specs.Spelling.{behind_name, reading_by, reading_of, spelled_among, is_switch, begins_with};

use crate::Word;
use crate::table::{SHARED, Switch, TABLE, Value};

/// How a word spells a switch.
#[derive(Clone, Copy)]
pub(crate) enum Reading<'a> {
    /// By its name alone.
    Plain,
    /// By the name of one that needs a value behind a colon.
    Bare,
    /// With what stands behind the colon.
    Behind(&'a str),
}

/// A switch that a word spells.
#[derive(Clone, Copy)]
pub(crate) struct Found<'a> {
    pub number: u8,
    pub value: Value,
    pub reading: Reading<'a>,
}

/// Whether a word begins with `/`, and not with a quote.
pub(crate) fn is_switch(word: &Word) -> bool
    ensures { result ≡ is_switch word.now }
{
    !word.quoted && begins_with_slash(word.text.text())
}

/// The switch that a word spells behind its `/`, of those that may stand in a list of words.
#[tactic(auto, unfolding(crate::specs::Meaning::spelled))]
pub(crate) fn spelled(word: &Word, in_file: bool) -> Option<Found<'_>>
    ensures { option_map as_spelled result ≡ spelled in_file word.now }
{
    find(known(in_file), behind_first(word.text.text()))
}

// The switches that may stand in a list of words.
fn known(in_file: bool) -> &'static [Switch]
    ensures same { map named result.now ≡ known in_file }
    ensures bound { length result.now ≤ 72 }
{
    if in_file { &TABLE[..SHARED] } else { &TABLE }
}

// The first of these switches that a text spells.
fn find<'a>(switches: &[Switch], text: &'a str) -> Option<Found<'a>>
    requires { length switches.now ≤ 72 }
    ensures { option_map as_spelled result
        ≡ spelled_among 0 (map named switches.now) (chars text.now) }
{
    let mut rest = switches;
    let mut number = 0;
    'switches: while let [switch, later @ ..] = rest {
        if let Some(reading) = reading_of(switch, text) {
            return Some(Found {
                number,
                value: switch.value,
                reading,
            });
        }
        number += 1;
        rest = later;
    }
    None
}

// How a text spells a switch.
fn reading_of<'a>(switch: &Switch, text: &'a str) -> Option<Reading<'a>>
    ensures { option_map shown result ≡ reading_of (named switch.now) (chars text.now) }
{
    match behind_name(switch.name, text) {
        Some(rest) => reading_by(switch.colon, rest),
        None => None,
    }
}

// The reading by what stands behind the name.
fn reading_by(colon: bool, rest: &str) -> Option<Reading<'_>>
    ensures { option_map shown result ≡ reading_by colon (Some (chars rest.now)) }
{
    match first_char(rest) {
        Some((c, value)) if colon && c == ':' => Some(Reading::Behind(value)),
        Some(_) => None,
        None if colon => Some(Reading::Bare),
        None => Some(Reading::Plain),
    }
}

// What stands in a text behind a name in capitals, which is read in either case.
fn behind_name<'a>(name: &[u8], text: &'a str) -> Option<&'a str>
    ensures { let behind = behind_name name.now (chars text.now) in
        MatchOption result (behind ≡ None) (λ rest. behind ≡ Some (chars rest.now)) }
{
    let mut letters = name;
    let mut rest = text;
    'letters: while let [letter, later @ ..] = letters {
        match first_char(rest) {
            Some((c, behind)) if c.to_ascii_uppercase() == char::from(*letter) => rest = behind,
            _ => return None,
        }
        letters = later;
    }
    Some(rest)
}

fn begins_with_slash(text: &str) -> bool
    ensures { result ≡ begins_with 47 (chars text.now) }
{
    match first_char(text) {
        Some((c, _)) => c == '/',
        None => false,
    }
}

// What stands behind the first character.
fn behind_first(text: &str) -> &str
    ensures { chars result.now ≡ drop 1 (chars text.now) }
{
    match first_char(text) {
        Some((_, rest)) => rest,
        None => text,
    }
}

/// The first character of a text, and what follows it.
#[tactic(auto, using(std::proofs::lemmas::Str::chars_past_char))]
pub(crate) fn first_char(text: &str) -> Option<(char, &str)>
    ensures { MatchOption result
        (chars text.now ≡ [])
        (λ first. chars text.now ≡ first.0 ∷ chars first.1.now) }
{
    let mut rest = text.chars();
    let first = rest.next()?;
    Some((first, rest.as_str()))
}
