//! The walk over a pattern and a text, with one place to go back to.
ghost use Rattle.std.specs.Prelude.{◌≡◌, chars, codes};
ghost use Rattle.std.specs.Str.{bytes_eq};
ghost use Rattle.rc_wild.specs.Pattern.{stands_for, matches_text, matches_name};
ghost use Rattle.rc_wild.specs.Walk.{IsTurn, IsNextTry};

use crate::text::{first_char, is_empty};
use unicode::case::simple_fold;

// Whether a pattern matches a name. Each time that the walk goes back, its star has eaten one character of the name more,
// so the turns are at most in proportion to the product of the two lengths.
#[tactic(auto, unfolding(crate::specs::Pattern::matches_name))]
pub(crate) fn matches_name(pattern: &str, name: &str) -> bool
    ensures { result ≡ matches_name (chars pattern.now) (chars name.now) }
{
    if is_star_dot_star(pattern) {
        matches_text("*", name)
    } else {
        matches_text(pattern, name)
    }
}

// `*.*`, which is read as `*`.
fn is_star_dot_star(pattern: &str) -> bool
    ensures { result ≡ bytes_eq (chars pattern.now) (codes "*.*") }
{
    pattern == "*.*"
}

// Whether the characters of a pattern match a text.
fn matches_text(pattern: &str, text: &str) -> bool
    ensures { result ≡ matches_text (chars pattern.now) (chars text.now) }
{
    let mut ahead = pattern;
    let mut left = text;
    let mut back: Option<Back> = None;
    'turns: loop {
        match look(ahead, left) {
            Turn::Matched => return true,
            Turn::TooShort => return false,
            Turn::Star(after) => {
                back = Some(Back { after, from: left });
                ahead = after;
            }
            Turn::Same(after, rest) => {
                ahead = after;
                left = rest;
            }
            Turn::Apart => match next_try(back) {
                None => return false,
                Some(later) => {
                    back = Some(later);
                    ahead = later.after;
                    left = later.from;
                }
            },
        }
    }
}

// Where a walk goes back to: what follows the last star, and the text that this star has not eaten.
#[derive(Clone, Copy)]
struct Back<'a> {
    after: &'a str,
    from: &'a str,
}

// The same star, which eats one character more.
fn next_try(back: Option<Back>) -> Option<Back>
    ensures { IsNextTry back.entry result }
{
    let Back { after, from } = back?;
    let (_, from) = first_char(from)?;
    Some(Back { after, from })
}

// What a walk finds ahead.
enum Turn<'a> {
    // The pattern and the text are both at their end.
    Matched,
    // The text ends before the pattern does, so going back is of no use.
    TooShort,
    // A star, with what follows it.
    Star(&'a str),
    // A character that stands for the next one of the text, with what follows each.
    Same(&'a str, &'a str),
    // The next character of the text is in the way.
    Apart,
}

// What stands first in the pattern and in the text.
fn look<'a>(pattern: &'a str, text: &'a str) -> Turn<'a>
    ensures { IsTurn (chars pattern.now) (chars text.now) result }
{
    match first_char(pattern) {
        None if is_empty(text) => Turn::Matched,
        None => Turn::Apart,
        Some(('*', after)) => Turn::Star(after),
        Some((wanted, after)) => match first_char(text) {
            None => Turn::TooShort,
            Some((found, rest)) if stands_for(wanted, found) => Turn::Same(after, rest),
            Some(_) => Turn::Apart,
        },
    }
}

fn stands_for(wanted: char, found: char) -> bool
    ensures { result ≡ stands_for wanted found }
{
    wanted == '?' || simple_fold(wanted) == simple_fold(found)
}
