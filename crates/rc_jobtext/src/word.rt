//! The characters of a word.
ghost use Rattle.std.specs.Prelude.{◌≡◌, ◌⊎◌, ◌≤◌, ◌==◌, Err, IfOk, MatchResult, length};
ghost use Rattle.rc_jobtext.specs.declared.reading.JobTextErr.TheVariants.{BadText, NoMemory as OutOfMemory};
ghost use Rattle.rc_jobtext.specs.Lexing.{Between, Reading, ahead, begun};
ghost use Rattle.rc_jobtext.specs.Starts.{prefixed, started, step_at, whole, within};

use crate::JobTextErr;
use crate::start::{is_blank, is_dropped};
use std::alloc::Global;

/// The characters of a word without its quotes, and what follows it.
#[derive(Drop)]
pub(crate) struct Read<'a> {
    pub chars: Vec<char>,
    pub rest: &'a [char],
}

// What a character of a word is.
#[derive(Clone, Copy)]
pub(crate) enum Step {
    // It ends the word, and is none of it.
    End,
    // The line ends with an open quote.
    Open,
    Quote,
    Char,
}

/// The word that begins with a character, in the line of this number.
pub(crate) fn read_word(
    alloc: Global,
    place: u64,
    first: char,
    text: &[char],
) -> Result<Read<'_>, JobTextErr>
    ensures reads { MatchResult result
        (λ read. started place first text.now
        ≡ begun (first == 34) (whole read.chars.items (ahead place Between read.rest.now)))
        (λ e. ((e ≡ BadText place) × (◌≡◌ {A = Reading} (started place first text.now) (Err place)))
        ⊎ (e ≡ OutOfMemory)) }
    ensures shorter { IfOk result (λ read. length read.rest.now ≤ length text.now) }
{
    let mut chars = Vec::new(alloc);
    let quoted = first == '"';
    if !quoted {
        chars.push(first)?;
    }
    read_chars(place, quoted, chars, text)
}

// The word that has these characters, and those that follow.
fn read_chars<'a>(
    place: u64,
    quoted: bool,
    before: Vec<char>,
    text: &'a [char],
) -> Result<Read<'a>, JobTextErr>
    ensures reads { MatchResult result
        (λ read. prefixed before.items (ahead place (within quoted) text.now)
        ≡ whole read.chars.items (ahead place Between read.rest.now))
        (λ e. ((e ≡ BadText place)
        × (◌≡◌ {A = Reading} (ahead place (within quoted) text.now) (Err place)))
        ⊎ (e ≡ OutOfMemory)) }
    ensures shorter { IfOk result (λ read. length read.rest.now ≤ length text.now) }
{
    let mut chars = before;
    let mut inside = quoted;
    let mut rest = text;
    'chars: while let [c, later @ ..] = rest {
        match step_at(inside, *c, later) {
            Step::End => return Ok(Read { chars, rest }),
            Step::Open => return Err(JobTextErr::BadText { place }),
            Step::Quote => inside = !inside,
            Step::Char => chars.push(*c)?,
        }
        rest = later;
    }
    if inside {
        return Err(JobTextErr::BadText { place });
    }
    Ok(Read { chars, rest })
}

fn step_at(inside: bool, c: char, later: &[char]) -> Step
    ensures { result ≡ step_at inside c later.now }
{
    if c == '\n' && inside {
        Step::Open
    } else if !inside && (c == '\n' || is_blank(c) || is_dropped(c, later)) {
        Step::End
    } else if c == '"' {
        Step::Quote
    } else {
        Step::Char
    }
}
