//! The words of a text, one after another.
ghost use Rattle.std.specs.Prelude.{◌≡◌, ◌⊎◌, Ok, Err, IfOk, MatchResult, chars, string_bytes};
ghost use Rattle.rc_jobtext.specs.declared.reading.JobTextErr.TheVariants.{NoMemory as OutOfMemory};
ghost use Rattle.rc_jobtext.specs.Lexing.{words_in};

use crate::JobTextErr;
use crate::start::next_start;
use crate::word::read_word;
use rc_tree::{NoMemory, Text};
use rc_words::Word;
use std::alloc::Global;

/// The words of a text.
#[tactic(auto, unfolding(crate::specs::Lexing::words_in))]
pub(crate) fn words_in(alloc: Global, text: &[char]) -> Result<Vec<Word>, JobTextErr>
    ensures { MatchResult result
        (λ words. words_in text.now ≡ Ok words.items)
        (λ e. (words_in text.now ≡ Err e) ⊎ (e ≡ OutOfMemory)) }
{
    let mut words = Vec::new(alloc);
    let mut place = 1;
    let mut rest = text;
    'words: while let Some(start) = next_start(place, rest) {
        match read_word(alloc, start.place, start.first, start.rest) {
            Ok(read) => {
                let text = text_of(alloc, &read.chars)?;
                let quoted = start.first == '"';
                words.push(Word { text, quoted })?;
                place = start.place;
                rest = read.rest;
            }
            Err(e) => return Err(e),
        }
    }
    Ok(words)
}

// The text of these characters.
fn text_of(alloc: Global, chars: &[char]) -> Result<Text, NoMemory>
    ensures { IfOk result (λ text. text ≡ chars.now) }
{
    let text = string_of(alloc, chars)?;
    Text::of(alloc, &text)
}

fn string_of(alloc: Global, letters: &[char]) -> Result<String, NoMemory>
    ensures { IfOk result (λ text. chars (string_bytes text) ≡ letters.now) }
{
    Ok(letters.iter().copied().collect(alloc)?)
}
