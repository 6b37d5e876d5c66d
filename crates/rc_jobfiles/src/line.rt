//! The words of a command line.
ghost use Rattle.std.specs.Prelude.{◌≡◌, IfOk, map};
ghost use Rattle.rc_jobfiles.specs.Ask.{as_word, texts};

use rc_tree::{NoMemory, Text};
use rc_words::Word;
use std::alloc::Global;

/// The words of a command line.
pub(crate) fn as_words(alloc: Global, words: &[String]) -> Result<Vec<Word>, NoMemory>
    ensures { IfOk result (λ made. made.items ≡ map as_word (texts words.now)) }
{
    let mut made = Vec::with_capacity(alloc, words.len())?;
    let mut rest = words;
    'words: while let [word, later @ ..] = rest {
        made.push(Word {
            text: Text::of(alloc, word)?,
            quoted: false,
        })?;
        rest = later;
    }
    Ok(made)
}
