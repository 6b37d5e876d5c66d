//! Which words have their effect in a run.
ghost use Rattle.std.specs.Prelude.{◌≡◌, IfOk};
ghost use Rattle.rc_jobfiles.specs.Ask.{texts};
ghost use Rattle.rc_jobfiles.specs.Built.{built_words};

use crate::line::as_words;
use crate::lookup::has;
use rc_tree::NoMemory;
use rc_words::{WordsErr, read_words};
use std::alloc::Global;

// The number of `/DROP`, the one switch that has none so far.
const DROP: u8 = 71;

/// Whether the words of a command line have their effect in a run, so far. Words that are refused have theirs.
pub fn are_built(alloc: Global, words: &[String]) -> Result<bool, NoMemory>
    ensures { IfOk result (λ built. built ≡ built_words (texts words.now)) }
{
    let words = as_words(alloc, words)?;
    match read_words(alloc, &words, false) {
        Ok(words) => Ok(!has(words.settings(), DROP)),
        Err(WordsErr::Usage { .. }) => Ok(true),
        Err(WordsErr::NoMemory) => Err(NoMemory),
    }
}
