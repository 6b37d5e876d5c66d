//! Names of job files.
ghost use Rattle.std.specs.Prelude.{◌≡◌, ◌++◌, ◌∷◌, [], IfOk, MatchOption, chars, codes};
ghost use Rattle.rc_jobfiles.specs.Resolving.{full_name, has_dot, is_among};
ghost use Rattle.rc_jobfiles.specs.Reading.{is_dotted};

use rc_tree::{NoMemory, Text};
use rc_wild::is_separator;
use std::alloc::Global;

/// The name of the job file that a word names: with `.RCJ` where no dot stands behind its last separator.
pub fn full_name(alloc: Global, name: &Text) -> Result<Text, NoMemory>
    ensures { IfOk result (λ full. full ≡ full_name name.now) }
{
    if has_dot(name.text()) {
        name.copy(alloc)
    } else {
        extended(alloc, name.text())
    }
}

// Whether a dot stands behind the last separator.
fn has_dot(name: &str) -> bool
    ensures { result ≡ has_dot (chars name.now) }
{
    let mut dotted = false;
    let mut rest = name;
    'chars: while let Some((c, later)) = first_char(rest) {
        dotted = is_dotted(dotted, c);
        rest = later;
    }
    dotted
}

// Whether a dot stands behind the last separator of what ends with a character, by what stands before it.
fn is_dotted(before: bool, c: char) -> bool
    ensures { result ≡ is_dotted before c }
{
    !is_separator(c) && (before || c == '.')
}

// The first character of a text, and what follows it.
#[tactic(auto, using(std::proofs::lemmas::Str::chars_past_char))]
fn first_char(text: &str) -> Option<(char, &str)>
    ensures { MatchOption result
        (chars text.now ≡ [])
        (λ first. chars text.now ≡ first.0 ∷ chars first.1.now) }
{
    let mut rest = text.chars();
    let first = rest.next()?;
    Some((first, rest.as_str()))
}

fn extended(alloc: Global, name: &str) -> Result<Text, NoMemory>
    ensures { IfOk result (λ full. full ≡ chars name.now ++ codes ".RCJ") }
{
    let mut full = String::from_str(alloc, name)?;
    full.push_str(".RCJ")?;
    Text::of(alloc, &full)
}

/// Whether a name is one of others, without regard to case.
pub(crate) fn is_among(name: &Text, names: &[Text]) -> bool
    ensures { result ≡ is_among name.now names.now }
{
    names.iter().any(|other| other.cmp_folded(name).is_eq())
}
