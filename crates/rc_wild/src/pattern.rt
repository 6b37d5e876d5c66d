//! The pattern of a name.
ghost use Rattle.std.specs.Prelude.{◌≡◌, ◌⊎◌, ◌↔◌, None, Some, IfOk, IfErr, IsTrue, chars};
ghost use Rattle.rc_wild.specs.declared.fault.PatternErr.TheVariants.{NoMemory as OutOfMemory};
ghost use Rattle.rc_wild.specs.Pattern.{pattern_fault, matches_name, MatchesName};

use crate::PatternErr;
use crate::fault::pattern_fault;
use crate::walk::matches_name;
use rc_tree::NoMemory;
use std::alloc::Global;
use std::marker::Model;

/// A pattern for names: at least one character, none below 32 and none of `\ / : " < > |`. In it `*` stands for any run
/// of characters, `?` for any one, and another character for each with the same simple case folding of Unicode; `*.*`
/// is read as `*`. Contracts see it as the list of its characters.
#[derive(Debug, Drop)]
pub struct Pattern {
    text: String,
}

impl Model for Pattern {
    ghost use Rattle.std.specs.Prelude.{◌≡◌, List, ℕ, None, chars, string_bytes};
    ghost use Rattle.rc_wild.specs.Pattern.{pattern_fault};

    ghost Value = { List ℕ };

    ghost view = { λ p. chars (string_bytes p.text) };

    ghost invariant = { λ p. pattern_fault (chars (string_bytes p.text)) ≡ None };
}

impl Pattern {
    /// The pattern that is written `text`. It refuses `Empty` and `BadChar`.
    pub fn read(alloc: Global, text: &str) -> Result<Pattern, PatternErr>
        ensures same { IfOk result (λ pattern. pattern ≡ chars text.now) }
        ensures allowed { IfOk result (λ _. pattern_fault (chars text.now) ≡ None) }
        ensures refused { IfErr result
            (λ e. (e ≡ OutOfMemory) ⊎ (pattern_fault (chars text.now) ≡ Some e)) }
    {
        match pattern_fault(text) {
            Some(fault) => Err(fault),
            None => Ok(Pattern {
                text: String::from_str(alloc, text)?,
            }),
        }
    }

    /// As it was read.
    pub fn text(&self) -> &str
        ensures same { chars result.now ≡ self.now }
        ensures allowed { pattern_fault self.now ≡ None }
    {
        self.text.as_str()
    }

    /// Whether it matches a name. It takes no memory, and time in proportion to the product of the two lengths at most.
    pub fn matches(&self, name: &str) -> bool
        ensures test { result ≡ matches_name self.now (chars name.now) }
        ensures case_by_case { IsTrue result ↔ MatchesName self.now (chars name.now) }
    {
        matches_name(self.text.as_str(), name)
    }

    /// An equal pattern.
    pub fn copy(&self, alloc: Global) -> Result<Pattern, NoMemory>
        ensures { IfOk result (λ copy. copy ≡ self.now) }
    {
        Ok(Pattern {
            text: String::from_str(alloc, self.text.as_str())?,
        })
    }
}
