//! A text, which contracts see as its characters.

ghost use Rattle.std.specs.Prelude.{◌≡◌, [], ◌∷◌, ◌++◌, IfOk, chars};
ghost use Rattle.std.proofs.Common.{rules};
ghost use Rattle.std.specs.Cmp.{eq_by_cmp_equiv, nat_cmp_total, partial_equiv_from_equiv, partial_order_from_own_ties};
ghost use Rattle.std.specs.Cmp.Lexicographic.{lists_total};
ghost use Rattle.std.specs.Cmp.Rules.{comparing};
ghost use Rattle.std.specs.Ordering.{as_partial_cmp, eq_by_cmp};
ghost use Rattle.rc_tree.specs.Name.{folded};
ghost use Rattle.rc_tree.specs.Path.{name_cmp};

use crate::NoMemory;
use crate::name::cmp_folded;
use std::alloc::Global;
use std::cmp::Ordering;
use std::marker::Model;
use unicode::case::simple_fold;

/// A text of Unicode characters, which contracts see as the list of them.
#[derive(Debug, Drop)]
pub struct Text {
    text: String,
}

impl Model for Text {
    ghost use Rattle.std.specs.Prelude.{List, ℕ, chars, string_bytes};

    ghost Value = { List ℕ };

    ghost view = { λ t. chars (string_bytes t.text) };
}

impl Text {
    /// The text of no characters.
    pub fn empty(alloc: Global) -> Text
        ensures { result ≡ [] }
    {
        Text {
            text: String::new(alloc),
        }
    }

    /// The text with the characters of `text`.
    pub fn of(alloc: Global, text: &str) -> Result<Text, NoMemory>
        ensures { IfOk result (λ made. made ≡ chars text.now) }
    {
        Ok(Text {
            text: String::from_str(alloc, text)?,
        })
    }

    /// The text with the folded characters of `text`.
    pub fn folded(alloc: Global, text: &str) -> Result<Text, NoMemory>
        ensures { IfOk result (λ made. made ≡ folded (chars text.now)) }
    {
        Ok(Text {
            text: text.chars().map(simple_fold).collect(alloc)?,
        })
    }

    // The text with the folded characters of `text` and the character 0 behind them.
    pub(crate) fn folded_below(alloc: Global, text: &str) -> Result<Text, NoMemory>
        ensures { IfOk result (λ made. made ≡ folded (chars text.now) ++ 0 ∷ []) }
    {
        let Text { mut text } = Text::folded(alloc, text)?;
        text.push('\0')?;
        Ok(Text { text })
    }

    /// Its characters.
    pub fn text(&self) -> &str
        ensures { chars result.now ≡ self.now }
    {
        self.text.as_str()
    }

    /// How the folded forms of two texts stand, by the numbers of their characters. It takes no memory.
    pub fn cmp_folded(&self, other: &Text) -> Ordering
        ensures { result ≡ name_cmp (folded self.now) (folded other.now) }
    {
        cmp_folded(self.text(), other.text())
    }

    /// An equal text.
    pub fn copy(&self, alloc: Global) -> Result<Text, NoMemory>
        ensures { IfOk result (λ copy. copy ≡ self.now) }
    {
        Text::of(alloc, self.text())
    }
}

// Texts are ordered by the numbers of their characters.
impl PartialEq for Text {
    ghost eq = { eq_by_cmp name_cmp };

    ghost laws = { partial_equiv_from_equiv (eq_by_cmp_equiv (lists_total nat_cmp_total)) };

    fn eq(&self, other: &Text) -> bool {
        self.cmp(other).is_eq()
    }
}

impl Eq for Text {
    ghost laws = { eq_by_cmp_equiv (lists_total nat_cmp_total) };
}

impl PartialOrd for Text {
    ghost partial_cmp = { as_partial_cmp name_cmp };

    ghost laws = { partial_order_from_own_ties (Prim.search (comparing, rules)) (Prim.search (comparing, rules)) };

    fn partial_cmp(&self, other: &Text) -> Option<Ordering> {
        Some(self.cmp(other))
    }
}

impl Ord for Text {
    ghost cmp = { name_cmp };

    ghost total = { lists_total nat_cmp_total };

    ghost matches_partial_cmp = { Prim.search (comparing, rules) };

    ghost matches_eq = { Prim.search (comparing, rules) };

    fn cmp(&self, other: &Text) -> Ordering {
        cmp_chars(self.text(), other.text())
    }
}

// How two texts stand, by the numbers of their characters.
fn cmp_chars(a: &str, b: &str) -> Ordering
    ensures { result ≡ name_cmp (chars a.now) (chars b.now) }
{
    a.chars().cmp(b.chars())
}
