//! A text under construction, character by character.
ghost use Rattle.std.specs.Prelude.{◌≡◌, ◌∷◌, [], ◌++◌, ◌<◌, ◌^◌, IfOk, OnOk, true, chars, decimal, length, ◌==◌};
ghost use Rattle.std.specs.Char.{is_ascii};
ghost use Rattle.std.specs.List.{list_all};

use rc_tree::{NoMemory, Text};
use std::alloc::Global;
use std::fmt::Write;
use std::marker::Model;

// Characters that are written so far. A call that finds no memory may leave a part of what it writes.
#[derive(Drop)]
pub(crate) struct Lines {
    text: String,
}

impl Model for Lines {
    ghost use Rattle.std.specs.Prelude.{List, ℕ, chars, string_bytes};

    ghost Value = { List ℕ };

    ghost view = { λ t. chars (string_bytes t.text) };
}

impl Lines {
    pub(crate) fn new(alloc: Global) -> Lines
        ensures { result ≡ [] }
    {
        Lines {
            text: String::new(alloc),
        }
    }

    pub(crate) fn is_empty(&self) -> bool
        ensures { result ≡ (length self.now == 0) }
    {
        self.text.as_str().is_empty()
    }

    // Appends a character of ASCII.
    pub(crate) fn push(&mut self, c: char) -> Result<(), NoMemory>
        requires { c < 128 }
        ensures { OnOk result (self.new ≡ self.old ++ c ∷ []) }
    {
        self.text.push(c)?;
        Ok(())
    }

    // Appends what is written in a program, as a switch.
    pub(crate) fn push_name(&mut self, name: &str) -> Result<(), NoMemory>
        requires { list_all is_ascii name.now ≡ true }
        ensures { OnOk result (self.new ≡ self.old ++ name.now) }
    {
        self.text.push_str(name)?;
        Ok(())
    }

    // Appends what a user wrote.
    pub(crate) fn push_text(&mut self, text: &str) -> Result<(), NoMemory>
        ensures { OnOk result (self.new ≡ self.old ++ chars text.now) }
    {
        self.text.push_str(text)?;
        Ok(())
    }

    pub(crate) fn push_number(&mut self, number: u64) -> Result<(), NoMemory>
        ensures { OnOk result (self.new ≡ self.old ++ decimal number) }
    {
        write!(self.text, "{number}")?;
        Ok(())
    }

    // Appends the other text, which is read.
    pub(crate) fn push_lines(&mut self, other: &Lines) -> Result<(), NoMemory>
        ensures { OnOk result (self.new ≡ self.old ++ other.now) }
    {
        self.text.push_str(other.text.as_str())?;
        Ok(())
    }

    pub(crate) fn into_text(self, alloc: Global) -> Result<Text, NoMemory>
        ensures { IfOk result (λ text. text ≡ self) }
    {
        let Lines { text } = self;
        Text::of(alloc, text.as_str())
    }
}
