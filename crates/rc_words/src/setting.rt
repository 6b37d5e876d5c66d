//! Words, and the settings that they give.
ghost use Rattle.std.specs.Prelude.{◌≡◌};
ghost use Rattle.rc_words.specs.declared.setting.WordsErr.TheVariants.{NoMemory as OutOfMemory};

use rc_job::{CopyFlags, DirectoryFlags, Exclude};
use rc_tree::{Attr, NoMemory, Scan, Text};
use rc_wild::Pattern;
use std::alloc::AllocFailed;
use std::marker::Model;
use thiserror::Error;

/// A word of a command line or of a job file.
#[derive(Debug, Drop)]
pub struct Word {
    pub text: Text,
    /// Its first character was a quote, so it is no switch. It is false for the words of a command line.
    pub quoted: bool,
}

/// What a word gives. The `number` of a switch is its place in the switch table, row by row and from left to right.
#[derive(Debug, Drop)]
pub enum Setting {
    /// `/SD:`, or the word in its place.
    Source(Text),
    /// `/DD:`, or the word in its place.
    Target(Text),
    /// A value of `/IF`, or a word that belongs to no switch.
    File(Pattern),
    /// A value of `/XF`.
    ExcludeFile(Exclude),
    /// A value of `/XD`.
    ExcludeDir(Exclude),
    /// A switch without a value.
    Switch { number: u8 },
    /// `/COPY:`.
    Copy(CopyFlags),
    /// `/DCOPY:`.
    Directory(DirectoryFlags),
    /// `/A+:`, `/A-:`, `/IA:` or `/XA:`; in the first two only the letters that have an effect.
    Attributes { number: u8, attr: Attr },
    /// A number in its range.
    Number { number: u8, value: u64 },
    /// `/SCAN:`.
    Scanning(Scan),
    /// `/JOB:`, which is read in this place.
    JobFile(Text),
    /// `/SAVE:`.
    Save(Text),
}

/// A setting and the number of its word, from 1.
#[derive(Debug, Drop)]
pub struct Placed {
    pub place: u64,
    pub setting: Setting,
}

/// The settings of a list of words, in their order. Contracts see the list.
#[derive(Debug, Drop)]
pub struct Words {
    settings: Vec<Placed>,
}

impl Model for Words {
    ghost use Rattle.std.specs.Prelude.{List};
    ghost use Rattle.rc_words.specs.declared.setting.Placed.{Placed};

    ghost Value = { List Placed };

    ghost view = { λ w. w.settings.items };
}

impl Words {
    /// These settings.
    pub(crate) fn new(settings: Vec<Placed>) -> Words
        ensures { result ≡ settings.items }
    {
        Words { settings }
    }

    /// The settings, in the order of their words.
    pub fn settings(&self) -> &[Placed]
        ensures { result.now ≡ self.now }
    {
        self.settings.as_slice()
    }

    /// The settings, without taking memory.
    pub fn into_settings(self) -> Vec<Placed>
        ensures { result.items ≡ self }
    {
        let Words { settings } = self;
        settings
    }
}

/// Why words are refused: the first word that is, by its number from 1, and the kind of the refusal, of which the
/// switch table's text says when it comes. Want of memory may come in place of it.
#[derive(Clone, Copy, Debug, PartialEq, Eq, Error)]
pub enum WordsErr {
    #[error("usage U{kind} at word {place}")]
    Usage { place: u64, kind: u8 },
    #[error("out of memory")]
    NoMemory,
}

impl From<NoMemory> for WordsErr {
    ghost from_gives = { λ _ e. e ≡ OutOfMemory };

    fn from(_: NoMemory) -> Self {
        WordsErr::NoMemory
    }
}

impl<T: Drop> From<AllocFailed<T>> for WordsErr {
    ghost from_gives = { λ _ e. e ≡ OutOfMemory };

    fn from(_: AllocFailed<T>) -> Self {
        WordsErr::NoMemory
    }
}
