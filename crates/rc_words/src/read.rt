//! Reading a list of words.
ghost use Rattle.std.specs.Prelude.{◌≡◌, ◌+◌, ◌⊎◌, ◌&&◌, Err, chars, min, option_map};
ghost use Rattle.rc_words.specs.declared.setting.WordsErr.TheVariants.{NoMemory as OutOfMemory};
ghost use Rattle.rc_words.specs.declared.values.Fault.TheVariants.{NoMemory as FaultOfMemory};
ghost use Rattle.rc_words.specs.Meaning.{words_of, goes_on, has_number, is_list, list_of, listed_meaning, loose_meaning, once, reading_meaning, root_number, single_by, some_setting, spelled, stands, usage_at};
ghost use Rattle.rc_words.specs.Shown.{as_spelled};
ghost use Rattle.rc_words.specs.Spelling.{is_switch};

use crate::spelling::{Found, Reading, is_switch, spelled};
use crate::table::Value;
use crate::values::{Fault, exclude_dir, exclude_file, file, needed, source, target};
use crate::{Placed, Setting, Word, Words, WordsErr};
use std::alloc::Global;

// The numbers of `/NOSD` and `/NODD`.
const NO_SOURCE: u8 = 2;

const NO_TARGET: u8 = 3;

/// The settings that words give, in the order of the words, or why the first word that is refused is. `in_file` says
/// that they are those of a job file, where a word of no switch is a pattern of files, a list may have no word, and
/// `/SAVE:`, `/QUIT` and `/DROP` are not known; on a command line the first two such words are the roots.
#[tactic(auto, unfolding(crate::specs::Meaning::words_of))]
pub fn read_words(alloc: Global, words: &[Word], in_file: bool) -> Result<Words, WordsErr>
    ensures { (result ≡ words_of in_file words.now) ⊎ (result ≡ Err OutOfMemory) }
{
    let mut reader = Reader::new(words, in_file);
    let mut settings = Vec::new(alloc);
    let mut place = 0;
    let mut rest = words;
    'words: while let [word, after @ ..] = rest {
        place += 1;
        match reader.take(alloc, word, after) {
            Ok(Some(setting)) => settings.push(Placed { place, setting })?,
            Ok(None) => {}
            Err(fault) => return Err(usage_at(place, fault)),
        }
        rest = after;
    }
    Ok(Words::new(settings))
}

fn usage_at(place: u64, fault: Fault) -> WordsErr
    ensures { result ≡ usage_at place fault }
{
    match fault {
        Fault::Kind(kind) => WordsErr::Usage { place, kind },
        Fault::NoMemory => WordsErr::NoMemory,
    }
}

// What the words before one decide of it.
#[derive(Drop)]
struct Reader {
    in_file: bool,
    // Whether `/NOSD` and `/NODD` stand among all words.
    no_source: bool,
    no_target: bool,
    // The list that a word belongs to that is no switch.
    list: Option<Value>,
    // How many words belong to no switch, two or more as two.
    loose: u8,
    // Which single settings were given, by their numbers.
    given: [bool; 72],
}

impl Reader {
    ghost use Rattle.rc_words.specs.Reader.{Below, NumberFits, again_by, fresh, passed, raw_by, read_by, root_by, single_from, spelled_by};

    fn new(words: &[Word], in_file: bool) -> Reader
        ensures { result ≡ fresh in_file words.now }
    {
        Reader {
            in_file,
            no_source: stands(words, in_file, NO_SOURCE),
            no_target: stands(words, in_file, NO_TARGET),
            list: None,
            loose: 0,
            given: [false; 72],
        }
    }

    // What the next word means. The reader goes on behind it.
    fn take(&mut self, alloc: Global, word: &Word, after: &[Word]) -> Result<Option<Setting>, Fault>
        ensures means { let s = spelled_by self.old word.now in
            (result ≡ read_by self.old word.now s after.now) ⊎ (result ≡ Err FaultOfMemory) }
        ensures goes_on { self.new ≡ passed self.old word.now (spelled_by self.old word.now) }
    {
        let found = self.spelled(word);
        let read = self.read(alloc, word, found, after);
        self.pass(word, found);
        read
    }

    fn spelled<'a>(&self, word: &'a Word) -> Option<Found<'a>>
        ensures { option_map as_spelled result ≡ spelled_by self.now word.now }
    {
        if is_switch(word) {
            spelled(word, self.in_file)
        } else {
            None
        }
    }

    // What a word means.
    fn read(
        &self,
        alloc: Global,
        word: &Word,
        found: Option<Found<'_>>,
        after: &[Word],
    ) -> Result<Option<Setting>, Fault>
        requires { NumberFits (option_map as_spelled found) }
        ensures { let s = option_map as_spelled found.entry in
            (result ≡ read_by self.now word.now s after.now) ⊎ (result ≡ Err FaultOfMemory) }
    {
        let again = self.is_given(self.single(word, found));
        once(again, self.raw(alloc, word, found, after))
    }

    // The same, where each setting may stand more than once.
    fn raw(
        &self,
        alloc: Global,
        word: &Word,
        found: Option<Found<'_>>,
        after: &[Word],
    ) -> Result<Option<Setting>, Fault>
        ensures { let s = option_map as_spelled found.entry in
            (result ≡ raw_by self.now word.now s after.now) ⊎ (result ≡ Err FaultOfMemory) }
    {
        if is_switch(word) {
            return match found {
                Some(found) => switch(alloc, self.in_file, found, after),
                None => Err(Fault::Kind(1)),
            };
        }
        let text = word.text.text();
        match self.list {
            Some(list) => some_setting(listed(alloc, list, text)),
            None => some_setting(loose(alloc, self.root(), text)),
        }
    }

    // The root in whose place the next loose word stands.
    fn root(&self) -> Option<Value>
        ensures { result ≡ root_by self.now }
    {
        if self.in_file {
            return None;
        }
        let first_target = if self.no_source { 0 } else { 1 };
        if !self.no_source && self.loose == 0 {
            Some(Value::Source)
        } else if !self.no_target && self.loose == first_target {
            Some(Value::Target)
        } else {
            None
        }
    }

    // The number of the single setting that a word gives.
    fn single(&self, word: &Word, found: Option<Found<'_>>) -> Option<u8>
        requires { NumberFits (option_map as_spelled found) }
        ensures same { result ≡ single_from self.now word.now (option_map as_spelled found.entry) }
        ensures bound { Below result }
    {
        if is_switch(word) {
            return single_by(found);
        }
        match self.list {
            Some(_) => None,
            None => root_number(self.root()),
        }
    }

    // Whether a single setting was given before.
    fn is_given(&self, number: Option<u8>) -> bool
        requires { Below number }
        ensures { result ≡ again_by self.now.given number }
    {
        match number {
            Some(number) => self.given[number as usize],
            None => false,
        }
    }

    // Goes on behind a word.
    fn pass(&mut self, word: &Word, found: Option<Found<'_>>)
        requires { NumberFits (option_map as_spelled found) }
        ensures { self.new ≡ passed self.old word.now (option_map as_spelled found.entry) }
    {
        if let Some(number) = self.single(word, found) {
            self.given[number as usize] = true;
        }
        if is_switch(word) {
            self.list = list_of(found);
        } else if self.list.is_none() {
            self.loose = one_more(self.loose);
        }
    }
}

// One word more, two or more as two.
fn one_more(loose: u8) -> u8
    ensures { result ≡ min 2 (loose + 1) }
{
    if loose < 2 { loose + 1 } else { 2 }
}

// A single setting that was given before is refused.
fn once(again: bool, read: Result<Option<Setting>, Fault>) -> Result<Option<Setting>, Fault>
    ensures { result ≡ once again read }
{
    match read {
        Ok(setting) if !again => Ok(setting),
        Ok(_) => Err(Fault::Kind(8)),
        Err(fault) => Err(fault),
    }
}

fn some_setting(read: Result<Setting, Fault>) -> Result<Option<Setting>, Fault>
    ensures { result ≡ some_setting read }
{
    match read {
        Ok(setting) => Ok(Some(setting)),
        Err(fault) => Err(fault),
    }
}

fn switch(
    alloc: Global,
    in_file: bool,
    found: Found<'_>,
    after: &[Word],
) -> Result<Option<Setting>, Fault>
    ensures { let s = as_spelled found.entry in
        (result ≡ reading_meaning in_file after.now s.number s.value s.reading)
        ⊎ (result ≡ Err FaultOfMemory) }
{
    let number = found.number;
    match found.reading {
        Reading::Bare => Err(Fault::Kind(2)),
        Reading::Behind(text) => some_setting(needed(alloc, number, found.value, text)),
        Reading::Plain if !is_list(found.value) => Ok(Some(Setting::Switch { number })),
        Reading::Plain if in_file || goes_on(after) => Ok(None),
        Reading::Plain => Err(Fault::Kind(2)),
    }
}

fn stands(words: &[Word], in_file: bool, number: u8) -> bool
    ensures { result ≡ stands in_file number words.now }
{
    words.iter().any(|word| spells(word, in_file, number))
}

fn spells(word: &Word, in_file: bool, number: u8) -> bool
    ensures { result ≡ (is_switch word.now && has_number number (spelled in_file word.now)) }
{
    if !is_switch(word) {
        return false;
    }
    match spelled(word, in_file) {
        Some(found) => found.number == number,
        None => false,
    }
}

fn is_list(value: Value) -> bool
    ensures { result ≡ is_list value }
{
    matches!(
        value,
        Value::Files | Value::ExcludeFiles | Value::ExcludeDirs
    )
}

fn list_of(found: Option<Found<'_>>) -> Option<Value>
    ensures { result ≡ list_of (option_map as_spelled found.entry) }
{
    match found {
        Some(found) if is_list(found.value) => Some(found.value),
        _ => None,
    }
}

// Whether the next word is no switch.
fn goes_on(after: &[Word]) -> bool
    ensures { result ≡ goes_on after.now }
{
    match after {
        [] => false,
        [next, ..] => !is_switch(next),
    }
}

fn single_by(found: Option<Found<'_>>) -> Option<u8>
    ensures { result ≡ single_by (option_map as_spelled found.entry) }
{
    match found {
        Some(found) => match (found.value, found.reading) {
            (Value::JobFile, _) => None,
            (_, Reading::Behind(_)) => Some(found.number),
            _ => None,
        },
        None => None,
    }
}

fn root_number(root: Option<Value>) -> Option<u8>
    ensures { result ≡ root_number root }
{
    match root {
        Some(Value::Source) => Some(0),
        Some(Value::Target) => Some(1),
        _ => None,
    }
}

fn listed(alloc: Global, list: Value, text: &str) -> Result<Setting, Fault>
    ensures { (result ≡ listed_meaning list (chars text.now)) ⊎ (result ≡ Err FaultOfMemory) }
{
    match list {
        Value::ExcludeFiles => exclude_file(alloc, text),
        Value::ExcludeDirs => exclude_dir(alloc, text),
        _ => file(alloc, text),
    }
}

fn loose(alloc: Global, place: Option<Value>, text: &str) -> Result<Setting, Fault>
    ensures { (result ≡ loose_meaning place (chars text.now)) ⊎ (result ≡ Err FaultOfMemory) }
{
    match place {
        Some(Value::Source) => source(alloc, text),
        Some(Value::Target) => target(alloc, text),
        _ => file(alloc, text),
    }
}
