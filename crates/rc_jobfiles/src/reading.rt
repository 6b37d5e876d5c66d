//! Lists of words with the job files that they name.
ghost use Rattle.std.specs.Prelude.{◌≡◌, ◌⊎◌, ◌+◌, ◌-◌, ◌<◌, true, false, [], ◌∷◌, ◌++◌, OnOk, is_none, length, option_map, take};
ghost use Rattle.rc_volume.specs.Faults.{RisesIf};
ghost use Rattle.rc_jobfiles.specs.Reading.{Passes, Reads, job_failed, ranked, ranked_files};
ghost use Rattle.rc_jobfiles.specs.Resolving.{file_gathered, gathered, named, names_none};

use crate::JobErr;
use crate::listed::{ListValues, OwnSettings};
use crate::naming::full_name;
use crate::opening::{Naming, open};
use rc_tree::{NoMemory, Text};
use rc_volume::JobStore;
use rc_words::{Placed, Setting};
use std::alloc::Global;

/// What has been read so far.
#[derive(Debug, Drop)]
pub(crate) struct Progress {
    /// The files that are being read, the outermost first.
    pub chain: Vec<Text>,
    /// How many files were read.
    pub begun: u64,
    /// The values of lists, in the order of the words.
    pub values: ListValues,
    /// The settings of each list of words, in an order in which each wins over those before it.
    pub lists: Vec<OwnSettings>,
}

impl Progress {
    pub(crate) fn new(alloc: Global) -> Progress
        ensures chain { result.chain.items ≡ [] }
        ensures begun { result.begun ≡ 0 }
        ensures files { result.values.files.items ≡ [] }
        ensures excluded_files { result.values.excluded_files.items ≡ [] }
        ensures excluded_dirs { result.values.excluded_dirs.items ≡ [] }
        ensures lists { result.lists.items ≡ [] }
    {
        Progress {
            chain: Vec::new(alloc),
            begun: 0,
            values: ListValues::new(alloc),
            lists: Vec::new(alloc),
        }
    }

    // A file is read within the others.
    fn enter(&mut self, alloc: Global, name: &Text) -> Result<(), NoMemory>
        requires { self.old.begun < 64 }
        ensures chain { OnOk result (self.new.chain.items ≡ self.old.chain.items ++ name.now ∷ []) }
        ensures begun { OnOk result (self.new.begun ≡ self.old.begun + 1) }
        ensures values { self.new.values ≡ self.old.values }
        ensures lists { self.new.lists ≡ self.old.lists }
    {
        self.chain.push(name.copy(alloc)?)?;
        self.begun += 1;
        Ok(())
    }

    // The file that was entered last was read.
    fn leave(&mut self)
        ensures chain { self.new.chain.items
            ≡ take (length self.old.chain.items - 1) self.old.chain.items }
        ensures begun { self.new.begun ≡ self.old.begun }
        ensures values { self.new.values ≡ self.old.values }
        ensures lists { self.new.lists ≡ self.old.lists }
    {
        self.chain.pop();
    }

    // A list of words was read, with the files that it names.
    fn end_list(&mut self, settings: Vec<Placed>) -> Result<(), NoMemory>
        ensures chain { self.new.chain ≡ self.old.chain }
        ensures begun { self.new.begun ≡ self.old.begun }
        ensures values { self.new.values ≡ self.old.values }
        ensures lists { OnOk result
            (self.new.lists.items ≡ self.old.lists.items ++ settings.items ∷ []) }
    {
        self.lists.push(OwnSettings::new(settings))?;
        Ok(())
    }
}

/// Reads the files that a list of words names, in the order of its words. There is room for so many within one another.
#[cycle(reading)]
pub(crate) fn read_list<J: JobStore>(
    alloc: Global,
    store: &mut J,
    room: u8,
    file: &Text,
    settings: Vec<Placed>,
    progress: &mut Progress,
) -> Result<(), JobErr>
    ensures reads { (J.tells ≡ true) ⊎ (names_none settings.items ≡ true) → Reads result
        (gathered (file_gathered room (J.files store.old) progress.old.chain.items file.now)
        settings.items progress.old.begun)
        (λ g. Passes progress.old progress.new (ranked g.parts) g) }
    ensures alone { names_none settings.items ≡ true →
        (store.new ≡ store.old) × (job_failed result ≡ false) }
    ensures same { J.tells ≡ true → J.files store.new ≡ J.files store.old }
    ensures cause { RisesIf (job_failed result) (J.faults store.old) (J.faults store.new) }
{
    let mut rest = settings.as_slice();
    'settings: while let [placed, later @ ..] = rest {
        match read_part(alloc, store, room, file, placed, progress) {
            Ok(()) => {}
            Err(e) => return Err(e),
        }
        rest = later;
    }
    match progress.end_list(settings) {
        Ok(()) => Ok(()),
        Err(_) => Err(JobErr::NoMemory),
    }
}

// One setting of a list: the value that it gives of a list, or the file that it names.
#[cycle(reading)]
fn read_part<J: JobStore>(
    alloc: Global,
    store: &mut J,
    room: u8,
    file: &Text,
    placed: &Placed,
    progress: &mut Progress,
) -> Result<(), JobErr>
    ensures reads { (J.tells ≡ true) ⊎ (is_none (named placed.now.setting) ≡ true) → Reads result
        (gathered (file_gathered room (J.files store.old) progress.old.chain.items file.now)
        (placed.now ∷ []) progress.old.begun)
        (λ g. Passes progress.old progress.new (ranked_files g.parts) g) }
    ensures alone { is_none (named placed.now.setting) ≡ true →
        (store.new ≡ store.old) × (job_failed result ≡ false) }
    ensures same { J.tells ≡ true → J.files store.new ≡ J.files store.old }
    ensures cause { RisesIf (job_failed result) (J.faults store.old) (J.faults store.new) }
{
    match named(&placed.setting) {
        Some(word) => match full_name(alloc, word) {
            Ok(name) => read_file(alloc, store, room, file, placed.place, name, progress),
            Err(_) => Err(JobErr::NoMemory),
        },
        None => match progress.values.join(alloc, placed) {
            Ok(()) => Ok(()),
            Err(_) => Err(JobErr::NoMemory),
        },
    }
}

// The name of the file that a setting names.
fn named(setting: &Setting) -> Option<&Text>
    ensures { option_map (λ name. name.now) result ≡ named setting.now }
{
    match setting {
        Setting::JobFile(name) => Some(name),
        _ => None,
    }
}

// A file that a word of another names, or of the command line.
#[cycle(reading)]
fn read_file<J: JobStore>(
    alloc: Global,
    store: &mut J,
    room: u8,
    file: &Text,
    place: u64,
    name: Text,
    progress: &mut Progress,
) -> Result<(), JobErr>
    ensures reads { J.tells ≡ true → Reads result
        (file_gathered room (J.files store.old) progress.old.chain.items file.now place name
        progress.old.begun)
        (λ g. Passes progress.old progress.new (ranked g.parts) g) }
    ensures same { J.tells ≡ true → J.files store.new ≡ J.files store.old }
    ensures cause { RisesIf (job_failed result) (J.faults store.old) (J.faults store.new) }
{
    let at = Naming {
        file,
        place,
        deep: room == 0,
    };
    match open(alloc, store, at, &progress.chain, &name, progress.begun) {
        Ok(settings) => read_opened(alloc, store, room, name, settings, progress),
        Err(e) => Err(e),
    }
}

// A file whose settings were read.
#[cycle(reading)]
fn read_opened<J: JobStore>(
    alloc: Global,
    store: &mut J,
    room: u8,
    name: Text,
    settings: Vec<Placed>,
    progress: &mut Progress,
) -> Result<(), JobErr>
    requires { (0 < room) × (progress.old.begun < 64) }
    ensures reads { J.tells ≡ true → Reads result
        (gathered (file_gathered (room - 1) (J.files store.old)
        (progress.old.chain.items ++ name ∷ []) name)
        settings.items (progress.old.begun + 1))
        (λ g. Passes progress.old progress.new (ranked g.parts) g) }
    ensures same { J.tells ≡ true → J.files store.new ≡ J.files store.old }
    ensures cause { RisesIf (job_failed result) (J.faults store.old) (J.faults store.new) }
{
    match progress.enter(alloc, &name) {
        Ok(()) => match read_list(alloc, store, room - 1, &name, settings, progress) {
            Ok(()) => {
                progress.leave();
                Ok(())
            }
            Err(e) => Err(e),
        },
        Err(_) => Err(JobErr::NoMemory),
    }
}
