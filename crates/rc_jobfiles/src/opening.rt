//! One job file.
ghost use Rattle.std.specs.Prelude.{◌≡◌, ◌⊎◌, ◌<◌, true, false, Some, None, Ok, Err, OnOk, IfOk, MatchResult};
ghost use Rattle.std.specs.FinMap.{get};
ghost use Rattle.rc_tree.specs.Name.{folded};
ghost use Rattle.rc_volume.specs.Faults.{RisesIf};
ghost use Rattle.rc_words.specs.Meaning.{words_of};
ghost use Rattle.rc_jobtext.specs.Decoding.{job_words};
ghost use Rattle.rc_jobfiles.specs.declared.job_err.JobErr.TheVariants.{NoMemory as OutOfMemory, StoreFault as Faulty};
ghost use Rattle.rc_jobfiles.specs.Reading.{job_failed};
ghost use Rattle.rc_jobfiles.specs.Resolving.{at_word, barred, found_settings, opened, settings_by, settings_in};

use crate::JobErr;
use crate::naming::is_among;
use rc_jobtext::{JobTextErr, job_words};
use rc_tree::Text;
use rc_volume::{JobStore, StoreErr};
use rc_words::{Placed, Words, WordsErr, read_words};
use std::alloc::Global;

// How many files are read at most.
const MOST_READINGS: u64 = 64;

/// Where a `/JOB:` stands.
#[derive(Clone, Copy)]
pub(crate) struct Naming<'a> {
    /// The file of its word, empty for the command line, and the word's number.
    pub file: &'a Text,
    pub place: u64,
    /// Whether its file would be the ninth within another.
    pub deep: bool,
}

/// The settings of the job file of a name, where it may be read behind so many others and within these.
pub(crate) fn open<J: JobStore>(
    alloc: Global,
    store: &mut J,
    at: Naming<'_>,
    chain: &[Text],
    name: &Text,
    begun: u64,
) -> Result<Vec<Placed>, JobErr>
    ensures opened { J.tells ≡ true → MatchResult result
        (λ s. opened at.entry.deep (J.files store.old)
        (at_word chain.now at.entry.file.now at.entry.place) name.now begun ≡ Ok s.items)
        (λ e. (opened at.entry.deep (J.files store.old)
        (at_word chain.now at.entry.file.now at.entry.place) name.now begun ≡ Err e)
        ⊎ (e ≡ OutOfMemory) ⊎ (e ≡ Faulty)) }
    ensures free { IfOk result (λ _. (at.entry.deep ≡ false) × (begun < 64)) }
    ensures same { J.tells ≡ true → J.files store.new ≡ J.files store.old }
    ensures cause { RisesIf (job_failed result) (J.faults store.old) (J.faults store.new) }
{
    match check(alloc, at, chain, name, begun) {
        Ok(()) => found(alloc, store, name),
        Err(e) => Err(e),
    }
}

// Whether a file may be read.
fn check(
    alloc: Global,
    at: Naming<'_>,
    chain: &[Text],
    name: &Text,
    begun: u64,
) -> Result<(), JobErr>
    ensures barred { MatchResult result
        (λ _. barred at.entry.deep
        (at_word chain.now at.entry.file.now at.entry.place) name.now begun ≡ None)
        (λ e. (barred at.entry.deep
        (at_word chain.now at.entry.file.now at.entry.place) name.now begun ≡ Some e)
        ⊎ (e ≡ OutOfMemory)) }
    ensures free { IfOk result (λ _. (at.entry.deep ≡ false) × (begun < 64)) }
    ensures no_fault { job_failed result ≡ false }
{
    if is_among(name, chain) {
        return Err(round(alloc, name));
    }
    if at.deep {
        return Err(deep(alloc, name));
    }
    if begun >= MOST_READINGS {
        return Err(usage(alloc, at.file, at.place, 14));
    }
    Ok(())
}

fn round(alloc: Global, name: &Text) -> JobErr
    ensures { (result ≡ JobErr.Round name.now) ⊎ (result ≡ OutOfMemory) }
{
    match name.copy(alloc) {
        Ok(name) => JobErr::Round { name },
        Err(_) => JobErr::NoMemory,
    }
}

fn deep(alloc: Global, name: &Text) -> JobErr
    ensures { (result ≡ JobErr.Deep name.now) ⊎ (result ≡ OutOfMemory) }
{
    match name.copy(alloc) {
        Ok(name) => JobErr::Deep { name },
        Err(_) => JobErr::NoMemory,
    }
}

fn missing(alloc: Global, name: &Text) -> JobErr
    ensures { (result ≡ JobErr.Missing name.now) ⊎ (result ≡ OutOfMemory) }
{
    match name.copy(alloc) {
        Ok(name) => JobErr::Missing { name },
        Err(_) => JobErr::NoMemory,
    }
}

/// The refusal of a word of a file.
pub(crate) fn usage(alloc: Global, file: &Text, place: u64, kind: u8) -> JobErr
    ensures { (result ≡ JobErr.Usage file.now place kind) ⊎ (result ≡ OutOfMemory) }
{
    match file.copy(alloc) {
        Ok(file) => JobErr::Usage { file, place, kind },
        Err(_) => JobErr::NoMemory,
    }
}

// The settings of a file.
fn found<J: JobStore>(alloc: Global, store: &mut J, name: &Text) -> Result<Vec<Placed>, JobErr>
    ensures found { J.tells ≡ true → MatchResult result
        (λ s. found_settings name.now (get (J.files store.old) (folded name.now)) ≡ Ok s.items)
        (λ e. (found_settings name.now (get (J.files store.old) (folded name.now)) ≡ Err e)
        ⊎ (e ≡ OutOfMemory) ⊎ (e ≡ Faulty)) }
    ensures same { J.tells ≡ true → J.files store.new ≡ J.files store.old }
    ensures cause { RisesIf (job_failed result) (J.faults store.old) (J.faults store.new) }
{
    match store.read(alloc, name) {
        Ok(Some(bytes)) => settings_in(alloc, name, &bytes),
        Ok(None) => Err(missing(alloc, name)),
        Err(StoreErr::Failed) => Err(JobErr::StoreFault),
        Err(StoreErr::NoMemory) => Err(JobErr::NoMemory),
    }
}

// The settings of a file of these bytes.
fn settings_in(alloc: Global, name: &Text, bytes: &[u8]) -> Result<Vec<Placed>, JobErr>
    ensures settings { MatchResult result
        (λ s. settings_in name.now (job_words bytes.now) ≡ Ok s.items)
        (λ e. (settings_in name.now (job_words bytes.now) ≡ Err e) ⊎ (e ≡ OutOfMemory)) }
    ensures no_fault { job_failed result ≡ false }
{
    match job_words(alloc, bytes) {
        Ok(words) => settings_by(alloc, name, read_words(alloc, &words, true)),
        Err(JobTextErr::BadText { place }) => Err(usage(alloc, name, place, 13)),
        Err(JobTextErr::NoMemory) => Err(JobErr::NoMemory),
    }
}

/// What words of a file give that were read.
pub(crate) fn settings_by(
    alloc: Global,
    file: &Text,
    read: Result<Words, WordsErr>,
) -> Result<Vec<Placed>, JobErr>
    ensures settings { MatchResult result
        (λ s. settings_by file.now read ≡ Ok s.items)
        (λ e. (settings_by file.now read ≡ Err e) ⊎ (e ≡ OutOfMemory)) }
    ensures no_fault { job_failed result ≡ false }
{
    match read {
        Ok(words) => Ok(words.into_settings()),
        Err(WordsErr::Usage { place, kind }) => Err(usage(alloc, file, place, kind)),
        Err(WordsErr::NoMemory) => Err(JobErr::NoMemory),
    }
}
