//! What one argument asks for.

ghost use Rattle.std.specs.Prelude.{◌≡◌, ◌==◌, map, option_map, IfOk};
ghost use Rattle.std.specs.Char.{to_ascii_lowercase};
ghost use Rattle.std.specs.Str.{bytes_eq};
ghost use Rattle.rc_drillwords.specs.Arguments.{call_in, call_word, generate_word, is_named, last_times, number_in, reading_by, reading_of, reads_by, reads_in, reads_word};

use crate::values::{cut, number_of, part_of, path_of};
use rc_tree::{NoMemory, Path};
use rc_volume::Part;
use std::alloc::Global;

/// A call that fails: its part, and its number on it from 1.
#[derive(Clone, Copy, Debug)]
pub struct FailingCall {
    pub part: Part,
    pub number: u64,
}

/// Reads that fail: of the file at a path, so many attempts.
#[derive(Debug, Drop)]
pub struct FailingReads {
    pub path: Path,
    pub times: u32,
}

/// What an argument asks for.
#[derive(Debug, Drop)]
pub enum Reading {
    /// It is a word of the run.
    OfRun,
    /// It has the name of a drill word, and is spelled otherwise, or asks for what is not built yet.
    Bad,
    /// The site that is generated from a number.
    Generate(u64),
    /// A call fails.
    FailCall(FailingCall),
    /// Reads fail.
    FailReads(FailingReads),
}

/// What an argument asks for.
#[tactic(auto, unfolding(crate::specs::Arguments::reading_of))]
pub(crate) fn reading_of(alloc: Global, argument: &str) -> Result<Reading, NoMemory>
    ensures { IfOk result (λ reading. reading ≡ reading_of argument.now) }
{
    match argument.strip_prefix('/') {
        Some(word) => match cut(word) {
            Some((name, value)) => reading_by(alloc, name, Some(value)),
            None => reading_by(alloc, word, None),
        },
        None => Ok(Reading::OfRun),
    }
}

// By the name of a switch, and what stands behind its colon.
fn reading_by(alloc: Global, name: &str, value: Option<&str>) -> Result<Reading, NoMemory>
    ensures { IfOk result
        (λ reading. reading ≡ reading_by name.now (option_map (λ v. v.now) value.entry)) }
{
    if is_named(name, "GEN") {
        Ok(generate_word(value))
    } else if is_named(name, "FAIL") {
        Ok(call_word(value))
    } else if is_named(name, "FAILREAD") {
        reads_word(alloc, value)
    } else if is_named(name, "STOP") {
        Ok(Reading::Bad)
    } else {
        Ok(Reading::OfRun)
    }
}

// Whether a name is this one, in capital or small letters.
fn is_named(name: &str, wanted: &str) -> bool
    ensures { result ≡ is_named wanted.now name.now }
{
    name.eq_ignore_ascii_case(wanted)
}

fn generate_word(value: Option<&str>) -> Reading
    ensures { result ≡ generate_word (option_map (λ v. v.now) value.entry) }
{
    let Some(text) = value else {
        return Reading::Bad;
    };
    match number_of(text, u64::MAX) {
        Some(number) => Reading::Generate(number),
        None => Reading::Bad,
    }
}

fn call_word(value: Option<&str>) -> Reading
    ensures { result ≡ call_word (option_map (λ v. v.now) value.entry) }
{
    let Some(text) = value else {
        return Reading::Bad;
    };
    match call_of(text) {
        Some(call) => Reading::FailCall(call),
        None => Reading::Bad,
    }
}

// The call that a part and a number name.
fn call_of(text: &str) -> Option<FailingCall>
    ensures { result ≡ call_in text.now }
{
    let Some((part, number)) = cut(text) else {
        return None;
    };
    let Some(part) = part_of(part) else {
        return None;
    };
    match number_of(number, u64::MAX) {
        Some(number) if number != 0 => Some(FailingCall { part, number }),
        _ => None,
    }
}

fn reads_word(alloc: Global, value: Option<&str>) -> Result<Reading, NoMemory>
    ensures { IfOk result
        (λ reading. reading ≡ reads_word (option_map (λ v. v.now) value.entry)) }
{
    let Some(text) = value else {
        return Ok(Reading::Bad);
    };
    match reads_of(alloc, text) {
        Ok(Some(reads)) => Ok(Reading::FailReads(reads)),
        Ok(None) => Ok(Reading::Bad),
        Err(e) => Err(e),
    }
}

// The reads that a path and a number of attempts name.
fn reads_of(alloc: Global, text: &str) -> Result<Option<FailingReads>, NoMemory>
    ensures { IfOk result (λ reads. reads ≡ reads_in text.now) }
{
    let Some((path, times)) = cut(text) else {
        return Ok(None);
    };
    match path_of(alloc, path) {
        Ok(path) => Ok(reads_by(path, times_of(times))),
        Err(e) => Err(e),
    }
}

fn times_of(text: &str) -> Option<u32>
    ensures { result ≡ number_in last_times text.now }
{
    match number_of(text, u64::from(u32::MAX)) {
        Some(times) => Some(times as u32),
        None => None,
    }
}

fn reads_by(path: Option<Path>, times: Option<u32>) -> Option<FailingReads>
    ensures { result ≡ reads_by path times }
{
    match (path, times) {
        (Some(path), Some(times)) => Some(FailingReads { path, times }),
        _ => None,
    }
}
