//! The text that the bytes of a job file are.
ghost use Rattle.std.specs.Prelude.{◌≡◌, ◌⊎◌, Ok, Err, Some, None, IfOk, MatchOption, MatchResult, chars, string_bytes};
ghost use Rattle.rc_jobtext.specs.declared.reading.JobTextErr.TheVariants.{NoMemory as OutOfMemory};
ghost use Rattle.rc_jobtext.specs.Decoding.{behind_mark, job_words, narrow_text, units_in, wide_text, words_by};
ghost use Rattle.rc_jobtext.specs.Lexing.{words_in};

use crate::JobTextErr;
use crate::lexing::words_in;
use rc_tree::NoMemory;
use rc_words::Word;
use std::alloc::Global;

// The marks of UTF-16, the least byte first, and of UTF-8.
const WIDE_MARK: [u8; 2] = [0xFF, 0xFE];

const NARROW_MARK: [u8; 3] = [0xEF, 0xBB, 0xBF];

/// The words of a job file of these bytes: UTF-16 behind the mark FF FE, else UTF-8, with or without the mark EF BB BF.
#[tactic(auto, unfolding(crate::specs::Decoding::job_words))]
pub fn job_words(alloc: Global, bytes: &[u8]) -> Result<Vec<Word>, JobTextErr>
    ensures { MatchResult result
        (λ words. job_words bytes.now ≡ Ok words.items)
        (λ e. (job_words bytes.now ≡ Err e) ⊎ (e ≡ OutOfMemory)) }
{
    match behind_mark(&WIDE_MARK, bytes) {
        Some(wide) => wide_words(alloc, wide),
        None => match behind_mark(&NARROW_MARK, bytes) {
            Some(narrow) => narrow_words(alloc, narrow),
            None => narrow_words(alloc, bytes),
        },
    }
}

// What stands behind a mark.
fn behind_mark<'a>(mark: &[u8], bytes: &'a [u8]) -> Option<&'a [u8]>
    ensures { let behind = behind_mark mark.now bytes.now in
        MatchOption result (behind ≡ None) (λ rest. behind ≡ Some rest.now) }
{
    let mut left = mark;
    let mut rest = bytes;
    'mark: while let [byte, later @ ..] = left {
        match rest {
            [first, behind @ ..] if first == byte => rest = behind,
            _ => return None,
        }
        left = later;
    }
    Some(rest)
}

// The words of UTF-8.
fn narrow_words(alloc: Global, bytes: &[u8]) -> Result<Vec<Word>, JobTextErr>
    ensures { let is = words_by (narrow_text bytes.now) in MatchResult result
        (λ words. is ≡ Ok words.items)
        (λ e. (is ≡ Err e) ⊎ (e ≡ OutOfMemory)) }
{
    match narrow_text(bytes) {
        Some(text) => text_words(alloc, text),
        None => Err(JobTextErr::BadText { place: 1 }),
    }
}

fn narrow_text(bytes: &[u8]) -> Option<&str>
    ensures { MatchOption result
        (narrow_text bytes.now ≡ None)
        (λ text. narrow_text bytes.now ≡ Some (chars text.now)) }
{
    match str::from_utf8(bytes) {
        Ok(text) => Some(text),
        Err(_) => None,
    }
}

// The words of UTF-16.
fn wide_words(alloc: Global, bytes: &[u8]) -> Result<Vec<Word>, JobTextErr>
    ensures { let is = words_by (wide_text (units_in bytes.now)) in MatchResult result
        (λ words. is ≡ Ok words.items)
        (λ e. (is ≡ Err e) ⊎ (e ≡ OutOfMemory)) }
{
    match units_in(alloc, bytes) {
        Ok(Some(units)) => unit_words(alloc, &units),
        Ok(None) => Err(JobTextErr::BadText { place: 1 }),
        Err(_) => Err(JobTextErr::NoMemory),
    }
}

// The words of units of UTF-16.
fn unit_words(alloc: Global, units: &[u16]) -> Result<Vec<Word>, JobTextErr>
    ensures { let is = words_by (wide_text (Some units.now)) in MatchResult result
        (λ words. is ≡ Ok words.items)
        (λ e. (is ≡ Err e) ⊎ (e ≡ OutOfMemory)) }
{
    match wide_text(alloc, units) {
        Ok(Some(text)) => text_words(alloc, &text),
        Ok(None) => Err(JobTextErr::BadText { place: 1 }),
        Err(_) => Err(JobTextErr::NoMemory),
    }
}

// Their text; none where a surrogate has no partner.
fn wide_text(alloc: Global, units: &[u16]) -> Result<Option<String>, NoMemory>
    ensures { IfOk result (λ text. MatchOption text
        (wide_text (Some units.now) ≡ None)
        (λ text. wide_text (Some units.now) ≡ Some (chars (string_bytes text)))) }
{
    match String::from_utf16(alloc, units)? {
        Ok(text) => Ok(Some(text)),
        Err(_) => Ok(None),
    }
}

// The numbers of two bytes each, the least byte first; none where a byte is left over.
fn units_in(alloc: Global, bytes: &[u8]) -> Result<Option<Vec<u16>>, NoMemory>
    ensures { IfOk result (λ units. MatchOption units
        (units_in bytes.now ≡ None)
        (λ units. units_in bytes.now ≡ Some units.items)) }
{
    let mut units = Vec::with_capacity(alloc, bytes.len() / 2)?;
    let mut rest = bytes;
    'units: while let [low, high, later @ ..] = rest {
        units.push(u16::from(*low) + 256 * u16::from(*high))?;
        rest = later;
    }
    if rest.is_empty() {
        Ok(Some(units))
    } else {
        Ok(None)
    }
}

// The words of a text.
fn text_words(alloc: Global, text: &str) -> Result<Vec<Word>, JobTextErr>
    ensures { let is = words_in (chars text.now) in MatchResult result
        (λ words. is ≡ Ok words.items)
        (λ e. (is ≡ Err e) ⊎ (e ≡ OutOfMemory)) }
{
    match chars_of(alloc, text) {
        Ok(chars) => words_in(alloc, &chars),
        Err(_) => Err(JobTextErr::NoMemory),
    }
}

#[tactic(auto, using(std::proofs::lemmas::Str::chars_from_encodes))]
fn chars_of(alloc: Global, text: &str) -> Result<Vec<char>, NoMemory>
    ensures { IfOk result (λ made. made.items ≡ chars text.now) }
{
    Ok(text.chars().collect(alloc)?)
}
