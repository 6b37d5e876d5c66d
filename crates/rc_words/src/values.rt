//! The values of switches and lists.
ghost use Rattle.std.specs.Prelude.{◌≡◌, ◌⊎◌, ◌≤◌, ◌^◌, ◌+◌, ◌-◌, ◌*◌, MatchOption, chars, codes, true};
ghost use Rattle.std.specs.Char.{is_ascii_digit};
ghost use Rattle.std.specs.List.{list_all, list_any};
ghost use Rattle.std.specs.Str.{bytes_eq};
ghost use Rattle.rc_tree.specs.Attr.{compared};
ghost use Rattle.rc_wild.specs.PathPattern.{is_separator};
ghost use Rattle.rc_wild.specs.declared.fault.PatternErr.TheVariants.{NoMemory as NoPatternMemory};
ghost use Rattle.rc_words.specs.declared.values.Fault.TheVariants.{Kind, NoMemory as OutOfMemory};
ghost use Rattle.rc_words.specs.Meaning.{needed, behind_colon, allowed, made, numbered, file_setting, exclude_value, path_pattern_value, pattern_value, root_value};
ghost use Rattle.rc_words.specs.Values.{copy_in, directory_in, attr_in, scan_in, ranged_in, age_in, is_age, number_in, is_of_root, is_root};

use crate::Setting;
use crate::letters::{attr_in, copy_in, directory_in};
use crate::spelling::first_char;
use crate::table::Value;
use rc_dates::date_to_moment;
use rc_job::Exclude;
use rc_tree::{NoMemory, Scan, Text};
use rc_wild::{PathPattern, Pattern, PatternErr};
use std::alloc::Global;

/// Why a value is refused: the number of the kind.
#[derive(Clone, Copy, Debug, PartialEq, Eq)]
pub(crate) enum Fault {
    Kind(u8),
    NoMemory,
}

impl From<NoMemory> for Fault {
    ghost from_gives = { λ _ e. e ≡ OutOfMemory };

    fn from(_: NoMemory) -> Self {
        Fault::NoMemory
    }
}

/// The setting that a value behind the colon of a switch gives.
pub(crate) fn needed(alloc: Global, number: u8, value: Value, text: &str) -> Result<Setting, Fault>
    ensures { (result ≡ needed number value (chars text.now)) ⊎ (result ≡ Err OutOfMemory) }
{
    match first_char(text) {
        Some(_) => behind_colon(alloc, number, value, text),
        None => Err(Fault::Kind(2)),
    }
}

// The same for a value that is not empty.
fn behind_colon(alloc: Global, number: u8, value: Value, text: &str) -> Result<Setting, Fault>
    ensures { (result ≡ behind_colon number value (chars text.now)) ⊎ (result ≡ Err OutOfMemory) }
{
    match value {
        Value::Source => source(alloc, text),
        Value::Target => target(alloc, text),
        Value::JobFile => job_file(alloc, text),
        Value::Save => save(alloc, text),
        Value::Number { least, most } => ranged(number, least, most, text),
        Value::Age => age(number, text),
        Value::Copy => copy(text),
        Value::Directory => directory(text),
        Value::Changed => changed(number, text),
        Value::Asked => asked(number, text),
        Value::Scan => scanning(text),
        Value::Nothing | Value::Files | Value::ExcludeFiles | Value::ExcludeDirs => {
            Err(Fault::Kind(1))
        }
    }
}

pub(crate) fn source(alloc: Global, text: &str) -> Result<Setting, Fault>
    ensures { (result ≡ made (λ root. Setting.Source root) (root_value (chars text.now)))
        ⊎ (result ≡ Err OutOfMemory) }
{
    match root(alloc, text) {
        Ok(root) => Ok(Setting::Source(root)),
        Err(fault) => Err(fault),
    }
}

pub(crate) fn target(alloc: Global, text: &str) -> Result<Setting, Fault>
    ensures { (result ≡ made (λ root. Setting.Target root) (root_value (chars text.now)))
        ⊎ (result ≡ Err OutOfMemory) }
{
    match root(alloc, text) {
        Ok(root) => Ok(Setting::Target(root)),
        Err(fault) => Err(fault),
    }
}

fn job_file(alloc: Global, text: &str) -> Result<Setting, Fault>
    ensures { (result ≡ made (λ name. Setting.JobFile name) (root_value (chars text.now)))
        ⊎ (result ≡ Err OutOfMemory) }
{
    match root(alloc, text) {
        Ok(name) => Ok(Setting::JobFile(name)),
        Err(fault) => Err(fault),
    }
}

fn save(alloc: Global, text: &str) -> Result<Setting, Fault>
    ensures { (result ≡ made (λ name. Setting.Save name) (root_value (chars text.now)))
        ⊎ (result ≡ Err OutOfMemory) }
{
    match root(alloc, text) {
        Ok(name) => Ok(Setting::Save(name)),
        Err(fault) => Err(fault),
    }
}

fn copy(text: &str) -> Result<Setting, Fault>
    ensures { result ≡ allowed (λ flags. Setting.Copy flags) 5 (copy_in (chars text.now)) }
{
    match copy_in(text) {
        Some(flags) => Ok(Setting::Copy(flags)),
        None => Err(Fault::Kind(5)),
    }
}

fn directory(text: &str) -> Result<Setting, Fault>
    ensures { result
        ≡ allowed (λ flags. Setting.Directory flags) 5 (directory_in (chars text.now)) }
{
    match directory_in(text) {
        Some(flags) => Ok(Setting::Directory(flags)),
        None => Err(Fault::Kind(5)),
    }
}

// Letters of which those of compared attributes have an effect.
fn changed(number: u8, text: &str) -> Result<Setting, Fault>
    ensures { result ≡ allowed (λ attr. Setting.Attributes number (compared attr)) 5
        (attr_in (chars text.now)) }
{
    match attr_in(text) {
        Some(attr) => Ok(Setting::Attributes {
            number,
            attr: attr.compared(),
        }),
        None => Err(Fault::Kind(5)),
    }
}

fn asked(number: u8, text: &str) -> Result<Setting, Fault>
    ensures { result
        ≡ allowed (λ attr. Setting.Attributes number attr) 5 (attr_in (chars text.now)) }
{
    match attr_in(text) {
        Some(attr) => Ok(Setting::Attributes { number, attr }),
        None => Err(Fault::Kind(5)),
    }
}

fn scanning(text: &str) -> Result<Setting, Fault>
    ensures { result
        ≡ allowed (λ scan. Setting.Scanning scan) 5 (scan_in (chars text.now)) }
{
    match scan(text) {
        Some(scan) => Ok(Setting::Scanning(scan)),
        None => Err(Fault::Kind(5)),
    }
}

fn scan(text: &str) -> Option<Scan>
    ensures { result ≡ scan_in (chars text.now) }
{
    if is_size(text) {
        Some(Scan::Size)
    } else if is_digest(text) {
        Some(Scan::Digest)
    } else {
        None
    }
}

fn is_size(text: &str) -> bool
    ensures { result ≡ bytes_eq (chars text.now) (codes "SIZE") }
{
    text == "SIZE"
}

fn is_digest(text: &str) -> bool
    ensures { result ≡ bytes_eq (chars text.now) (codes "DIGEST") }
{
    text == "DIGEST"
}

fn ranged(number: u8, least: u64, most: u64, text: &str) -> Result<Setting, Fault>
    ensures { result ≡ numbered number (ranged_in least most (chars text.now)) }
{
    if !are_digits(text) {
        return Err(Fault::Kind(3));
    }
    match number_in(text) {
        Some(value) if value >= least && value <= most => Ok(Setting::Number { number, value }),
        _ => Err(Fault::Kind(4)),
    }
}

fn age(number: u8, text: &str) -> Result<Setting, Fault>
    ensures { result ≡ numbered number (age_in (chars text.now)) }
{
    if !are_digits(text) {
        return Err(Fault::Kind(3));
    }
    match number_in(text) {
        Some(value) if is_age(value) => Ok(Setting::Number { number, value }),
        _ => Err(Fault::Kind(7)),
    }
}

fn is_age(value: u64) -> bool
    ensures { result ≡ is_age value }
{
    if value < 1900 {
        return true;
    }
    match u32::try_from(value) {
        Ok(date) => date_to_moment(date).is_ok(),
        Err(_) => false,
    }
}

#[tactic(auto, using(std::proofs::lemmas::Str::chars_from_encodes))]
fn are_digits(text: &str) -> bool
    ensures { result ≡ list_all is_ascii_digit (chars text.now) }
{
    text.chars().all(|c| c.is_ascii_digit())
}

// The number that decimal digits write; none where it does not fit 64 bits.
fn number_in(text: &str) -> Option<u64>
    requires { list_all is_ascii_digit (chars text.now) ≡ true }
    ensures { MatchOption result
        (2 ^ 64 ≤ number_in 0 (chars text.now))
        (λ number. number ≡ number_in 0 (chars text.now)) }
{
    let mut number: u64 = 0;
    let mut rest = text;
    'digits: while let Some((c, later)) = first_char(rest) {
        match appended(number, c) {
            Some(longer) => number = longer,
            None => return None,
        }
        rest = later;
    }
    Some(number)
}

// A number with one more digit behind it; none where it does not fit 64 bits.
fn appended(number: u64, digit: char) -> Option<u64>
    requires { is_ascii_digit digit ≡ true }
    ensures { MatchOption result
        (2 ^ 64 ≤ 10 * number + (digit - 48))
        (λ longer. longer ≡ 10 * number + (digit - 48)) }
{
    let digit = u64::from(u32::from(digit) - 48);
    match number.checked_mul(10) {
        Some(tens) => tens.checked_add(digit),
        None => None,
    }
}

// A root, or the name of a job file.
fn root(alloc: Global, text: &str) -> Result<Text, Fault>
    ensures { (result ≡ root_value (chars text.now)) ⊎ (result ≡ Err OutOfMemory) }
{
    if !is_root(text) {
        return Err(Fault::Kind(6));
    }
    Ok(Text::of(alloc, text)?)
}

fn is_root(text: &str) -> bool
    ensures { result ≡ is_root (chars text.now) }
{
    match first_char(text) {
        Some(_) => are_of_root(text),
        None => false,
    }
}

#[tactic(auto, using(std::proofs::lemmas::Str::chars_from_encodes))]
fn are_of_root(text: &str) -> bool
    ensures { result ≡ list_all is_of_root (chars text.now) }
{
    text.chars().all(|c| c >= ' ' && c != '"')
}

/// A pattern of files that are asked for.
pub(crate) fn file(alloc: Global, text: &str) -> Result<Setting, Fault>
    ensures { (result ≡ file_setting (chars text.now)) ⊎ (result ≡ Err OutOfMemory) }
{
    match pattern(alloc, text) {
        Ok(pattern) => Ok(Setting::File(pattern)),
        Err(fault) => Err(fault),
    }
}

/// A value of `/XF`.
pub(crate) fn exclude_file(alloc: Global, text: &str) -> Result<Setting, Fault>
    ensures { (result ≡ made (λ value. Setting.ExcludeFile value) (exclude_value (chars text.now)))
        ⊎ (result ≡ Err OutOfMemory) }
{
    match exclude(alloc, text) {
        Ok(value) => Ok(Setting::ExcludeFile(value)),
        Err(fault) => Err(fault),
    }
}

/// A value of `/XD`.
pub(crate) fn exclude_dir(alloc: Global, text: &str) -> Result<Setting, Fault>
    ensures { (result ≡ made (λ value. Setting.ExcludeDir value) (exclude_value (chars text.now)))
        ⊎ (result ≡ Err OutOfMemory) }
{
    match exclude(alloc, text) {
        Ok(value) => Ok(Setting::ExcludeDir(value)),
        Err(fault) => Err(fault),
    }
}

// With `\` or `/` a path pattern, and else a pattern.
fn exclude(alloc: Global, text: &str) -> Result<Exclude, Fault>
    ensures { (result ≡ exclude_value (chars text.now)) ⊎ (result ≡ Err OutOfMemory) }
{
    if has_separator(text) {
        exclude_path(alloc, text)
    } else {
        exclude_name(alloc, text)
    }
}

fn exclude_path(alloc: Global, text: &str) -> Result<Exclude, Fault>
    ensures { (result ≡ made (λ p. Exclude.Path p) (path_pattern_value (chars text.now)))
        ⊎ (result ≡ Err OutOfMemory) }
{
    match path_pattern(alloc, text) {
        Ok(pattern) => Ok(Exclude::Path(pattern)),
        Err(fault) => Err(fault),
    }
}

fn exclude_name(alloc: Global, text: &str) -> Result<Exclude, Fault>
    ensures { (result ≡ made (λ p. Exclude.Name p) (pattern_value (chars text.now)))
        ⊎ (result ≡ Err OutOfMemory) }
{
    match pattern(alloc, text) {
        Ok(pattern) => Ok(Exclude::Name(pattern)),
        Err(fault) => Err(fault),
    }
}

fn pattern(alloc: Global, text: &str) -> Result<Pattern, Fault>
    ensures { (result ≡ pattern_value (chars text.now)) ⊎ (result ≡ Err OutOfMemory) }
{
    match Pattern::read(alloc, text) {
        Ok(pattern) => Ok(pattern),
        Err(err) => Err(fault_of(err)),
    }
}

fn path_pattern(alloc: Global, text: &str) -> Result<PathPattern, Fault>
    ensures { (result ≡ path_pattern_value (chars text.now)) ⊎ (result ≡ Err OutOfMemory) }
{
    match PathPattern::read(alloc, text) {
        Ok(pattern) => Ok(pattern),
        Err(err) => Err(fault_of(err)),
    }
}

#[tactic(auto, using(std::proofs::lemmas::Str::chars_from_encodes))]
fn has_separator(text: &str) -> bool
    ensures { result ≡ list_any is_separator (chars text.now) }
{
    text.chars().any(|c| c == '\\' || c == '/')
}

// A pattern that may not stand is a fault of kind 6.
fn fault_of(err: PatternErr) -> Fault
    ensures memory { err ≡ NoPatternMemory → result ≡ OutOfMemory }
    ensures refused { (result ≡ Kind 6) ⊎ (result ≡ OutOfMemory) }
{
    match err {
        PatternErr::NoMemory => Fault::NoMemory,
        _ => Fault::Kind(6),
    }
}
