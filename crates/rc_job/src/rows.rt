//! The lines of one setting.
ghost use Rattle.std.specs.Prelude.{◌≡◌, ◌∷◌, [], ◌++◌, ◌||◌, ◌==◌, ◌<◌, IfOk, OnOk, true, chars, if◌then◌else◌};
ghost use Rattle.std.specs.Char.{is_ascii};
ghost use Rattle.std.specs.List.{list_all};
ghost use Rattle.rc_job.specs.Settings.{text_of};
ghost use Rattle.rc_job.specs.Values.{switch_lines, number_lines, other_number_lines, root_lines, quoted_root, value_text, in_quotes, holds_space, begins_apart, files_lines, excludes_lines, letter_where, copy_flag_letters, directory_letters, attr_letters, is_dat, copy_lines, directory_lines, attr_lines, changed_lines};

use crate::lines::Lines;
use crate::{CopyFlags, DirectoryFlags, Exclude, Excludes, Patterns};
use rc_tree::{Attr, NoMemory, Text};
use std::alloc::Global;

pub(crate) fn push_switch(lines: &mut Lines, name: &str, on: bool) -> Result<(), NoMemory>
    requires { list_all is_ascii name.now ≡ true }
    ensures { OnOk result (lines.new ≡ lines.old ++ text_of (switch_lines name.now on)) }
{
    if on {
        push_line(lines, name)?;
    }
    Ok(())
}

pub(crate) fn push_number(
    lines: &mut Lines,
    name: &str,
    number: Option<u64>,
) -> Result<(), NoMemory>
    requires { list_all is_ascii name.now ≡ true }
    ensures { OnOk result (lines.new ≡ lines.old ++ text_of (number_lines name.now number)) }
{
    if let Some(number) = number {
        lines.push_name(name)?;
        lines.push_number(number)?;
        lines.push('\n')?;
    }
    Ok(())
}

// A number that is not the default.
pub(crate) fn push_other_number(
    lines: &mut Lines,
    name: &str,
    default: u64,
    number: u64,
) -> Result<(), NoMemory>
    requires { list_all is_ascii name.now ≡ true }
    ensures { OnOk result
        (lines.new ≡ lines.old ++ text_of (other_number_lines name.now default number)) }
{
    if number == default {
        return Ok(());
    }
    push_number(lines, name, Some(number))
}

pub(crate) fn push_root(lines: &mut Lines, name: &str, root: &Option<Text>) -> Result<(), NoMemory>
    requires { list_all is_ascii name.now ≡ true }
    ensures { OnOk result (lines.new ≡ lines.old ++ text_of (root_lines name.now root.now)) }
{
    if let Some(root) = root {
        lines.push_name(name)?;
        push_quoted(lines, root.text(), holds_space(root.text()))?;
        lines.push('\n')?;
    }
    Ok(())
}

pub(crate) fn push_files(lines: &mut Lines, name: &str, files: &Patterns) -> Result<(), NoMemory>
    requires { list_all is_ascii name.now ≡ true }
    ensures { OnOk result (lines.new ≡ lines.old ++ text_of (files_lines name.now files.now)) }
{
    push_line(lines, name)?;
    for pattern in files.as_slice() {
        push_value(lines, pattern.text())?;
    }
    Ok(())
}

pub(crate) fn push_excludes(
    lines: &mut Lines,
    name: &str,
    excludes: &Excludes,
) -> Result<(), NoMemory>
    requires { list_all is_ascii name.now ≡ true }
    ensures { OnOk result
        (lines.new ≡ lines.old ++ text_of (excludes_lines name.now excludes.now)) }
{
    let values = excludes.as_slice();
    if values.is_empty() {
        return Ok(());
    }
    push_line(lines, name)?;
    for value in values {
        push_value(lines, value.text())?;
    }
    Ok(())
}

pub(crate) fn push_copy(alloc: Global, lines: &mut Lines, flags: CopyFlags) -> Result<(), NoMemory>
    ensures { OnOk result (lines.new ≡ lines.old ++ text_of (copy_lines flags)) }
{
    if is_dat(flags) {
        return Ok(());
    }
    let letters = copy_flag_letters(alloc, flags)?;
    if letters.is_empty() {
        return push_line(lines, "/NOCOPY");
    }
    push_letters(lines, "/COPY:", &letters)
}

pub(crate) fn push_directory(
    alloc: Global,
    lines: &mut Lines,
    flags: DirectoryFlags,
) -> Result<(), NoMemory>
    ensures { OnOk result (lines.new ≡ lines.old ++ text_of (directory_lines flags)) }
{
    if flags.attributes && !flags.times {
        return Ok(());
    }
    let letters = directory_letters(alloc, flags)?;
    if letters.is_empty() {
        return push_line(lines, "/NODCOPY");
    }
    push_letters(lines, "/DCOPY:", &letters)
}

pub(crate) fn push_attr(
    alloc: Global,
    lines: &mut Lines,
    name: &str,
    attr: Attr,
) -> Result<(), NoMemory>
    requires { list_all is_ascii name.now ≡ true }
    ensures { OnOk result (lines.new ≡ lines.old ++ text_of (attr_lines name.now attr)) }
{
    let letters = attr_letters(alloc, attr)?;
    if letters.is_empty() {
        return Ok(());
    }
    push_letters(lines, name, &letters)
}

// Letters of which only those of compared attributes have an effect.
pub(crate) fn push_changed(
    alloc: Global,
    lines: &mut Lines,
    name: &str,
    attr: Attr,
) -> Result<(), NoMemory>
    requires { list_all is_ascii name.now ≡ true }
    ensures { OnOk result (lines.new ≡ lines.old ++ text_of (changed_lines name.now attr)) }
{
    push_attr(alloc, lines, name, attr.compared())
}

// Letters, of which there is at least one, behind their switch.
fn push_letters(lines: &mut Lines, name: &str, letters: &Lines) -> Result<(), NoMemory>
    requires { list_all is_ascii name.now ≡ true }
    ensures { OnOk result
        (lines.new ≡ lines.old ++ text_of ((name.now ++ letters.now) ∷ [])) }
{
    lines.push_name(name)?;
    lines.push_lines(letters)?;
    lines.push('\n')
}

// A line of its own.
pub(crate) fn push_line(lines: &mut Lines, name: &str) -> Result<(), NoMemory>
    requires { list_all is_ascii name.now ≡ true }
    ensures { OnOk result (lines.new ≡ lines.old ++ text_of (name.now ∷ [])) }
{
    lines.push_name(name)?;
    lines.push('\n')
}

// A value of a list on a line of its own.
fn push_value(lines: &mut Lines, value: &str) -> Result<(), NoMemory>
    ensures { OnOk result
        (lines.new ≡ lines.old ++ text_of (value_text (chars value.now) ∷ [])) }
{
    push_quoted(lines, value, holds_space(value) || begins_apart(value))?;
    lines.push('\n')
}

// A value, in quotes or as it is.
fn push_quoted(lines: &mut Lines, value: &str, quotes: bool) -> Result<(), NoMemory>
    ensures { OnOk result
        (lines.new ≡ lines.old
        ++ (if quotes then in_quotes (chars value.now) else chars value.now)) }
{
    if quotes {
        lines.push('"')?;
        lines.push_text(value)?;
        lines.push('"')
    } else {
        lines.push_text(value)
    }
}

#[tactic(auto, using(std::proofs::lemmas::Str::chars_from_encodes))]
fn holds_space(value: &str) -> bool
    ensures { result ≡ holds_space (chars value.now) }
{
    value.chars().any(|c| c == ' ')
}

// Whether a value would be read as a switch or as a comment.
#[tactic(auto, using(std::proofs::lemmas::Str::chars_past_char))]
fn begins_apart(value: &str) -> bool
    ensures { result ≡ begins_apart (chars value.now) }
{
    let mut rest = value.chars();
    match rest.next() {
        Some('/') => true,
        Some(':') => rest.next() == Some(':'),
        _ => false,
    }
}

fn is_dat(flags: CopyFlags) -> bool
    ensures { result ≡ is_dat flags }
{
    flags.data_bytes
        && flags.attributes
        && flags.times
        && !flags.security
        && !flags.owner
        && !flags.auditing
}

fn copy_flag_letters(alloc: Global, flags: CopyFlags) -> Result<Lines, NoMemory>
    ensures { IfOk result (λ letters. letters ≡ copy_flag_letters flags) }
{
    let mut letters = Lines::new(alloc);
    push_letter(&mut letters, 'D', flags.data_bytes)?;
    push_letter(&mut letters, 'A', flags.attributes)?;
    push_letter(&mut letters, 'T', flags.times)?;
    push_letter(&mut letters, 'S', flags.security)?;
    push_letter(&mut letters, 'O', flags.owner)?;
    push_letter(&mut letters, 'U', flags.auditing)?;
    Ok(letters)
}

fn directory_letters(alloc: Global, flags: DirectoryFlags) -> Result<Lines, NoMemory>
    ensures { IfOk result (λ letters. letters ≡ directory_letters flags) }
{
    let mut letters = Lines::new(alloc);
    push_letter(&mut letters, 'A', flags.attributes)?;
    push_letter(&mut letters, 'T', flags.times)?;
    Ok(letters)
}

fn attr_letters(alloc: Global, attr: Attr) -> Result<Lines, NoMemory>
    ensures { IfOk result (λ letters. letters ≡ attr_letters attr) }
{
    let mut letters = Lines::new(alloc);
    push_letter(&mut letters, 'R', attr.readonly)?;
    push_letter(&mut letters, 'A', attr.archive)?;
    push_letter(&mut letters, 'S', attr.system)?;
    push_letter(&mut letters, 'H', attr.hidden)?;
    push_letter(&mut letters, 'C', attr.compressed)?;
    push_letter(&mut letters, 'N', attr.not_indexed)?;
    push_letter(&mut letters, 'E', attr.encrypted)?;
    push_letter(&mut letters, 'T', attr.temporary)?;
    push_letter(&mut letters, 'O', attr.offline)?;
    Ok(letters)
}

fn push_letter(letters: &mut Lines, c: char, on: bool) -> Result<(), NoMemory>
    requires { c < 128 }
    ensures { OnOk result (letters.new ≡ letters.old ++ letter_where c on) }
{
    if on {
        letters.push(c)?;
    }
    Ok(())
}
