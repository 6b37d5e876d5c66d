//! The values of drill words.

ghost use Rattle.std.specs.Prelude.{◌≡◌, ◌≤◌, option_map, IfOk, IfSome};
ghost use Rattle.std.specs.Char.{is_ascii_digit};
ghost use Rattle.std.specs.List.{list_all};
ghost use Rattle.std.specs.Str.{all_ascii_digits};
ghost use Rattle.rc_drillwords.specs.Arguments.{cut, number_in, part_in, path_in};

use rc_tree::{NoMemory, Path, PathErr};
use rc_volume::Part;
use std::alloc::Global;

// What stands in front of the first colon of a text, and what behind it.
pub(crate) fn cut(text: &str) -> Option<(&str, &str)>
    ensures { option_map (λ p. (p.0.now, p.1.now)) result ≡ cut text.now }
{
    text.split_once(':')
}

// The number that decimal digits write, where it is at most this.
pub(crate) fn number_of(text: &str, most: u64) -> Option<u64>
    ensures value { result ≡ number_in most text.now }
    ensures bound { IfSome result (λ number. number ≤ most) }
{
    if !are_digits(text) {
        return None;
    }
    let Ok(number) = text.parse::<u64>() else {
        return None;
    };
    if number > most {
        return None;
    }
    Some(number)
}

fn are_digits(text: &str) -> bool
    ensures { result ≡ all_ascii_digits text.now }
{
    are_all_digits(text)
}

fn are_all_digits(text: &str) -> bool
    ensures { result ≡ list_all is_ascii_digit text.now }
{
    text.bytes().all(|b| b.is_ascii_digit())
}

// The part that a letter names.
pub(crate) fn part_of(text: &str) -> Option<Part>
    ensures { result ≡ part_in text.now }
{
    if text == "S" {
        Some(Part::Source)
    } else if text == "T" {
        Some(Part::Target)
    } else if text == "R" {
        Some(Part::Record)
    } else {
        None
    }
}

// The path that a text spells, where it is not the root.
pub(crate) fn path_of(alloc: Global, text: &str) -> Result<Option<Path>, NoMemory>
    ensures { IfOk result (λ path. path ≡ path_in text.now) }
{
    match Path::read(alloc, text) {
        Ok(path) if path.names().is_empty() => Ok(None),
        Ok(path) => Ok(Some(path)),
        Err(PathErr::NoMemory) => Err(NoMemory),
        Err(_) => Ok(None),
    }
}
