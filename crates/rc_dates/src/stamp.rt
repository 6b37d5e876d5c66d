//! How a moment is printed.
ghost use Rattle.std.specs.Prelude.{◌≡◌, ◌++◌, ◌∷◌, [], ◌<◌, ◌≤◌, ◌+ℤ◌, ◌+◌, IfOk, OnOk, pos, unsigned_abs, string_bytes, codes};
ghost use Rattle.jiff.specs.Words.{epoch_day};
ghost use Rattle.rc_dates.specs.Dates.{two_digits, date_text, clock_text, first_day};
ghost use Rattle.rc_dates.specs.Stamp.{IsMomentText};

use crate::ages::UNITS_PER_DAY;
use jiff::civil::Date;
use rc_tree::{GREATEST_MOMENT, NoMemory, Text};
use std::alloc::Global;

// How many units of 100 nanoseconds a second has.
const UNITS_PER_SECOND: u64 = 10_000_000;

/// A moment as `YYYY/MM/DD HH:MM:SS` UTC, without parts of a second. A number above the greatest moment is written as
/// the greatest one.
pub fn moment_text(alloc: Global, moment: u64) -> Result<Text, NoMemory>
    ensures { IfOk result (IsMomentText moment) }
{
    let units = moment.min(GREATEST_MOMENT);
    let mut text = String::new(alloc);
    push_date(&mut text, date_at(units / UNITS_PER_DAY))?;
    text.push(' ')?;
    push_clock(&mut text, units % UNITS_PER_DAY / UNITS_PER_SECOND)?;
    Text::of(alloc, text.as_str())
}

// The date that many days after 1 January 1601.
fn date_at(day: u64) -> Date
    requires { day < 3067671 }
    ensures { epoch_day result ≡ first_day +ℤ pos day }
{
    let first = Date::constant(1601, 1, 1).to_plain();
    Date::from_plain(first.checked_add(day as i64).unwrap())
}

// Appends a date as `YYYY/MM/DD`.
fn push_date(text: &mut String, date: Date) -> Result<(), NoMemory>
    ensures { OnOk result (string_bytes text.new ≡ string_bytes text.old ++ date_text date) }
{
    let year = date.year().unsigned_abs();
    push_two(text, year / 100)?;
    push_two(text, year % 100)?;
    text.push('/')?;
    push_two(text, date.month() as u16)?;
    text.push('/')?;
    push_two(text, date.day() as u16)
}

// Appends the second of a day as `HH:MM:SS`.
fn push_clock(text: &mut String, second: u64) -> Result<(), NoMemory>
    requires { second < 86400 }
    ensures { OnOk result (string_bytes text.new ≡ string_bytes text.old ++ clock_text second) }
{
    push_two(text, (second / 3600) as u16)?;
    text.push(':')?;
    push_two(text, (second / 60 % 60) as u16)?;
    text.push(':')?;
    push_two(text, (second % 60) as u16)
}

// Appends a number below 100 in two digits.
fn push_two(text: &mut String, number: u16) -> Result<(), NoMemory>
    requires { number < 100 }
    ensures { OnOk result (string_bytes text.new ≡ string_bytes text.old ++ two_digits number) }
{
    text.push(digit(number / 10))?;
    text.push(digit(number % 10))?;
    Ok(())
}

fn digit(number: u16) -> char
    requires { number < 10 }
    ensures { result ≡ 48 + number }
{
    char::from(b'0' + number as u8)
}
