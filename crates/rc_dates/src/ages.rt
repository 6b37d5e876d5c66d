//! Moments that ages stand for.
ghost use Rattle.std.specs.Prelude.{◌≡◌, ◌*◌, ◌-◌, ◌≤◌, ◌/◌, ◌%◌, IfOk, MatchOption, pos, true, false, ◌-ℤ◌, ◌≤ℤ◌};
ghost use Rattle.jiff.specs.Words.{IsYmd, epoch_day};
ghost use Rattle.rc_dates.specs.Dates.{date_moment, first_day, is_date, year_in, month_in, day_in};

use jiff::civil::Date;
use thiserror::Error;

/// How many units of 100 nanoseconds a day has.
pub(crate) const UNITS_PER_DAY: u64 = 864_000_000_000;

/// The number of 1 January 1601 among the days that are counted from 1 January 1970.
pub(crate) const FIRST_DAY: i32 = -134_774;

/// Why a number is no date that a moment begins at. The first cause is looked for first.
#[derive(Clone, Copy, Debug, PartialEq, Eq, Error)]
pub enum DateErr {
    /// The calendar has no such date.
    #[error("the calendar has no such date")]
    NoSuchDate,
    /// It lies before 1 January 1601.
    #[error("the date lies before 1601")]
    BeforeStart,
}

/// The moment of midnight UTC at a date that is written YYYYMMDD. It takes no memory.
#[tactic(auto, unfolding(crate::specs::Dates::date_moment))]
pub fn date_to_moment(yyyymmdd: u32) -> Result<u64, DateErr>
    ensures date { result ≡ date_moment yyyymmdd }
    ensures bound { IfOk result (λ moment. moment ≤ 2650467743999999999) }
{
    let Some(date) = date_of(yyyymmdd) else {
        return Err(DateErr::NoSuchDate);
    };
    let day = days_since_start(date);
    if day < 0 {
        return Err(DateErr::BeforeStart);
    }
    Ok(day as u64 * UNITS_PER_DAY)
}

/// The moment that many days before another; 0 where that would be before the start. It takes no memory.
pub fn days_before(moment: u64, days: u32) -> u64
    ensures { result ≡ moment - days * 864000000000 }
{
    moment.saturating_sub(u64::from(days).saturating_mul(UNITS_PER_DAY))
}

// How many days a date comes after 1 January 1601; negative before it.
fn days_since_start(date: Date) -> i32
    ensures value { result ≡ epoch_day date -ℤ first_day }
    ensures bound { result ≤ℤ pos 3067670 }
{
    date.to_plain().to_unix_epoch_day() - FIRST_DAY
}

// The date that is written so.
fn date_of(yyyymmdd: u32) -> Option<Date>
    ensures { MatchOption result
        (is_date yyyymmdd ≡ false)
        (λ date. (is_date yyyymmdd ≡ true)
        × IsYmd (year_in yyyymmdd) (pos (month_in yyyymmdd)) (pos (day_in yyyymmdd)) date) }
{
    let year = yyyymmdd / 10000;
    if year > 9999 {
        return None;
    }
    let month = yyyymmdd / 100 % 100;
    let day = yyyymmdd % 100;
    match Date::new(year as i16, month as i8, day as i8) {
        Ok(date) => Some(date),
        Err(_) => None,
    }
}
