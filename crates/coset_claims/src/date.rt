//! Moments in the years 1 to 9999, in the form of RFC 3339 (section 5.6): `2013-03-21T20:04:00Z`.

ghost use lib.Chars.{codes};
ghost use Rattle.std.specs.Prelude.{◌≡◌, ◌<◌, ◌≤◌, ◌+ℤ◌, ◌++◌, Some, pos};
ghost use Rattle.std.specs.Fmt.{DisplaysOnOk};
ghost use Rattle.coset_claims.specs.Dates.{after_9999, before_1970, days_in_month, in_calendar, is_leap_year, moment_text, month_after, seconds_text, year_after};

use std::fmt;
use std::num::{saturating_f64_to_i64, saturating_f64_to_u32};

/// The seconds from 1 January of the year 1 to 1 January of 1970.
const BEFORE_1970: i128 = 62_135_596_800;

/// The seconds from 1 January of the year 1 to 1 January of the year 10000.
const AFTER_9999: u64 = 315_537_897_600;

fn is_leap_year(year: u64) -> bool
    ensures { result ≡ is_leap_year year }
{
    year % 4 == 0 && (year % 100 != 0 || year % 400 == 0)
}

/// Returns the number of days in this month; 1 is January.
fn days_in_month(year: u64, month: u64) -> u64
    ensures { result ≡ days_in_month year month }
{
    match month {
        2 if is_leap_year(year) => 29,
        2 => 28,
        4 | 6 | 9 | 11 => 30,
        _ => 31,
    }
}

/// Converts days since 1 January of the year 1 into the year and the days since its first day.
fn year_of(days: u64) -> (u64, u64)
    requires { days < 3_652_059 }
    ensures year { result ≡ year_after days 1 days }
    ensures within { result.1 < 366 }
{
    let (eras, days) = (days / 146_097, days % 146_097);
    let centuries = (days / 36_524).min(3);
    let days = days - 36_524 * centuries;
    let (fours, days) = (days / 1_461, days % 1_461);
    let years = (days / 365).min(3);
    (
        400 * eras + 100 * centuries + 4 * fours + years + 1,
        days - 365 * years,
    )
}

/// Converts days since the first day of `year` into the month and the days since its first day.
fn month_of(year: u64, days: u64) -> (u64, u64)
    ensures month { result ≡ month_after 11 year 1 days }
    ensures within { result.1 ≤ days }
{
    let mut left = days;
    for month in 1..12 {
        let length = days_in_month(year, month);
        if left < length {
            return (month, left);
        }
        left -= length;
    }
    (12, left)
}

/// Converts seconds since 1970 began into seconds since the year 1 began. Returns `None` before
/// that year and after the year 9999.
fn in_calendar(seconds: i64) -> Option<u64>
    ensures { result ≡ in_calendar (seconds +ℤ pos before_1970) }
{
    match u64::try_from(i128::from(seconds) + BEFORE_1970) {
        Ok(seconds) if seconds < AFTER_9999 => Some(seconds),
        _ => None,
    }
}

/// Writes the moment this many seconds after the year 1 began, without its time zone.
fn write_moment<W: fmt::Write>(seconds: u64, f: &mut fmt::Formatter<W>) -> fmt::Result
    requires { seconds < after_9999 }
    ensures { DisplaysOnOk W.write_str_gives f.old result (Some (moment_text seconds)) f.new }
{
    let (year, days) = year_of(seconds / 86_400);
    let (month, days) = month_of(year, days);
    let day = days + 1;
    let seconds = seconds % 86_400;
    let (hour, minute, second) = (seconds / 3_600, seconds / 60 % 60, seconds % 60);
    write!(
        f,
        "{year:04}-{month:02}-{day:02}T{hour:02}:{minute:02}:{second:02}"
    )
}

/// Writes the moment this many seconds after the year 1 began, in UTC.
fn write_in_utc<W: fmt::Write>(seconds: u64, f: &mut fmt::Formatter<W>) -> fmt::Result
    requires { seconds < after_9999 }
    ensures { DisplaysOnOk W.write_str_gives f.old result (Some (moment_text seconds ++ codes "Z"))
        f.new }
{
    write_moment(seconds, f)?;
    f.write_str("Z")
}

/// Writes the moment this many seconds after 1970 began, or the number of seconds.
pub(crate) fn write_seconds<W: fmt::Write>(seconds: i64, f: &mut fmt::Formatter<W>) -> fmt::Result
    ensures { DisplaysOnOk W.write_str_gives f.old result (Some (seconds_text seconds)) f.new }
{
    match in_calendar(seconds) {
        Some(seconds) => write_in_utc(seconds, f),
        None => write!(f, "{seconds} seconds since 1970"),
    }
}

/// Writes the moment this many seconds after 1970 began, with microseconds, or the number of
/// seconds.
pub(crate) fn write_fraction<W: fmt::Write>(
    seconds: f64,
    f: &mut fmt::Formatter<W>,
) -> fmt::Result {
    let whole = seconds.floor();
    match in_calendar(saturating_f64_to_i64(whole)) {
        Some(moment) if seconds.is_finite() => {
            write_moment(moment, f)?;
            let microseconds = saturating_f64_to_u32((seconds - whole) * 1e6).min(999_999);
            write!(f, ".{microseconds:06}Z")
        }
        _ => write!(f, "{seconds} seconds since 1970"),
    }
}
