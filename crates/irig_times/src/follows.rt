//! Which time is one frame period after another.

ghost use Rattle.std.specs.Prelude.{◌≡◌, ◌+◌, ◌*◌, ◌%◌, ◌≤◌, ◌<◌, ◌^◌, pos};
ghost use Rattle.jiff_core.specs.Calendar.{days_in_year};
ghost use Rattle.irig_times.specs.Follows.{same_year, next_year, same_day, same_hour, same_minute};
ghost use Rattle.irig_times.specs.Follows.{is_day_after, day_follows, hour_follows, minute_follows};
ghost use Rattle.irig_times.specs.Follows.{is_later_in, is_later};

use crate::time::Time;
use jiff_core::civil::days_in_year;

/// In microseconds.
const MINUTE: u64 = 60_000_000;

/// With a second 60.
const LONG_MINUTE: u64 = 61_000_000;

fn same_year(year: Option<u32>, other: Option<u32>) -> bool
    ensures { result ≡ same_year year other }
{
    match (year, other) {
        (None, None) => true,
        (Some(year), Some(other)) => year == other,
        (None, Some(_)) => false,
        (Some(_), None) => false,
    }
}

/// A year of two digits: after 99 comes 0.
fn next_year(year: Option<u32>) -> Option<u32>
    ensures { result ≡ next_year year }
{
    match year {
        Some(year) => Some((year % 100 + 1) % 100),
        None => None,
    }
}

/// Whether two times are on the same day of the same year. Two unknown years are the same.
fn same_day(one: &Time, other: &Time) -> bool
    ensures { result ≡ same_day one.now other.now }
{
    same_year(one.year, other.year) && one.days == other.days
}

fn same_hour(one: &Time, other: &Time) -> bool
    ensures { result ≡ same_hour one.now other.now }
{
    same_day(one, other) && one.hours == other.hours
}

fn same_minute(one: &Time, other: &Time) -> bool
    ensures { result ≡ same_minute one.now other.now }
{
    same_hour(one, other) && one.minutes == other.minutes
}

/// Whether the second time is on the next day, if the first one's year has `count` days. False if
/// the first day is later than that, as day 366 of 365.
fn is_day_after(count: u32, from: &Time, to: &Time) -> bool
    ensures { result ≡ is_day_after count from.now to.now }
{
    if from.days < count {
        same_year(from.year, to.year) && to.days == from.days + 1
    } else {
        from.days == count && same_year(next_year(from.year), to.year) && to.days == 1
    }
}

/// Of an unknown year 365 and 366 are tried.
fn day_follows(century: u32, from: &Time, to: &Time) -> bool
    requires { century ≤ 99 }
    ensures { result ≡ day_follows century from.now.year from.now to.now }
{
    match from.year {
        None => is_day_after(365, from, to) || is_day_after(366, from, to),
        Some(year) => is_day_after(year_length(century, year), from, to),
    }
}

/// Only the last two digits of `year` count, so with its century it is 9999 at most.
fn year_length(century: u32, year: u32) -> u32
    requires { century ≤ 99 }
    ensures { result ≡ days_in_year (pos (100 * century + year % 100)) }
{
    days_in_year((100 * century + year % 100) as i16) as u32
}

fn hour_follows(century: u32, from: &Time, to: &Time) -> bool
    requires { century ≤ 99 }
    ensures { result ≡ hour_follows century from.now to.now }
{
    if from.hours < 23 {
        same_day(from, to) && to.hours == from.hours + 1
    } else {
        to.hours == 0 && day_follows(century, from, to)
    }
}

fn minute_follows(century: u32, from: &Time, to: &Time) -> bool
    requires { century ≤ 99 }
    ensures { result ≡ minute_follows century from.now to.now }
{
    if from.minutes < 59 {
        same_hour(from, to) && to.minutes == from.minutes + 1
    } else {
        to.minutes == 0 && hour_follows(century, from, to)
    }
}

/// Whether the second time is one period later, if the first one's minute lasts `length`
/// microseconds. False if the first time is past that, as second 60 in a minute of 60 seconds.
fn is_later_in(length: u64, century: u32, period: u64, from: &Time, to: &Time) -> bool
    requires century { century ≤ 99 }
    requires small { (length < 2 ^ 32) × (period < 2 ^ 32) }
    requires times { (from.now.micros < 2 ^ 60) × (to.now.micros < 2 ^ 60) }
    ensures { result ≡ is_later_in length century period from.now to.now }
{
    if from.micros >= length {
        return false;
    }
    let later = from.micros + period;
    if later < length {
        same_minute(from, to) && to.micros == later
    } else {
        minute_follows(century, from, to) && to.micros + length == later
    }
}

/// Whether the second time is one frame period after the first. Each minute may have a second 60, a
/// leap second, since the time zone is not known.
pub fn is_later(century: u32, period: u64, from: &Time, to: &Time) -> bool
    requires century { century ≤ 99 }
    requires small { period < 2 ^ 32 }
    requires times { (from.now.micros < 2 ^ 60) × (to.now.micros < 2 ^ 60) }
    ensures { result ≡ is_later century period from.now to.now }
{
    is_later_in(MINUTE, century, period, from, to)
        || is_later_in(LONG_MINUTE, century, period, from, to)
}
