//! How long one time is after another, by the calendar.

ghost use Rattle.std.specs.Prelude.{◌≡◌, ◌<◌, ◌≤◌, ◌^◌, IfSome};
ghost use Rattle.irig_times.specs.Follows.{next_year, same_year};
ghost use Rattle.irig_law.specs.Calendar.{inserted, micros_after, micros_in, minute_of_year};
ghost use Rattle.irig_law.specs.Calendar.{minutes_between, year_days};
ghost use Rattle.irig_law.specs.Fits.{periods_apart, periods_in};
ghost use Rattle.irig_codes.specs.Format.{frame_period_of};

use irig_codes::Format;
use irig_times::Time;
use jiff_core::civil::days_in_year;

/// A minute of 60 seconds, in microseconds.
const MINUTE: u64 = 60_000_000;

/// A second, in microseconds.
const SECOND: u64 = 1_000_000;

/// A day, in minutes.
const DAY: u64 = 1440;

/// A recording is shorter, in microseconds.
const LONGEST: u128 = 1 << 40;

/// How many periods one time is after another, by the calendar; `None` if it is not after it, or by
/// no whole periods.
pub fn periods_apart(format: Format, century: u32, from: &Time, to: &Time) -> Option<u64>
    requires century { century ≤ 99 }
    ensures periods { result
        ≡ periods_apart century (frame_period_of format.kind) from.now to.now }
    ensures few { IfSome result (λ n. n < 2 ^ 33) }
{
    periods_in(format.frame_period(), micros_after(century, from, to))
}

/// How many periods some microseconds are, if they are whole ones.
fn periods_in(period: u64, micros: u128) -> Option<u64>
    requires long { 10000 ≤ period }
    ensures periods { result ≡ periods_in period micros }
    ensures few { IfSome result (λ n. n < 2 ^ 33) }
{
    if 0 < micros && micros < LONGEST && micros % period as u128 == 0 {
        Some(micros as u64 / period)
    } else {
        None
    }
}

/// The microseconds from a time to a later one; 0 if the second is not later.
pub fn micros_after(century: u32, from: &Time, to: &Time) -> u128
    requires century { century ≤ 99 }
    ensures { result ≡ micros_after century from.now to.now }
{
    let minutes = minutes_between(century, from, to);
    micros_in(from, to, minutes)
}

/// The same, if its minute is that many minutes of the calendar after the first one's.
fn micros_in(from: &Time, to: &Time, minutes: Option<u64>) -> u128
    requires { IfSome minutes (λ m. m < 2 ^ 46) }
    ensures { result ≡ micros_in from.now to.now minutes }
{
    match minutes {
        Some(minutes) => {
            let last = to.micros as u128 + inserted(minutes, from, to) as u128;
            (MINUTE as u128 * minutes as u128 + last).saturating_sub(from.micros as u128)
        }
        None => 0,
    }
}

/// The microseconds of a second 60 that the first time is in, if the second one is not.
fn inserted(minutes: u64, from: &Time, to: &Time) -> u64
    ensures { result ≡ inserted minutes from.now to.now }
{
    if 0 < minutes && MINUTE <= from.micros && to.micros < MINUTE {
        SECOND
    } else {
        0
    }
}

/// The minutes of the calendar from the minute of a time to that of another one, which is in the
/// same year or in the next one.
fn minutes_between(century: u32, from: &Time, to: &Time) -> Option<u64>
    requires century { century ≤ 99 }
    ensures minutes { result ≡ minutes_between century from.now to.now }
    ensures low { IfSome result (λ m. m < 2 ^ 46) }
{
    let first = minute_of_year(from);
    let last = minute_of_year(to);
    if same_year(from.year, to.year) && first <= last {
        return Some(last - first);
    }
    let later = last + DAY * year_days(century, from);
    if same_year(next_year(from.year), to.year) && first <= later {
        Some(later - first)
    } else {
        None
    }
}

/// The number of the minute of a time in its year.
fn minute_of_year(time: &Time) -> u64
    ensures minute { result ≡ minute_of_year time.now }
    ensures low { result < 2 ^ 44 }
{
    60 * (24 * time.days as u64 + time.hours as u64) + time.minutes as u64
}

/// How many days the year of a time has. If it is not known, day 366 is in a year of 366 days.
fn year_days(century: u32, time: &Time) -> u64
    requires century { century ≤ 99 }
    ensures days { result ≡ year_days century time.now }
    ensures low { result < 2 ^ 32 }
{
    match time.year {
        Some(year) => days_in_year((100 * century + year % 100) as i16) as u64,
        None => { if time.days == 366 { 366 } else { 365 } }
    }
}

/// Whether two years are the same, or both are not known.
fn same_year(year: Option<u32>, other: Option<u32>) -> bool
    ensures { result ≡ same_year year other }
{
    match (year, other) {
        (None, None) => true,
        (Some(year), Some(other)) => year == other,
        (None, Some(_)) => false,
        (Some(_), None) => false,
    }
}

/// The year after a year of two digits.
fn next_year(year: Option<u32>) -> Option<u32>
    ensures { result ≡ next_year year }
{
    match year {
        Some(year) => Some((year % 100 + 1) % 100),
        None => None,
    }
}
