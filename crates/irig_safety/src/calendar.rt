//! By how much the time of one frame is later than that of another, which begins before it.

ghost use Rattle.std.specs.Prelude.{◌≡◌, ◌+◌, ◌%◌, ◌==◌, ◌^◌, ◌<◌};
ghost use Rattle.irig_safety.specs.Calendar.{clock_after, clock_of, goes_back, inserted_of};
ghost use Rattle.irig_safety.specs.Calendar.{is_later, is_near_year, periods, turn_of, year_of};
ghost use Rattle.irig_moment.specs.Generated.{period_of};

use crate::shown::Shown;
use irig_codes::{Fields, Format};

/// In hundredths of a second, from a day before the year begins, as days count from 1. This does
/// not matter: clocks are only compared.
pub fn clock(fields: &Fields) -> u128
    ensures value { result ≡ clock_of fields.now }
    ensures small { result < 2 ^ 60 }
{
    let days = u128::from(fields.days);
    let hours = u128::from(fields.hours);
    let minutes = u128::from(fields.minutes);
    let seconds = u128::from(fields.seconds);
    let hundredths = u128::from(fields.hundredths.unwrap_or(0));
    8_640_000 * days + 360_000 * hours + 6_000 * minutes + 100 * seconds + hundredths
}

/// In hundredths of a second, 10,000 microseconds each: from 1 (G) to 1,000 (E).
fn period(format: Format) -> u128
    ensures value { result ≡ period_of format }
    ensures some { 0 < result }
{
    u128::from(format.frame_period()) / 10_000
}

/// Of two digits: 0 comes after 99.
fn is_next_year(one: u32, other: u32) -> bool
    ensures { result ≡ ((one + 1) % 100 == other) }
{
    (u64::from(one) + 1) % 100 == u64::from(other)
}

/// False if just one is known.
fn is_near_year(one: Option<u32>, other: Option<u32>) -> bool
    ensures { result ≡ is_near_year one other }
{
    match (one, other) {
        (Some(one), Some(other)) => one == other || is_next_year(one, other),
        (None, None) => true,
        _ => false,
    }
}

/// In hundredths of a second.
fn year_length(is_long: bool) -> u128
    ensures value { result ≡ year_of is_long }
    ensures small { result < 2 ^ 32 }
{
    if is_long {
        3_162_240_000
    } else {
        3_153_600_000
    }
}

/// By how many hundredths of a second the year of `other` begins later. A year is long if its
/// number is a multiple of 4, as from 1901 to 2099. Of unknown years: by a year if the clock would
/// go back otherwise, and by a long one if `one` is on day 366.
fn turn(one: &Fields, other: &Fields) -> u128
    ensures value { result ≡ turn_of one.now.year other.now.year one.now other.now }
    ensures small { result < 2 ^ 32 }
{
    match (one.year, other.year) {
        (Some(from), Some(to)) => {
            if is_next_year(from, to) {
                year_length(from % 4 == 0)
            } else {
                0
            }
        }
        (None, None) => {
            if clock(other) + inserted(one, other) < clock(one) {
                year_length(one.days == 366)
            } else {
                0
            }
        }
        _ => 0,
    }
}

/// The hundredths that second 60 of `one` adds to the clock of `other`: second 60 has the clock of
/// second 0 of the next minute, but is a second before it.
fn inserted(one: &Fields, other: &Fields) -> u128
    ensures value { result ≡ inserted_of one.now other.now }
    ensures small { result < 2 ^ 8 }
{
    if one.seconds == 60 && other.seconds != 60 {
        100
    } else {
        0
    }
}

/// The time of `other` on the clock of the year of `one`, in hundredths of a second.
fn clock_after(one: &Shown, other: &Shown) -> u128
    ensures value { result ≡ clock_after one.now other.now }
    ensures small { result < 2 ^ 61 }
{
    clock(&other.fields) + turn(&one.fields, &other.fields) + inserted(&one.fields, &other.fields)
}

/// How many whole periods the time of `other` is after that of `one`; 0 if it is not later.
pub fn periods(format: Format, one: &Shown, other: &Shown) -> u128
    ensures value { result ≡ periods format one.now other.now }
    ensures small { result < 2 ^ 61 }
{
    let period = period(format);
    clock_after(one, other).saturating_sub(clock(&one.fields)) / period
}

/// Whether `one` is in second 60 of a minute, and `other` in an earlier second of the same minute.
fn goes_back(one: &Fields, other: &Fields) -> bool
    ensures { result ≡ goes_back one.now other.now }
{
    one.seconds == 60
        && other.seconds != 60
        && one.days == other.days
        && one.hours == other.hours
        && one.minutes == other.minutes
}

/// Whether the time of `other` is whole periods later, at least one. False if it goes back from
/// second 60: the inserted second, or a turn of the year, would make it seem later.
pub fn is_later(format: Format, one: &Shown, other: &Shown) -> bool
    ensures { result ≡ is_later format one.now other.now }
{
    let (from, to) = (clock(&one.fields), clock_after(one, other));
    !goes_back(&one.fields, &other.fields)
        && from < to
        && is_near_year(one.fields.year, other.fields.year)
        && from + periods(format, one, other) * period(format) == to
}
