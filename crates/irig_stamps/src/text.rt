//! Times as texts, each added to the end of `text`.

ghost use Rattle.std.specs.Prelude.{◌≡◌, ◌<◌, ◌≤◌, ◌^◌, ◌++◌, ◌∷◌, ◌+◌, ◌*◌, decimal, drop, length};
ghost use Rattle.std.specs.Prelude.{OnOk, IfSome};
ghost use Rattle.irig_stamps.specs.Dates.{date_in, year_in};
ghost use Rattle.irig_stamps.specs.Texts.{calendar_text, clock_text, date_text, day_text};
ghost use Rattle.irig_stamps.specs.Texts.{day_seconds, digit_at, fraction_text, ordinal_text};
ghost use Rattle.irig_stamps.specs.Texts.{seconds_text, word_of, year_text};

use crate::dates::{date_in, year_in};
use crate::settings::{Form, Settings};
use irig_times::Time;
use std::alloc::AllocError;

/// The most digits of a number of 64 bits.
const MOST_DIGITS: usize = 20;

/// One decimal digit of a number, in ASCII: that of the ones if `unit` is 1, of the tens if it is
/// 10, and so on.
fn digit(unit: u64, number: u64) -> u8
    requires { 0 < unit }
    ensures { result ≡ digit_at unit number }
{
    b'0' + (number / unit % 10) as u8
}

/// Adds a time in the form of the settings; a hyphen if it is `None`, or if the form is a date and
/// the time has none (`put_time`).
pub fn put_time_or_hyphen(
    text: &mut Vec<u8>,
    settings: &Settings<'_>,
    time: Option<Time>,
) -> Result<(), AllocError>
    requires century { settings.now.century ≤ 99 }
    requires year { IfSome settings.now.year (λ y. y ≤ 9998) }
    ensures { OnOk result (text.new.items ≡ text.old.items ++ word_of settings.now time) }
{
    match time {
        Some(time) => put_time(text, settings, &time),
        None => text.extend_from_slice(b"-"),
    }
}

/// Adds a time in the form of the settings, in the year of `year_in`: the time's own year, or one
/// counted from that of the settings.
fn put_time(text: &mut Vec<u8>, settings: &Settings<'_>, time: &Time) -> Result<(), AllocError>
    requires century { settings.now.century ≤ 99 }
    requires year { IfSome settings.now.year (λ y. y ≤ 9998) }
    ensures { OnOk result
        (text.new.items ≡ text.old.items ++ word_of settings.now (Some time.now)) }
{
    let year = year_in(settings, time);
    match settings.form {
        Form::Ordinal => put_ordinal(text, year, time),
        Form::Calendar => put_calendar(text, year, time),
        Form::Seconds => put_seconds(text, time),
    }
}

/// Adds a time of year, as `YYYY-DDDThh:mm:ss.ffffff`, with the day's number in the year.
fn put_ordinal(text: &mut Vec<u8>, year: Option<u32>, time: &Time) -> Result<(), AllocError>
    ensures { OnOk result (text.new.items ≡ text.old.items ++ ordinal_text year time.now) }
{
    put_year(text, year)?;
    text.extend_from_slice(&day(time.days))?;
    text.extend_from_slice(&clock(time))
}

/// Adds a year of four digits and a hyphen; nothing if the year is not known.
fn put_year(text: &mut Vec<u8>, year: Option<u32>) -> Result<(), AllocError>
    ensures { OnOk result (text.new.items ≡ text.old.items ++ year_text year) }
{
    match year {
        None => Ok(()),
        Some(year) => text.extend_from_slice(&[
            digit(1000, year as u64),
            digit(100, year as u64),
            digit(10, year as u64),
            digit(1, year as u64),
            b'-',
        ]),
    }
}

/// Adds a time as `YYYY-MM-DDThh:mm:ss.ffffff`; a hyphen if it has no date (`date_in`): the year is
/// not known, or has no such day, as day 366 of a year of 365 days.
fn put_calendar(text: &mut Vec<u8>, year: Option<u32>, time: &Time) -> Result<(), AllocError>
    requires { IfSome year (λ y. y ≤ 9999) }
    ensures { OnOk result (text.new.items ≡ text.old.items ++ calendar_text year time.now) }
{
    match date_in(year, time.days) {
        None => text.extend_from_slice(b"-"),
        Some((month, day)) => {
            put_year(text, year)?;
            text.extend_from_slice(&date(month, day))?;
            text.extend_from_slice(&clock(time))
        }
    }
}

/// Adds the seconds since midnight, with six decimals: the microseconds.
fn put_seconds(text: &mut Vec<u8>, time: &Time) -> Result<(), AllocError>
    ensures { OnOk result (text.new.items ≡ text.old.items ++ seconds_text time.now) }
{
    put_number(text, day_seconds(time))?;
    text.extend_from_slice(&fraction(time.micros))
}

/// The whole seconds since midnight.
fn day_seconds(time: &Time) -> u64
    ensures { result ≡ day_seconds time.now }
{
    3600 * time.hours as u64 + 60 * time.minutes as u64 + time.micros / 1_000_000
}

/// Adds a whole number in decimal.
pub fn put_number(text: &mut Vec<u8>, number: u64) -> Result<(), AllocError>
    ensures { OnOk result (text.new.items ≡ text.old.items ++ decimal number) }
{
    let mut digits = [0; MOST_DIGITS];
    let start = itoa::write_digits(number, &mut digits, MOST_DIGITS);
    text.extend_from_slice(&digits[start..])
}

fn day(days: u32) -> [u8; 3]
    ensures { result ≡ day_text days }
{
    [
        digit(100, days as u64),
        digit(10, days as u64),
        digit(1, days as u64),
    ]
}

fn date(month: u32, day: u32) -> [u8; 5]
    ensures { result ≡ date_text month day }
{
    [
        digit(10, month as u64),
        digit(1, month as u64),
        b'-',
        digit(10, day as u64),
        digit(1, day as u64),
    ]
}

/// The time of a day, as `Thh:mm:ss.ffffff`.
fn clock(time: &Time) -> [u8; 16]
    ensures { result ≡ clock_text time.now }
{
    [
        b'T',
        digit(10, time.hours as u64),
        digit(1, time.hours as u64),
        b':',
        digit(10, time.minutes as u64),
        digit(1, time.minutes as u64),
        b':',
        digit(10_000_000, time.micros),
        digit(1_000_000, time.micros),
        b'.',
        digit(100_000, time.micros),
        digit(10_000, time.micros),
        digit(1_000, time.micros),
        digit(100, time.micros),
        digit(10, time.micros),
        digit(1, time.micros),
    ]
}

/// The part of a second in some microseconds, as `.ffffff`.
fn fraction(micros: u64) -> [u8; 7]
    ensures { result ≡ fraction_text micros }
{
    [
        b'.',
        digit(100_000, micros),
        digit(10_000, micros),
        digit(1_000, micros),
        digit(100, micros),
        digit(10, micros),
        digit(1, micros),
    ]
}
