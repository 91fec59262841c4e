//! The years and dates of times, by the calendar of jiff (Gregorian, to the end of the year 9999).

ghost use Rattle.std.specs.Prelude.{◌≡◌, ◌≤◌, IfSome};
ghost use Rattle.irig_stamps.specs.Dates.{counted_on, date_from, date_in, year_in};

use crate::settings::Settings;
use irig_times::Time;
use jiff_core::civil::days_in_month;

/// By how many days the day of the year goes back at least, if a year has ended.
const YEAR_END: u32 = 300;

/// The year of a time.
pub fn year_in(settings: &Settings<'_>, time: &Time) -> Option<u32>
    requires century { settings.now.century ≤ 99 }
    requires year { IfSome settings.now.year (λ y. y ≤ 9998) }
    ensures value { result ≡ year_in settings.now time.now }
    ensures range { IfSome result (λ y. y ≤ 9999) }
{
    match time.year {
        // The year of a frame is 0 to 99, so the rest changes nothing: the bound is for the proof.
        Some(year) => Some(100 * settings.century + year % 100),
        None => year_by_day(settings, time.days),
    }
}

/// The year of a day, if frames carry no year.
fn year_by_day(settings: &Settings<'_>, days: u32) -> Option<u32>
    requires year { IfSome settings.now.year (λ y. y ≤ 9998) }
    ensures value { result ≡ counted_on settings.now days }
    ensures range { IfSome result (λ y. y ≤ 9999) }
{
    match settings.year {
        Some(year) => {
            if settings.first_day.saturating_sub(days) >= YEAR_END {
                Some(year + 1)
            } else {
                Some(year)
            }
        }
        None => None,
    }
}

/// The month and the day in it of a day of a year (`days`).
pub fn date_in(year: Option<u32>, days: u32) -> Option<(u32, u32)>
    requires { IfSome year (λ y. y ≤ 9999) }
    ensures { result ≡ date_in year days }
{
    match year {
        Some(year) => date_in_known_year(year, days),
        None => None,
    }
}

/// The month and the day in it of a day of this year (`days`).
fn date_in_known_year(year: u32, days: u32) -> Option<(u32, u32)>
    requires { year ≤ 9999 }
    ensures { result ≡ date_from year days }
{
    if days == 0 {
        return None;
    }
    let mut left = days;
    for month in 1..13 {
        let length = days_in_month(year as i16, month as u8) as u32;
        if left <= length {
            return Some((month, left));
        }
        left -= length;
    }
    None
}
