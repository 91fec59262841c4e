//! Days and years, by the day numbers of jiff, a library that reckons the Gregorian calendar.

ghost use Rattle.std.specs.Prelude.{◌≡◌, ◌+◌, ◌≤◌, ◌<◌, IfSome};
ghost use Rattle.irig_moment.specs.Calendar.{new_year_of, year_of, place_of, ordinal_day_of};
ghost use Rattle.irig_moment.specs.Calendar.{civil_day_of, IsDay};

use jiff::civil::date;
use jiff_core::civil::{Date, days_in_month, days_in_year};

/// It is not 9999, the last year of jiff, so that the frames after a moment have days, too.
const LAST_YEAR: u32 = 9_998;

/// The day number of 1 January of a year from 1 to 9999.
fn new_year(year: u32) -> u32
    requires low { 1 ≤ year }
    requires high { year ≤ 9999 }
    ensures { result ≡ new_year_of year }
{
    date(year as i16, 1, 1).to_plain().days_since_min()
}

/// The day number of a place in a year, from 1. `None`: the years 1 to 9998 have no such day.
pub fn ordinal_day(year: u32, day: u32) -> Option<u32>
    ensures value { result ≡ ordinal_day_of year day }
    ensures range { IfSome result IsDay }
{
    if year < 1 || year > LAST_YEAR {
        return None;
    }
    if day < 1 || day > days_in_year(year as i16) as u32 {
        return None;
    }
    Some(new_year(year) + (day - 1))
}

/// The day number of a month and a day, both from 1.
pub fn civil_day(year: u32, month: u32, day: u32) -> Option<u32>
    ensures value { result ≡ civil_day_of year month day }
    ensures range { IfSome result IsDay }
{
    if year < 1 || year > LAST_YEAR || month < 1 || month > 12 {
        return None;
    }
    if day < 1 || day > days_in_month(year as i16, month as u8) as u32 {
        return None;
    }
    let date = date(year as i16, month as i8, day as i8);
    Some(date.to_plain().days_since_min())
}

/// The year of a day number, and the place of the day in it, from 1. Year 9999 has 365 days.
pub fn year_and_place(day: u32) -> (u32, u32)
    requires from { new_year_of 1 ≤ day }
    requires before { day < new_year_of 9999 + 365 }
    ensures year { result.0 ≡ year_of day }
    ensures place { result.1 ≡ place_of day }
    ensures range { result.1 ≤ 366 }
{
    let date = Date::from_days_since_min(day);
    (date.year as u32, date.day_of_year() as u32)
}
