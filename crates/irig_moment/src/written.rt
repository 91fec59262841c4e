//! Numbers in a text that has a form, so each byte that is read as a digit is one.

ghost use Rattle.std.specs.Prelude.{◌≡◌, ◌+◌, ◌≤◌, ◌<◌, length, IsTrue, IfSome};
ghost use Rattle.irig_moment.specs.Calendar.{IsDay};
ghost use Rattle.irig_moment.specs.Written.{has_form_of, fits_form_of, number_at, hundredths_of};
ghost use Rattle.irig_moment.specs.Written.{time_at, fine_time_at, ordinal_date, civil_date};

use crate::calendar::{civil_day, ordinal_day};

/// Whether a text has a form: any digit at its 0, and its own character at all other places.
pub fn has_form(form: &[u8], text: &[u8]) -> bool
    ensures value { result ≡ has_form_of form.now text.now }
    ensures long { IsTrue result → length text.now ≡ length form.now }
{
    if form.len() != text.len() {
        return false;
    }
    for place in 0..form.len() {
        if !fits_form(form[place], text[place]) {
            return false;
        }
    }
    true
}

fn fits_form(form: u8, byte: u8) -> bool
    ensures { result ≡ fits_form_of form byte }
{
    if form == b'0' {
        b'0' <= byte && byte <= b'9'
    } else {
        byte == form
    }
}

/// They are at most four digits, so the number fits. A byte below `0` does not come.
pub fn number(text: &[u8], place: usize, count: usize) -> u32
    requires few { count ≤ 4 }
    requires there { place + count ≤ length text.now }
    ensures { result ≡ number_at text.now place count }
{
    let mut value = 0;
    for digit in place..place + count {
        value = 10 * value + text[digit].saturating_sub(b'0') as u32;
    }
    value
}

/// The day number of the date `YYYY-DDD` with which a text begins.
pub fn ordinal_date(text: &[u8]) -> Option<u32>
    requires { 8 ≤ length text.now }
    ensures value { result ≡ ordinal_date text.now }
    ensures range { IfSome result IsDay }
{
    ordinal_day(number(text, 0, 4), number(text, 5, 3))
}

/// The day number of the date `YYYY-MM-DD` with which a text begins.
pub fn civil_date(text: &[u8]) -> Option<u32>
    requires { 10 ≤ length text.now }
    ensures value { result ≡ civil_date text.now }
    ensures range { IfSome result IsDay }
{
    civil_day(number(text, 0, 4), number(text, 5, 2), number(text, 8, 2))
}

/// The hundredths from midnight; the last parameter is those in the second. Second 60 is none.
fn hundredths(hours: u32, minutes: u32, seconds: u32, hundredths: u32) -> Option<u32>
    ensures value { result ≡ hundredths_of hours minutes seconds hundredths }
    ensures range { IfSome result (λ time. time < 8640000) }
{
    if hours > 23 || minutes > 59 || seconds > 59 || hundredths > 99 {
        return None;
    }
    Some(360_000 * hours + 6_000 * minutes + 100 * seconds + hundredths)
}

/// The hundredths of a second from midnight to the time `hh:mm:ss` at a place, from 0.
pub fn time(text: &[u8], place: usize) -> Option<u32>
    requires { place + 8 ≤ length text.now }
    ensures value { result ≡ time_at text.now place }
    ensures range { IfSome result (λ time. time < 8640000) }
{
    let minutes = number(text, place + 3, 2);
    hundredths(
        number(text, place, 2),
        minutes,
        number(text, place + 6, 2),
        0,
    )
}

/// The same of the time `hh:mm:ss.ff`.
pub fn fine_time(text: &[u8], place: usize) -> Option<u32>
    requires { place + 11 ≤ length text.now }
    ensures value { result ≡ fine_time_at text.now place }
    ensures range { IfSome result (λ time. time < 8640000) }
{
    let minutes = number(text, place + 3, 2);
    let seconds = number(text, place + 6, 2);
    hundredths(
        number(text, place, 2),
        minutes,
        seconds,
        number(text, place + 9, 2),
    )
}
