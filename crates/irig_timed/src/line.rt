//! The time on the line between two pulses that have one. Bounds in `requires`, as 2 ^ 60, only
//! keep sums in their types.

ghost use Rattle.std.specs.Prelude.{◌≡◌, ◌<◌, ◌≤◌, ◌+◌, ◌*◌, ◌^◌};
ghost use Rattle.irig_timed.specs.Line.{counts_to, in_hour, is_back, is_in_hour, minute_at};
ghost use Rattle.irig_timed.specs.Line.{over_in, since_hour, time_at, time_on};

use irig_codes::Format;
use irig_law::Point;
use irig_times::Time;

/// A minute, in microseconds.
const MINUTE: u64 = 60_000_000;

/// A minute with a second 60.
const LONG_MINUTE: u64 = 61_000_000;

/// An hour.
const HOUR: u64 = 3_600_000_000;

/// The time between two pulses that are that many elements apart, if `part` of the `whole` between
/// their rises is over; both in the same unit.
pub fn time_on(
    format: Format,
    from: &Point,
    to: &Point,
    elements: u64,
    part: u64,
    whole: u64,
) -> Time
    requires from { (from.now.element < 100) × (from.now.frame.micros < 61000000) }
    requires to { (to.now.element < 100) × (to.now.frame.micros < 61000000) }
    requires elements { elements < 2 ^ 40 }
    requires part { (part ≤ whole) × (0 < whole) }
    ensures { result ≡ time_on format from.now to.now elements part whole }
{
    let micros = elements * format.interval();
    let over = over_in(format, elements, part, whole);
    time_at(format, from, to, over, micros.saturating_sub(over))
}

/// How much of the microseconds of that many elements is over.
fn over_in(format: Format, elements: u64, part: u64, whole: u64) -> u64
    requires elements { elements < 2 ^ 40 }
    requires part { (part ≤ whole) × (0 < whole) }
    ensures over { result ≡ over_in format elements part whole }
    ensures low { result < 2 ^ 57 }
{
    let micros = elements * format.interval();
    (part as u128 * micros as u128 / whole as u128) as u64
}

/// The time some microseconds after the first pulse, and so long before the second one.
fn time_at(format: Format, from: &Point, to: &Point, over: u64, rest: u64) -> Time
    requires from { (from.now.element < 100) × (from.now.frame.micros < 61000000) }
    requires to { (to.now.element < 100) × (to.now.frame.micros < 61000000) }
    requires over { over < 2 ^ 57 }
    ensures { result ≡ time_at format from.now to.now over rest }
{
    if is_back(format, from, to, over) {
        in_hour(&to.frame, since_hour(format, to).saturating_sub(rest))
    } else {
        in_hour(&from.frame, since_hour(format, from) + over)
    }
}

/// Whether the time is counted back from the second pulse.
fn is_back(format: Format, from: &Point, to: &Point, over: u64) -> bool
    requires from { (from.now.element < 100) × (from.now.frame.micros < 61000000) }
    requires over { over < 2 ^ 57 }
    ensures { result ≡ is_back format from.now to.now over }
{
    MINUTE <= to.frame.micros || counts_to(&from.frame) <= since_hour(format, from) + over
}

/// Whether a pulse is not past the end of its hour, or of the second 60 that its frame is in, and
/// an element of a frame that begins in a minute.
pub fn is_in_hour(format: Format, point: &Point) -> bool
    ensures { result ≡ is_in_hour format point.now }
{
    point.element < 100
        && point.frame.micros < LONG_MINUTE
        && since_hour(format, point) < counts_to(&point.frame)
}

/// How far one can count on from a time, in microseconds since its hour began.
fn counts_to(time: &Time) -> u64
    ensures { result ≡ counts_to time.now }
{
    if MINUTE <= time.micros {
        MINUTE * time.minutes as u64 + LONG_MINUTE
    } else {
        HOUR
    }
}

/// The microseconds from the begin of an hour to a pulse.
fn since_hour(format: Format, point: &Point) -> u64
    requires { (point.now.element < 100) × (point.now.frame.micros < 61000000) }
    ensures micros { result ≡ since_hour format point.now }
    ensures low { result < 2 ^ 59 }
{
    let micros = MINUTE * point.frame.minutes as u64 + point.frame.micros;
    micros + point.element as u64 * format.interval()
}

/// The time in the hour of another one, by the microseconds since that hour began.
fn in_hour(time: &Time, micros: u64) -> Time
    requires { micros < 2 ^ 60 }
    ensures { result ≡ in_hour time.now micros }
{
    let minute = minute_at(time, micros);
    Time {
        minutes: minute,
        micros: micros - MINUTE * minute as u64,
        ..*time
    }
}

/// Its minute.
fn minute_at(time: &Time, micros: u64) -> u32
    ensures minute { result ≡ minute_at time.now micros }
    ensures low { 60000000 * result ≤ micros }
{
    if MINUTE <= time.micros && MINUTE * (time.minutes as u64 + 1) <= micros {
        time.minutes
    } else {
        (micros / MINUTE).min(59) as u32
    }
}
