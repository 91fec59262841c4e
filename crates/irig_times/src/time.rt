//! Times of year, and those of frames.

ghost use Rattle.std.specs.Prelude.{◌≡◌, ◌+◌, ◌^◌, ◌<◌};
ghost use Rattle.irig_times.specs.Times.{minute_micros, time_in, timed};

use irig_codes::{Fields, Format, Note};
use irig_index::Verdict;

/// With a second 60.
const LONG_MINUTE: u64 = 61_000_000;

/// A time of year: a minute, and the microseconds since it began.
#[derive(Clone, Copy, PartialEq, Eq)]
pub struct Time {
    /// Of its century, 0 to 99, if the frames carry it.
    pub year: Option<u32>,
    /// Of the year, from 1.
    pub days: u32,
    pub hours: u32,
    pub minutes: u32,
    /// Since the minute began: of a moment that has a time, fewer than 61 seconds.
    pub micros: u64,
}

/// A frame without hundredths is at a whole second.
fn minute_micros(fields: &Fields) -> u64
    ensures value { result ≡ minute_micros fields.now }
    ensures small { result < 2 ^ 53 }
{
    let hundredths = fields.hundredths.unwrap_or(0) as u64;
    10_000 * (100 * fields.seconds as u64 + hundredths)
}

/// The time `micros` after a frame begins. Nothing is carried: it can be past the minute's end.
pub fn time_in(fields: &Fields, micros: u64) -> Time
    requires { micros < 2 ^ 53 }
    ensures value { result ≡ time_in fields.now micros }
    ensures small { result.micros < 2 ^ 54 }
{
    Time {
        year: fields.year,
        days: fields.days,
        hours: fields.hours,
        minutes: fields.minutes,
        micros: minute_micros(fields) + micros,
    }
}

/// The fields of a frame that has a time: it is fine, and ends with its minute of 61 seconds.
pub fn timed(format: Format, verdict: Verdict) -> Option<Fields>
    ensures { result ≡ timed format verdict }
{
    match verdict {
        Verdict::Read(fields, Note::Fine) => {
            if minute_micros(&fields) + format.frame_period() <= LONG_MINUTE {
                Some(fields)
            } else {
                None
            }
        }
        _ => None,
    }
}
