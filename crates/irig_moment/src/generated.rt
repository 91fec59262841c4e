//! The fields of frames that are generated.

ghost use Rattle.std.specs.Prelude.{◌≡◌, ◌+◌, ◌%◌, ◌^◌, ◌≤◌, ◌<◌, IsTrue};
ghost use Rattle.irig_codes.specs.{Format.control_count_of, Fields.fits_in};
ghost use Rattle.irig_moment.specs.{Calendar.new_year_of, Generated.period_of, Generated.fields_at};

use crate::calendar::year_and_place;
use irig_codes::{Fields, Format};

/// How long a frame takes, in hundredths of a second: from 1 (G) to 1,000 (E).
pub fn period(format: Format) -> u32
    ensures value { result ≡ period_of format }
    ensures least { 1 ≤ result }
    ensures most { result ≤ 1000 }
{
    (format.frame_period() / 10_000) as u32
}

/// The fields of the frame that begins on a day at `time`, in hundredths of a second since
/// midnight, a whole number of periods after a full minute. The year is modulo 100, and the lowest
/// bit of `control` is the first control element.
pub fn fields_at(format: Format, day: u32, time: u32, control: u64) -> Fields
    requires from { new_year_of 1 ≤ day }
    requires before { day < new_year_of 9999 + 365 }
    requires in_day { time < 8640000 }
    requires starts { time % 6000 % period_of format ≡ 0 }
    requires controls { control < 2 ^ control_count_of format }
    ensures value { result ≡ fields_at format day time control }
    ensures fit { IsTrue (fits_in format result) }
{
    let (year, days) = year_and_place(day);
    Fields {
        hundredths: format.has_hundredths().then_some(time % 100),
        seconds: time / 100 % 60,
        minutes: time / 6_000 % 60,
        hours: time / 360_000,
        days,
        year: format.has_year().then_some(year % 100),
        sbs: format.has_sbs().then_some(time / 100),
        control: format.has_control().then_some(control),
    }
}
