//! Moments: a day and a time of day, to hundredths of a second.

ghost use Rattle.std.specs.Prelude.{◌≡◌, ◌<◌, ◌^◌, IsTrue, IfSome};
ghost use Rattle.irig_codes.specs.{Format.control_count_of, Fields.fits_in};
ghost use Rattle.irig_moment.specs.Generated.{starts_in, frame_fields};
ghost use Rattle.irig_moment.specs.{Calendar.IsDay, Written.moment_of, Written.both};

use crate::generated::{fields_at, period};
use crate::written::{civil_date, fine_time, has_form, ordinal_date, time};
use irig_codes::{Fields, Format};
use std::marker::Model;

/// A day of the years 1 to 9998, and a time of that day, which has no leap second.
#[derive(Clone, Copy, PartialEq, Eq)]
pub struct Moment {
    day: u32,
    hundredths: u32,
}

impl Model for Moment {
    ghost use Rattle.irig_moment.specs.Moment.{MomentView, IsMoment};

    ghost Value = { MomentView };

    ghost view = { λ m. record { day = m.day; hundredths = m.hundredths } };

    ghost invariant = { λ m. IsMoment m.day m.hundredths };

    ghost inverse = { λ v. record { day = v.day; hundredths = v.hundredths } };
}

impl Moment {
    /// The moment that a text says as `YYYY-DDDThh:mm:ss[.ff]` or `YYYY-MM-DDThh:mm:ss[.ff]`.
    pub fn parse(text: &[u8]) -> Option<Moment>
        ensures { result ≡ moment_of text.now }
    {
        // In a form a 0 is any digit. The time is at byte 9 after a day of three digits.
        if has_form(b"0000-000T00:00:00", text) {
            Moment::of(ordinal_date(text), time(text, 9))
        } else if has_form(b"0000-000T00:00:00.00", text) {
            Moment::of(ordinal_date(text), fine_time(text, 9))
        } else if has_form(b"0000-00-00T00:00:00", text) {
            Moment::of(civil_date(text), time(text, 11))
        } else if has_form(b"0000-00-00T00:00:00.00", text) {
            Moment::of(civil_date(text), fine_time(text, 11))
        } else {
            None
        }
    }

    fn of(day: Option<u32>, hundredths: Option<u32>) -> Option<Moment>
        requires days { IfSome day IsDay }
        requires times { IfSome hundredths (λ time. time < 8640000) }
        ensures { result ≡ both day hundredths }
    {
        match (day, hundredths) {
            (Some(day), Some(hundredths)) => Some(Moment { day, hundredths }),
            _ => None,
        }
    }

    /// Whether a frame can begin at the moment. One begins at each full minute, and then one after
    /// each frame period.
    pub fn starts(&self, format: Format) -> bool
        ensures { result ≡ starts_in format self.now }
    {
        self.hundredths % 6_000 % period(format) == 0
    }

    /// The fields of frame `k`, from 0, if frame 0 begins at the moment. A period has at most 1,000
    /// hundredths, so the sum is below 2^32, and at most two days are added.
    pub fn fields(&self, format: Format, k: u64, control: u64) -> Fields
        requires starts { IsTrue (starts_in format self.now) }
        requires frames { k < 10000 }
        requires controls { control < 2 ^ control_count_of format }
        ensures value { result ≡ frame_fields format self.now k control }
        ensures fit { IsTrue (fits_in format result) }
    {
        let elapsed = self.hundredths + k as u32 * period(format);
        let day = self.day + elapsed / 8_640_000;
        fields_at(format, day, elapsed % 8_640_000, control)
    }
}
