//! The elements of the frame of a time, kept for the next pulse of that frame.

ghost use Rattle.std.specs.Prelude.{◌≡◌, ◌<◌, IsTrue};
ghost use Rattle.irig_law.specs.Elements.{IsKept, IsWanted};

use irig_codes::{Element, Format, encode, fits};
use irig_times::{Time, fields_at};

/// The elements of the frame of a time, if its fields fit.
#[derive(Clone, Copy)]
pub struct Wanted {
    pub time: Time,
    pub fits: bool,
    pub elements: [Element; 100],
}

/// The elements of the frame of a time, which are kept if it was asked last.
pub fn wanted_at(format: Format, time: &Time, kept: &Option<Wanted>) -> Wanted
    requires minute { time.now.micros < 61000000 }
    requires kept { IsKept format kept.now }
    ensures wanted { IsWanted format result }
    ensures time { result.time ≡ time.now }
{
    match *kept {
        Some(wanted) => {
            if is_same(wanted.time, *time) {
                wanted
            } else {
                wanted_of(format, time)
            }
        }
        None => wanted_of(format, time),
    }
}

/// The elements of the frame of a time.
fn wanted_of(format: Format, time: &Time) -> Wanted
    requires minute { time.now.micros < 61000000 }
    ensures wanted { IsWanted format result }
    ensures time { result.time ≡ time.now }
{
    let fields = fields_at(format, time);
    let fit = fits(format, &fields);
    let elements = if fit {
        encode(format, &fields)
    } else {
        [Element::Zero; 100]
    };
    Wanted {
        time: *time,
        fits: fit,
        elements,
    }
}

/// Whether two times are the same.
fn is_same(one: Time, other: Time) -> bool
    ensures { IsTrue result → one ≡ other }
{
    one == other
}
