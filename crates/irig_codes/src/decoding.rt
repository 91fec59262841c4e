//! The fields of a frame, and what is noted of them.

ghost use Rattle.std.specs.Prelude.{◌≡◌, List, length, ◌||◌, ◌==◌, nat_lt};
ghost use Rattle.irig_codes.specs.declared.layout.Digit.TheVariants.{DaysUnits, DaysTens};
ghost use Rattle.irig_codes.specs.declared.layout.Digit.TheVariants.{DaysHundreds};
ghost use Rattle.irig_codes.specs.Wrong.{first_wrong_field, over, stray_from};
ghost use Rattle.irig_codes.specs.{Decoding.decoded, Notes.note_of, Notes.sbs_disagrees};
ghost use Rattle.irig_codes.specs.{declared.width.Element.Element, Ones.ones_of, Slots.slots_at};

use crate::digits::{digit, fields_from};
use crate::fields::Fields;
use crate::format::Format;
use crate::layout::Digit;
use crate::note::{Name, Note};
use crate::ones::Ones;
use crate::reading::read_digits;
use crate::used::used;
use crate::width::Element;

/// The fields, which may be out of range, and the first note that holds. The order of the notes is
/// this project's own choice: a wrong field, straight binary seconds that disagree, a stray
/// element.
pub fn decode(format: Format, frame: &[Element; 100]) -> (Fields, Note)
    ensures { result ≡ decoded format frame.now }
{
    decode_ones(format, Ones::of(frame))
}

/// As `decode`, for callers that gathered only which elements are One: the others carry nothing.
pub fn decode_ones(format: Format, ones: Ones) -> (Fields, Note)
    ensures { (frame : List Element) → length frame ≡ 100 → ones_of frame ≡ ones
        → result ≡ decoded format frame }
{
    let digits = read_digits(format, ones);
    let fields = fields_from(format, &digits);
    let wrong = first_wrong(&digits, &fields);
    (
        fields,
        note(wrong, disagrees(&fields), first_stray(format, ones)),
    )
}

/// The first of the three that is there counts; without any the frame is `Fine`.
fn note(wrong: Option<Name>, disagrees: bool, stray: Option<u8>) -> Note
    ensures { result ≡ note_of wrong disagrees stray }
{
    match (wrong, disagrees, stray) {
        (Some(name), _, _) => Note::Field(name),
        (None, true, _) => Note::SbsDisagrees,
        (None, false, Some(element)) => Note::Stray(element),
        (None, false, None) => Note::Fine,
    }
}

/// Whether a decimal digit is above 9: it has up to four bits, so up to 15.
fn is_over(digits: &[u64; 15], number: Digit) -> bool
    ensures { result ≡ over digits.now number }
{
    digit(digits, number) > 9
}

/// Whether one of two decimal digits is above 9.
fn are_over(digits: &[u64; 15], units: Digit, tens: Digit) -> bool
    ensures { result ≡ (over digits.now units || over digits.now tens) }
{
    is_over(digits, units) || is_over(digits, tens)
}

/// Whether a digit of the day is above 9, or the day is not from 1 to 366.
fn is_no_day(digits: &[u64; 15], day: u32) -> bool
    ensures { result ≡ (over digits.now DaysUnits || (over digits.now DaysTens
        || (over digits.now DaysHundreds || ((day == 0) || nat_lt 366 day)))) }
{
    are_over(digits, Digit::DaysUnits, Digit::DaysTens)
        || is_over(digits, Digit::DaysHundreds)
        || day == 0
        || day > 366
}

/// The first field with a digit above 9, or out of its range. Second 60 is a leap second.
/// Hundredths and year need no other test: two digits make at most 99.
fn first_wrong(digits: &[u64; 15], fields: &Fields) -> Option<Name>
    ensures { result ≡ first_wrong_field digits.now fields.now }
{
    if are_over(digits, Digit::HundredthsUnits, Digit::HundredthsTens) {
        Some(Name::Hundredths)
    } else if are_over(digits, Digit::SecondsUnits, Digit::SecondsTens) || fields.seconds > 60 {
        Some(Name::Seconds)
    } else if are_over(digits, Digit::MinutesUnits, Digit::MinutesTens) || fields.minutes > 59 {
        Some(Name::Minutes)
    } else if are_over(digits, Digit::HoursUnits, Digit::HoursTens) || fields.hours > 23 {
        Some(Name::Hours)
    } else if is_no_day(digits, fields.days) {
        Some(Name::Days)
    } else if are_over(digits, Digit::YearUnits, Digit::YearTens) {
        Some(Name::Year)
    } else {
        None
    }
}

/// Whether the straight binary seconds are there and are not the second of the day. The sum fits 64
/// bits, also with fields that are out of range.
fn disagrees(fields: &Fields) -> bool
    ensures { result ≡ sbs_disagrees fields.now }
{
    match fields.sbs {
        Some(sbs) => {
            let time = 3_600 * fields.hours as u64
                + 60 * fields.minutes as u64
                + fields.seconds as u64;
            sbs as u64 != time
        }
        None => false,
    }
}

/// The first element, from 0, that is One though it carries no bit in the format.
fn first_stray(format: Format, ones: Ones) -> Option<u8>
    ensures { (frame : List Element) → length frame ≡ 100 → ones_of frame ≡ ones
        → result ≡ stray_from 0 (slots_at format) frame }
{
    ones.lowest_outside(used(format))
}
