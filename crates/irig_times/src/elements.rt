//! Which elements a frame of a given time has, and whether a pulse says another one by its width.

ghost use Rattle.std.specs.Prelude.{◌≡◌, ◌<◌, ◌^◌, slice_get};
ghost use Rattle.irig_codes.specs.Fields.{part};
ghost use Rattle.irig_index.specs.Marker.{is_position};
ghost use Rattle.irig_times.specs.TimedElements.{contradicts, contradicts_by, first_of_year};
ghost use Rattle.irig_times.specs.TimedElements.{has_sbs_at, has_year_at, is_identifier, is_other};
ghost use Rattle.irig_times.specs.TimedElements.{is_timed, time_elements};
ghost use Rattle.irig_times.specs.Times.{fields_at, second_of_day};

use crate::steps::pulse_at;
use crate::time::Time;
use irig_codes::{Element, Fields, Format, Kind, class};
use irig_track::Lens;

/// How many elements, from element 0 on, carry the day, the hour, the minute, the second and its
/// fractions: up to element 41 (days) in B and E, 48 (tenths) in A, and 53 (hundredths) in G.
pub fn time_elements(format: Format) -> usize
    ensures { result ≡ time_elements format.kind }
{
    match format.kind() {
        Kind::A => 49,
        Kind::B => 42,
        Kind::E => 42,
        Kind::G => 54,
    }
}

fn first_of_year(kind: Kind) -> usize
    ensures { result ≡ first_of_year kind }
{
    match kind {
        Kind::A => 50,
        Kind::B => 50,
        Kind::E => 50,
        Kind::G => 60,
    }
}

fn has_year_at(format: Format, element: usize) -> bool
    ensures { result ≡ has_year_at format element }
{
    let first = first_of_year(format.kind());
    format.has_year() && first <= element && element < first + 9
}

fn has_sbs_at(format: Format, element: usize) -> bool
    ensures { result ≡ has_sbs_at format element }
{
    format.has_sbs() && 80 <= element && element < 98
}

/// Whether an element carries a part of the time of its frame: also the year and the straight
/// binary seconds, with what is between their digits.
fn is_timed(format: Format, element: usize) -> bool
    ensures { result ≡ is_timed format element }
{
    element < time_elements(format) || has_year_at(format, element) || has_sbs_at(format, element)
}

/// The fields of a frame of this time, with hundredths rounded down. Control functions are no part
/// of a time: 0 if the format has them.
pub fn fields_at(format: Format, time: &Time) -> Fields
    requires { time.now.micros < 2 ^ 32 }
    ensures { result ≡ fields_at format time.now }
{
    Fields {
        hundredths: some_if(format.has_hundredths(), (time.micros / 10_000 % 100) as u32),
        seconds: (time.micros / 1_000_000) as u32,
        minutes: time.minutes,
        hours: time.hours,
        days: time.days,
        year: time.year,
        sbs: some_if(format.has_sbs(), second_of_day(time)),
        control: if format.has_control() { Some(0) } else { None },
    }
}

fn some_if(there: bool, value: u32) -> Option<u32>
    ensures { result ≡ part there value }
{
    if there { Some(value) } else { None }
}

/// The second of the day as a frame carries it, with 17 bits.
fn second_of_day(time: &Time) -> u32
    requires { time.now.micros < 2 ^ 32 }
    ensures { result ≡ second_of_day time.now }
{
    let seconds = 3600 * time.hours as u64 + 60 * time.minutes as u64 + time.micros / 1_000_000;
    (seconds % 131_072) as u32
}

/// Whether pulse `number` of the track says another element than `wanted` has. Only position
/// identifiers and elements of the time are compared: nobody knows the control functions of a
/// frame.
pub fn contradicts(
    pulses: &mut Lens<'_>,
    format: Format,
    wanted: &[Element; 100],
    number: usize,
    element: usize,
) -> bool
    requires { element < 100 }
    ensures answer { result ≡ contradicts format element
        (slice_get pulses.old.track.pulses number) (slice_get wanted.now element) }
    ensures pulses { pulses.new.track ≡ pulses.old.track }
{
    match pulse_at(pulses, number) {
        Some(pulse) => contradicts_by(
            format,
            element,
            class(format, pulse.fall.saturating_sub(pulse.rise)),
            wanted[element],
        ),
        None => false,
    }
}

/// The same of a pulse of a class.
fn contradicts_by(format: Format, element: usize, class: Option<Element>, wanted: Element) -> bool
    ensures { result ≡ contradicts_by format element class wanted }
{
    is_other(class, wanted)
        && (is_identifier(wanted) || is_position(class) || is_timed(format, element))
}

/// False for a width of no class (`None`), which says nothing.
fn is_other(class: Option<Element>, wanted: Element) -> bool
    ensures { result ≡ is_other class wanted }
{
    match (class, wanted) {
        (None, _) => false,
        (Some(Element::Zero), Element::Zero) => false,
        (Some(Element::Zero), _) => true,
        (Some(Element::One), Element::One) => false,
        (Some(Element::One), _) => true,
        (Some(Element::Position), Element::Position) => false,
        (Some(Element::Position), _) => true,
    }
}

fn is_identifier(element: Element) -> bool
    ensures { result ≡ is_identifier element }
{
    match element {
        Element::Position => true,
        _ => false,
    }
}

/// Whether a class is that of a position identifier.
fn is_position(class: Option<Element>) -> bool
    ensures { result ≡ is_position class }
{
    match class {
        Some(Element::Position) => true,
        _ => false,
    }
}
