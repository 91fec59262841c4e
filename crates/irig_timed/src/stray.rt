//! How far rises stray from the line over a hole, in the believed frames around it.

ghost use Rattle.std.specs.Prelude.{◌≡◌, ◌<◌, ◌≤◌, ◌+◌, ◌^◌, max};
ghost use Rattle.irig_timed.specs.Strays.{line_off, most_after, strays_by, strays_in};
ghost use Rattle.irig_timed.specs.{Bends.units_in, Strays.strays_over};

use irig_codes::Format;
use irig_law::{Frame, micros_between};
use irig_track::Lens;

/// The units of an interval: trillionths.
pub const UNITS: u128 = 1_000_000_000_000;

/// The intervals of a frame from its marker on.
const INTERVALS: u64 = 99;

/// By how many units more than time bends rises stray over that many elements, and one for the
/// rounding; 0 if a frame does not have that many.
pub fn strays_by(
    pulses: &mut Lens<'_>,
    format: Format,
    bends: u64,
    stretch: &(Frame, Frame),
    long: u64,
    elements: u64,
) -> u128
    requires stretch { (stretch.now.0.marker < 2 ^ 26) × (stretch.now.1.marker < 2 ^ 26) }
    requires small { (bends ≤ 2 ^ 40) × (long ≤ 2 ^ 40) }
    ensures strays { result
        ≡ strays_by format pulses.old.track.pulses bends stretch.now long elements }
    ensures low { result < 2 ^ 96 }
    ensures pulses { pulses.new.track ≡ pulses.old.track }
{
    if INTERVALS < elements {
        return 0;
    }
    let strays = strays_over(pulses, &stretch.0, &stretch.1, long, elements);
    strays.saturating_sub(units_in(format, bends)) + 1
}

/// The units in some microseconds of the code.
fn units_in(format: Format, micros: u64) -> u128
    requires { micros ≤ 2 ^ 40 }
    ensures { result ≡ units_in format micros }
{
    micros as u128 * (UNITS / format.interval() as u128)
}

/// By how many units the line over a hole of that many elements, `long` microseconds, can be off,
/// if the clock ran in it as in two frames.
fn strays_over(pulses: &mut Lens<'_>, from: &Frame, to: &Frame, long: u64, elements: u64) -> u128
    requires frames { (from.now.marker < 2 ^ 26) × (to.now.marker < 2 ^ 26) }
    requires small { (long ≤ 2 ^ 40) × (elements < 100) }
    ensures strays { result
        ≡ strays_over pulses.old.track.pulses long elements from.now to.now }
    ensures low { result < 2 ^ 95 }
    ensures pulses { pulses.new.track ≡ pulses.old.track }
{
    let one = strays_in(pulses, long, elements, from.marker);
    let other = strays_in(pulses, long, elements, to.marker);
    UNITS * one.max(other) as u128 / long.max(1) as u128
}

/// The most by which rises of a frame are from such a line through another one of them.
fn strays_in(pulses: &mut Lens<'_>, long: u64, elements: u64, marker: usize) -> u64
    requires frame { marker < 2 ^ 26 }
    requires small { (long ≤ 2 ^ 40) × (elements < 100) }
    ensures most { result ≡ strays_in pulses.old.track.pulses long elements marker }
    ensures low { result ≤ 2 ^ 47 }
    ensures pulses { pulses.new.track ≡ pulses.old.track }
{
    let mut most = 0;
    for number in marker..marker + 100 {
        let off = most_after(pulses, long, elements, marker + 100, number);
        most = greater(most, off);
    }
    most
}

/// The same of the rises up to that many elements after a pulse, and before `end`.
fn most_after(pulses: &mut Lens<'_>, long: u64, elements: u64, end: usize, number: usize) -> u64
    requires pulses { (number < end) × (end ≤ number + 100) × (number < 2 ^ 27) }
    requires small { (long ≤ 2 ^ 40) × (elements < 100) }
    ensures most { result ≡ most_after pulses.old.track.pulses long elements end number }
    ensures low { result ≤ 2 ^ 47 }
    ensures pulses { pulses.new.track ≡ pulses.old.track }
{
    let last = end.min(number + elements as usize + 1);
    let mut most = 0;
    for later in number + 1..last {
        let off = line_off(pulses, long, elements, number, later);
        most = greater(most, off);
    }
    most
}

/// How far the rise of a pulse is from the line through that of an earlier one.
fn line_off(pulses: &mut Lens<'_>, long: u64, elements: u64, one: usize, other: usize) -> u64
    requires pulses { (one < other) × (other ≤ one + 100) }
    requires small { (long ≤ 2 ^ 40) × (elements < 100) }
    ensures off { result ≡ line_off pulses.old.track.pulses long elements one other }
    ensures low { result ≤ 2 ^ 47 }
    ensures pulses { pulses.new.track ≡ pulses.old.track }
{
    let micros = micros_between(pulses, one, other);
    ((other - one) as u64 * long).abs_diff(elements * micros)
}

fn greater(one: u64, other: u64) -> u64
    ensures { result ≡ max one other }
{
    one.max(other)
}
