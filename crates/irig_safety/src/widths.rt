//! Whether the pulse of an element is odd: not as wide as the others of its class in its frame.

ghost use Rattle.std.specs.Prelude.{◌≡◌, ◌<◌, ◌≤◌, ◌+◌, ◌/◌, ◌^◌, IsTrue, false};
ghost use Rattle.irig_codes.specs.Width.{class_of};
ghost use Rattle.irig_safety.specs.Widths.{is_odd, is_other_of_class, is_outside, is_same_class};
ghost use Rattle.irig_safety.specs.Widths.{margin_of, spread_of, width_in, width_or, with_width};

use irig_codes::{Element, Format, class};
use irig_recording::Pulse;

/// How many widths there are, the least and the greatest; all 0 if there are none.
#[derive(Clone, Copy)]
pub struct Spread {
    pub many: usize,
    pub least: u64,
    pub most: u64,
}

/// Whether at least five others of its frame have the class of this pulse, and its width is outside
/// their range by more than the margin.
pub fn is_odd(format: Format, pulses: &[Pulse], marker: usize, element: usize) -> bool
    ensures { result ≡ is_odd format pulses.now marker element }
{
    if is_like_another(format, pulses, marker, element) {
        return false;
    }
    let spread = spread_of(format, pulses, marker, element);
    is_outside(format.interval(), spread, width_in(pulses, marker, element))
}

/// A pulse that is like another one is not odd. Nearly all are, and this saves their range.
fn is_like_another(format: Format, pulses: &[Pulse], marker: usize, element: usize) -> bool
    ensures { IsTrue result → is_odd format pulses.now marker element ≡ false }
{
    for other in 0..100 {
        if is_like(format, pulses, marker, element, other) {
            return true;
        }
    }
    false
}

/// Of the same class, and as wide to a hundredth of the interval: within the margin.
fn is_like(format: Format, pulses: &[Pulse], marker: usize, element: usize, other: usize) -> bool
    requires { other < 100 }
    ensures { IsTrue result → is_odd format pulses.now marker element ≡ false }
{
    let (one, two) = (
        width_in(pulses, marker, element),
        width_in(pulses, marker, other),
    );
    is_close(format.interval(), one, two)
        && is_other_of_class(format, pulses, marker, element, other)
}

fn is_close(interval: u64, one: u64, other: u64) -> bool
    ensures { IsTrue result → (one ≤ other + interval / 100) × (other ≤ one + interval / 100) }
{
    one.saturating_sub(other) <= interval / 100 && other.saturating_sub(one) <= interval / 100
}

/// Five is this project's own: fewer can be alike by chance.
fn is_outside(interval: u64, spread: Spread, width: u64) -> bool
    ensures { result ≡ is_outside interval spread width }
{
    let margin = margin_of(interval, spread);
    let (least, most) = (u128::from(spread.least), u128::from(spread.most));
    let width = u128::from(width);
    spread.many >= 5 && (width + margin < least || most + margin < width)
}

/// A hundredth of the interval, and twice what the others differ by: a recorder counts in steps,
/// and a sender wavers.
fn margin_of(interval: u64, spread: Spread) -> u128
    ensures value { result ≡ margin_of interval spread }
    ensures small { result < 2 ^ 67 }
{
    let apart = spread.most.saturating_sub(spread.least);
    u128::from(interval) / 100 + 2 * u128::from(apart)
}

/// The widths of the other pulses of its frame that have the class of `element`.
fn spread_of(format: Format, pulses: &[Pulse], marker: usize, element: usize) -> Spread
    ensures { result ≡ spread_of format pulses.now marker element 100 }
{
    let mut spread = Spread {
        many: 0,
        least: 0,
        most: 0,
    };
    for other in 0..100 {
        if is_other_of_class(format, pulses, marker, element, other) {
            spread = with_width(width_in(pulses, marker, other), spread);
        }
    }
    spread
}

fn with_width(width: u64, spread: Spread) -> Spread
    requires { spread.many < 100 }
    ensures { result ≡ with_width width spread }
{
    Spread {
        many: spread.many + 1,
        least: if spread.many == 0 || width < spread.least {
            width
        } else {
            spread.least
        },
        most: if spread.most < width {
            width
        } else {
            spread.most
        },
    }
}

/// False if one of them has no class, as one that is not there.
fn is_other_of_class(
    format: Format,
    pulses: &[Pulse],
    marker: usize,
    element: usize,
    other: usize,
) -> bool
    ensures { result ≡ is_other_of_class format pulses.now marker element other }
{
    let width = width_in(pulses, marker, element);
    other != element
        && is_same_class(
            class(format, width_in(pulses, marker, other)),
            class(format, width),
        )
}

/// False if one of them is bad.
fn is_same_class(one: Option<Element>, other: Option<Element>) -> bool
    ensures { result ≡ is_same_class one other }
{
    match (one, other) {
        (Some(Element::Zero), Some(Element::Zero)) => true,
        (Some(Element::One), Some(Element::One)) => true,
        (Some(Element::Position), Some(Element::Position)) => true,
        _ => false,
    }
}

/// In microseconds; 0, which has no class, if there is no pulse.
fn width_in(pulses: &[Pulse], marker: usize, element: usize) -> u64
    ensures { result ≡ width_in pulses.now marker element }
{
    if marker < pulses.len() && element < pulses.len() - marker {
        width_or(Some(pulses[marker + element]))
    } else {
        width_or(None)
    }
}

fn width_or(pulse: Option<Pulse>) -> u64
    ensures { result ≡ width_or pulse }
{
    match pulse {
        Some(pulse) => pulse.fall.saturating_sub(pulse.rise),
        None => 0,
    }
}
