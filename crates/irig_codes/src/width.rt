//! Elements of a frame, by the widths of pulses and the steps between them.

ghost use Rattle.std.specs.Prelude.{◌≡◌, ◌<◌};
ghost use Rattle.irig_codes.specs.Format.{interval_of};
ghost use Rattle.irig_codes.specs.Width.{HasTwentieths, class_in, class_of, is_in_step, nominal_of};
ghost use Rattle.irig_codes.specs.Width.{step_in};

use crate::format::Format;

/// What a pulse means: a binary digit, or the position of an element in its frame.
#[derive(Clone, Copy, PartialEq, Eq)]
pub enum Element {
    Zero,
    One,
    Position,
}

/// What a pulse of this width in microseconds means; `None` if it is in the band of no element. The
/// standard gives only nominal widths, 0.2, 0.5 and 0.8 of the interval. The bands meet halfway
/// between them, which is this project's own choice.
pub fn class(format: Format, width: u64) -> Option<Element>
    ensures { result ≡ class_of format width }
{
    class_in(format.interval(), width)
}

/// As `class`, by the interval in microseconds: a loop over pulses asks for it once. The bands
/// begin at 1, 7 and 13 twentieths of it, and end at 19.
#[inline(always)]
pub fn class_in(interval: u64, width: u64) -> Option<Element>
    requires { HasTwentieths interval }
    ensures { result ≡ class_in interval width }
{
    let twentieth = interval / 20;
    if width < twentieth {
        None
    } else if width < 7 * twentieth {
        Some(Element::Zero)
    } else if width < 13 * twentieth {
        Some(Element::One)
    } else if width < 19 * twentieth {
        Some(Element::Position)
    } else {
        None
    }
}

/// Whether rises this far apart, in microseconds, are in step. They may be off from one interval by
/// a tenth of it, included, which is this project's own choice.
pub fn in_step(format: Format, distance: u64) -> bool
    ensures { result ≡ is_in_step format distance }
{
    step_in(format.interval(), distance)
}

/// As `in_step`, by the interval of the format, both in microseconds.
#[inline(always)]
pub fn step_in(interval: u64, distance: u64) -> bool
    requires { HasTwentieths interval }
    ensures { result ≡ step_in interval distance }
{
    let tenth = interval / 10;
    // A distance below the lower bound wraps, so one comparison tests both bounds.
    distance.wrapping_sub(9 * tenth) <= 2 * tenth
}

/// The width in microseconds that a pulse of this element is made with: that of the standard.
pub fn nominal(format: Format, element: Element) -> u64
    ensures value { result ≡ nominal_of format element }
    ensures told { class_of format result ≡ Some element }
    ensures narrow { result < interval_of format.kind }
{
    let tenth = format.interval() / 10;
    match element {
        Element::Zero => 2 * tenth,
        Element::One => 5 * tenth,
        Element::Position => 8 * tenth,
    }
}
