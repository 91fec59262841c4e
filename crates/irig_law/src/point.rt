//! What a pulse is, if its time is known: an element of a frame. Bounds in `requires`, as 2 ^ 63,
//! only keep numbers in their types.

ghost use Rattle.std.specs.Prelude.{◌≡◌, ◌↔◌, ◌<◌, ◌*◌, ◌^◌, IfSome, Some};
ghost use Rattle.irig_law.specs.Elements.{element_after, element_before, element_in};
ghost use Rattle.irig_law.specs.Printed.{printed};

use crate::frame::Frame;
use crate::hours::{earlier_in_hour, later_in_hour};
use irig_codes::Format;
use irig_times::Time;

/// An element of the frame of a time. Elements of a frame count from 0.
#[derive(Clone, Copy, PartialEq, Eq)]
pub struct Point {
    pub frame: Time,
    pub element: usize,
}

impl Point {
    /// The time that is printed where the pulse rises. It is in the minute of the frame, so it can
    /// be past 61 seconds.
    pub fn time(&self, format: Format) -> Time
        requires { (self.now.element < 100) × (self.now.frame.micros < 61000000) }
        ensures { result ≡ printed format self.now }
    {
        Time {
            micros: self.frame.micros + self.element as u64 * format.interval(),
            ..self.frame
        }
    }
}

/// The element `elements` elements after a frame's marker, if it is in the same hour.
pub fn element_after(format: Format, frame: &Frame, elements: u64) -> Option<Point>
    requires { (elements < 2 ^ 63) × (frame.now.time.micros < 61000000) }
    ensures point { result ≡ element_after format frame.now elements }
    ensures low { IfSome result (λ x. (x.element < 100) × (x.frame.micros < 61000000)) }
{
    match later_in_hour(format.frame_period(), elements / 100, &frame.time) {
        Some(time) => Some(Point {
            frame: time,
            element: (elements % 100) as usize,
        }),
        None => None,
    }
}

/// The element `elements` elements before a frame's marker, if it is in the same hour.
pub fn element_before(format: Format, frame: &Frame, elements: u64) -> Option<Point>
    requires { (elements < 2 ^ 63) × (frame.now.time.micros < 61000000) }
    ensures point { result ≡ element_before format frame.now elements }
    ensures low { IfSome result (λ x. (x.element < 100) × (x.frame.micros < 61000000)) }
{
    match earlier_in_hour(format.frame_period(), (elements + 99) / 100, &frame.time) {
        Some(time) => Some(Point {
            frame: time,
            element: ((100 - elements % 100) % 100) as usize,
        }),
        None => None,
    }
}

/// The element of a row with a name: that many elements after the marker, or before it.
pub fn element_in(format: Format, frame: &Frame, is_back: bool, name: u64) -> Option<Point>
    requires { (name < 2 ^ 63) × (frame.now.time.micros < 61000000) }
    ensures point { result ≡ element_in format frame.now is_back name }
    ensures low { IfSome result (λ x. (x.element < 100) × (x.frame.micros < 61000000)) }
{
    if is_back {
        element_before(format, frame, name)
    } else {
        element_after(format, frame, name)
    }
}

/// The element that two stretches say of a pulse, if they say the same.
pub fn said_by_both(one: Option<Point>, other: Option<Point>) -> Option<Point>
    ensures { (x : Point) → (result ≡ Some x) ↔ ((one ≡ Some x) × (other ≡ Some x)) }
{
    match (one, other) {
        (Some(one), Some(other)) => { if one == other { Some(one) } else { None } }
        (Some(_), None) => None,
        (None, Some(_)) => None,
        (None, None) => None,
    }
}
