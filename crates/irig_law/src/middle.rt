//! The element of a pulse by what is seen of it by the frame before it, and by the one after it.

ghost use Rattle.std.specs.Prelude.{◌≡◌, ◌<◌, ◌*◌, ◌^◌, ℕ, IfSome};
ghost use Rattle.irig_law.specs.Quiet.{back_from, name_of};
ghost use Rattle.irig_law.specs.Stretches.{are_alike, first_of, middle_element, named_after};
ghost use Rattle.irig_law.specs.Stretches.{named_before};

use crate::frame::Frame;
use crate::names::Seen;
use crate::point::{Point, element_after, element_before};
use irig_codes::Format;

/// The element of what is seen of a pulse by the frame before it.
pub fn named_after(format: Format, frame: &Frame, seen: Seen) -> Option<Point>
    requires minute { frame.now.time.micros < 61000000 }
    requires low { (e : ℕ) → seen ≡ Seen.Named e → e < 2 ^ 63 }
    ensures named { result ≡ named_after format frame.now seen }
    ensures low { IfSome result (λ x. (x.element < 100) × (x.frame.micros < 61000000)) }
{
    match seen {
        Seen::Named(name) => element_after(format, frame, name),
        Seen::Astray => None,
        Seen::Unknown => None,
    }
}

/// The element of what is seen of a pulse by the frame after it.
pub fn named_before(format: Format, frame: &Frame, seen: Seen) -> Option<Point>
    requires minute { frame.now.time.micros < 61000000 }
    requires low { (e : ℕ) → seen ≡ Seen.Named e → e < 2 ^ 63 }
    ensures named { result ≡ named_before format frame.now seen }
    ensures low { IfSome result (λ x. (x.element < 100) × (x.frame.micros < 61000000)) }
{
    match seen {
        Seen::Named(name) => element_before(format, frame, name),
        Seen::Astray => None,
        Seen::Unknown => None,
    }
}

/// The element of a pulse between two frames, by its names.
pub fn middle_element(
    format: Format,
    from: &Frame,
    to: &Frame,
    periods: u64,
    one: Seen,
    other: Seen,
) -> Option<Point>
    requires times { (from.now.time.micros < 61000000) × (to.now.time.micros < 61000000) }
    requires low { (e : ℕ) → one ≡ Seen.Named e → e < 2 ^ 63 }
    requires low_too { (e : ℕ) → other ≡ Seen.Named e → e < 2 ^ 63 }
    ensures middle { result ≡ middle_element format from.now to.now (100 * periods) one other }
    ensures low { IfSome result (λ x. (x.element < 100) × (x.frame.micros < 61000000)) }
{
    if are_alike(periods, one, other) {
        first_of(
            named_after(format, from, one),
            named_before(format, to, other),
        )
    } else {
        None
    }
}

/// How many elements after the marker of the first frame a pulse is, by its names. The frames are
/// this many periods apart.
pub fn name_of(periods: u64, one: Seen, other: Seen) -> u64
    requires { periods < 2 ^ 41 }
    ensures name { result ≡ name_of (100 * periods) one other }
{
    match one {
        Seen::Named(name) => name,
        Seen::Astray => back_from(periods, other),
        Seen::Unknown => back_from(periods, other),
    }
}

/// The same by its name by the second frame.
fn back_from(periods: u64, seen: Seen) -> u64
    requires { periods < 2 ^ 41 }
    ensures { result ≡ back_from (100 * periods) seen }
{
    match seen {
        Seen::Named(name) => (100 * periods).saturating_sub(name),
        Seen::Astray => 0,
        Seen::Unknown => 0,
    }
}

/// Whether two names of a pulse are of one element of frames that are this many periods apart, as
/// far as both are known.
fn are_alike(periods: u64, one: Seen, other: Seen) -> bool
    ensures { result ≡ are_alike (100 * periods) one other }
{
    match (one, other) {
        (Seen::Named(one), Seen::Named(other)) => {
            one as u128 + other as u128 == 100 * periods as u128
        }
        (Seen::Named(_), Seen::Astray) => true,
        (Seen::Named(_), Seen::Unknown) => true,
        (Seen::Astray, _) => true,
        (Seen::Unknown, _) => true,
    }
}

/// The first one that is there.
fn first_of(one: Option<Point>, other: Option<Point>) -> Option<Point>
    requires one { IfSome one (λ x. (x.element < 100) × (x.frame.micros < 61000000)) }
    requires other { IfSome other (λ x. (x.element < 100) × (x.frame.micros < 61000000)) }
    ensures first { result ≡ first_of one other }
    ensures low { IfSome result (λ x. (x.element < 100) × (x.frame.micros < 61000000)) }
{
    match one {
        Some(one) => Some(one),
        None => other,
    }
}
