//! Whether a pulse denies what it should be by a frame. `Lens` shows the pulses of a track. Bounds
//! in `requires`, as 2 ^ 63, only keep numbers in their types.

ghost use Rattle.std.specs.Prelude.{◌≡◌, ◌<◌, ◌^◌, ℕ, IfSome, slice_get};
ghost use Rattle.irig_law.specs.Denials.{denies_named, denies_seen, is_denied, is_unlike};
ghost use Rattle.irig_law.specs.Elements.{IsKept};

use crate::frame::Frame;
use crate::names::Seen;
use crate::point::{Point, element_in};
use crate::wanted::{Wanted, wanted_at};
use irig_codes::Format;
use irig_times::contradicts;
use irig_track::Lens;

/// Whether a pulse is of another class than an element: a position identifier or none, or of those
/// that carry a part of the time. False if it is not there.
fn is_unlike(
    pulses: &mut Lens<'_>,
    format: Format,
    number: usize,
    point: &Point,
    kept: &mut Option<Wanted>,
) -> bool
    requires point { (point.now.element < 100) × (point.now.frame.micros < 61000000) }
    requires kept { IsKept format kept.old }
    ensures unlike { result ≡ is_unlike format (slice_get pulses.old.track.pulses number)
        point.now }
    ensures kept { IsKept format kept.new }
    ensures pulses { pulses.new.track ≡ pulses.old.track }
{
    let wanted = wanted_at(format, &point.frame, kept);
    *kept = Some(wanted);
    if !wanted.fits {
        return false;
    }
    contradicts(pulses, format, &wanted.elements, number, point.element)
}

/// The same of an element, if it is known.
pub fn is_denied(
    pulses: &mut Lens<'_>,
    format: Format,
    number: usize,
    point: Option<Point>,
    kept: &mut Option<Wanted>,
) -> bool
    requires point { IfSome point (λ x. (x.element < 100) × (x.frame.micros < 61000000)) }
    requires kept { IsKept format kept.old }
    ensures kept { IsKept format kept.new }
    ensures denied { result ≡ is_denied format (slice_get pulses.old.track.pulses number) point }
    ensures pulses { pulses.new.track ≡ pulses.old.track }
{
    match point {
        Some(point) => is_unlike(pulses, format, number, &point, kept),
        None => false,
    }
}

/// Whether a pulse denies what is seen of it: it is on no grid of the frame, or of another class
/// than the element of its name.
pub fn denies_seen(
    pulses: &mut Lens<'_>,
    format: Format,
    frame: &Frame,
    is_back: bool,
    number: usize,
    seen: Seen,
    kept: &mut Option<Wanted>,
) -> bool
    requires kept { IsKept format kept.old }
    requires minute { frame.now.time.micros < 61000000 }
    requires low { (e : ℕ) → seen ≡ Seen.Named e → e < 2 ^ 63 }
    ensures kept { IsKept format kept.new }
    ensures denies { result ≡ denies_seen format frame.now is_back
        (slice_get pulses.old.track.pulses number) seen }
    ensures pulses { pulses.new.track ≡ pulses.old.track }
{
    match seen {
        Seen::Named(name) => {
            let point = element_in(format, frame, is_back, name);
            is_denied(pulses, format, number, point, kept)
        }
        Seen::Astray => true,
        Seen::Unknown => false,
    }
}

/// The same of its name alone: a pulse on no grid shows nothing.
pub fn denies_named(
    pulses: &mut Lens<'_>,
    format: Format,
    frame: &Frame,
    is_back: bool,
    number: usize,
    seen: Seen,
    kept: &mut Option<Wanted>,
) -> bool
    requires kept { IsKept format kept.old }
    requires minute { frame.now.time.micros < 61000000 }
    requires low { (e : ℕ) → seen ≡ Seen.Named e → e < 2 ^ 63 }
    ensures kept { IsKept format kept.new }
    ensures denies { result ≡ denies_named format frame.now is_back
        (slice_get pulses.old.track.pulses number) seen }
    ensures pulses { pulses.new.track ≡ pulses.old.track }
{
    match seen {
        Seen::Named(name) => {
            let point = element_in(format, frame, is_back, name);
            is_denied(pulses, format, number, point, kept)
        }
        Seen::Astray => false,
        Seen::Unknown => false,
    }
}
