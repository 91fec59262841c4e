//! Which element each pulse of a stretch between two frames is. `Lens` shows the pulses of a track.
//! Bounds in `requires`, as 2 ^ 26, only keep sums in their types.

ghost use Rattle.std.specs.Prelude.{◌≡◌, ◌↔◌, ◌<◌, ◌≤◌, ◌+◌, ◌-◌, ◌*◌, ◌^◌, ℕ, IfOk, Some, length};
ghost use Rattle.std.specs.Prelude.{Option, slice_get};
ghost use Rattle.irig_law.specs.Happened.{IsPointBy, event_of, is_doubtful_in, point_by};
ghost use Rattle.irig_law.specs.Law.{IsBetween};
ghost use Rattle.irig_law.specs.{Quiet.quiet_of, Stretches.by_second, Stretches.stretch};

use crate::clocks::slack_of;
use crate::doubts::{denials_by, is_doubtful};
use crate::frame::Frame;
use crate::happened::{Happened, stretch, what_happened};
use crate::middle::{middle_element, name_of, named_after, named_before};
use crate::names::Seen;
use crate::point::{Point, element_after};
use crate::seens::{seen_after, seen_at, seen_before};
use crate::sides::Sides;
use irig_codes::Format;
use irig_track::Lens;
use std::alloc::{AllocError, Global};

/// The element of a pulse without an event: a frame's own pulses are its elements. `denials` is how
/// many pulses deny each frame of the code between them.
fn quiet_point(
    format: Format,
    from: &Frame,
    to: &Frame,
    periods: u64,
    denials: &[u32],
    number: usize,
    one: Seen,
    other: Seen,
) -> Option<Point>
    requires times { (from.now.time.micros < 61000000) × (to.now.time.micros < 61000000) }
    requires small { (from.now.marker < 2 ^ 32) × (number < 2 ^ 32) }
    requires low { (e : ℕ) → one ≡ Seen.Named e → e < 2 ^ 63 }
    requires low_too { (e : ℕ) → other ≡ Seen.Named e → e < 2 ^ 63 }
    requires few { periods < 2 ^ 41 }
    ensures { result ≡ quiet_of format from.now to.now (100 * periods)
        (is_doubtful_in denials.now) number one other }
{
    if number < from.marker + 100 {
        element_after(format, from, number.saturating_sub(from.marker) as u64)
    } else if to.marker <= number {
        element_after(format, to, (number - to.marker) as u64)
    } else if is_doubtful(denials, name_of(periods, one, other) / 100) {
        None
    } else {
        middle_element(format, from, to, periods, one, other)
    }
}

/// The element of a pulse after an event: from the marker of the second frame on, its element.
fn by_second(format: Format, frame: &Frame, number: usize, seen: Seen) -> Option<Point>
    requires minute { frame.now.time.micros < 61000000 }
    requires small { number < 2 ^ 32 }
    requires low { (e : ℕ) → seen ≡ Seen.Named e → e < 2 ^ 63 }
    ensures { result ≡ by_second format frame.now number seen }
{
    if number <= frame.marker {
        named_before(format, frame, seen)
    } else {
        element_after(format, frame, (number - frame.marker) as u64)
    }
}

/// The element of a pulse by its side of an event; the first frame's marker is its element.
fn event_point(
    format: Format,
    from: &Frame,
    to: &Frame,
    sides: Sides,
    number: usize,
    one: Seen,
    other: Seen,
) -> Option<Point>
    requires times { (from.now.time.micros < 61000000) × (to.now.time.micros < 61000000) }
    requires small { number < 2 ^ 32 }
    requires low { (e : ℕ) → one ≡ Seen.Named e → e < 2 ^ 63 }
    requires low_too { (e : ℕ) → other ≡ Seen.Named e → e < 2 ^ 63 }
    ensures { result ≡ event_of format from.now to.now sides number one other }
{
    if number <= from.marker {
        return element_after(format, from, 0);
    }
    let place = number - from.marker;
    if place < sides.until {
        named_after(format, from, one)
    } else if sides.from <= place {
        by_second(format, to, number, other)
    } else {
        None
    }
}

/// The element of a pulse by what happened and by what is seen of it.
fn point_by(
    format: Format,
    from: &Frame,
    to: &Frame,
    happened: &Happened,
    denials: &[u32],
    number: usize,
    one: Seen,
    other: Seen,
) -> Option<Point>
    requires times { (from.now.time.micros < 61000000) × (to.now.time.micros < 61000000) }
    requires small { (from.now.marker < 2 ^ 32) × (number < 2 ^ 32) }
    requires low { (e : ℕ) → one ≡ Seen.Named e → e < 2 ^ 63 }
    requires low_too { (e : ℕ) → other ≡ Seen.Named e → e < 2 ^ 63 }
    requires few { (n : ℕ) → happened.now ≡ Happened.Nothing n → n < 2 ^ 41 }
    ensures { result ≡ point_by format from.now to.now happened.now denials.now number one other }
{
    match *happened {
        Happened::Nothing(periods) => {
            quiet_point(format, from, to, periods, denials, number, one, other)
        }
        Happened::Event(sides) => event_point(format, from, to, sides, number, one, other),
    }
}

/// The elements of all pulses of a stretch by what happened, and by what is seen of them from the
/// first frame on and back from the second one. Fails only if memory runs out.
fn points_by(
    alloc: Global,
    format: Format,
    from: &Frame,
    to: &Frame,
    happened: &Happened,
    denials: &[u32],
    after: &[Seen],
    before: &[Seen],
) -> Result<Vec<Option<Point>>, AllocError>
    requires times { (from.now.time.micros < 61000000) × (to.now.time.micros < 61000000) }
    requires order { (from.now.marker < to.now.marker) × (to.now.marker < 2 ^ 26) }
    requires long { length after.now ≡ stretch format from.now to.now }
    requires long_too { length before.now ≡ to.now.marker - from.now.marker + 1 }
    requires low { (k e : ℕ) → slice_get after.now k ≡ Some (Seen.Named e) → e < 2 ^ 63 }
    requires low_too { (k e : ℕ) → slice_get before.now k ≡ Some (Seen.Named e) → e < 2 ^ 63 }
    requires few { (n : ℕ) → happened.now ≡ Happened.Nothing n → n < 2 ^ 41 }
    ensures each { IfOk result (λ list. length list.items ≡ stretch format from.now to.now) }
    ensures points { IfOk result (λ list. (i : ℕ) (y : Option Point)
        → slice_get list.items i ≡ Some y
        → IsPointBy format from.now to.now happened.now denials.now after.now before.now i y) }
{
    let mut list = Vec::new(alloc);
    for place in 0..stretch(format, from, to) {
        let number = from.marker + place;
        let one = seen_at(after, place);
        let other = seen_at(before, to.marker.saturating_sub(number));
        list.push(point_by(format, from, to, happened, denials, number, one, other))?;
    }
    Ok(list)
}

/// The elements of all pulses of a stretch between two frames next to each other. Fails only if
/// memory runs out.
pub fn stretch_points(
    alloc: Global,
    pulses: &mut Lens<'_>,
    format: Format,
    century: u32,
    from: &Frame,
    to: &Frame,
) -> Result<Vec<Option<Point>>, AllocError>
    requires century { century ≤ 99 }
    requires times { (from.now.time.micros < 61000000) × (to.now.time.micros < 61000000) }
    requires order { (from.now.marker < to.now.marker) × (to.now.marker + 100 ≤ 2 ^ 26) }
    ensures each { IfOk result (λ list. length list.items ≡ stretch format from.now to.now) }
    ensures points { IfOk result (λ list. (i : ℕ) (x : Point)
        → (slice_get list.items i ≡ Some (Some x))
        ↔ IsBetween format century pulses.old.track.pulses from.now to.now
        (from.now.marker + i) x) }
    ensures pulses { pulses.new.track ≡ pulses.old.track }
{
    let slack = slack_of(pulses, from, to);
    let many = stretch(format, from, to);
    let after = seen_after(alloc, pulses, format, from, slack, many)?;
    let gap = to.marker - from.marker;
    let before = seen_before(alloc, pulses, format, to, slack, gap + 1)?;
    let happened = what_happened(alloc, pulses, format, century, from, to, &after, &before)?;
    let denials = denials_by(alloc, pulses, format, from, to, &happened, &after, &before)?;
    let list = points_by(
        alloc, format, from, to, &happened, &denials, &after, &before,
    )?;
    Ok(list)
}
