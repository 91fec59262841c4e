//! What happened in a stretch between two frames, and which of its pulses deny their names.
//! `after` is what is seen of its pulses by the first frame, from its marker on, and `before` by
//! the second one, back from its marker. `Lens` shows the pulses of a track. Bounds in `requires`,
//! as 2 ^ 26, only keep sums in their types.

ghost use Rattle.std.specs.Prelude.{◌≡◌, ◌<◌, ◌≤◌, ◌+◌, ◌-◌, ◌^◌, ℕ, IfOk, Some, length};
ghost use Rattle.std.specs.Prelude.{slice_get};
ghost use Rattle.irig_law.specs.Clocks.{slack_of};
ghost use Rattle.irig_law.specs.Denials.{denies_first, denies_second};
ghost use Rattle.irig_law.specs.Happened.{HasHappened};
ghost use Rattle.irig_law.specs.Seens.{SeenAfter, SeenBefore};
ghost use Rattle.irig_law.specs.Stretches.{first_denials, second_denials, stretch};
ghost use Rattle.irig_law.specs.Elements.{IsKept};

use crate::denials::{denies_seen, is_denied};
use crate::fits::fits;
use crate::frame::Frame;
use crate::names::Seen;
use crate::point::element_after;
use crate::seens::seen_at;
use crate::sides::{Sides, sides_of};
use crate::wanted::Wanted;
use irig_codes::Format;
use irig_times::time_elements;
use irig_track::Lens;
use std::alloc::{AllocError, Global};

/// No event, and the frames are this many periods apart; or an event, and its sides.
#[derive(Clone, Copy)]
pub enum Happened {
    Nothing(u64),
    Event(Sides),
}

/// How many pulses a stretch has: from the marker of the first frame to the last element of the
/// second one that carries its time.
pub fn stretch(format: Format, from: &Frame, to: &Frame) -> usize
    requires { (from.now.marker < to.now.marker) × (to.now.marker < 2 ^ 26) }
    ensures many { result ≡ stretch format from.now to.now }
    ensures low { (result + from.now.marker ≤ to.now.marker + 100)
        × (to.now.marker + 42 ≤ result + from.now.marker) }
{
    to.marker + time_elements(format) - from.marker
}

/// Whether a pulse denies what is seen of it by the first frame.
fn denies_first(
    pulses: &mut Lens<'_>,
    format: Format,
    frame: &Frame,
    after: &[Seen],
    number: usize,
    kept: &mut Option<Wanted>,
) -> bool
    requires kept { IsKept format kept.old }
    requires minute { frame.now.time.micros < 61000000 }
    requires place { (frame.now.marker ≤ number) × (number - frame.now.marker < length after.now) }
    requires low { (k e : ℕ) → slice_get after.now k ≡ Some (Seen.Named e) → e < 2 ^ 63 }
    ensures kept { IsKept format kept.new }
    ensures denies { (slack : ℕ)
        → SeenAfter format pulses.old.track.pulses frame.now slack after.now
        → result ≡ denies_first format pulses.old.track.pulses frame.now slack number }
    ensures pulses { pulses.new.track ≡ pulses.old.track }
{
    let seen = seen_at(after, number - frame.marker);
    denies_seen(pulses, format, frame, false, number, seen, kept)
}

/// Whether a pulse denies what is seen of it by the second frame, or from the marker of that one on
/// its element.
fn denies_second(
    pulses: &mut Lens<'_>,
    format: Format,
    frame: &Frame,
    before: &[Seen],
    number: usize,
    kept: &mut Option<Wanted>,
) -> bool
    requires kept { IsKept format kept.old }
    requires minute { frame.now.time.micros < 61000000 }
    requires place { frame.now.marker - number < length before.now }
    requires small { number < 2 ^ 32 }
    requires low { (k e : ℕ) → slice_get before.now k ≡ Some (Seen.Named e) → e < 2 ^ 63 }
    ensures kept { IsKept format kept.new }
    ensures denies { (slack : ℕ)
        → SeenBefore format pulses.old.track.pulses frame.now slack before.now
        → result ≡ denies_second format pulses.old.track.pulses frame.now slack number }
    ensures pulses { pulses.new.track ≡ pulses.old.track }
{
    if number <= frame.marker {
        let seen = seen_at(before, frame.marker - number);
        denies_seen(pulses, format, frame, true, number, seen, kept)
    } else {
        let point = element_after(format, frame, (number - frame.marker) as u64);
        is_denied(pulses, format, number, point, kept)
    }
}

/// Of each pulse of a stretch, whether it denies its name by the first frame. Fails only if memory
/// runs out.
fn first_denials(
    alloc: Global,
    pulses: &mut Lens<'_>,
    format: Format,
    from: &Frame,
    to: &Frame,
    after: &[Seen],
) -> Result<Vec<bool>, AllocError>
    requires minute { from.now.time.micros < 61000000 }
    requires order { (from.now.marker < to.now.marker) × (to.now.marker < 2 ^ 26) }
    requires after { SeenAfter format pulses.old.track.pulses from.now
        (slack_of pulses.old.track.pulses from.now to.now) after.now }
    requires long { length after.now ≡ stretch format from.now to.now }
    ensures denials { IfOk result (λ list. list.items
        ≡ first_denials format pulses.old.track.pulses from.now to.now) }
    ensures pulses { pulses.new.track ≡ pulses.old.track }
{
    let mut kept = None;
    let mut list = Vec::new(alloc);
    for place in 0..stretch(format, from, to) {
        let number = from.marker + place;
        let denies = denies_first(pulses, format, from, after, number, &mut kept);
        list.push(denies)?;
    }
    Ok(list)
}

/// The same of its name by the second frame.
fn second_denials(
    alloc: Global,
    pulses: &mut Lens<'_>,
    format: Format,
    from: &Frame,
    to: &Frame,
    before: &[Seen],
) -> Result<Vec<bool>, AllocError>
    requires minute { to.now.time.micros < 61000000 }
    requires order { (from.now.marker < to.now.marker) × (to.now.marker < 2 ^ 26) }
    requires before { SeenBefore format pulses.old.track.pulses to.now
        (slack_of pulses.old.track.pulses from.now to.now) before.now }
    requires long { length before.now ≡ to.now.marker - from.now.marker + 1 }
    ensures denials { IfOk result (λ list. list.items
        ≡ second_denials format pulses.old.track.pulses from.now to.now) }
    ensures pulses { pulses.new.track ≡ pulses.old.track }
{
    let mut kept = None;
    let mut list = Vec::new(alloc);
    for place in 0..stretch(format, from, to) {
        let number = from.marker + place;
        let denies = denies_second(pulses, format, to, before, number, &mut kept);
        list.push(denies)?;
    }
    Ok(list)
}

/// What happened between two frames next to each other. Fails only if memory runs out.
pub fn what_happened(
    alloc: Global,
    pulses: &mut Lens<'_>,
    format: Format,
    century: u32,
    from: &Frame,
    to: &Frame,
    after: &[Seen],
    before: &[Seen],
) -> Result<Happened, AllocError>
    requires century { century ≤ 99 }
    requires times { (from.now.time.micros < 61000000) × (to.now.time.micros < 61000000) }
    requires order { (from.now.marker < to.now.marker) × (to.now.marker < 2 ^ 26) }
    requires after { SeenAfter format pulses.old.track.pulses from.now
        (slack_of pulses.old.track.pulses from.now to.now) after.now }
    requires before { SeenBefore format pulses.old.track.pulses to.now
        (slack_of pulses.old.track.pulses from.now to.now) before.now }
    requires long { length after.now ≡ stretch format from.now to.now }
    requires long_too { length before.now ≡ to.now.marker - from.now.marker + 1 }
    ensures happened { IfOk result (λ h.
        HasHappened format century pulses.old.track.pulses from.now to.now h) }
    ensures few { IfOk result (λ h. (n : ℕ) → h ≡ Happened.Nothing n → n < 2 ^ 41) }
    ensures pulses { pulses.new.track ≡ pulses.old.track }
{
    if let Some(periods) = fits(pulses, format, century, from, to, after, before) {
        return Ok(Happened::Nothing(periods));
    }
    let first = first_denials(alloc, pulses, format, from, to, after)?;
    let second = second_denials(alloc, pulses, format, from, to, before)?;
    Ok(Happened::Event(sides_of(&first, &second)))
}
