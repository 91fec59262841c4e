//! Without an event, how many pulses deny each frame of the code between two frames. `after` is
//! what is seen of the pulses by the first one, from its marker on, and `before` by the second one,
//! back from its marker.

ghost use Rattle.std.specs.Prelude.{◌≡◌, ◌<◌, ◌≤◌, ◌+◌, ◌-◌, ◌*◌, ◌^◌, ℕ, IfOk, IfSome, OnOk};
ghost use Rattle.std.specs.Prelude.{get_or, length};
ghost use Rattle.irig_law.specs.Clocks.{slack_of};
ghost use Rattle.irig_law.specs.Happened.{AreDenials, is_doubtful_in};
ghost use Rattle.irig_law.specs.Quiet.{denied_at, denied_frame, denying, one_of};
ghost use Rattle.irig_law.specs.{Seens.SeenAfter, Seens.SeenBefore, Elements.IsKept};

use crate::denials::is_denied;
use crate::frame::Frame;
use crate::happened::Happened;
use crate::middle::{middle_element, name_of};
use crate::names::Seen;
use crate::seens::seen_at;
use crate::wanted::Wanted;
use irig_codes::Format;
use irig_track::Lens;
use std::alloc::{AllocError, Global};

/// Of each frame of the code how many pulses deny it: none, if there was an event.
pub fn denials_by(
    alloc: Global,
    pulses: &mut Lens<'_>,
    format: Format,
    from: &Frame,
    to: &Frame,
    happened: &Happened,
    after: &[Seen],
    before: &[Seen],
) -> Result<Vec<u32>, AllocError>
    requires times { (from.now.time.micros < 61000000) × (to.now.time.micros < 61000000) }
    requires order { (from.now.marker < to.now.marker) × (to.now.marker < 2 ^ 26) }
    requires after { SeenAfter format pulses.old.track.pulses from.now
        (slack_of pulses.old.track.pulses from.now to.now) after.now }
    requires before { SeenBefore format pulses.old.track.pulses to.now
        (slack_of pulses.old.track.pulses from.now to.now) before.now }
    requires long { to.now.marker - from.now.marker < length after.now }
    requires long_too { to.now.marker - from.now.marker < length before.now }
    requires few { (n : ℕ) → happened.now ≡ Happened.Nothing n → n < 2 ^ 41 }
    ensures denials { IfOk result (λ list. AreDenials format pulses.old.track.pulses
        from.now to.now happened.now list.items) }
    ensures pulses { pulses.new.track ≡ pulses.old.track }
{
    match *happened {
        Happened::Nothing(periods) => {
            denials_of(alloc, pulses, format, from, to, periods, after, before)
        }
        Happened::Event(_) => Ok(Vec::new(alloc)),
    }
}

/// Whether a frame of the code is doubtful: two pulses deny it.
pub fn is_doubtful(denials: &[u32], frame: u64) -> bool
    requires { frame < 2 ^ 64 }
    ensures { result ≡ is_doubtful_in denials.now frame }
{
    let place = frame as usize;
    place < denials.len() && 1 < denials[place]
}

/// Of each frame of the code how many pulses deny it.
fn denials_of(
    alloc: Global,
    pulses: &mut Lens<'_>,
    format: Format,
    from: &Frame,
    to: &Frame,
    periods: u64,
    after: &[Seen],
    before: &[Seen],
) -> Result<Vec<u32>, AllocError>
    requires times { (from.now.time.micros < 61000000) × (to.now.time.micros < 61000000) }
    requires order { (from.now.marker < to.now.marker) × (to.now.marker < 2 ^ 26) }
    requires after { SeenAfter format pulses.old.track.pulses from.now
        (slack_of pulses.old.track.pulses from.now to.now) after.now }
    requires before { SeenBefore format pulses.old.track.pulses to.now
        (slack_of pulses.old.track.pulses from.now to.now) before.now }
    requires long { to.now.marker - from.now.marker < length after.now }
    requires long_too { to.now.marker - from.now.marker < length before.now }
    requires few { periods < 2 ^ 41 }
    ensures denials { IfOk result (λ list. (q : ℕ) → get_or list.items q 0
        ≡ denying format pulses.old.track.pulses from.now to.now periods q) }
    ensures pulses { pulses.new.track ≡ pulses.old.track }
{
    let mut kept = None;
    let mut list = Vec::new(alloc);
    for number in from.marker + 100..to.marker {
        let one = seen_at(after, number - from.marker);
        let other = seen_at(before, to.marker - number);
        let frame = denied_frame(
            pulses, format, from, to, periods, number, one, other, &mut kept,
        );
        count(&mut list, frame)?;
    }
    Ok(list)
}

/// The frame of the code, counted from the first frame, of which a pulse denies an element.
fn denied_frame(
    pulses: &mut Lens<'_>,
    format: Format,
    from: &Frame,
    to: &Frame,
    periods: u64,
    number: usize,
    one: Seen,
    other: Seen,
    kept: &mut Option<Wanted>,
) -> Option<u64>
    requires kept { IsKept format kept.old }
    requires times { (from.now.time.micros < 61000000) × (to.now.time.micros < 61000000) }
    requires low { (e : ℕ) → one ≡ Seen.Named e → e < 2 ^ 63 }
    requires low_too { (e : ℕ) → other ≡ Seen.Named e → e < 2 ^ 63 }
    requires few { periods < 2 ^ 41 }
    ensures denied { result ≡ denied_frame format pulses.old.track.pulses from.now to.now
        (100 * periods) number one other }
    ensures low { IfSome result (λ q. q < 2 ^ 63) }
    ensures kept { IsKept format kept.new }
    ensures pulses { pulses.new.track ≡ pulses.old.track }
{
    let point = middle_element(format, from, to, periods, one, other);
    let denied = is_denied(pulses, format, number, point, kept);
    if denied {
        Some(name_of(periods, one, other) / 100)
    } else {
        None
    }
}

/// Counts a frame that a pulse denies.
fn count(list: &mut Vec<u32>, frame: Option<u64>) -> Result<(), AllocError>
    requires few { (q : ℕ) → get_or list.old.items q 0 < 2 ^ 31 }
    requires low { IfSome frame (λ q. q < 2 ^ 63) }
    ensures counted { OnOk result ((q : ℕ) → get_or list.new.items q 0
        ≡ get_or list.old.items q 0 + one_of q frame) }
{
    match frame {
        Some(frame) => {
            let place = frame as usize;
            lengthen(list, place + 1)?;
            list[place] += 1;
            Ok(())
        }
        None => Ok(()),
    }
}

/// Makes a list so long, with zeros at its end. If memory runs out, it can be shorter.
fn lengthen(list: &mut Vec<u32>, many: usize) -> Result<(), AllocError>
    ensures same { OnOk result ((q : ℕ) → get_or list.new.items q 0 ≡ get_or list.old.items q 0) }
    ensures long { OnOk result (many ≤ length list.new.items) }
{
    for _place in list.len()..many {
        list.push(0)?;
    }
    Ok(())
}
