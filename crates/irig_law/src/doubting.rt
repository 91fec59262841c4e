//! Which pulses between two frames the law of time doubts.

ghost use Rattle.std.specs.Prelude.{◌≡◌, ◌<◌, ◌≤◌, ◌+◌, ◌-◌, ◌*◌, ◌^◌, ◌↔◌, ℕ, Bool, IfOk, true};
ghost use Rattle.std.specs.Prelude.{List, Some, length, slice_get};
ghost use Rattle.irig_law.specs.{Doubting.IsDoubted, Doubting.doubted_by, Told.IsTold};
ghost use Rattle.irig_law.specs.Happened.{is_doubtful_in};
ghost use Rattle.irig_recording.specs.declared.pulse.Pulse.{Pulse};

use crate::doubts::is_doubtful;
use crate::frame::Frame;
use crate::happened::Happened;
use crate::middle::{middle_element, name_of};
use crate::names::Seen;
use crate::seens::seen_at;
use crate::told::{Told, told_of};
use irig_codes::Format;
use irig_track::Lens;
use std::alloc::{AllocError, Global};

/// Of each pulse from the marker of a believed frame on and before that of the next one, whether it
/// is doubted: it has an element by its names, but two pulses deny its frame of the code.
pub fn doubted_in(
    alloc: Global,
    pulses: &mut Lens<'_>,
    format: Format,
    century: u32,
    from: &Frame,
    to: &Frame,
) -> Result<Vec<bool>, AllocError>
    requires century { century ≤ 99 }
    requires times { (from.now.time.micros < 61000000) × (to.now.time.micros < 61000000) }
    requires order { (from.now.marker < to.now.marker) × (to.now.marker + 100 ≤ 2 ^ 26) }
    ensures each { IfOk result (λ list. length list.items ≡ to.now.marker - from.now.marker) }
    ensures doubted { IfOk result (λ list. (i : ℕ) (y : Bool) → slice_get list.items i ≡ Some y
        → (y ≡ true) ↔ IsDoubted format century pulses.old.track.pulses from.now to.now
        (from.now.marker + i)) }
    ensures pulses { pulses.new.track ≡ pulses.old.track }
{
    let told = told_of(alloc, pulses, format, century, from, to)?;
    let list = doubts_by(alloc, format, from, to, &told)?;
    Ok(list)
}

/// The same by what is known of the stretch.
fn doubts_by(
    alloc: Global,
    format: Format,
    from: &Frame,
    to: &Frame,
    told: &Told,
) -> Result<Vec<bool>, AllocError>
    requires times { (from.now.time.micros < 61000000) × (to.now.time.micros < 61000000) }
    requires order { (from.now.marker < to.now.marker) × (to.now.marker < 2 ^ 26) }
    requires told { (century : ℕ) × (ps : List Pulse)
        × IsTold format century ps from.now to.now told.now }
    ensures each { IfOk result (λ list. length list.items ≡ to.now.marker - from.now.marker) }
    ensures doubted { IfOk result (λ list. (century : ℕ) (ps : List Pulse)
        → IsTold format century ps from.now to.now told.now
        → (i : ℕ) (y : Bool) → slice_get list.items i ≡ Some y
        → (y ≡ true) ↔ IsDoubted format century ps from.now to.now (from.now.marker + i)) }
{
    let mut list = Vec::new(alloc);
    for place in 0..to.marker - from.marker {
        list.push(is_doubted(format, from, to, told, place))?;
    }
    Ok(list)
}

/// Whether the pulse at a place of the stretch is doubted. After an event none is.
fn is_doubted(format: Format, from: &Frame, to: &Frame, told: &Told, place: usize) -> bool
    requires times { (from.now.time.micros < 61000000) × (to.now.time.micros < 61000000) }
    requires place { (from.now.marker + place < to.now.marker) × (to.now.marker < 2 ^ 26) }
    requires told { (century : ℕ) × (ps : List Pulse)
        × IsTold format century ps from.now to.now told.now }
    ensures { (century : ℕ) (ps : List Pulse) → IsTold format century ps from.now to.now told.now
        → (result ≡ true)
        ↔ IsDoubted format century ps from.now to.now (from.now.marker + place) }
{
    let number = from.marker + place;
    let one = seen_at(&told.after, place);
    let other = seen_at(&told.before, to.marker - number);
    match told.happened {
        Happened::Nothing(periods) => {
            doubted_by(format, from, to, periods, &told.denials, number, one, other)
        }
        Happened::Event(_) => false,
    }
}

/// The same without an event, by what is seen of the pulse.
fn doubted_by(
    format: Format,
    from: &Frame,
    to: &Frame,
    periods: u64,
    denials: &[u32],
    number: usize,
    one: Seen,
    other: Seen,
) -> bool
    requires times { (from.now.time.micros < 61000000) × (to.now.time.micros < 61000000) }
    requires small { from.now.marker < 2 ^ 32 }
    requires low { (e : ℕ) → one ≡ Seen.Named e → e < 2 ^ 63 }
    requires low_too { (e : ℕ) → other ≡ Seen.Named e → e < 2 ^ 63 }
    requires few { periods < 2 ^ 41 }
    ensures { result ≡ doubted_by format from.now to.now (100 * periods)
        (is_doubtful_in denials.now) number one other }
{
    from.marker + 100 <= number
        && number < to.marker
        && is_doubtful(denials, name_of(periods, one, other) / 100)
        && middle_element(format, from, to, periods, one, other).is_some()
}
