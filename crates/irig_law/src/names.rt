//! The names of the pulses of a row by a frame's clock: each by a hop from the last one that has a
//! name. `Lens` shows the pulses of a track. Bounds in `requires`, as 2 ^ 40, only keep sums in
//! their types.

ghost use Rattle.std.specs.Prelude.{◌≡◌, ◌<◌, ◌≤◌, ◌+◌, ◌^◌, ℕ, IfOk, Some, length, slice_get};
ghost use Rattle.std.specs.Prelude.{true};
ghost use Rattle.irig_law.specs.Names.{hop};
ghost use Rattle.irig_law.specs.Names.{judged, moved, seen, seen_at};
ghost use Rattle.irig_law.specs.Rows.{rise_in, runs_in};

use crate::clock::{Clock, hop_over, is_sure_at};
use crate::row::{Row, rise_in, runs_in};
use irig_codes::Format;
use irig_track::Lens;
use std::alloc::{AllocError, Global};

/// What is seen of a pulse: how many elements from the marker it is; or it is on no grid of the
/// frame; or no one can be sure.
#[derive(Clone, Copy)]
pub enum Seen {
    Named(u64),
    Astray,
    Unknown,
}

/// The last pulse of a row that has a name, and how many elements from the marker it is.
#[derive(Clone, Copy)]
pub struct Walk {
    pub last: usize,
    pub element: u64,
}

/// What is seen of each of the first `many` pulses of a row. Fails only if memory runs out.
pub fn names_in(
    alloc: Global,
    pulses: &mut Lens<'_>,
    format: Format,
    row: &Row,
    clock: &Clock,
    many: usize,
) -> Result<Vec<Seen>, AllocError>
    requires row { (row.now.marker < 2 ^ 26) × (clock.now.span ≤ 2 ^ 40) }
    requires many { (0 < many) × (many ≤ 2 ^ 26) }
    ensures each { IfOk result (λ list. length list.items ≡ many) }
    ensures names { IfOk result (λ list. (k : ℕ) → k < many → slice_get list.items k
        ≡ Some (seen clock.now (rise_in pulses.old.track.pulses row.now)
        (runs_in format pulses.old.track.pulses row.now) k)) }
    ensures low { IfOk result (λ list. (k e : ℕ) → slice_get list.items k ≡ Some (Seen.Named e)
        → e < 2 ^ 63) }
    ensures pulses { pulses.new.track ≡ pulses.old.track }
{
    let mut walk = Walk {
        last: 0,
        element: 0,
    };
    let mut list = Vec::new(alloc);
    list.push(Seen::Named(0))?;
    for place in 1..many {
        let seen = seen_at(pulses, format, row, clock, walk, place);
        walk = moved(walk, place, seen);
        list.push(seen)?;
    }
    Ok(list)
}

/// What is seen of a pulse of a row, if the walk has come up to it.
fn seen_at(
    pulses: &mut Lens<'_>,
    format: Format,
    row: &Row,
    clock: &Clock,
    walk: Walk,
    place: usize,
) -> Seen
    requires row { (row.now.marker < 2 ^ 26) × (place < 2 ^ 26) × (clock.now.span ≤ 2 ^ 40) }
    requires walk { (walk.last < place) × (walk.element < 2 ^ 63) }
    ensures seen { result ≡ seen_at clock.now (rise_in pulses.old.track.pulses row.now)
        (runs_in format pulses.old.track.pulses row.now) place walk }
    ensures low { (e : ℕ) → result ≡ Seen.Named e → e < walk.element + 2 ^ 36 }
    ensures pulses { pulses.new.track ≡ pulses.old.track }
{
    if !runs_in(pulses, format, row, place) {
        return Seen::Unknown;
    }
    judged_at(pulses, row, clock, walk, place)
}

/// The same of a pulse of which it is not asked whether it is noise.
pub fn judged_at(pulses: &mut Lens<'_>, row: &Row, clock: &Clock, walk: Walk, place: usize) -> Seen
    requires row { (row.now.marker < 2 ^ 26) × (place < 2 ^ 26) × (clock.now.span ≤ 2 ^ 40) }
    requires walk { (walk.last < place) × (walk.element < 2 ^ 63) }
    ensures seen { result ≡ seen_at clock.now (rise_in pulses.old.track.pulses row.now)
        (λ k. true) place walk }
    ensures low { (e : ℕ) → result ≡ Seen.Named e → e < walk.element + 2 ^ 36 }
    ensures pulses { pulses.new.track ≡ pulses.old.track }
{
    let to = rise_in(pulses, row, place);
    let from = rise_in(pulses, row, walk.last);
    judged(clock, walk.element, to.saturating_sub(from))
}

/// What is seen of a pulse that rises `distance` microseconds after the last one with a name, which
/// is `element` elements from the marker.
fn judged(clock: &Clock, element: u64, distance: u64) -> Seen
    requires clock { (distance ≤ 2 ^ 40) × (clock.now.span ≤ 2 ^ 40) }
    requires element { element < 2 ^ 63 }
    ensures seen { result ≡ judged clock.now element distance (hop clock.now distance) }
    ensures low { (e : ℕ) → result ≡ Seen.Named e → e < element + 2 ^ 36 }
{
    match hop_over(clock, distance) {
        Some(elements) => Seen::Named(element + elements),
        None => {
            if is_sure_at(clock, distance) {
                Seen::Astray
            } else {
                Seen::Unknown
            }
        }
    }
}

/// The walk after one more pulse, of which this is seen.
pub fn moved(walk: Walk, place: usize, seen: Seen) -> Walk
    ensures { result ≡ moved walk place seen }
{
    match seen {
        Seen::Named(element) => Walk {
            last: place,
            element,
        },
        Seen::Astray => walk,
        Seen::Unknown => walk,
    }
}
