//! What is seen of the pulses of a stretch by the frame before it, and by the frame after it.
//! `Lens` shows the pulses of a track. Bounds in `requires`, as 2 ^ 26, only keep sums in their
//! types.

ghost use Rattle.std.specs.Prelude.{◌≡◌, ◌↔◌, ◌<◌, ◌≤◌, ◌-◌, ◌^◌, ℕ, Bool, IfOk, IsTrue, Some};
ghost use Rattle.std.specs.Prelude.{length, slice_get};
ghost use Rattle.irig_law.specs.Seens.{AreInStep};
ghost use Rattle.irig_law.specs.Names.{seen, walk};
ghost use Rattle.irig_law.specs.Seens.{SeenAfter, SeenBefore};
ghost use Rattle.irig_law.specs.declared.clock.Clock.{Clock};

use crate::clocks::clock_of;
use crate::frame::Frame;
use crate::names::{Seen, Walk, moved, names_in};
use crate::row::Row;
use irig_codes::Format;
use irig_track::Lens;
use std::alloc::{AllocError, Global};

/// What is seen of the first `many` pulses from a frame's marker on. Fails only if memory runs out.
pub fn seen_after(
    alloc: Global,
    pulses: &mut Lens<'_>,
    format: Format,
    frame: &Frame,
    slack: u64,
    many: usize,
) -> Result<Vec<Seen>, AllocError>
    requires { (frame.now.marker < 2 ^ 26) × (0 < many) × (many ≤ 2 ^ 26) }
    ensures each { IfOk result (λ list. length list.items ≡ many) }
    ensures seen { IfOk result (λ list.
        SeenAfter format pulses.old.track.pulses frame.now slack list.items) }
    ensures pulses { pulses.new.track ≡ pulses.old.track }
{
    let clock = clock_of(pulses, format, frame, slack);
    let row = Row {
        marker: frame.marker,
        is_back: false,
    };
    names_in(alloc, pulses, format, &row, &clock, many)
}

/// The same back from it.
pub fn seen_before(
    alloc: Global,
    pulses: &mut Lens<'_>,
    format: Format,
    frame: &Frame,
    slack: u64,
    many: usize,
) -> Result<Vec<Seen>, AllocError>
    requires { (frame.now.marker < 2 ^ 26) × (0 < many) × (many ≤ 2 ^ 26) }
    ensures each { IfOk result (λ list. length list.items ≡ many) }
    ensures seen { IfOk result (λ list.
        SeenBefore format pulses.old.track.pulses frame.now slack list.items) }
    ensures pulses { pulses.new.track ≡ pulses.old.track }
{
    let clock = clock_of(pulses, format, frame, slack);
    let row = Row {
        marker: frame.marker,
        is_back: true,
    };
    names_in(alloc, pulses, format, &row, &clock, many)
}

/// What is seen at a place of such a list.
pub fn seen_at(list: &[Seen], place: usize) -> Seen
    requires { place < length list.now }
    ensures { slice_get list.now place ≡ Some result }
{
    list[place]
}

/// The last pulse with a name of the first `many` of such a list.
pub fn last_named(list: &[Seen], many: usize) -> Walk
    requires { (0 < many) × (many ≤ length list.now) }
    ensures last { (c : Clock) (rise : ℕ → ℕ) (runs : ℕ → Bool)
        → ((k : ℕ) → k < many → slice_get list.now k ≡ Some (seen c rise runs k))
        → result ≡ walk c rise runs (many - 1) }
    ensures low { result.last < many }
{
    let mut walk = Walk {
        last: 0,
        element: 0,
    };
    for place in 1..many {
        walk = moved(walk, place, seen_at(list, place));
    }
    walk
}

/// How many pulses at the begin of such a list are each the next element.
pub fn in_step(list: &[Seen]) -> usize
    ensures { AreInStep list.now result }
{
    let mut place = 0;
    while place < list.len() {
        if !is_named(list[place], place as u64) {
            return place;
        }
        place += 1;
    }
    place
}

/// Whether what is seen is this name.
fn is_named(seen: Seen, name: u64) -> bool
    ensures { IsTrue result ↔ (seen ≡ Seen.Named name) }
{
    match seen {
        Seen::Named(is) => is == name,
        Seen::Astray => false,
        Seen::Unknown => false,
    }
}
