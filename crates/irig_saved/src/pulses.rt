//! Pulses in a list that can be exchanged with those of a track.

ghost use Rattle.std.specs.Prelude.{◌≡◌, ◌≤◌, ◌<◌, ◌+◌, ◌*◌, ◌++◌, ◌∷◌, [], OnOk, OnErr, Some};
ghost use Rattle.std.specs.Prelude.{length, slice_get};
ghost use Rattle.irig_track.specs.Splices.{CanSplice, IsSpan, piece, spliced};

use irig_gap::Gap;
use irig_track::{Pulse, Span, Track};
use std::alloc::{AllocError, Global};
use std::marker::Model;
use std::mem;

/// Pulses that a splice inserts. Their buffer grows by half, and only for pulses that were read, so
/// it has at most half as many free places as pulses, plus one. Its place is after the last pulse.
#[derive(Drop)]
pub struct Pulses {
    items: Gap<Pulse>,
}

impl Model for Pulses {
    ghost use Rattle.std.specs.Prelude.{◌≡◌, ◌≤◌, ◌+◌, ◌*◌, List, length};
    ghost use Rattle.irig_recording.specs.declared.pulse.Pulse.{Pulse};

    ghost Value = { List Pulse };

    ghost view = { λ pulses. pulses.items.items };

    ghost invariant = { λ pulses.
        (2 * pulses.items.capacity ≤ 3 * length pulses.items.items + 2)
        × (pulses.items.place ≡ length pulses.items.items) };
}

impl Pulses {
    /// An empty list; it takes no memory.
    pub fn new(alloc: Global) -> Pulses
        ensures { result ≡ [] }
    {
        Pulses {
            items: Gap::new(alloc),
        }
    }

    /// The pulses of a buffer that keeps this bound (`tight`).
    pub fn of(mut items: Gap<Pulse>) -> Pulses
        requires tight { 2 * items.capacity ≤ 3 * length items.items + 2 }
        ensures { result ≡ items.items }
    {
        items.move_to(items.len());
        Pulses { items }
    }

    pub fn len(&self) -> usize
        ensures { result ≡ length self.now }
    {
        self.items.len()
    }

    /// The pulse at `index`, from 0.
    pub fn get(&self, index: usize) -> Pulse
        requires { index < length self.now }
        ensures { slice_get self.now index ≡ Some result }
    {
        self.items.get(index)
    }

    /// Adds a pulse after the last.
    pub fn push(&mut self, pulse: Pulse) -> Result<(), AllocError>
        ensures pushed { OnOk result (self.new ≡ self.old ++ pulse ∷ []) }
        ensures unchanged { OnErr result (self.new ≡ self.old) }
    {
        // The place is after the last pulse, so `put` adds there.
        self.items.reserve(1)?;
        self.items.put(pulse);
        Ok(())
    }

    /// The buffer of the pulses, to be read.
    pub fn as_gap(&self) -> &Gap<Pulse>
        ensures items { result.now.items ≡ self.now }
        ensures tight { 2 * result.now.capacity ≤ 3 * length self.now + 2 }
    {
        &self.items
    }

    /// Replaces the `count` pulses of a track from `at` on, from 0, by these, and keeps those that
    /// went. This takes no memory: `taken` comes in as an empty buffer with places for them, and
    /// goes out as the former buffer, empty.
    pub fn exchange(
        &mut self,
        track: &mut Track,
        at: usize,
        count: usize,
        taken: &mut Gap<Pulse>,
    ) -> Span
        requires can { CanSplice track.old.micros at count self.old track.old.pulses }
        requires spare { length self.old ≤ track.old.spare + count }
        requires empty { taken.old.items ≡ [] }
        requires places { (count ≤ taken.old.capacity)
            × (2 * taken.old.capacity ≤ 3 * count + 2) }
        ensures track { (track.new.micros ≡ track.old.micros)
            × (track.new.pulses ≡ spliced at count self.old track.old.pulses) }
        ensures back { self.new ≡ piece at count track.old.pulses }
        ensures spare { length track.new.pulses + track.new.spare
            ≡ length track.old.pulses + track.old.spare }
        ensures empty { taken.new.items ≡ [] }
        ensures places { (length self.old ≤ taken.new.capacity)
            × (2 * taken.new.capacity ≤ 3 * length self.old + 2) }
        ensures size { (result.at ≡ at) × (result.old ≡ count) × (result.new ≡ length self.old) }
        ensures spanned { IsSpan result.at result.old result.new track.old.pulses
            track.new.pulses }
    {
        // Read for how many places the buffer has.
        let _held = self.items.len();
        let span = track.splice(at, count, &mut self.items, taken);
        // `splice` emptied `self.items` into the track and filled `taken` with those that went.
        mem::swap(&mut self.items, taken);
        span
    }
}
