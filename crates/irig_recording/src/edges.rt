//! Edges of a wire that are read one after another, and kept as pulses.

ghost use Rattle.std.specs.Prelude.{◌≡◌, ◌≤◌, ◌<◌, ◌+◌, ◌^◌, ◌↔◌, ◌∷◌, [], ◌++◌, true, false, not};
ghost use Rattle.std.specs.Prelude.{◌*◌, length, IsTrue, OnErr, OnOk};
ghost use Rattle.irig_recording.specs.{Edges.edges_kept, Pulses.edges_of, Recording.is_even_long};

use crate::long_recording::LONG_PULSES_LIMIT;
use crate::pulse::Pulse;
use crate::recording::PULSES_LIMIT;
use irig_gap::Gap;
use std::alloc::{AllocError, Global};
use std::marker::Model;

/// How many pulses a first block has room for: 16 KiB.
const FIRST_ROOM: usize = 1024;

/// The times at which a level rises and falls in turn, in microseconds; a last rise waits for its
/// fall. At most one more is kept than a long recording may have.
#[derive(Drop)]
pub struct Edges {
    pulses: Gap<Pulse>,
    is_open: bool,
    rise: u64,
}

impl Model for Edges {
    ghost use Rattle.std.specs.Prelude.{ℕ, List, length, ◌≡◌, ◌≤◌, ◌^◌, ◌*◌, ◌+◌};
    ghost use Rattle.irig_recording.specs.Edges.{kept_edges};

    ghost Value = { List ℕ };

    ghost view = { λ e. kept_edges e.pulses.items e.is_open e.rise };

    ghost invariant = { λ e. (length e.pulses.items ≤ 2 ^ 26)
        × (e.pulses.place ≡ length e.pulses.items)
        × (e.pulses.capacity ≤ 2 * length e.pulses.items + 1024) };
}

impl Edges {
    pub fn new(alloc: Global) -> Edges
        ensures { result ≡ [] }
    {
        Edges {
            pulses: Gap::new(alloc),
            is_open: false,
            rise: 0,
        }
    }

    /// Whether the last edge is a rise, which waits for its fall.
    pub fn is_open(&self) -> bool
        ensures { result ≡ not (is_even_long self.now) }
    {
        self.is_open
    }

    /// Whether there are more edges than `most` pulses have.
    pub fn is_full(&self, most: usize) -> bool
        ensures { IsTrue result ↔ (2 * most < length self.now) }
    {
        if self.is_open {
            self.pulses.gap_at() >= most
        } else {
            self.pulses.gap_at() > most
        }
    }

    /// Whether two edges more may be added. It is false as soon as `most` pulses are whole.
    #[inline(always)]
    pub fn has_room(&self, most: usize) -> bool
        ensures { result ≡ true ↔ (length self.now + 2 ≤ edges_kept most) }
    {
        self.pulses.gap_at() < most
    }

    /// Adds an edge, which should be later than the others; that is not tested. Only a fall takes
    /// memory, for the pulse that it ends.
    pub fn push(&mut self, edge: u64) -> Result<(), AllocError>
        requires { length self.old ≤ 2 ^ 27 }
        ensures { OnOk result (self.new ≡ self.old ++ edge ∷ []) }
    {
        if self.is_open {
            let rise = self.rise;
            put(&mut self.pulses, Pulse { rise, fall: edge })?;
            self.is_open = false;
        } else {
            self.rise = edge;
            self.is_open = true;
        }
        Ok(())
    }

    /// Adds a fall and the next rise, in one step instead of two calls of `push`.
    #[inline(always)]
    pub fn close_and_open(&mut self, fall: u64, rise: u64) -> Result<(), AllocError>
        requires risen { is_even_long self.old ≡ false }
        requires room { length self.old + 2 ≤ edges_kept (2 ^ 26) }
        ensures { OnOk result (self.new ≡ self.old ++ fall ∷ rise ∷ []) }
    {
        let last = self.rise;
        put(&mut self.pulses, Pulse { rise: last, fall })?;
        self.rise = rise;
        Ok(())
    }

    /// The pulses of the edges, in the same block of memory. The last edge, if any, is a fall.
    pub fn into_pulses(self) -> Gap<Pulse>
        requires { is_even_long self ≡ true }
        ensures edges { edges_of result.items ≡ self }
        ensures place { result.place ≡ length result.items }
        ensures room { result.capacity ≤ 2 * length result.items + 1024 }
    {
        self.pulses
    }
}

#[inline(always)]
fn put(pulses: &mut Gap<Pulse>, pulse: Pulse) -> Result<(), AllocError>
    requires few { length pulses.old.items ≤ 2 ^ 26 }
    requires place { pulses.old.place ≡ length pulses.old.items }
    requires room { pulses.old.capacity ≤ 2 * length pulses.old.items + 1024 }
    ensures put { OnOk result (pulses.new.items ≡ pulses.old.items ++ pulse ∷ []) }
    ensures refused { OnErr result (pulses.new ≡ pulses.old) }
    ensures place { pulses.new.place ≡ length pulses.new.items }
    ensures room { pulses.new.capacity ≤ 2 * length pulses.new.items + 1024 }
{
    if pulses.is_full() {
        grow(pulses)?;
    }
    pulses.put(pulse);
    Ok(())
}

/// Makes the capacity of a full buffer twice the old one and 1024 pulses, so that it grows seldom.
#[inline(never)]
fn grow(pulses: &mut Gap<Pulse>) -> Result<(), AllocError>
    requires few { length pulses.old.items ≤ 2 ^ 26 }
    requires full { length pulses.old.items ≡ pulses.old.capacity }
    ensures stays { (pulses.new.items ≡ pulses.old.items) × (pulses.new.place ≡ pulses.old.place) }
    ensures grown { OnOk result (length pulses.new.items < pulses.new.capacity) }
    ensures refused { OnErr result (pulses.new ≡ pulses.old) }
    ensures room { pulses.new.capacity ≤ 2 * length pulses.new.items + 1024 }
{
    let old = pulses.capacity();
    let twice = 2 * old + FIRST_ROOM;
    pulses.grow(twice.min(next_limit(old)))
}

/// The largest capacity, in pulses, to which a full buffer may grow: 2^22 + 1024, which is all that
/// a recording needs, or, above it, 2^26 + 1024 for a long one. The 1024 more make it larger than
/// the capacity also at these limits.
fn next_limit(capacity: usize) -> usize
    requires few { capacity ≤ 2 ^ 26 }
    ensures more { capacity < result }
    ensures limit { result ≤ 2 ^ 26 + 1024 }
    ensures first { capacity ≤ 2 ^ 22 → result ≤ 2 ^ 22 + 1024 }
{
    if capacity <= PULSES_LIMIT {
        PULSES_LIMIT + FIRST_ROOM
    } else {
        LONG_PULSES_LIMIT + FIRST_ROOM
    }
}
