//! A single change of a state, with room for its turn.

ghost use Rattle.std.specs.Prelude.{◌≡◌, ◌≤◌, ◌+◌, ◌*◌, [], OnErr, OnOk};
ghost use Rattle.irig_edit.specs.Changes.Single.{goes, held_in};

use irig_gap::Gap;
use irig_saved::Single;
use irig_track::Pulse;
use std::alloc::AllocError;

/// A single change, with places for the pulses that its turn removes. `tight`: these are at most
/// one and a half times as needed, plus one.
#[derive(Drop)]
pub struct Turn {
    pub(crate) single: Single,
    /// Empty between turns.
    pub(crate) taken: Gap<Pulse>,
    ghost empty: { taken.items ≡ [] },
    ghost tight: { 2 * taken.capacity ≤ 3 * goes single + 2 },
}

impl Turn {
    /// How many pulses the change holds in memory. The places of `taken` do not count.
    pub(crate) fn held(&self) -> usize
        ensures { result ≡ held_in self.now.single }
    {
        match &self.single {
            Single::Splice { put, .. } => put.len(),
            Single::Toggle { .. }
            | Single::Shift { .. }
            | Single::SetFormat { .. }
            | Single::SetMark { .. } => 0,
        }
    }

    /// Makes places in `taken` for the pulses that the turn removes.
    pub(crate) fn reserve_taken(&mut self) -> Result<(), AllocError>
        ensures same { self.new.single ≡ self.old.single }
        ensures takes { OnOk result (goes self.new.single ≤ self.new.taken.capacity) }
        ensures refused { OnErr result (goes self.old.single ≤ self.old.taken.capacity → ⊥) }
    {
        match &self.single {
            Single::Splice { count, .. } => self.taken.reserve(*count as usize),
            Single::Toggle { .. }
            | Single::Shift { .. }
            | Single::SetFormat { .. }
            | Single::SetMark { .. } => Ok(()),
        }
    }
}
