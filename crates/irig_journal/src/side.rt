//! The steps on one side of the present: those that can be undone, or those that can be redone.

ghost use Rattle.std.specs.Prelude.{◌≡◌, ◌+◌, ◌<◌, ◌≤◌, ◌∷◌, [], vec_capacity, vec_len};
ghost use Rattle.irig_journal.specs.{Held.Alone, Held.held, Sides.IsWhole, Sides.steps_on};

use crate::entry::Entry;
use crate::size::Size;
use std::alloc::Global;

/// `changes` has the changes of all steps, `entries` for each step how many of these are its own,
/// and its cursor. Both lists end with the nearest step.
#[derive(Drop)]
pub(crate) struct Side<C> {
    pub(crate) changes: Vec<C>,
    pub(crate) entries: Vec<Entry>,
}

impl<C> Side<C> {
    /// A side with no steps.
    pub(crate) fn new(alloc: Global) -> Side<C>
        ensures steps { steps_on result ≡ [] }
        ensures whole { IsWhole result }
        ensures lengths { (vec_len result.changes ≡ 0) × (vec_len result.entries ≡ 0) }
    {
        Side {
            changes: Vec::new(alloc),
            entries: Vec::new(alloc),
        }
    }

    /// Adds a step of one change as the nearest; both lists have a place, so `unwrap` finds no
    /// error.
    pub(crate) fn push(&mut self, change: C, cursor: usize)
        requires whole { IsWhole self.old }
        requires places { (vec_len self.old.changes < vec_capacity self.old.changes)
            × (vec_len self.old.entries < vec_capacity self.old.entries) }
        ensures steps { steps_on self.new ≡ held (Alone change) cursor ∷ steps_on self.old }
        ensures whole { IsWhole self.new }
        ensures lengths { (vec_len self.new.changes ≡ vec_len self.old.changes + 1)
            × (vec_len self.new.entries ≡ vec_len self.old.entries + 1) }
        ensures capacities { (vec_capacity self.old.changes ≤ vec_capacity self.new.changes)
            × (vec_capacity self.old.entries ≤ vec_capacity self.new.entries) }
    {
        self.changes.push(change).unwrap();
        let entry = Entry {
            size: Size::Alone,
            cursor,
        };
        self.entries.push(entry).unwrap();
    }
}

impl<C: Drop> Side<C> {
    /// Drops all steps, and keeps the memory of both lists.
    pub(crate) fn clear(&mut self)
        ensures steps { steps_on self.new ≡ [] }
        ensures whole { IsWhole self.new }
        ensures lengths { (vec_len self.new.changes ≡ 0) × (vec_len self.new.entries ≡ 0) }
        ensures capacities { (vec_capacity self.old.changes ≤ vec_capacity self.new.changes)
            × (vec_capacity self.old.entries ≤ vec_capacity self.new.entries) }
    {
        self.changes.clear();
        self.entries.clear();
    }
}
