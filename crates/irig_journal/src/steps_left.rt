//! The steps of one side of a journal, one after another.

ghost use Rattle.std.specs.Prelude.{◌≡◌, ◌≤◌, ◌∷◌, [], IfSome, MatchOption, false, length};
ghost use Rattle.std.specs.List.{sum_by};
ghost use Rattle.irig_journal.specs.{Held.held_of, Held.with_end, Sizes.is_group};

use crate::Reversible;
use crate::entry::Entry;
use crate::step::{Step, weight_of};
use std::marker::Model;

/// The steps that are left: if `from_oldest` the first of the lists comes next, else the last.
#[derive(Drop)]
pub struct StepsLeft<'j, C> {
    pub(crate) changes: &'j [C],
    pub(crate) entries: &'j [Entry],
    pub(crate) from_oldest: bool,
}

impl<'j, C> Model for StepsLeft<'j, C> {
    ghost use Rattle.std.specs.Prelude.{List};
    ghost use Rattle.irig_journal.specs.Held.{HaveAll, Held, shown_in};

    ghost Value = { List (Held C) };

    ghost view = { λ s. shown_in s.from_oldest s.changes.now s.entries.now };

    ghost invariant = { λ s. HaveAll s.changes.now s.entries.now };
}

impl<'j, C> StepsLeft<'j, C> {
    /// How many steps are left.
    pub fn len(&self) -> usize
        ensures { result ≡ length self.now }
    {
        self.entries.len()
    }

    /// Removes the next step from those that are left, and returns it; `None` if none is left.
    pub fn next(&mut self) -> Option<Step<'j, C>>
        ensures next { MatchOption result (self.old ≡ []) (λ s. self.old ≡ held_of s ∷ self.new) }
        ensures alone { IfSome result (λ s. s.is_group ≡ false → length s.changes.now ≡ 1) }
    {
        let (entry, entries) = entry_at_end(self.entries, self.from_oldest)?;
        let count = entry.size.count();
        let (changes, left) = changes_at_end(self.changes, count, self.from_oldest);
        self.entries = entries;
        self.changes = left;
        Some(step_with(*entry, changes))
    }
}

/// The first entry if `first`, else the last one; and with it all others.
fn entry_at_end(entries: &[Entry], first: bool) -> Option<(&Entry, &[Entry])>
    ensures { MatchOption result (entries.now ≡ [])
        (λ p. entries.now ≡ with_end first (p.0.now ∷ []) p.1.now) }
{
    if first {
        entries.split_first()
    } else {
        entries.split_last()
    }
}

/// The first `count` changes if `first`, else the last `count`; and with them all others.
fn changes_at_end<C>(changes: &[C], count: usize, first: bool) -> (&[C], &[C])
    requires { count ≤ length changes.now }
    ensures parts { changes.now ≡ with_end first result.0.now result.1.now }
    ensures many { length result.0.now ≡ count }
{
    if first {
        return changes.split_at(count);
    }
    let (left, last) = changes.split_at(changes.len() - count);
    (last, left)
}

fn step_with<'j, C>(entry: Entry, changes: &'j [C]) -> Step<'j, C>
    ensures { (result.changes.now ≡ changes.now) × (result.is_group ≡ is_group entry.size)
        × (result.cursor ≡ entry.cursor) }
{
    Step {
        changes,
        is_group: entry.size.is_group(),
        cursor: entry.cursor,
    }
}

/// Fewer than 2^64 steps, each of a weight below 2^64, fit in a `u128`.
pub(crate) fn weight_of_all<R: Reversible>(mut steps: StepsLeft<'_, R::Change>) -> u128
    ensures { result ≡ sum_by (λ h. R.weighs (R.delta h.parts)) steps.entry }
{
    // For its bound.
    let _len = steps.len();
    let mut sum = 0;
    while let Some(step) = steps.next() {
        sum += u128::from(weight_of::<R>(&step));
    }
    sum
}
