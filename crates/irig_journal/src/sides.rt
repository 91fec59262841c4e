//! The steps on both sides of the present, one after another, and past and future swapped.

ghost use Rattle.std.specs.Prelude.{◌≡◌, ℕ, None, reverse};
ghost use Rattle.irig_journal.specs.Journal.{AreReady, future_of, machine_of, past_of};
ghost use Rattle.irig_journal.specs.Machine.{mirrored};

use crate::Reversible;
use crate::journal::Journal;
use crate::steps_left::StepsLeft;
use std::mem;

impl<R: Reversible> Journal<R> {
    /// The steps that can be undone, the oldest first.
    pub fn past_steps(&self) -> StepsLeft<'_, R::Change>
        ensures { result ≡ reverse self.now.past }
    {
        StepsLeft {
            changes: &self.past.changes,
            entries: &self.past.entries,
            from_oldest: true,
        }
    }

    /// The steps that can be redone: first the one that is redone next.
    pub fn future_steps(&self) -> StepsLeft<'_, R::Change>
        ensures { result ≡ self.now.future }
    {
        StepsLeft {
            changes: &self.future.changes,
            entries: &self.future.entries,
            from_oldest: false,
        }
    }

    /// Swaps past and future. The opening of a saved journal needs it: the steps of the saved past
    /// are made as edits and undone, so they are in the future.
    pub fn turn_round(&mut self)
        requires no_group { self.old.floor ≡ None }
        ensures past { past_of R.delta self.new ≡ future_of R.delta self.old }
        ensures future { future_of R.delta self.new ≡ past_of R.delta self.old }
        ensures floor { self.new.floor ≡ None }
        ensures machine { (s : R.Content) (cursor : ℕ) →
            machine_of R.turned R.delta s cursor self.new
            ≡ mirrored (machine_of R.turned R.delta s cursor self.old) }
        ensures ready { (p : R.Places) (s : R.Content) →
            AreReady R.fits R.turned R.delta (R.has_room p) s self.old
            → AreReady R.fits R.turned R.delta (R.has_room p) s self.new }
    {
        mem::swap(&mut self.past, &mut self.future);
    }
}
