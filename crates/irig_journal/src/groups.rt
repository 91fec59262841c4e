//! Groups: several edits that one undo reverses.

ghost use Rattle.std.specs.Prelude.{◌≡◌, ◌↔◌, ◌<◌, ◌≤◌, ◌⊎◌, ◌∷◌, ◌^◌, [], ℕ, IsErr, IsErrOf};
ghost use Rattle.std.specs.Prelude.{IsNone, IsSome, IfSome, OnErr, OnOk, None, Some, drop, length};
ghost use Rattle.std.specs.Prelude.{take, vec_capacity, vec_len};
ghost use Rattle.irig_journal.specs.Groups.{aborted, begun, ended};
ghost use Rattle.irig_journal.specs.Joining.{CountsAlong, beyond, changes_of, farthest};
ghost use Rattle.irig_journal.specs.Joining.{joined_beyond};
ghost use Rattle.irig_journal.specs.Journal.{AreReady, future_of, grouped_of, past_of, steps_in};
ghost use Rattle.irig_journal.specs.Sizes.{counts_of, ended_beyond};
ghost use Rattle.irig_journal.specs.{History.step, Sides.AreSides, Turns.left_by};

use crate::entry::{Entry, join_beyond};
use crate::journal::Journal;
use crate::moving::turn_nearest;
use crate::opening::Opening;
use crate::places::reserve_group;
use crate::side::Side;
use crate::{JournalFault, Reversible};

impl<R: Reversible> Journal<R> {
    /// Opens a group at the present; `cursor` is that of the present, which an abort gives back.
    pub fn begin(&mut self, cursor: usize) -> Result<(), JournalFault>
        ensures grouped { OnOk result ((s : R.Content) →
            begun (grouped_of R.turned R.delta s cursor self.old)
            ≡ Some (grouped_of R.turned R.delta s cursor self.new)) }
        ensures steps { (self.new.past ≡ self.old.past) × (self.new.future ≡ self.old.future) }
        ensures floor { OnOk result (self.new.floor ≡ Some (record {
          steps = length (past_of R.delta self.old);
          cursor = cursor;
        })) }
        ensures open { IsErr result ↔ IsSome self.old.floor }
        ensures err { OnErr result (IsErrOf result JournalFault.GroupOpen
            × (self.new ≡ self.old)) }
    {
        if self.floor.is_some() {
            return Err(JournalFault::GroupOpen);
        }
        let steps = self.past.entries.len();
        self.floor = Some(Opening { steps, cursor });
        Ok(())
    }

    /// Closes the open group: the steps made since its begin become one. A single step stays as it
    /// is, and without a step none is made. `state` is read for the proof alone.
    pub fn end(&mut self, state: &R) -> Result<(), JournalFault>
        requires ready { AreReady R.fits R.turned R.delta (R.has_room (R.places state.now))
            (R.content state.now) self.old }

        ensures grouped { OnOk result ((cursor : ℕ) →
            ended (grouped_of R.turned R.delta (R.content state.now) cursor self.old)
            ≡ Some (grouped_of R.turned R.delta (R.content state.now) cursor self.new)) }
        ensures steps { OnOk result (IfSome self.old.floor (λ opening. past_of R.delta self.new
            ≡ joined_beyond R.gathered opening.steps (past_of R.delta self.old))) }
        ensures stays { self.new.future ≡ self.old.future }
        ensures floor { OnOk result (self.new.floor ≡ None) }

        ensures none { IsErr result ↔ IsNone self.old.floor }
        ensures err { OnErr result (IsErrOf result JournalFault.NoGroup
            × (self.new ≡ self.old)) }
        ensures ready { AreReady R.fits R.turned R.delta (R.has_room (R.places state.now))
            (R.content state.now) self.new }
    {
        let opening = match self.floor {
            None => return Err(JournalFault::NoGroup),
            Some(opening) => opening,
        };
        state.known();
        end_beyond(&mut self.past.entries, opening.steps);
        self.floor = None;
        Ok(())
    }

    /// Makes one group of the newest `count` steps of the past, as `irig_edit` does when it opens a
    /// saved session; its undo leads to `cursor`. Only a group without changes takes memory.
    pub fn gather(&mut self, state: &R, count: usize, cursor: usize) -> Result<(), JournalFault>
        requires within { count ≤ length (past_of R.delta self.old) }
        requires no_group { self.old.floor ≡ None }
        requires ready { AreReady R.fits R.turned R.delta (R.has_room (R.places state.now))
            (R.content state.now) self.old }

        ensures steps { OnOk result ((past_of R.delta self.new
            ≡ step (R.gathered (changes_of (take count (past_of R.delta self.old)))) cursor
            ∷ drop count (past_of R.delta self.old))
            × (future_of R.delta self.new ≡ future_of R.delta self.old)
            × (self.new.floor ≡ None)) }
        ensures err { OnErr result (IsErrOf result JournalFault.OutOfMemory × (count ≡ 0)
            × (self.new.past ≡ self.old.past) × (self.new.future ≡ self.old.future)
            × (self.new.floor ≡ None)) }
        ensures memory { OnErr result ((self.old.past_spare.steps ≤ length self.old.future)
            ⊎ (self.old.future_spare.steps ≤ length self.old.past)) }
        ensures ready { AreReady R.fits R.turned R.delta (R.has_room (R.places state.now))
            (R.content state.now) self.new }
    {
        state.known();
        if reserve_group(&mut self.past.entries, &mut self.future.entries, count).is_err() {
            return Err(JournalFault::OutOfMemory);
        }
        let at = self.past.entries.len() - count;
        join_beyond(&mut self.past.entries, at, cursor);
        Ok(())
    }

    /// Closes the open group and undoes its steps for good, the newest first.
    pub fn abort(&mut self, state: &mut R, cursor: &mut usize) -> Result<(), JournalFault>
        requires ready { AreReady R.fits R.turned R.delta (R.has_room (R.places state.old))
            (R.content state.old) self.old }

        ensures grouped { OnOk result (
            aborted (grouped_of R.turned R.delta (R.content state.old) cursor.old self.old)
            ≡ Some (grouped_of R.turned R.delta (R.content state.new) cursor.new self.new)) }
        ensures steps { OnOk result ((future_of R.delta self.new ≡ [])
            × IfSome self.old.floor (λ opening. past_of R.delta self.new
            ≡ farthest opening.steps (past_of R.delta self.old))) }
        ensures left { OnOk result (IfSome self.old.floor (λ opening.
            (R.content state.new ≡ left_by R.turned (R.content state.old)
            (changes_of (beyond opening.steps (past_of R.delta self.old))))
            × (cursor.new ≡ opening.cursor))) }
        ensures floor { OnOk result (self.new.floor ≡ None) }
        ensures once { OnOk result (IfSome self.old.floor (λ opening.
            CountsAlong R.counted R.turned (R.content state.old)
            (beyond opening.steps (past_of R.delta self.old))
            (R.tally state.old) (R.tally state.new))) }

        ensures none { IsErr result ↔ IsNone self.old.floor }
        ensures err { OnErr result (IsErrOf result JournalFault.NoGroup × (self.new ≡ self.old)
            × (state.new ≡ state.old) × (cursor.new ≡ cursor.old)) }
        ensures ready { AreReady R.fits R.turned R.delta (R.has_room (R.places state.new))
            (R.content state.new) self.new }
    {
        let opening = match self.floor {
            None => return Err(JournalFault::NoGroup),
            Some(opening) => opening,
        };
        turn_beyond(&mut self.past, &mut self.future, opening.steps, state);
        *cursor = opening.cursor;
        self.future.clear();
        self.floor = None;
        Ok(())
    }
}

/// Makes one step of all steps after the first `at`, if they are more than one. It has the cursor
/// of the oldest of them, since its undo leads where theirs end.
fn end_beyond(entries: &mut Vec<Entry>, at: usize)
    requires within { at ≤ vec_len entries.old }
    requires few { counts_of entries.old.items < 2 ^ 64 }
    ensures joined { entries.new.items ≡ ended_beyond at entries.old.items }
    ensures few { vec_len entries.new ≤ vec_len entries.old }
    ensures beyond { at ≤ vec_len entries.new }
    ensures capacity { vec_capacity entries.old ≤ vec_capacity entries.new }
{
    if entries.len() - at > 1 {
        let cursor = entries[at].cursor;
        join_beyond(entries, at, cursor);
    }
}

/// Undoes the newest steps until `at` are left. The caller sets the cursor, so any will do here.
fn turn_beyond<R: Reversible>(
    past: &mut Side<R::Change>,
    future: &mut Side<R::Change>,
    at: usize,
    state: &mut R,
)
    requires within { at ≤ vec_len past.old.entries }
    requires sides { AreSides past.old future.old }
    requires ready { AreReady R.fits R.turned R.delta (R.has_room (R.places state.old))
        (R.content state.old) (steps_in past.old future.old) }

    ensures rest { past_of R.delta (steps_in past.new future.new)
        ≡ farthest at (past_of R.delta (steps_in past.old future.old)) }
    ensures state { R.content state.new ≡ left_by R.turned (R.content state.old)
        (changes_of (beyond at (past_of R.delta (steps_in past.old future.old)))) }
    ensures once { CountsAlong R.counted R.turned (R.content state.old)
        (beyond at (past_of R.delta (steps_in past.old future.old)))
        (R.tally state.old) (R.tally state.new) }
    ensures ready { AreReady R.fits R.turned R.delta (R.has_room (R.places state.new))
        (R.content state.new) (steps_in past.new future.new) }
    ensures sides { AreSides past.new future.new }
    ensures left { vec_len past.new.entries ≡ at }
{
    let mut cursor = 0;
    while past.entries.len() > at {
        turn_nearest(past, future, state, &mut cursor);
    }
}
