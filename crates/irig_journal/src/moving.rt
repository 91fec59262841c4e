//! Steps turned, and moved from one side of the present to the other.

ghost use Rattle.std.specs.Prelude.{◌≡◌, ◌+◌, ◌<◌, ◌≤◌, ◌∷◌, [], reverse, vec_capacity, vec_len};
ghost use Rattle.irig_journal.specs.History.{step, stepped_back};
ghost use Rattle.irig_journal.specs.Journal.{AreReady, ReadyInTurn, history_of, one_of, past_of};
ghost use Rattle.irig_journal.specs.Journal.{steps_in};
ghost use Rattle.irig_journal.specs.Sides.{AreSides, HavePlacesForStep, steps_on};
ghost use Rattle.irig_journal.specs.{Held.Alone, Machine.undone, Moves.Moved, OneTurn.LedByOneTurn};

use crate::Reversible;
use crate::side::Side;
use std::mem;

/// Turns a new change, and adds the change that leads back as the nearest step of the past, with
/// the cursor `before`. The steps of the future led on from the state before, so they are dropped.
pub(crate) fn turn_new<R: Reversible>(
    past: &mut Side<R::Change>,
    future: &mut Side<R::Change>,
    state: &mut R,
    mut change: R::Change,
    before: usize,
)
    requires applies { R.fits (R.content state.old) (R.delta (Alone change)) }
    requires room { R.has_room (R.places state.old) (R.content state.old) change }
    requires sides { AreSides past.old future.old }
    requires places { HavePlacesForStep past.old future.old }
    requires ready { AreReady R.fits R.turned R.delta (R.has_room (R.places state.old))
        (R.content state.old) (steps_in past.old future.old) }

    ensures known { R.is_state (R.content state.old) }
    ensures state { R.content state.new
        ≡ (R.turned (R.content state.old) (R.delta (Alone change))).0 }
    ensures past { past_of R.delta (steps_in past.new future.new)
        ≡ step (R.turned (R.content state.old) (R.delta (Alone change))).1 before
        ∷ past_of R.delta (steps_in past.old future.old) }
    ensures future { steps_on future.new ≡ [] }
    ensures once { R.counted (R.content state.old) (R.delta (Alone change)) (R.tally state.old)
        (R.tally state.new) }
    ensures ready { AreReady R.fits R.turned R.delta (R.has_room (R.places state.new))
        (R.content state.new) (steps_in past.new future.new) }
    ensures sides { AreSides past.new future.new }
    ensures longer { vec_len past.new.entries ≡ vec_len past.old.entries + 1 }
{
    state.turn(&mut change);
    past.push(change, before);
    future.clear();
}

/// Turns the nearest step of one side, and moves it to the other; the two cursors are swapped. The
/// contract says `undone`: a redo is an undo with past and future swapped.
pub(crate) fn turn_nearest<R: Reversible>(
    from: &mut Side<R::Change>,
    to: &mut Side<R::Change>,
    state: &mut R,
    cursor: &mut usize,
)
    requires some { 0 < vec_len from.old.entries }
    requires sides { AreSides from.old to.old }
    requires ready { AreReady R.fits R.turned R.delta (R.has_room (R.places state.old))
        (R.content state.old) (steps_in from.old to.old) }

    ensures step { LedByOneTurn R.turned R.counted undone (stepped_back R.turned)
        (past_of R.delta (steps_in from.old to.old))
        (history_of R.delta (R.content state.old) cursor.old (steps_in from.old to.old))
        (history_of R.delta (R.content state.new) cursor.new (steps_in from.new to.new))
        (R.tally state.old) (R.tally state.new) }
    ensures known { R.is_state (R.content state.old) }
    ensures ready { AreReady R.fits R.turned R.delta (R.has_room (R.places state.new))
        (R.content state.new) (steps_in from.new to.new) }
    ensures sides { AreSides from.new to.new }
    ensures moved { (vec_len from.new.entries + 1 ≡ vec_len from.old.entries)
        × (vec_len to.new.entries ≡ vec_len to.old.entries + 1) }
{
    state.known();
    let mut nearest = from.entries.pop().unwrap();
    let count = nearest.size.count();
    turn_changes(&mut from.changes, &mut to.changes, state, count);
    mem::swap(&mut nearest.cursor, cursor);
    to.entries.push(nearest).unwrap();
}

/// Turns the nearest `count` changes, and moves each to the end of `to`: in the opposite order, as
/// they have to be to be turned back.
fn turn_changes<R: Reversible>(
    from: &mut Vec<R::Change>,
    to: &mut Vec<R::Change>,
    state: &mut R,
    count: usize,
)
    requires some { count ≤ vec_len from.old }
    requires place { vec_len to.old + count ≤ vec_capacity to.old }
    requires ready { ReadyInTurn R.fits R.turned R.delta (R.has_room (R.places state.old))
        (R.content state.old) (reverse from.old.items) }
    requires ready_back { ReadyInTurn R.fits R.turned R.delta (R.has_room (R.places state.old))
        (R.content state.old) (reverse to.old.items) }

    ensures moved { Moved R.turned (one_of R.delta) R.counted count (R.content state.old)
        (R.content state.new) (R.tally state.old) (R.tally state.new) (reverse from.old.items)
        (reverse from.new.items) (reverse to.old.items) (reverse to.new.items) }
    ensures ready { ReadyInTurn R.fits R.turned R.delta (R.has_room (R.places state.new))
        (R.content state.new) (reverse from.new.items) }
    ensures ready_back { ReadyInTurn R.fits R.turned R.delta (R.has_room (R.places state.new))
        (R.content state.new) (reverse to.new.items) }
    ensures lengths { (vec_len from.new + count ≡ vec_len from.old)
        × (vec_len to.new ≡ vec_len to.old + count) }
    ensures capacities { (vec_capacity from.old ≤ vec_capacity from.new)
        × (vec_capacity to.old ≤ vec_capacity to.new) }
{
    for _turned in 0..count {
        let mut nearest = from.pop().unwrap();
        state.turn(&mut nearest);
        to.push(nearest).unwrap();
    }
}
