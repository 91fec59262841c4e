//! Room for a step and for its way to the other side: places on both sides, and in the state.

ghost use Rattle.std.specs.Prelude.{◌≡◌, ◌⊎◌, ◌+◌, ◌<◌, ◌≤◌, OnErr, OnOk, vec_capacity, vec_len};
ghost use Rattle.irig_journal.specs.Held.{Alone};
ghost use Rattle.irig_journal.specs.Journal.{AreReady, LacksPlace, steps_in};
ghost use Rattle.irig_journal.specs.Sides.{AreSides, HavePlacesForStep, IsSameSide};

use crate::Reversible;
use crate::entry::Entry;
use crate::side::Side;
use std::alloc::AllocError;

/// Makes room for a change, its undo and its redo: on both sides, in the state and in the change.
pub(crate) fn reserve_change<R: Reversible>(
    past: &mut Side<R::Change>,
    future: &mut Side<R::Change>,
    state: &mut R,
    change: &mut R::Change,
) -> Result<(), AllocError>
    requires sides { AreSides past.old future.old }
    requires applies { R.fits (R.content state.old) (R.delta (Alone change.old)) }
    requires ready { AreReady R.fits R.turned R.delta (R.has_room (R.places state.old))
        (R.content state.old) (steps_in past.old future.old) }

    ensures past { IsSameSide past.old past.new }
    ensures future { IsSameSide future.old future.new }
    ensures state { (R.content state.new ≡ R.content state.old)
        × (R.tally state.new ≡ R.tally state.old) }
    ensures change { R.delta (Alone change.new) ≡ R.delta (Alone change.old) }
    ensures places { OnOk result (HavePlacesForStep past.new future.new) }
    ensures room { OnOk result (R.has_room (R.places state.new) (R.content state.new) change.new) }
    ensures memory { OnErr result (LacksPlace (steps_in past.old future.old)
        ⊎ (R.is_ample (R.places state.old) (R.content state.old) change.old → ⊥)) }
    ensures ready { AreReady R.fits R.turned R.delta (R.has_room (R.places state.new))
        (R.content state.new) (steps_in past.new future.new) }
{
    let Ok(()) = reserve_step(past, future) else {
        return Err(AllocError);
    };
    state.prepare(change)
}

/// Makes a place in the past for one more step, and places in the future for all that the past has
/// then, as undos may move them there. The steps of the future are dropped by then.
fn reserve_step<C>(past: &mut Side<C>, future: &mut Side<C>) -> Result<(), AllocError>
    requires { AreSides past.old future.old }
    ensures past { IsSameSide past.old past.new }
    ensures future { IsSameSide future.old future.new }
    ensures places { OnOk result (HavePlacesForStep past.new future.new) }
    ensures full { OnErr result ((vec_capacity past.old.entries ≤ vec_len past.old.entries)
        ⊎ (vec_capacity past.old.changes ≤ vec_len past.old.changes)
        ⊎ (vec_capacity future.old.entries ≤ vec_len past.old.entries)
        ⊎ (vec_capacity future.old.changes ≤ vec_len past.old.changes)) }
{
    reserve_one(&mut past.changes, &mut future.changes)?;
    reserve_one(&mut past.entries, &mut future.entries)
}

/// Makes a place in `list` for one item more, and places in `other` for all that `list` has then.
fn reserve_one<T>(list: &mut Vec<T>, other: &mut Vec<T>) -> Result<(), AllocError>
    ensures list { (list.new.items ≡ list.old.items) × (vec_len list.new ≡ vec_len list.old) }
    ensures other { (other.new.items ≡ other.old.items) × (vec_len other.new ≡ vec_len other.old) }
    ensures capacity { (vec_capacity list.old ≤ vec_capacity list.new)
        × (vec_capacity other.old ≤ vec_capacity other.new) }
    ensures places { OnOk result ((vec_len list.old < vec_capacity list.new)
        × (vec_len list.old < vec_capacity other.new)) }
    ensures full { OnErr result ((vec_capacity list.old ≤ vec_len list.old)
        ⊎ (vec_capacity other.old ≤ vec_len list.old)) }
{
    list.reserve(1)?;
    let places = list.len() + 1;
    if places <= other.capacity() {
        return Ok(());
    }
    other.reserve(places.saturating_sub(other.len()))
}

/// Makes a place in both lists for the group of `gather`. It gets that of a step that it replaces;
/// if `count` is 0, it is one step more, which takes memory.
pub(crate) fn reserve_group(
    past: &mut Vec<Entry>,
    future: &mut Vec<Entry>,
    count: usize,
) -> Result<(), AllocError>
    requires places { (vec_len past.old + vec_len future.old ≤ vec_capacity past.old)
        × (vec_len past.old + vec_len future.old ≤ vec_capacity future.old) }
    ensures past { (past.new.items ≡ past.old.items) × (vec_len past.new ≡ vec_len past.old) }
    ensures future { (future.new.items ≡ future.old.items)
        × (vec_len future.new ≡ vec_len future.old) }
    ensures capacity { (vec_capacity past.old ≤ vec_capacity past.new)
        × (vec_capacity future.old ≤ vec_capacity future.new) }
    ensures places { OnOk result (
        (vec_len past.old + vec_len future.old < vec_capacity past.new + count)
        × (vec_len past.old + vec_len future.old < vec_capacity future.new + count)) }
    ensures none { OnErr result (count ≡ 0) }
    ensures full { OnErr result ((vec_capacity past.old ≤ vec_len past.old + vec_len future.old)
        ⊎ (vec_capacity future.old ≤ vec_len past.old + vec_len future.old)) }
{
    if count > 0 {
        return Ok(());
    }
    past.reserve(future.len() + 1)?;
    future.reserve(past.len() + 1)
}
