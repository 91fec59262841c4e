//! Groups, call by call, on a session of two pulses: what refuses a call, and what it leaves.

use super::helpers::{Call, obey, two_pulses};
use irig_edit::{Refusal, Session, groups_give_back};
use std::alloc::Global;
use std::process::Abort;

/// A call; what refuses it; how many pulses, steps back and steps forward there are afterwards; and
/// how many pulses the steps back and the steps forward hold.
type Row = (Call, Option<Refusal>, [usize; 3], (u128, u128));

fn leaves(session: &mut Session, (call, refusal, left, held): &Row) -> bool {
    let answered = obey(session, *call) == *refusal;
    let counts = [session.len(), session.steps_back(), session.steps_forward()];
    answered && counts == *left && session.held() == *held
}

fn check(rt: &impl Abort, alloc: Global, rows: &[Row]) {
    let mut session = two_pulses(alloc).expect(rt, "a session");
    for row in rows {
        assert!(rt; leaves(&mut session, row));
    }
}

static ONE_STEP: [Row; 6] = [
    (Call::Begin, None, [2, 0, 0], (0, 0)),
    (Call::Delete(1, 1), None, [1, 1, 0], (1, 0)),
    (Call::Insert(300, 350), None, [2, 2, 0], (1, 0)),
    (Call::End, None, [2, 1, 0], (1, 0)),
    // The future step inserts pulse 300 to 350 again; the delete in it inserts none.
    (Call::Undo, None, [2, 0, 1], (0, 1)),
    (Call::Redo, None, [2, 1, 0], (1, 0)),
];

// The last call does nothing: its contract is the law of what every group leaves.
#[test]
fn a_group_is_one_step(rt: HostRuntime) {
    check(&rt, rt.alloc(), &ONE_STEP);
    groups_give_back();
}

static REFUSED: [Row; 9] = [
    (Call::End, Some(Refusal::NoGroup), [2, 0, 0], (0, 0)),
    (Call::Abort, Some(Refusal::NoGroup), [2, 0, 0], (0, 0)),
    (Call::Begin, None, [2, 0, 0], (0, 0)),
    // No step is there at all; with one from before the group it is `GroupFloor`, as in `ABORTED`.
    (Call::Undo, Some(Refusal::NothingToUndo), [2, 0, 0], (0, 0)),
    (Call::Begin, Some(Refusal::GroupOpen), [2, 0, 0], (0, 0)),
    (Call::Delete(1, 1), None, [1, 1, 0], (1, 0)),
    (Call::Undo, None, [2, 0, 1], (0, 0)),
    (Call::Undo, Some(Refusal::NothingToUndo), [2, 0, 1], (0, 0)),
    // An abort leaves nothing to redo.
    (Call::Abort, None, [2, 0, 0], (0, 0)),
];

#[test]
fn calls_of_groups_are_refused_in_their_order(rt: HostRuntime) {
    check(&rt, rt.alloc(), &REFUSED);
}

static ABORTED: [Row; 6] = [
    (Call::Delete(1, 1), None, [1, 1, 0], (1, 0)),
    (Call::Begin, None, [1, 1, 0], (1, 0)),
    (Call::Undo, Some(Refusal::GroupFloor), [1, 1, 0], (1, 0)),
    (Call::Delete(1, 1), None, [0, 2, 0], (2, 0)),
    (Call::Abort, None, [1, 1, 0], (1, 0)),
    (Call::Undo, None, [2, 0, 1], (0, 0)),
];

#[test]
fn an_abort_goes_back_to_the_begin(rt: HostRuntime) {
    check(&rt, rt.alloc(), &ABORTED);
}

static EMPTY: [Row; 5] = [
    (Call::Delete(1, 1), None, [1, 1, 0], (1, 0)),
    (Call::Undo, None, [2, 0, 1], (0, 0)),
    (Call::Begin, None, [2, 0, 1], (0, 0)),
    (Call::End, None, [2, 0, 1], (0, 0)),
    (Call::Redo, None, [1, 1, 0], (1, 0)),
];

#[test]
fn an_empty_group_leaves_what_can_be_made_again(rt: HostRuntime) {
    check(&rt, rt.alloc(), &EMPTY);
}
