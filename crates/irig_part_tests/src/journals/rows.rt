//! The rows: edits and steps, groups, and groups that are given up.

use super::{Call, Reply, Row, check};
use crate::stack::Stack;
use irig_journal::{
    JournalFault, gathered_is_all, groups_give_back, machine_gives_back, turn_gives_back,
};

const NO_STEP_BACK: Reply = Reply::Refused(JournalFault::NothingToUndo);

const NO_STEP_ON: Reply = Reply::Refused(JournalFault::NothingToRedo);

const OPEN: Reply = Reply::Refused(JournalFault::GroupOpen);

const NONE_OPEN: Reply = Reply::Refused(JournalFault::NoGroup);

/// The undo would go back past the `begin` of the open group.
const AT_FLOOR: Reply = Reply::Refused(JournalFault::GroupFloor);

static STATES: [Row; 23] = [
    (Call::Undo, NO_STEP_BACK, b"", 0, 0, 0, 0, (0, 0)),
    (Call::Redo, NO_STEP_ON, b"", 0, 0, 0, 0, (0, 0)),
    (Call::Pop(9), Reply::Unfit, b"", 0, 0, 0, 0, (0, 0)),
    (Call::Push(b'a', 1), Reply::Done, b"a", 1, 1, 0, 1, (0, 0)),
    (Call::Push(b'b', 2), Reply::Done, b"ab", 2, 2, 0, 2, (0, 0)),
    (Call::Pop(5), Reply::Done, b"a", 5, 3, 0, 3, (1, 0)),
    (Call::Redo, NO_STEP_ON, b"a", 5, 3, 0, 3, (1, 0)),
    (Call::Undo, Reply::Done, b"ab", 2, 2, 1, 4, (0, 0)),
    (Call::Undo, Reply::Done, b"a", 1, 1, 2, 5, (0, 1)),
    (Call::Redo, Reply::Done, b"ab", 2, 2, 1, 6, (0, 0)),
    (Call::Redo, Reply::Done, b"a", 5, 3, 0, 7, (1, 0)),
    // A redo gives back the cursor of the undo, and not the one that the edit left.
    (Call::Go(4), Reply::Done, b"a", 4, 3, 0, 7, (1, 0)),
    (Call::Undo, Reply::Done, b"ab", 2, 2, 1, 8, (0, 0)),
    (Call::Go(6), Reply::Done, b"ab", 6, 2, 1, 8, (0, 0)),
    (Call::Redo, Reply::Done, b"a", 4, 3, 0, 9, (1, 0)),
    (Call::Undo, Reply::Done, b"ab", 6, 2, 1, 10, (0, 0)),
    (Call::Undo, Reply::Done, b"a", 1, 1, 2, 11, (0, 1)),
    (Call::Undo, Reply::Done, b"", 0, 0, 3, 12, (0, 2)),
    // A refused edit keeps what can be redone, and an accepted one does not.
    (Call::Pop(9), Reply::Unfit, b"", 0, 0, 3, 12, (0, 2)),
    (Call::Undo, NO_STEP_BACK, b"", 0, 0, 3, 12, (0, 2)),
    (Call::Redo, Reply::Done, b"a", 1, 1, 2, 13, (0, 1)),
    (Call::Push(b'c', 3), Reply::Done, b"ac", 3, 2, 0, 14, (0, 0)),
    (Call::Redo, NO_STEP_ON, b"ac", 3, 2, 0, 14, (0, 0)),
];

// The four calls at the end are laws of a journal, and do nothing as they run. That they can be
// called for a stack shows that they hold of it.
#[test]
fn a_journal_is_the_machine_of_whole_states(rt: HostRuntime) {
    check(&rt, rt.alloc(), &STATES);
    turn_gives_back::<Stack>();
    gathered_is_all::<Stack>();
    machine_gives_back::<Stack>();
    groups_give_back::<Stack>();
}

static GROUPS: [Row; 27] = [
    (Call::End, NONE_OPEN, b"", 0, 0, 0, 0, (0, 0)),
    (Call::Begin, Reply::Done, b"", 0, 0, 0, 0, (0, 0)),
    (Call::Undo, NO_STEP_BACK, b"", 0, 0, 0, 0, (0, 0)),
    (Call::End, Reply::Done, b"", 0, 0, 0, 0, (0, 0)),
    (Call::Push(b'a', 1), Reply::Done, b"a", 1, 1, 0, 1, (0, 0)),
    (Call::Begin, Reply::Done, b"a", 1, 1, 0, 1, (0, 0)),
    (Call::Begin, OPEN, b"a", 1, 1, 0, 1, (0, 0)),
    (Call::Undo, AT_FLOOR, b"a", 1, 1, 0, 1, (0, 0)),
    (Call::Pop(5), Reply::Done, b"", 5, 2, 0, 2, (1, 0)),
    (Call::Push(b'b', 6), Reply::Done, b"b", 6, 3, 0, 3, (1, 0)),
    (Call::Go(7), Reply::Done, b"b", 7, 3, 0, 3, (1, 0)),
    // The joined step keeps the cursor of its oldest state.
    (Call::End, Reply::Done, b"b", 7, 2, 0, 3, (1, 0)),
    // A group turns each of its changes.
    (Call::Undo, Reply::Done, b"a", 1, 1, 1, 5, (0, 1)),
    (Call::Redo, Reply::Done, b"b", 7, 2, 0, 7, (1, 0)),
    (Call::Undo, Reply::Done, b"a", 1, 1, 1, 9, (0, 1)),
    // A group with no step makes none, and keeps what can be redone.
    (Call::Begin, Reply::Done, b"a", 1, 1, 1, 9, (0, 1)),
    (Call::End, Reply::Done, b"a", 1, 1, 1, 9, (0, 1)),
    // A group redone in a group gives its changes singly.
    (Call::Begin, Reply::Done, b"a", 1, 1, 1, 9, (0, 1)),
    (Call::Redo, Reply::Done, b"b", 7, 2, 0, 11, (1, 0)),
    (Call::Push(b'c', 3), Reply::Done, b"bc", 3, 3, 0, 12, (1, 0)),
    (Call::End, Reply::Done, b"bc", 3, 2, 0, 12, (1, 0)),
    (Call::Undo, Reply::Done, b"a", 1, 1, 1, 15, (0, 2)),
    (Call::Redo, Reply::Done, b"bc", 3, 2, 0, 18, (1, 0)),
    // One step alone stays as it is.
    (Call::Begin, Reply::Done, b"bc", 3, 2, 0, 18, (1, 0)),
    (Call::Pop(8), Reply::Done, b"b", 8, 3, 0, 19, (2, 0)),
    (Call::End, Reply::Done, b"b", 8, 3, 0, 19, (2, 0)),
    (Call::Undo, Reply::Done, b"bc", 3, 2, 1, 20, (1, 0)),
];

#[test]
fn a_group_is_taken_back_whole(rt: HostRuntime) {
    check(&rt, rt.alloc(), &GROUPS);
}

static ABORTS: [Row; 17] = [
    (Call::Abort, NONE_OPEN, b"", 0, 0, 0, 0, (0, 0)),
    (Call::Push(b'a', 1), Reply::Done, b"a", 1, 1, 0, 1, (0, 0)),
    (Call::Begin, Reply::Done, b"a", 1, 1, 0, 1, (0, 0)),
    (Call::Go(9), Reply::Done, b"a", 9, 1, 0, 1, (0, 0)),
    (Call::Push(b'b', 2), Reply::Done, b"ab", 2, 2, 0, 2, (0, 0)),
    (Call::Undo, Reply::Done, b"a", 9, 1, 1, 3, (0, 1)),
    (Call::Redo, Reply::Done, b"ab", 2, 2, 0, 4, (0, 0)),
    (Call::Pop(4), Reply::Done, b"a", 4, 3, 0, 5, (1, 0)),
    (Call::Pop(5), Reply::Done, b"", 5, 4, 0, 6, (2, 0)),
    (Call::Undo, Reply::Done, b"a", 4, 3, 1, 7, (1, 0)),
    // A turn for each step, to the cursor of the begin, also after the move to 9.
    (Call::Abort, Reply::Done, b"a", 1, 1, 0, 9, (0, 0)),
    (Call::Redo, NO_STEP_ON, b"a", 1, 1, 0, 9, (0, 0)),
    // Without a step there is no turn, and nothing is left to redo.
    (Call::Undo, Reply::Done, b"", 0, 0, 1, 10, (0, 1)),
    (Call::Begin, Reply::Done, b"", 0, 0, 1, 10, (0, 1)),
    (Call::Abort, Reply::Done, b"", 0, 0, 0, 10, (0, 0)),
    (Call::Redo, NO_STEP_ON, b"", 0, 0, 0, 10, (0, 0)),
    (Call::End, NONE_OPEN, b"", 0, 0, 0, 10, (0, 0)),
];

#[test]
fn an_abort_gives_back_what_stood_at_the_begin(rt: HostRuntime) {
    check(&rt, rt.alloc(), &ABORTS);
}
