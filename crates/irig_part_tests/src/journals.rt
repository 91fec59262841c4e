//! Calls of a journal over a stack of bytes, with what each answers and leaves, by hand.

ghost use Rattle.std.specs.Prelude.{◌≡◌, None, vec_capacity};
ghost use Rattle.irig_journal.specs.Journal.{AreReady};
ghost use Rattle.irig_part_tests.specs.Stack.{CanEdit, HasPlaceFor, edited};

mod rows;
mod sides;

use crate::stack::{Single, Stack};
use irig_journal::{Journal, JournalFault, Reversible};
use std::alloc::Global;
use std::process::Abort;

/// An edit has the cursor that it leaves, a push its byte first; `Go` moves the cursor.
#[derive(Clone, Copy)]
enum Call {
    Push(u8, usize),
    Pop(usize),
    Go(usize),
    Undo,
    Redo,
    Begin,
    End,
    Abort,
}

/// `Unfit` if the edit does not apply.
#[derive(Clone, Copy, PartialEq, Eq)]
enum Reply {
    Done,
    Unfit,
    Refused(JournalFault),
}

/// A call, its reply, then the bytes, the cursor, how many steps back and forward there are, how
/// many turns were made, and how many bytes the steps of past and future hold.
type Row = (
    Call,
    Reply,
    &'static [u8],
    usize,
    usize,
    usize,
    u64,
    (u128, u128),
);

/// For an edit or a move, which do not come here, it does nothing.
fn step<R: Reversible>(
    journal: &mut Journal<R>,
    state: &mut R,
    cursor: &mut usize,
    call: Call,
) -> Result<(), JournalFault>
    requires { AreReady R.fits R.turned R.delta (R.has_room (R.places state.old))
        (R.content state.old) journal.old }
    ensures { AreReady R.fits R.turned R.delta (R.has_room (R.places state.new))
        (R.content state.new) journal.new }
{
    match call {
        Call::Undo => journal.undo(state, cursor),
        Call::Redo => journal.redo(state, cursor),
        Call::Begin => journal.begin(*cursor),
        Call::End => journal.end(state),
        Call::Abort => journal.abort(state, cursor),
        _ => Ok(()),
    }
}

/// The step keeps the cursor before it. If memory runs out the state stays, but the cursor is
/// `after` also then; no row has this.
fn make<R: Reversible>(
    journal: &mut Journal<R>,
    state: &mut R,
    cursor: &mut usize,
    change: R::Change,
    after: usize,
) -> Reply
    requires { AreReady R.fits R.turned R.delta (R.has_room (R.places state.old))
        (R.content state.old) journal.old }
    ensures { AreReady R.fits R.turned R.delta (R.has_room (R.places state.new))
        (R.content state.new) journal.new }
{
    if !state.applies(&change) {
        return Reply::Unfit;
    }
    let before = *cursor;
    *cursor = after;
    reply_to(journal.record(state, change, before))
}

fn reply_to(answer: Result<(), JournalFault>) -> Reply {
    match answer {
        Ok(()) => Reply::Done,
        Err(fault) => Reply::Refused(fault),
    }
}

fn obey(journal: &mut Journal<Stack>, stack: &mut Stack, cursor: &mut usize, call: Call) -> Reply
    requires { AreReady CanEdit edited (λ d. d) (HasPlaceFor (vec_capacity stack.old.items))
        stack.old.items.items journal.old }
    ensures { AreReady CanEdit edited (λ d. d) (HasPlaceFor (vec_capacity stack.new.items))
        stack.new.items.items journal.new }
{
    match call {
        Call::Push(x, after) => make(journal, stack, cursor, Single::Push(x), after),
        Call::Pop(after) => make(journal, stack, cursor, Single::Pop, after),
        Call::Go(place) => {
            *cursor = place;
            Reply::Done
        }
        _ => reply_to(step(journal, stack, cursor, call)),
    }
}

/// Only the contract reads the stack.
fn fresh(alloc: Global, _stack: &Stack) -> Journal<Stack>
    ensures ready { AreReady CanEdit edited (λ d. d) (HasPlaceFor (vec_capacity _stack.now.items))
        _stack.now.items.items result }
    ensures floor { result.floor ≡ None }
{
    Journal::new(alloc)
}

fn is_left(journal: &Journal<Stack>, stack: &Stack, cursor: usize, row: &Row) -> bool {
    let (_, _, bytes, place, back, forward, turns, (past, future)) = row;
    let held = journal.weights();
    stack.items.as_slice() == *bytes
        && cursor == *place
        && journal.steps_back() == *back
        && journal.steps_forward() == *forward
        && stack.turns == *turns
        && held.0 == *past
        && held.1 == *future
}

/// The cursor is at 0 before the first row.
fn are_answered(journal: &mut Journal<Stack>, stack: &mut Stack, rows: &[Row]) -> bool
    requires { AreReady CanEdit edited (λ d. d) (HasPlaceFor (vec_capacity stack.old.items))
        stack.old.items.items journal.old }
{
    let mut cursor = 0;
    for row in rows {
        let answer = obey(journal, stack, &mut cursor, row.0);
        if answer != row.1 || !is_left(journal, stack, cursor, row) {
            return false;
        }
    }
    true
}

/// From an empty stack and a new journal on.
fn check(rt: &impl Abort, alloc: Global, rows: &[Row]) {
    let mut stack = Stack {
        items: Vec::new(alloc),
        turns: 0,
    };
    let mut journal = fresh(alloc, &stack);
    assert!(rt; are_answered(&mut journal, &mut stack, rows));
}
