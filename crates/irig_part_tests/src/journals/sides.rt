//! The steps that a journal shows, those of a gathered group, and a journal that is turned round.

ghost use Rattle.std.specs.Prelude.{◌≡◌, None, vec_capacity};
ghost use Rattle.irig_journal.specs.Journal.{AreReady};
ghost use Rattle.irig_part_tests.specs.Stack.{CanEdit, HasPlaceFor, edited};

use crate::journals::fresh;
use crate::stack::{Single, Stack};
use irig_journal::{Journal, Step, StepsLeft};
use std::alloc::Global;

fn empty(alloc: Global) -> Stack {
    Stack {
        items: Vec::new(alloc),
        turns: 0,
    }
}

/// If memory runs out nothing is pushed, and the test fails at what it compares.
fn push(journal: &mut Journal<Stack>, stack: &mut Stack, byte: u8, cursor: usize)
    requires ready { AreReady CanEdit edited (λ d. d) (HasPlaceFor (vec_capacity stack.old.items))
        stack.old.items.items journal.old }
    ensures ready { AreReady CanEdit edited (λ d. d) (HasPlaceFor (vec_capacity stack.new.items))
        stack.new.items.items journal.new }
    ensures floor { journal.new.floor ≡ journal.old.floor }
{
    let _done = journal.record(stack, Single::Push(byte), cursor);
}

fn push_two(journal: &mut Journal<Stack>, stack: &mut Stack)
    requires ready { AreReady CanEdit edited (λ d. d) (HasPlaceFor (vec_capacity stack.old.items))
        stack.old.items.items journal.old }
    ensures ready { AreReady CanEdit edited (λ d. d) (HasPlaceFor (vec_capacity stack.new.items))
        stack.new.items.items journal.new }
    ensures floor { journal.new.floor ≡ journal.old.floor }
{
    push(journal, stack, b'a', 7);
    push(journal, stack, b'b', 8);
}

/// The cursor is the one to which an undo of the group leads.
fn gather(journal: &mut Journal<Stack>, stack: &Stack, count: usize, cursor: usize) -> bool
    requires no_group { journal.old.floor ≡ None }
    requires ready { AreReady CanEdit edited (λ d. d) (HasPlaceFor (vec_capacity stack.now.items))
        stack.now.items.items journal.old }
    ensures ready { AreReady CanEdit edited (λ d. d) (HasPlaceFor (vec_capacity stack.now.items))
        stack.now.items.items journal.new }
{
    count <= journal.steps_back() && journal.gather(stack, count, cursor).is_ok()
}

fn next_two(mut steps: StepsLeft<'_, Single>) -> Option<(usize, usize)> {
    let first = steps.next()?;
    let second = steps.next()?;
    Some((first.cursor, second.cursor))
}

/// Of the changes an undo or a redo makes the last one first.
fn is_group_of(step: Option<Step<'_, Single>>, changes: &[Single], cursor: usize) -> bool {
    match step {
        None => false,
        Some(step) => step.is_group && step.changes == changes && step.cursor == cursor,
    }
}

/// The step back at 8 is newer, so it is the next one forward.
fn turns_round(journal: &mut Journal<Stack>) -> bool
    requires { journal.old.floor ≡ None }
{
    let back = next_two(journal.past_steps()) == Some((7, 8));
    journal.turn_round();
    back && next_two(journal.future_steps()) == Some((8, 7))
}

/// The changes that lead back from two pushes.
static POPS: [Single; 2] = [Single::Pop, Single::Pop];

/// The changes that lead forward again: `a` is pushed first, so it is the last.
static PUSHES: [Single; 2] = [Single::Push(b'b'), Single::Push(b'a')];

fn is_gathered(journal: &Journal<Stack>) -> bool {
    journal.steps_back() == 1 && is_group_of(journal.past_steps().next(), &POPS, 5)
}

/// 9 is the cursor that was there before the undo.
fn is_undone(journal: &mut Journal<Stack>, stack: &mut Stack, cursor: &mut usize) -> bool
    requires ready { AreReady CanEdit edited (λ d. d) (HasPlaceFor (vec_capacity stack.old.items))
        stack.old.items.items journal.old }
    ensures ready { AreReady CanEdit edited (λ d. d) (HasPlaceFor (vec_capacity stack.new.items))
        stack.new.items.items journal.new }
{
    journal.undo(stack, cursor).is_ok()
        && *cursor == 5
        && stack.items.is_empty()
        && is_group_of(journal.future_steps().next(), &PUSHES, 9)
}

fn is_redone(journal: &mut Journal<Stack>, stack: &mut Stack, cursor: &mut usize) -> bool
    requires ready { AreReady CanEdit edited (λ d. d) (HasPlaceFor (vec_capacity stack.old.items))
        stack.old.items.items journal.old }
{
    journal.redo(stack, cursor).is_ok()
        && *cursor == 9
        && stack.items.as_slice() == b"ab".as_slice()
}

fn goes_both_ways(journal: &mut Journal<Stack>, stack: &mut Stack) -> bool
    requires no_group { journal.old.floor ≡ None }
    requires ready { AreReady CanEdit edited (λ d. d) (HasPlaceFor (vec_capacity stack.old.items))
        stack.old.items.items journal.old }
{
    let mut cursor = 9;
    gather(journal, stack, 2, 5)
        && is_gathered(journal)
        && is_undone(journal, stack, &mut cursor)
        && is_redone(journal, stack, &mut cursor)
}

#[test]
fn the_newest_step_back_becomes_the_next_forward(rt: HostRuntime) {
    let mut stack = empty(rt.alloc());
    let mut journal = fresh(rt.alloc(), &stack);
    push_two(&mut journal, &mut stack);
    assert!(rt; turns_round(&mut journal));
}

#[test]
fn gathered_steps_are_one_group(rt: HostRuntime) {
    let mut stack = empty(rt.alloc());
    let mut journal = fresh(rt.alloc(), &stack);
    push_two(&mut journal, &mut stack);
    assert!(rt; goes_both_ways(&mut journal, &mut stack));
}

fn gathers_none(journal: &mut Journal<Stack>, stack: &Stack) -> bool
    requires no_group { journal.old.floor ≡ None }
    requires ready { AreReady CanEdit edited (λ d. d) (HasPlaceFor (vec_capacity stack.now.items))
        stack.now.items.items journal.old }
{
    gather(journal, stack, 0, 5) && is_group_of(journal.past_steps().next(), &[], 5)
}

#[test]
fn a_group_of_none_is_a_step(rt: HostRuntime) {
    let stack = empty(rt.alloc());
    let mut journal = fresh(rt.alloc(), &stack);
    assert!(rt; gathers_none(&mut journal, &stack));
}
