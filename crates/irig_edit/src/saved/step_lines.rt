//! The lines of the steps on one side of the present, back or forward, in parts.

ghost use Rattle.std.specs.Prelude.{◌≡◌, ◌≤◌, ◌<◌, ◌++◌, [], IfOk, OnOk, false, length, true};
ghost use Rattle.std.specs.Prelude.{vec_len};
ghost use Rattle.irig_journal.specs.{Held.held_of, History.step};
ghost use Rattle.irig_saved.specs.{Lines.text_of, SavedText.step_lines};
ghost use Rattle.irig_edit.specs.Changes.Held.{delta_of, deltas_of};
ghost use Rattle.irig_edit.specs.{Saved.Saved.saved_step, Saved.SavedParts.steps_text};

use crate::changes::turn::Turn;
use crate::saved::change_lines::ChangeLines;
use irig_journal::{Step, StepsLeft};
use irig_saved::put_step;
use std::alloc::AllocError;
use std::marker::Model;

/// Lines that are still to be given: of the changes of the step that has begun, and of all in
/// `left`.
#[derive(Drop)]
pub(crate) struct StepLines<'s> {
    changes: ChangeLines<'s>,
    left: StepsLeft<'s, Turn>,
}

impl<'s> Model for StepLines<'s> {
    ghost use Rattle.std.specs.Prelude.{◌++◌, List, ℕ};
    ghost use Rattle.irig_edit.specs.{Changes.Held.deltas_of, Saved.SavedParts.steps_text};

    ghost Value = { List ℕ };

    ghost view = { λ s. s.changes ++ steps_text (deltas_of s.left) };
}

impl<'s> StepLines<'s> {
    pub(crate) fn new(steps: StepsLeft<'s, Turn>) -> StepLines<'s>
        ensures { result ≡ steps_text (deltas_of steps.entry) }
    {
        StepLines {
            changes: ChangeLines::new(&[]),
            left: steps,
        }
    }

    pub(crate) fn fill(&mut self, block: &mut Vec<u8>, enough: usize) -> Result<bool, AllocError>
        ensures bytes { OnOk result (block.new.items ++ self.new ≡ block.old.items ++ self.old) }
        ensures end { IfOk result (λ ended. ended ≡ true → self.new ≡ []) }
        ensures room { IfOk result (λ ended. ended ≡ true → vec_len block.new < enough) }
        ensures full { IfOk result (λ ended. ended ≡ false → enough ≤ vec_len block.new) }
    {
        loop {
            match self.changes.fill(block, enough) {
                Ok(true) => {}
                ended => return ended,
            }
            match begin_next(&mut self.changes, &mut self.left, block) {
                Ok(false) => {}
                Ok(true) => return Ok(true),
                Err(fault) => return Err(fault),
            }
        }
    }
}

/// Begins the next step: writes its lines before its changes. `true` if no step is left.
fn begin_next<'s>(
    changes: &mut ChangeLines<'s>,
    left: &mut StepsLeft<'s, Turn>,
    block: &mut Vec<u8>,
) -> Result<bool, AllocError>
    requires over { changes.old ≡ [] }
    ensures bytes { OnOk result (block.new.items ++ (changes.new ++ steps_text (deltas_of left.new))
        ≡ block.old.items ++ steps_text (deltas_of left.old)) }
    ensures less { IfOk result (λ ended. ended ≡ false → length left.new < length left.old) }
    ensures end { IfOk result (λ ended. ended ≡ true
        → (changes.new ≡ []) × ((left.new ≡ []) × (vec_len block.new ≡ vec_len block.old))) }
{
    if left.len() == 0 {
        return Ok(true);
    }
    *changes = begin_step(block, left.next().unwrap())?;
    Ok(false)
}

/// Writes the line of a step, and the count of its changes if it is a group.
fn begin_step<'s>(text: &mut Vec<u8>, kept: Step<'s, Turn>) -> Result<ChangeLines<'s>, AllocError>
    requires alone { kept.is_group ≡ false → length kept.changes.now ≡ 1 }
    ensures { IfOk result (λ left. text.new.items ++ left ≡ text.old.items ++ text_of (step_lines
        (saved_step (step (delta_of (held_of kept.entry).parts) kept.entry.cursor)))) }
{
    let changes = kept.changes.len() as u64;
    put_step(text, kept.cursor as u64, kept.is_group, changes)?;
    Ok(ChangeLines::new(kept.changes))
}
