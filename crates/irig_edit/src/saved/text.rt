//! The text of a saved session, in parts.

ghost use Rattle.std.specs.Prelude.{◌≡◌, ◌≤◌, ◌++◌, ℕ, List, [], IfOk, OnOk, false, reverse, true};
ghost use Rattle.std.specs.Prelude.{vec_len};
ghost use Rattle.irig_edit.specs.Saved.SavedParts.{middle_text, opening_text, parts_left};
ghost use Rattle.irig_edit.specs.Saved.SavedParts.{parts_text};
ghost use Rattle.irig_edit.specs.Saved.Stages.{next_stage, stage_left, text_after};

use crate::saved::stage::Stage;
use crate::saved::step_lines::StepLines;
use crate::state::present::Present;
use irig_journal::Journal;
use irig_saved::{put_future, put_head};
use irig_text::Text;
use irig_track::TrackText;
use std::alloc::AllocError;
use std::marker::Model;

/// The dump, the journal's head, the steps back with the oldest first, the steps forward with the
/// next redo first, and the end. After an error nothing is said of what is left.
#[derive(Drop)]
pub struct SavedText<'s> {
    dump: TrackText<'s>,
    present: &'s Present,
    cursor: usize,
    journal: &'s Journal<Present>,
    back: StepLines<'s>,
    on: StepLines<'s>,
    stage: Stage,
}

impl<'s> Model for SavedText<'s> {
    ghost use Rattle.std.specs.Prelude.{List, ℕ};
    ghost use Rattle.irig_edit.specs.Saved.SavedParts.{middle_text, opening_text, parts_left};

    ghost Value = { List ℕ };

    ghost view = { λ t. parts_left t.stage t.dump
        (opening_text t.present.now.state t.cursor t.journal.now) t.back
        (middle_text t.journal.now) t.on };
}

impl<'s> SavedText<'s> {
    pub(crate) fn new(
        present: &'s Present,
        cursor: usize,
        journal: &'s Journal<Present>,
    ) -> SavedText<'s>
        ensures { result ≡ parts_text present.now.state cursor journal.now }
    {
        SavedText {
            dump: present.track().text_parts(),
            present,
            cursor,
            journal,
            back: StepLines::new(journal.past_steps()),
            on: StepLines::new(journal.future_steps()),
            stage: Stage::Dump,
        }
    }
}

impl Text for SavedText<'_> {
    ghost rest = { λ t. t };

    // The answer is `false` if the block is full: then the next call continues.
    fn fill(&mut self, block: &mut Vec<u8>, enough: usize) -> Result<bool, AllocError> {
        // Each pass ends a stage, unless the block is full: then the answer is `Ok(false)`.
        while !self.stage.is_over() {
            let filled = fill_stage(
                self.stage,
                &mut self.dump,
                &mut self.back,
                &mut self.on,
                block,
                enough,
            );
            match filled {
                Ok(true) => {}
                ended => return ended,
            }
            match end_stage(
                &mut self.stage,
                block,
                self.present,
                self.cursor,
                self.journal,
            ) {
                Ok(()) => {}
                Err(fault) => return Err(fault),
            }
        }
        Ok(true)
    }
}

/// Adds what a stage has to a block; `bytes` holds whatever texts come between the stages.
fn fill_stage(
    stage: Stage,
    dump: &mut TrackText<'_>,
    back: &mut StepLines<'_>,
    on: &mut StepLines<'_>,
    block: &mut Vec<u8>,
    enough: usize,
) -> Result<bool, AllocError>
    ensures bytes { OnOk result ((opening : List ℕ) (middle : List ℕ) → block.new.items
        ++ parts_left stage dump.new opening back.new middle on.new
        ≡ block.old.items ++ parts_left stage dump.old opening back.old middle on.old) }
    ensures end { IfOk result (λ ended. ended ≡ true
        → stage_left stage dump.new back.new on.new ≡ []) }
    ensures full { IfOk result (λ ended. ended ≡ false → enough ≤ vec_len block.new) }
{
    match stage {
        // `dump.fill` returns `true` if the dump has ended, even if the block is full.
        Stage::Dump => Ok(dump.fill(block, enough)? && block.len() < enough),
        Stage::Back => back.fill(block, enough),
        Stage::On => on.fill(block, enough),
        Stage::Over => Ok(true),
    }
}

/// Writes what comes after a stage, and makes `stage` the next one.
fn end_stage(
    stage: &mut Stage,
    text: &mut Vec<u8>,
    present: &Present,
    cursor: usize,
    journal: &Journal<Present>,
) -> Result<(), AllocError>
    ensures bytes { OnOk result (text.new.items ≡ text.old.items ++ text_after stage.old
        (opening_text present.now.state cursor journal.now) (middle_text journal.now)) }
    ensures next { stage.new ≡ next_stage stage.old }
{
    let ended = *stage;
    *stage = ended.next();
    match ended {
        Stage::Dump => put_opening(text, present, cursor, journal),
        Stage::Back => put_future(text, journal.steps_forward() as u64),
        Stage::On => text.extend_from_slice(b"$end\n"),
        Stage::Over => Ok(()),
    }
}

/// Writes the journal's lines before its steps.
fn put_opening(
    text: &mut Vec<u8>,
    present: &Present,
    cursor: usize,
    journal: &Journal<Present>,
) -> Result<(), AllocError>
    ensures { OnOk result (text.new.items
        ≡ text.old.items ++ opening_text present.now.state cursor journal.now) }
{
    text.extend_from_slice(b"$comment\n")?;
    put_head(
        text,
        present.format(),
        cursor as u64,
        &present.marks,
        journal.steps_back() as u64,
    )
}
