//! The lines of single changes, in parts.

ghost use Rattle.std.specs.Prelude.{◌≡◌, ◌≤◌, ◌<◌, ◌++◌, [], IfOk, OnOk, false, reverse, true};
ghost use Rattle.std.specs.Prelude.{vec_len};
ghost use Rattle.irig_edit.specs.Saved.SavedParts.{changes_text};

use crate::changes::turn::Turn;
use irig_saved::SingleLines;
use std::alloc::AllocError;
use std::marker::Model;

/// Lines that are still to be given, the last change first: an undo or a redo makes it first.
#[derive(Drop)]
pub(crate) struct ChangeLines<'s> {
    single: SingleLines<'s>,
    left: &'s [Turn],
}

impl<'s> Model for ChangeLines<'s> {
    ghost use Rattle.std.specs.Prelude.{◌++◌, List, ℕ, reverse};
    ghost use Rattle.irig_edit.specs.Saved.SavedParts.{changes_text};

    ghost Value = { List ℕ };

    ghost view = { λ c. c.single ++ changes_text (reverse c.left.now) };
}

impl<'s> ChangeLines<'s> {
    pub(crate) fn new(turns: &'s [Turn]) -> ChangeLines<'s>
        ensures { result ≡ changes_text (reverse turns.now) }
    {
        ChangeLines {
            single: SingleLines::none(),
            left: turns,
        }
    }

    /// Adds lines to a block until it has `enough` bytes (`false`) or no line is left (`true`).
    pub(crate) fn fill(&mut self, block: &mut Vec<u8>, enough: usize) -> Result<bool, AllocError>
        ensures bytes { OnOk result (block.new.items ++ self.new ≡ block.old.items ++ self.old) }
        ensures end { IfOk result (λ ended. ended ≡ true → self.new ≡ []) }
        ensures room { IfOk result (λ ended. ended ≡ true → vec_len block.new < enough) }
        ensures full { IfOk result (λ ended. ended ≡ false → enough ≤ vec_len block.new) }
    {
        loop {
            match self.single.fill(block, enough) {
                Ok(true) => {}
                ended => return ended,
            }
            let Some((turn, others)) = self.left.split_last() else {
                return Ok(true);
            };
            self.single = SingleLines::of(&turn.single);
            self.left = others;
        }
    }
}
