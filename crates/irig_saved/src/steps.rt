//! Steps of a saved journal, in the order of its text.

ghost use Rattle.std.specs.Prelude.{◌≡◌, ◌<◌, ◌^◌, ◌++◌, ◌∷◌, [], OnOk, OnErr, MatchOption, length};
ghost use Rattle.std.specs.Prelude.{reverse};
ghost use Rattle.irig_saved.specs.SavedText.{steps_lines};

use crate::step::SavedStep;
use std::alloc::{AllocError, Global};
use std::marker::Model;

/// Those back with the oldest first, those forward with the next redo first.
#[derive(Drop)]
pub struct Steps {
    items: Vec<SavedStep>,
}

impl Model for Steps {
    ghost use Rattle.std.specs.Prelude.{List};
    ghost use Rattle.irig_saved.specs.declared.step.SavedStep.{SavedStep};

    ghost Value = { List SavedStep };

    ghost view = { λ steps. steps.items.items };
}

impl Steps {
    /// An empty list.
    pub fn new(alloc: Global) -> Steps
        ensures { result ≡ [] }
    {
        Steps {
            items: Vec::new(alloc),
        }
    }

    pub fn len(&self) -> usize
        ensures { result ≡ length self.now }
    {
        self.items.len()
    }

    pub fn as_slice(&self) -> &[SavedStep]
        ensures { result.now ≡ self.now }
    {
        self.items.as_slice()
    }

    /// Adds a step after the last.
    pub fn push(&mut self, step: SavedStep) -> Result<(), AllocError>
        ensures pushed { OnOk result (self.new ≡ self.old ++ step ∷ []) }
        ensures unchanged { OnErr result (self.new ≡ self.old) }
    {
        self.items.push(step)?;
        Ok(())
    }

    /// Removes the last step.
    pub fn pop(&mut self) -> Option<SavedStep>
        ensures { MatchOption result ((self.old ≡ []) × (self.new ≡ []))
            (λ step. self.old ≡ self.new ++ step ∷ []) }
    {
        self.items.pop()
    }

    /// Reverses the order.
    pub fn reverse(&mut self)
        ensures { self.new ≡ reverse self.old }
    {
        self.items.reverse();
    }

    /// How many lines these have in the text of a journal.
    pub fn lines(&self) -> usize
        requires { length (steps_lines self.now) < 2 ^ 63 }
        ensures { result ≡ length (steps_lines self.now) }
    {
        let mut lines = 0;
        for step in &self.items {
            lines += step.lines();
        }
        lines
    }
}
