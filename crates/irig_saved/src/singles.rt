//! The changes of one group.

ghost use Rattle.std.specs.Prelude.{◌≡◌, ◌<◌, ◌^◌, ◌++◌, ◌∷◌, [], OnOk, OnErr, length};
ghost use Rattle.irig_saved.specs.SavedText.{singles_lines};

use crate::single::Single;
use std::alloc::{AllocError, Global};
use std::marker::Model;

/// Changes in the order in which they are made.
#[derive(Drop)]
pub struct Singles {
    items: Vec<Single>,
}

impl Model for Singles {
    ghost use Rattle.std.specs.Prelude.{List};
    ghost use Rattle.irig_saved.specs.declared.single.Single.{Single};

    ghost Value = { List Single };

    ghost view = { λ singles. singles.items.items };
}

impl Singles {
    /// An empty list.
    pub fn new(alloc: Global) -> Singles
        ensures { result ≡ [] }
    {
        Singles {
            items: Vec::new(alloc),
        }
    }

    pub fn as_slice(&self) -> &[Single]
        ensures { result.now ≡ self.now }
    {
        self.items.as_slice()
    }

    /// Adds a change after the last.
    pub fn push(&mut self, single: Single) -> Result<(), AllocError>
        ensures pushed { OnOk result (self.new ≡ self.old ++ single ∷ []) }
        ensures unchanged { OnErr result (self.new ≡ self.old) }
    {
        self.items.push(single)?;
        Ok(())
    }

    pub fn into_vec(self) -> Vec<Single>
        ensures { result.items ≡ self }
    {
        self.items
    }

    /// How many lines they have in the text of a journal.
    pub(crate) fn lines(&self) -> usize
        requires { length (singles_lines self.now) < 2 ^ 63 }
        ensures { result ≡ length (singles_lines self.now) }
    {
        let mut lines = 0;
        for single in &self.items {
            lines += single.lines();
        }
        lines
    }
}
