//! A step of a saved journal.

ghost use Rattle.std.specs.Prelude.{◌≡◌, ◌<◌, ◌^◌, length};
ghost use Rattle.irig_saved.specs.SavedText.{step_lines};

use crate::change::Change;

/// A change, and the cursor of the state that it leads to.
#[derive(Drop)]
pub struct SavedStep {
    pub cursor: u64,
    pub change: Change,
}

impl SavedStep {
    /// Lines in the text of a journal: one for the cursor, and those of the change.
    pub fn lines(&self) -> usize
        requires { length (step_lines self.now) < 2 ^ 63 }
        ensures { result ≡ length (step_lines self.now) }
    {
        1 + self.change.lines()
    }
}
