//! Groups: several edits that are one step.

ghost use Rattle.irig_edit.specs.Session.Calls.Call.{Begin, End, Abort};
ghost use Rattle.irig_edit.specs.Session.Session.{LooksAfter, Steps};

use crate::session::refusal::Refusal;
use crate::session::session::Session;

impl Session {
    /// Opens a group: all edits up to its end become one step. E12.
    pub fn begin(&mut self) -> Result<(), Refusal>
        ensures step { Steps Begin self.old result self.new }
        ensures looks { LooksAfter Begin self.old result self.new }
    {
        match self.journal.begin(self.cursor) {
            Ok(()) => Ok(()),
            Err(_) => Err(Refusal::GroupOpen),
        }
    }

    /// Closes the open group: its steps become one; a single step stays, and none makes no step.
    /// E13.
    pub fn end(&mut self) -> Result<(), Refusal>
        ensures step { Steps End self.old result self.new }
        ensures looks { LooksAfter End self.old result self.new }
    {
        match self.journal.end(&self.present) {
            Ok(()) => Ok(()),
            Err(_) => Err(Refusal::NoGroup),
        }
    }

    /// Closes the open group and undoes its steps for good; nothing is left to redo. E13.
    pub fn abort(&mut self) -> Result<(), Refusal>
        ensures step { Steps Abort self.old result self.new }
        ensures looks { LooksAfter Abort self.old result self.new }
    {
        let before = self.present.looks();
        match self.journal.abort(&mut self.present, &mut self.cursor) {
            Ok(()) => {
                self.last_looks = self.present.looks_since(before);
                Ok(())
            }
            Err(_) => Err(Refusal::NoGroup),
        }
    }
}
