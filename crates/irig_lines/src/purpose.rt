//! What each command is for.

ghost use Rattle.std.specs.Prelude.{◌≡◌};
ghost use Rattle.irig_lines.specs.Purposes.{purpose_of};

use crate::command::Command;

#[derive(Clone, Copy)]
pub enum Purpose {
    Nothing,
    /// It edits the level.
    Edit,
    Mark,
    Format,
    /// It lists what is there; it can move the cursor.
    Question,
    /// It undoes or redoes a step, or opens or closes a group.
    Steps,
    Text,
    End,
}

impl Command {
    pub fn purpose(&self) -> Purpose
        ensures { result ≡ purpose_of self.now }
    {
        match self {
            Command::Nothing => Purpose::Nothing,
            Command::Delete(_)
            | Command::Shift(_, _)
            | Command::Join(_)
            | Command::Split(_, _, _)
            | Command::Force(_, _)
            | Command::Insert(_, _)
            | Command::Invert(_, _)
            | Command::Regen(_, _, _, _) => Purpose::Edit,
            Command::Mark(_, _) | Command::Unmark(_) => Purpose::Mark,
            Command::Format(_, _) => Purpose::Format,
            Command::Show(_)
            | Command::List(_)
            | Command::Frames
            | Command::Marks
            | Command::Info => Purpose::Question,
            Command::Undo | Command::Redo | Command::Begin | Command::End | Command::Abort =>
                Purpose::Steps,
            Command::Write | Command::Save => Purpose::Text,
            Command::Quit => Purpose::End,
        }
    }
}
