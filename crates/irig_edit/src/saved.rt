//! The text of a session with its journal.

ghost use Rattle.std.specs.Prelude.{◌≡◌, IfOk};
ghost use Rattle.irig_edit.specs.{Saved.SavedSession.saved_text, Session.Session.work_in};

mod change_lines;
mod stage;
mod step_lines;
mod text;

use crate::session::session::Session;
use irig_text::whole;
use std::alloc::AllocError;
pub use text::SavedText;

impl Session {
    /// The dump with the journal after it, as `docs/FORMATS.md` says under "The saved journal". The
    /// steps of an open group are saved one by one.
    pub fn saved(&self) -> Result<Vec<u8>, AllocError>
        ensures { IfOk result (λ text. text.items ≡ saved_text (work_in self.now)) }
    {
        whole(
            self.alloc,
            self.present.text_room(),
            &mut self.saved_parts(),
        )
    }

    /// The text of `saved`, in parts. This takes no memory.
    pub fn saved_parts(&self) -> SavedText<'_>
        ensures { result ≡ saved_text (work_in self.now) }
    {
        SavedText::new(&self.present, self.cursor, &self.journal)
    }
}
