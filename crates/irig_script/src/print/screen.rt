//! An output with the witness that watches it.

ghost use Rattle.std.specs.Prelude.{◌≡◌, ◌∷◌, []};
ghost use Rattle.irig_script.specs.Print.Printed.{reply_text};
ghost use Rattle.irig_script.specs.Print.Screen.{none_fine_after, shown, sight};
ghost use Rattle.irig_print.specs.Front.{Prints};
ghost use Rattle.irig_text.specs.Shelved.{GrowsBy};

use crate::print::fine::is_none_fine;
use crate::print::reply::{Reply, print};
use crate::print::witness::Witness;
use irig_edit::Session;
use irig_print::PrintFault;
use irig_text::Shelf;
use std::io::Write;
use std::marker::Model;

#[derive(Drop)]
pub struct Screen<W: Write, N: Witness> {
    out: W,
    witness: N,
    // Whether the last frames that were listed have none that is fine.
    none_fine: bool,
}

impl<W: Write, N: Witness> Model for Screen<W, N> {
    ghost use Rattle.irig_script.specs.Print.Screen.{Shown, screen_of};

    ghost Value = { Shown };

    ghost view = { λ s. screen_of (W.contents s.out) (N.seen s.witness) s.none_fine };
}

impl<W: Write, N: Witness> Screen<W, N> {
    pub fn new(out: W, witness: N) -> Screen<W, N>
        ensures { result ≡ shown (W.contents out) (N.seen witness) }
    {
        Screen {
            out,
            witness,
            none_fine: false,
        }
    }

    /// Shows the output as it is now, with the shelf, to the witness.
    pub fn show<S: Shelf>(&mut self, shelf: &S)
        ensures out { self.new.out ≡ self.old.out }
        ensures seen { GrowsBy self.old.seen self.new.seen
            (sight self.old.out (S.known shelf.now).texts ∷ []) }
        ensures none_fine { self.new.none_fine ≡ self.old.none_fine }
    {
        self.witness.see(&self.out, shelf);
    }

    /// Prints an answer, of which the witness sees nothing.
    pub fn print(&mut self, reply: Reply, session: &Session) -> Result<(), PrintFault>
        ensures out { Prints self.old.out self.new.out (reply_text session.now reply) result }
        ensures seen { self.new.seen ≡ self.old.seen }
        ensures none_fine { self.new.none_fine
            ≡ none_fine_after self.old.none_fine reply session.now.state }
    {
        if matches!(reply, Reply::Frames) {
            self.none_fine = is_none_fine(session);
        }
        print(reply, session, &mut self.out)
    }

    /// Whether the last frames that were listed have none that is fine; false if none were listed.
    pub fn is_none_fine(&self) -> bool
        ensures { result ≡ self.now.none_fine }
    {
        self.none_fine
    }
}
