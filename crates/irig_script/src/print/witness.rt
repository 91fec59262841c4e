//! Who sees what is printed and what is written.

ghost use Rattle.std.specs.Prelude.{◌∷◌, [], List, None, Option};
ghost use Rattle.irig_script.specs.Print.Screen.{Sight, sight};
ghost use Rattle.irig_text.specs.Shelved.{GrowsBy};

use irig_text::Shelf;
use std::io::Write;

/// It sees output and shelf after each line was obeyed, before this is answered.
pub trait Witness {
    /// What it saw, in order, if it shows it.
    ghost seen: { Self → Option (List Sight) };

    /// So a contract can say what was out at each moment, not only at the end.
    fn see<W: Write, S: Shelf>(&mut self, out: &W, shelf: &S)
        ensures { GrowsBy (seen self.old) (seen self.new)
            (sight (W.contents out.now) (S.known shelf.now).texts ∷ []) };
}

/// A witness that shows nothing.
#[derive(Drop)]
pub struct NoWitness;

impl Witness for NoWitness {
    ghost seen = { λ _. None };

    fn see<W: Write, S: Shelf>(&mut self, _: &W, _: &S) {}
}
