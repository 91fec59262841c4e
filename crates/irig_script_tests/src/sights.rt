//! A witness that keeps what it sees, for clauses alone: in the program it does nothing.

ghost use Rattle.std.specs.Prelude.{◌≡◌, ◌++◌, ◌∷◌, [], List, Some, refl};
ghost use Rattle.std.specs.Borrow.{ftrue};
ghost use Rattle.irig_script.specs.Print.Screen.{Sight, sight};
ghost use Rattle.irig_script_tests.specs.SightCode.{sights_code};

use irig_script::{Shelf, Witness};
use std::io::Write;
use std::marker::Model;

/// What a witness saw, in order.
#[derive(Drop)]
pub struct Sights {
    pub ghost list: { List Sight } by { sights_code },
}

impl Model for Sights {
    ghost also_owns = { λ _. ftrue };
}

impl Sights {
    pub fn new() -> Sights
        ensures none { result.list ≡ [] }
    {
        Sights {}
    }

    /// The list has one sight more: the output and the shelf as they are now.
    pub fn and<W: Write, S: Shelf>(&self, out: &W, shelf: &S) -> Sights
        ensures more { result.list ≡ self.now.list
            ++ sight (W.contents out.now) (S.known shelf.now).texts ∷ [] }
    {
        Sights {}
    }
}

impl Witness for Sights {
    ghost seen = { λ sights. Some sights.list };

    fn see<W: Write, S: Shelf>(&mut self, out: &W, shelf: &S) {
        *self = self.and(out, shelf);
    }
}
