//! Where texts are written: a file, or a list in memory.

ghost use Rattle.std.specs.Prelude.{◌≡◌, ◌∷◌, [], length, IfOk, OnOk, OnErr};
ghost use Rattle.irig_text.specs.Shelved.{Shelved, Puts};

use crate::text::Text;

/// Why is not said: a file failed, or memory ran out.
#[derive(Clone, Copy)]
pub struct ShelfFault;

pub trait Shelf {
    ghost known: { Self → Shelved };

    ghost since: { Self → Self → Type 0 };

    /// Writes a whole text. Nothing is promised of what is left of `text`.
    fn put<T: Text>(&mut self, text: &mut T) -> Result<u64, ShelfFault>
        ensures count { IfOk result (λ count. count ≡ length (T.rest text.old)) }
        ensures ok { OnOk result (Puts (known self.old) (known self.new) (T.rest text.old ∷ []) 0) }
        ensures err { OnErr result (Puts (known self.old) (known self.new) [] 1) }
        ensures since { since self.old self.new };

    ghost since_now: { (shelf : Self) → since shelf shelf };

    ghost since_then: { (old : Self) (mid : Self) (new : Self) → since old mid → since mid new
        → since old new };
}
