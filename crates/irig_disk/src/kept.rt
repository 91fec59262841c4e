//! That a text was written and is kept over a crash.

ghost use Rattle.std.specs.Prelude.{◌≡◌};

/// A text was written whole, and each crash leaves it. Only `NewText::finish` makes one.
#[derive(Drop)]
pub struct Kept {
    pub(crate) count: u64,
}

impl Kept {
    pub fn count(&self) -> u64
        ensures { result ≡ self.now.count }
    {
        self.count
    }
}
