//! That a text was written, and how.

ghost use Rattle.std.specs.Prelude.{◌≡◌};
ghost use Rattle.irig_files.specs.Puts.{count_of};

use crate::in_place::InPlace;
use irig_disk::Kept;

/// A text was written to a file of the system.
#[derive(Drop)]
pub enum Written {
    /// Each crash from then on leaves the text.
    Whole(Kept),
    /// What is no regular file, or is what the answers go to, took all of the text.
    InPlace(InPlace),
}

impl Written {
    /// Bytes of the text.
    pub fn count(&self) -> u64
        ensures { result ≡ count_of self.now }
    {
        match self {
            Written::Whole(kept) => kept.count(),
            Written::InPlace(all) => all.count(),
        }
    }
}
