//! A shelf that is a file.

ghost use Rattle.std.specs.Prelude.{◌≡◌, ◌∷◌, IsTrue, refl};
ghost use Rattle.std.proofs.Common.{◌∙◌};
ghost use Rattle.irig_text.specs.Shelved.{shelved};
ghost use Rattle.irig_files.specs.{Going.barred_by_both, Going.goes_by_both, Nowhere.goes_nowhere};
ghost use Rattle.irig_files.specs.{Goes.Goes, Puts.texts_at, Puts.writes_on, Taken.StaysBarred};

use crate::disk::Disk;
use crate::room::Room;
use irig_text::{Shelf, ShelfFault, Text};

/// Each write replaces the regular file at a path whole, or writes in place to anything else.
#[derive(Drop)]
pub struct FileShelf<'d, 'p, D: Disk> {
    disk: &'d mut D,
    path: &'p str,
    room: &'d mut Room,
    // How many writes failed, up to 2^64 - 1: for the contracts alone.
    failures: u64,
}

impl<'d, 'p, D: Disk> FileShelf<'d, 'p, D> {
    /// The shelf of the file at a path, which does not have to be there.
    pub fn new(disk: &'d mut D, path: &'p str, room: &'d mut Room) -> FileShelf<'d, 'p, D>
        ensures same_disk { result.disk.ghost_name ≡ disk.entry.ghost_name }
        ensures disk { result.disk.now ≡ disk.old }
        ensures path { result.path.now ≡ path.now }
        ensures none_failed { result.failures ≡ 0 }
    {
        FileShelf {
            disk,
            path,
            room,
            failures: 0,
        }
    }
}

impl<'d, 'p, D: Disk> Shelf for FileShelf<'d, 'p, D> {
    ghost known = { λ s. shelved (texts_at ((D.disk s.disk.now).paths s.path.now)
        (writes_on D.is_told (D.disk s.disk.now))) s.failures (s.disk.ghost_name ∷ s.path.now) };

    /// Whole texts were written, one after another; none if the file there must not be written.
    ghost since = { λ old new. ((new.path.now ≡ old.path.now) × (IsTrue D.is_told
        → StaysBarred (D.is_barred old.disk.now) (D.is_barred new.disk.now)
        (D.disk old.disk.now) (D.disk new.disk.now) old.path.now)) × (IsTrue D.is_told
        → Goes (D.disk old.disk.now) (D.disk new.disk.now)
        ((D.disk old.disk.now).paths old.path.now)) };

    ghost since_now = { λ s. (
      (refl, λ told has. (refl, has)),
      λ told. goes_nowhere (D.disk s.disk.now)
          ((D.disk s.disk.now).paths s.path.now)
          (D.only_now s.disk.now),
    ) };

    ghost since_then = { λ old mid new first then. (
      (
        then.0.0 ∙ first.0.0,
        λ told. barred_by_both
            (D.is_barred old.disk.now) (D.is_barred mid.disk.now) (D.is_barred new.disk.now)
            (D.disk old.disk.now) (D.disk mid.disk.now) (D.disk new.disk.now) old.path.now
            mid.path.now first.0.0 (first.0.1 told) (then.0.1 told),
      ),
      λ told. goes_by_both
          (D.disk old.disk.now) (D.disk mid.disk.now) (D.disk new.disk.now) old.path.now
          mid.path.now first.0.0 (first.1 told) (then.1 told),
    ) };

    fn put<T: Text>(&mut self, text: &mut T) -> Result<u64, ShelfFault> {
        match self.disk.put(self.path, text, self.room) {
            Ok(written) => Ok(written.count()),
            Err(fault) => {
                self.failures = self.failures.saturating_add(1);
                Err(fault)
            }
        }
    }
}
