//! A text written whole to a regular file.

ghost use Rattle.std.specs.Prelude.{◌≡◌, length, Ok, IfOk, OnErr, IsErr, IsTrue};
ghost use Rattle.irig_disk.specs.{Name.IsName, Put.held};
ghost use Rattle.irig_files.specs.Once.{Replaces};

use irig_disk::{Folder, Kept, put_text};
use irig_text::{ShelfFault, Text};

/// Writes a text to the name `target` in `dir`, by a new file with this mode (`None`: the usual
/// one), which first has the name `stem` and a number. `name` and `block` are memory for name and
/// text.
pub fn write_whole<F: Folder, T: Text>(
    folder: &mut F,
    dir: &F::Dir,
    name: &mut String,
    target: &str,
    stem: &str,
    mode: Option<u32>,
    text: &mut T,
    block: &mut Vec<u8>,
) -> Result<Kept, ShelfFault>
    requires { IsName target.now }
    // A crash leaves the old text or the new one, whole; after `Ok` the new one. After a fault the
    // old text is seen, or the new one if only the sync of the names failed: a crash can undo that.
    ensures put { IsTrue F.is_told → Replaces (F.disk folder.old) (F.disk folder.new)
        (F.place dir.now target.now) (held F.usual_mode mode (T.rest text.old)) result }
    ensures count { IfOk result (λ kept. kept.count ≡ length (T.rest text.old)) }
{
    or_shelf_fault(put_text(folder, dir, name, target, stem, mode, text, block))
}

/// Any error as a `ShelfFault`, which does not say which it was.
pub fn or_shelf_fault<T: Drop, E: Drop>(outcome: Result<T, E>) -> Result<T, ShelfFault>
    ensures given { IfOk result (λ value. outcome ≡ Ok value) }
    ensures failed { OnErr result (IsErr outcome) }
{
    match outcome {
        Ok(value) => Ok(value),
        Err(_) => Err(ShelfFault),
    }
}
