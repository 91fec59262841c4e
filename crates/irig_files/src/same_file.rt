//! Whether two paths lead to one regular file.

ghost use Rattle.std.specs.Prelude.{◌≡◌, IfOk, IsTrue, false, true};
ghost use Rattle.irig_files.specs.Apart.{AreApart, HasId, LeadToOneFile};

use crate::file_system::FileSystem;
use irig_text::ShelfFault;

/// The same by the numbers of both; false if one leads to no regular file.
pub fn is_same_file<C: FileSystem>(system: &C, one: &str, other: &str) -> Result<bool, ShelfFault>
    ensures apart { IsTrue C.is_told → IfOk result (λ same. same ≡ false
        → AreApart (C.disk system.now) one.now other.now) }
    ensures same { IsTrue C.is_told → IfOk result (λ same. same ≡ true
        → LeadToOneFile (C.disk system.now) one.now other.now) }
{
    match (file_id(system, one), file_id(system, other)) {
        (Ok(Some(id)), Ok(Some(other_id))) => Ok(id == other_id),
        (Ok(_), Ok(_)) => Ok(false),
        _ => Err(ShelfFault),
    }
}

/// The numbers of the regular file that a path leads to.
fn file_id<C: FileSystem>(system: &C, path: &str) -> Result<Option<(u64, u64)>, ShelfFault>
    ensures { IsTrue C.is_told → IfOk result
        (HasId (C.disk system.now) (C.id_of system.now) path.now) }
{
    match system.describe(path) {
        Ok(Some(found)) if found.is_file => Ok(Some(found.id)),
        Ok(_) => Ok(None),
        Err(_) => Err(ShelfFault),
    }
}
