//! A new file next to its target, under a name that is free.

ghost use Rattle.std.specs.Prelude.{◌≡◌, ◌≢◌, ◌↔◌, [], string_bytes, IfOk, IfErr, MatchOption};
ghost use Rattle.std.specs.Prelude.{OnOk, IsErrOf, IsTrue};
ghost use Rattle.irig_disk.specs.declared.fault.PutFault.TheVariants.{NamesTaken};
ghost use Rattle.irig_disk.specs.NewNames.{AllTaken, IsNameAfter, name_after};
ghost use Rattle.irig_disk.specs.{Writing.IsWriting, Writing.IsUnchanged, Faults.NotBegun};
ghost use Rattle.irig_disk.specs.{Name.IsName, Parts.IsPassed, Calls.mode_made};

use crate::fault::PutFault;
use crate::folder::Folder;
use crate::name::is_name;
use crate::new_text::NAMES;
use std::alloc::AllocError;

/// Makes a new file under the first name that is free, and leaves that name in `name`. Numbers are
/// tried from 0 up to `NAMES`, which is not included; `NamesTaken` if none is free.
pub(crate) fn make_beside<F: Folder>(
    folder: &mut F,
    dir: &F::Dir,
    name: &mut String,
    target: &str,
    stem: &str,
    hidden: bool,
) -> Result<F::File, PutFault<F::Fault>>
    requires { IsName target.now }
    ensures ok { IsTrue F.is_told → IfOk result (λ file. IsWriting (F.disk folder.old)
        (F.disk folder.new) (F.place dir.now (string_bytes name.new))
        (F.place dir.now target.now) (F.number file) []
        (mode_made F.usual_mode hidden)) }
    ensures err { IsTrue F.is_told → IfErr result
        (NotBegun (F.disk folder.old) (F.disk folder.new)) }
    ensures taken { IsTrue F.is_told → IsErrOf result NamesTaken
        → AllTaken (F.disk folder.old) (F.place dir.now) stem.now target.now 10_000 }
    ensures named { OnOk result (IsNameAfter stem.now 10_000 (string_bytes name.new)) }
{
    for number in 0..NAMES {
        match make_at(folder, dir, name, target, stem, number, hidden) {
            Ok(None) => {}
            Ok(Some(file)) => return Ok(file),
            Err(fault) => return Err(fault),
        }
    }
    Err(PutFault::NamesTaken)
}

/// `None`: the name is taken, is the target's, or is no single name. `start` is a state since which
/// nothing has changed: the one before the first number was tried.
fn make_at<F: Folder>(
    folder: &mut F,
    dir: &F::Dir,
    name: &mut String,
    target: &str,
    stem: &str,
    number: u32,
    hidden: bool,
) -> Result<Option<F::File>, PutFault<F::Fault>>
    requires { IsName target.now }
    ensures ok { IsTrue F.is_told → (start : F) → IsUnchanged (F.disk start) (F.disk folder.old)
        → IfOk result (λ made. MatchOption made (IsPassed (F.disk start) (F.disk folder.new)
        (F.place dir.now) (name_after stem.now number) target.now) (λ file. IsWriting (F.disk start)
        (F.disk folder.new) (F.place dir.now (string_bytes name.new))
        (F.place dir.now target.now) (F.number file) []
        (mode_made F.usual_mode hidden))) }
    ensures err { IsTrue F.is_told → (start : F) → IsUnchanged (F.disk start) (F.disk folder.old)
        → IfErr result (NotBegun (F.disk start) (F.disk folder.new)) }
    ensures untaken { IsErrOf result NamesTaken → ⊥ }
    ensures named { OnOk result (string_bytes name.new ≡ name_after stem.now number) }
{
    match put_name(name, target, stem, number) {
        Ok(true) => match folder.make(dir, name.as_str(), hidden) {
            Ok(made) => Ok(made),
            Err(fault) => Err(PutFault::Failed(fault)),
        },
        Ok(false) => Ok(None),
        Err(_) => Err(PutFault::Memory),
    }
}

/// Writes the stem and the number to `name`, and returns whether a file may be made under it.
fn put_name(name: &mut String, target: &str, stem: &str, number: u32) -> Result<bool, AllocError>
    ensures name { OnOk result (string_bytes name.new ≡ name_after stem.now number) }
    ensures apart { IfOk result (λ apart. IsTrue apart
        ↔ (IsName (string_bytes name.new) × (string_bytes name.new ≢ target.now))) }
{
    name.clear();
    match write!(name, "{stem}{number}") {
        Ok(()) => Ok(is_name(name.as_str()) && name.as_str() != target),
        Err(error) => Err(error),
    }
}
