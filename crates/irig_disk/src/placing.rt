//! The calls that give a new file the name of its target, in their order.

ghost use Rattle.std.specs.Prelude.{◌≡◌, ℕ, List, IfErr, IfOk, IsTrue, OnErr, OnOk};
ghost use Rattle.irig_disk.specs.Put.{IsKept, OldOrNewIfThere, first_mode, last_mode};
ghost use Rattle.irig_disk.specs.Writing.{IsBeside, IsPlaced, IsStuck, IsWriting, WhileWriting};
ghost use Rattle.irig_disk.specs.{Disk.LeavesOnly, Faults.NotFinished, Parts.WhilePlaced};
ghost use Rattle.irig_disk.specs.{Parts.WhileStuck};

use crate::fault::{PutFault, fault_after};
use crate::folder::Folder;
use crate::kept::Kept;

/// Gives a new file the mode, if there is one to give; else it keeps the usual one.
pub(crate) fn give_mode<F: Folder>(
    folder: &mut F,
    file: &F::File,
    mode: Option<u32>,
) -> Result<(), F::Fault>
    ensures ok { IsTrue F.is_told → (beside target : List ℕ) → WhileWriting F.disk folder.old
        beside target (F.number file.now) (first_mode F.usual_mode mode) (λ start text.
        OnOk result (IsWriting start (F.disk folder.new) beside target (F.number file.now) text
        (last_mode F.usual_mode mode))) }
    ensures err { IsTrue F.is_told → (beside target : List ℕ) → WhileWriting F.disk folder.old
        beside target (F.number file.now) (first_mode F.usual_mode mode) (λ start text.
        OnErr result (IsBeside start (F.disk folder.new) beside target (F.number file.now))) }
{
    match mode {
        None => Ok(()),
        Some(mode) => match folder.take_mode(file, mode) {
            Ok(_) => Ok(()),
            Err(fault) => Err(fault),
        },
    }
}

/// Syncs what a new file holds, so that no crash leaves the target a part of it, and renames it.
pub(crate) fn rename_synced<F: Folder>(
    folder: &mut F,
    file: &F::File,
    dir: &F::Dir,
    beside: &str,
    target: &str,
) -> Result<F::Renamed, F::Fault>
    ensures ok { IsTrue F.is_told → (mode : ℕ) → let place = F.place dir.now in
        WhileWriting F.disk folder.old (place beside.now) (place target.now)
        (F.number file.now) mode (λ start text. OnOk result (IsPlaced start (F.disk folder.new)
        (place beside.now) (place target.now) (record { bytes = text; mode = mode }))) }
    ensures err { IsTrue F.is_told → (mode : ℕ) → let place = F.place dir.now in
        WhileWriting F.disk folder.old (place beside.now) (place target.now)
        (F.number file.now) mode (λ start text. OnErr result (IsStuck start (F.disk folder.new)
        (place beside.now) (place target.now) (record { bytes = text; mode = mode }))) }
{
    match folder.sync_file(file) {
        Ok(_) => folder.rename(dir, beside, target),
        Err(fault) => Err(fault),
    }
}

/// Syncs the names of the folder. `NotKept`: a crash can bring the old text back.
pub(crate) fn keep<F: Folder>(
    folder: &mut F,
    dir: &F::Dir,
    count: u64,
) -> Result<Kept, PutFault<F::Fault>>
    ensures ok { IsTrue F.is_told → WhilePlaced F.disk folder.old (F.place dir.now)
        (λ start target text. OnOk result (IsKept start (F.disk folder.new) target text)) }
    ensures err { IsTrue F.is_told → WhilePlaced F.disk folder.old (F.place dir.now)
        (λ start target text. IfErr result (NotFinished start (F.disk folder.new) target text)) }
    ensures any_moment { IsTrue F.is_told → WhilePlaced F.disk folder.old (F.place dir.now)
        (λ start target text.
        LeavesOnly start (F.disk folder.new) (OldOrNewIfThere start target text)) }
    ensures count { IfOk result (λ kept. kept.count ≡ count) }
{
    match folder.sync_names(dir) {
        Ok(_) => Ok(Kept { count }),
        Err(fault) => Err(PutFault::NotKept(fault)),
    }
}

/// Removes a new file that did not get its name, and says what is left. After a rename that failed
/// a crash can still leave the new text: nobody knows what of the call was done.
pub(crate) fn clear<F: Folder>(
    folder: &mut F,
    dir: &F::Dir,
    beside: &str,
    fault: F::Fault,
) -> PutFault<F::Fault>
    ensures left { IsTrue F.is_told → WhileStuck F.disk folder.old (F.place dir.now beside.now)
        (λ start target text. NotFinished start (F.disk folder.new) target text result) }
    ensures any_moment { IsTrue F.is_told → WhileStuck F.disk folder.old
        (F.place dir.now beside.now) (λ start target text.
        LeavesOnly start (F.disk folder.new) (OldOrNewIfThere start target text)) }
{
    fault_after(Some(fault), folder.remove(dir, beside))
}
