//! A text of a target, given in parts, written whole: a crash leaves the old text or the new one.

ghost use Rattle.std.specs.Prelude.{◌≡◌, ◌+◌, ◌-◌, ◌^◌, [], length, min, IfOk};
ghost use Rattle.std.specs.Prelude.{IfErr, OnOk, OnErr, IsErrOf, IsTrue};
ghost use Rattle.irig_disk.specs.Put.{OldIfThere, OldOrNewIfThere, SeenSame, SeenSameIfThere};
ghost use Rattle.irig_disk.specs.{Put.IsKept, Put.first_mode, NewNames.AllTaken};
ghost use Rattle.irig_disk.specs.{NewNames.IsNameAfter, Faults.NotBegun, Faults.NotFinished};
ghost use Rattle.irig_disk.specs.{Writing.IsWriting, Writing.IsPlaced, Writing.IsStuck};
ghost use Rattle.irig_disk.specs.{Disk.LeavesOnly, declared.fault.PutFault.TheVariants.NamesTaken};
ghost use Rattle.irig_disk.specs.Underway.{underway_of, WhileUnderway, WhileInAnyMode};
ghost use Rattle.irig_disk.specs.{Parts.Adds, Parts.AddsSome, Name.IsName};

use crate::beside::make_beside;
use crate::fault::PutFault;
use crate::folder::Folder;
use crate::kept::Kept;
use crate::placing::{clear, give_mode, keep, rename_synced};

/// How many names are tried. Each is free unless another run uses it, or a crash left it.
pub(crate) const NAMES: u32 = 10_000;

/// A new file next to its target, whose name it takes in the end.
#[derive(Drop)]
pub struct NewText<'n, F: Folder> {
    file: F::File,
    dir: &'n F::Dir,
    /// The name of the new file until it takes the target's.
    beside: &'n str,
    target: &'n str,
    /// The mode that the file takes at the end; `None`: it keeps the usual one.
    mode: Option<u32>,
    /// How many bytes were written so far.
    pub(crate) count: u64,
}

impl<'n, F: Folder> NewText<'n, F> {
    /// Makes the new file under the stem and the first number that is free. If it is to take a
    /// mode, it is hidden until then, since that mode may keep others out.
    pub fn begin(
        folder: &mut F,
        dir: &'n F::Dir,
        name: &'n mut String,
        target: &'n str,
        stem: &str,
        mode: Option<u32>,
    ) -> Result<Self, PutFault<F::Fault>>
        requires { IsName target.now }
        ensures dir { IfOk result (λ new. new.dir.now ≡ dir.now) }
        ensures target { IfOk result (λ new. new.target.now ≡ target.now) }
        ensures mode { IfOk result (λ new. new.mode ≡ mode) }
        ensures count { IfOk result (λ new. new.count ≡ 0) }
        ensures ok { IsTrue F.is_told → IfOk result (λ new. let place = F.place dir.now in
            IsWriting (F.disk folder.old) (F.disk folder.new) (place new.beside.now)
            (place target.now) (F.number new.file) [] (first_mode F.usual_mode mode)) }
        ensures err { IsTrue F.is_told → IfErr result
            (NotBegun (F.disk folder.old) (F.disk folder.new)) }
        ensures taken { IsTrue F.is_told → IsErrOf result NamesTaken
            → AllTaken (F.disk folder.old) (F.place dir.now) stem.now target.now 10_000 }
        ensures named { IfOk result (λ new. IsNameAfter stem.now 10_000 new.beside.now) }
    {
        match make_beside(folder, dir, name, target, stem, mode.is_some()) {
            Ok(file) => Ok(NewText {
                file,
                dir,
                beside: name.as_str(),
                target,
                mode,
                count: 0,
            }),
            Err(fault) => Err(fault),
        }
    }

    /// Writes a part at the end of the new file. After an error some of it may be written, which is
    /// not counted: so call `give_up` then.
    pub fn append(&mut self, folder: &mut F, part: &[u8]) -> Result<F::Appended, F::Fault>
        ensures dir { self.new.dir.now ≡ self.old.dir.now }
        ensures beside { self.new.beside.now ≡ self.old.beside.now }
        ensures target { self.new.target.now ≡ self.old.target.now }
        ensures mode { self.new.mode ≡ self.old.mode }
        ensures file { F.number self.new.file ≡ F.number self.old.file }
        ensures count { OnOk result
            (self.new.count ≡ min (self.old.count + length part.now) (2 ^ 64 - 1)) }
        ensures ok { IsTrue F.is_told → OnOk result (Adds F.disk folder.old folder.new
            (F.place self.old.dir.now self.old.beside.now) (F.number self.old.file) part.now) }
        ensures err { IsTrue F.is_told → OnErr result (AddsSome F.disk folder.old folder.new
            (F.place self.old.dir.now self.old.beside.now) (F.number self.old.file) part.now) }
    {
        let appended = folder.append(&mut self.file, part)?;
        self.count = self.count.saturating_add(part.len() as u64);
        Ok(appended)
    }

    /// Gives the text its mode and its name, and keeps both over a crash. If it fails before the
    /// text has the name, the new file is removed; `NotKept` if it fails after that.
    pub fn finish(self, folder: &mut F) -> Result<Kept, PutFault<F::Fault>>
        requires { IsName self.target.now }
        ensures ok { IsTrue F.is_told → WhileUnderway F.disk folder.old
            (underway_of F.place F.number F.usual_mode self.entry) (λ start at text.
            OnOk result (IsKept start (F.disk folder.new) at.target text)) }
        ensures err { IsTrue F.is_told → WhileUnderway F.disk folder.old
            (underway_of F.place F.number F.usual_mode self.entry) (λ start at text.
            IfErr result (NotFinished start (F.disk folder.new) at.target text)) }
        ensures any_moment { IsTrue F.is_told → WhileUnderway F.disk folder.old
            (underway_of F.place F.number F.usual_mode self.entry) (λ start at text.
            LeavesOnly start (F.disk folder.new) (OldOrNewIfThere start at.target text)) }
        ensures count { IfOk result (λ kept. kept.count ≡ self.entry.count) }
    {
        match place_or_clear(folder, &self) {
            Ok(()) => keep(folder, self.dir, self.count),
            Err(fault) => Err(fault),
        }
    }

    /// Removes the new file, after a fault. The removal is not synced, so a crash can undo it.
    pub fn give_up(self, folder: &mut F) -> Result<F::NameRemoved, F::Fault>
        ensures ok { IsTrue F.is_told → WhileInAnyMode F.disk folder.old
            (underway_of F.place F.number F.usual_mode self.entry) (λ start _.
            OnOk result (SeenSame start (F.disk folder.new))) }
        ensures err { IsTrue F.is_told → WhileInAnyMode F.disk folder.old
            (underway_of F.place F.number F.usual_mode self.entry) (λ start at.
            OnErr result (SeenSameIfThere start (F.disk folder.new) at.target)) }
        ensures rest { IsTrue F.is_told → WhileInAnyMode F.disk folder.old
            (underway_of F.place F.number F.usual_mode self.entry) (λ start _.
            ((F.disk folder.new).log ≡ start.log) × ((F.disk folder.new).paths ≡ start.paths)) }
        ensures any_moment { IsTrue F.is_told → WhileInAnyMode F.disk folder.old
            (underway_of F.place F.number F.usual_mode self.entry) (λ start at.
            LeavesOnly start (F.disk folder.new) (OldIfThere start at.target)) }
    {
        folder.remove(self.dir, self.beside)
    }
}

/// Gives a text its mode and its name, or removes its new file if that fails.
fn place_or_clear<F: Folder>(folder: &mut F, new: &NewText<'_, F>) -> Result<(), PutFault<F::Fault>>
    ensures ok { IsTrue F.is_told → WhileUnderway F.disk folder.old
        (underway_of F.place F.number F.usual_mode new.now) (λ start at text.
        OnOk result (IsPlaced start (F.disk folder.new) at.beside at.target text)) }
    ensures err { IsTrue F.is_told → WhileUnderway F.disk folder.old
        (underway_of F.place F.number F.usual_mode new.now) (λ start at text.
        IfErr result (NotFinished start (F.disk folder.new) at.target text)) }
    ensures any_moment { IsTrue F.is_told → WhileUnderway F.disk folder.old
        (underway_of F.place F.number F.usual_mode new.now) (λ start at text. OnErr result
        (LeavesOnly start (F.disk folder.new) (OldOrNewIfThere start at.target text))) }
{
    match place(folder, new) {
        Ok(_) => Ok(()),
        Err(fault) => Err(clear(folder, new.dir, new.beside, fault)),
    }
}

/// In this order a file never has another mode, or a part of the text, under the target's name.
/// `Err` is the first fault; the target is then seen as it was.
fn place<F: Folder>(folder: &mut F, new: &NewText<'_, F>) -> Result<F::Renamed, F::Fault>
    ensures ok { IsTrue F.is_told → WhileUnderway F.disk folder.old
        (underway_of F.place F.number F.usual_mode new.now) (λ start at text.
        OnOk result (IsPlaced start (F.disk folder.new) at.beside at.target text)) }
    ensures err { IsTrue F.is_told → WhileUnderway F.disk folder.old
        (underway_of F.place F.number F.usual_mode new.now) (λ start at text.
        OnErr result (IsStuck start (F.disk folder.new) at.beside at.target text)) }
{
    match give_mode(folder, &new.file, new.mode) {
        Ok(()) => rename_synced(folder, &new.file, new.dir, new.beside, new.target),
        Err(fault) => Err(fault),
    }
}
