//! A text written whole, in one call.

ghost use Rattle.std.specs.Prelude.{◌≡◌, ◌<◌, ◌≤◌, ◌++◌, ◌+◌, ◌^◌, ℕ, List, [], false, true};
ghost use Rattle.std.specs.Prelude.{length, IfOk, IfErr, IfSome, OnOk, OnErr, OnSome, IsOk, IsSome};
ghost use Rattle.std.specs.Prelude.{Err, IsErrOf, IsTrue, Result};
ghost use Rattle.irig_text.specs.declared.block.TheConstants.{ENOUGH};
ghost use Rattle.irig_disk.specs.declared.fault.PutFault.TheVariants.{NamesTaken};
ghost use Rattle.irig_disk.specs.NewNames.{AllTaken};
ghost use Rattle.irig_disk.specs.{Put.IsKept, Put.OldOrNewIfThere, Put.held, Faults.AfterFault};
ghost use Rattle.irig_disk.specs.{Faults.left_by, Parts.Adds, Parts.ComesTo, Parts.Spoils};
ghost use Rattle.irig_disk.specs.Underway.{underway_of, WhileUnderway, WhileInAnyMode};
ghost use Rattle.irig_disk.specs.{Disk.LeavesOnly, Held.Held, Name.IsName};

use crate::fault::{PutFault, fault_after};
use crate::folder::Folder;
use crate::kept::Kept;
use crate::new_text::NewText;
use irig_text::{ENOUGH, Text};

/// Writes a text to the name `target` in the open folder `dir`, with a mode (`None`: the usual
/// one). Until the new file takes that name, its own is `stem` and a number. `name` and `block` are
/// memory for it and for parts of the text. The README says what a fault leaves.
pub fn put_text<F: Folder, T: Text>(
    folder: &mut F,
    dir: &F::Dir,
    name: &mut String,
    target: &str,
    stem: &str,
    mode: Option<u32>,
    text: &mut T,
    block: &mut Vec<u8>,
) -> Result<Kept, PutFault<F::Fault>>
    requires { IsName target.now }
    // A crash at any moment leaves the old text or the new one, and each other name as it was.
    ensures any_moment { IsTrue F.is_told → LeavesOnly (F.disk folder.old) (F.disk folder.new)
        (OldOrNewIfThere (F.disk folder.old) (F.place dir.now target.now)
        (held F.usual_mode mode (T.rest text.old))) }
    // After `Ok` each crash leaves the new text.
    ensures ok { IsTrue F.is_told → OnOk result (IsKept (F.disk folder.old) (F.disk folder.new)
        (F.place dir.now target.now) (held F.usual_mode mode (T.rest text.old))) }
    ensures err { IsTrue F.is_told → IfErr result (AfterFault (F.disk folder.old)
        (F.disk folder.new) (F.place dir.now target.now)
        (held F.usual_mode mode (T.rest text.old))) }
    ensures taken { IsTrue F.is_told → IsErrOf result NamesTaken
        → AllTaken (F.disk folder.old) (F.place dir.now) stem.now target.now 10_000 }
    ensures count { IfOk result (λ kept. kept.count ≡ length (T.rest text.old)) }
{
    let begun = NewText::begin(folder, dir, name, target, stem, mode);
    put_begun(folder, begun, text, block)
}

/// `begun` is what `NewText::begin` answered. If it is a fault, that is the answer here.
fn put_begun<F: Folder, T: Text>(
    folder: &mut F,
    begun: Result<NewText<'_, F>, PutFault<F::Fault>>,
    text: &mut T,
    block: &mut Vec<u8>,
) -> Result<Kept, PutFault<F::Fault>>
    requires { IfOk begun (λ new. IsName new.target.now) }
    ensures put { IfOk begun.entry (λ new. IsTrue F.is_told → WhileUnderway F.disk folder.old
        (underway_of F.place F.number F.usual_mode new) (λ start at so_far.
        ComesTo start (F.disk folder.new) at.target
        (record so_far { bytes = so_far.bytes ++ T.rest text.old }) result)) }
    ensures count { IfOk begun.entry (λ new. IfOk result
        (λ kept. kept.count ≡ new.count + length (T.rest text.old))) }
    ensures err { IfErr begun.entry (λ fault. result ≡ Err fault) }
    ensures same { OnErr begun.entry (folder.new ≡ folder.old) }
{
    match begun {
        Ok(mut new) => {
            let written = append_all(folder, &mut new, text, block);
            finish_or_give_up(folder, new, written)
        }
        Err(fault) => Err(fault),
    }
}

/// Ends a write: the new file gets the target's name, or is removed if `written` has a fault. That
/// is one of a call, or `None` if memory ran out or the text is too long.
fn finish_or_give_up<F: Folder>(
    folder: &mut F,
    new: NewText<'_, F>,
    written: Result<(), Option<F::Fault>>,
) -> Result<Kept, PutFault<F::Fault>>
    requires { IsName new.target.now }
    ensures ok { OnOk written (IsTrue F.is_told → WhileUnderway F.disk folder.old
        (underway_of F.place F.number F.usual_mode new.entry) (λ start at text.
        ComesTo start (F.disk folder.new) at.target text result)) }
    ensures err { OnErr written (IsTrue F.is_told → (text : Held) → WhileInAnyMode F.disk folder.old
        (underway_of F.place F.number F.usual_mode new.entry) (λ start at.
        ComesTo start (F.disk folder.new) at.target text result)) }
    ensures written { IfOk result (λ _. IsOk written) }
    ensures fault { IfErr written (λ fault. (removal : Result F.NameRemoved F.Fault)
        × (result ≡ Err (left_by fault removal))) }
    ensures count { IfOk result (λ kept. kept.count ≡ new.entry.count) }
{
    match written {
        Ok(()) => new.finish(folder),
        Err(fault) => Err(fault_after(fault, new.give_up(folder))),
    }
}

/// Writes all of a text to the new file, block by block. After an error a part may be in the file.
fn append_all<F: Folder, T: Text>(
    folder: &mut F,
    new: &mut NewText<'_, F>,
    text: &mut T,
    block: &mut Vec<u8>,
) -> Result<(), Option<F::Fault>>
    ensures dir { new.new.dir.now ≡ new.old.dir.now }
    ensures beside { new.new.beside.now ≡ new.old.beside.now }
    ensures target { new.new.target.now ≡ new.old.target.now }
    ensures mode { new.new.mode ≡ new.old.mode }
    ensures file { F.number new.new.file ≡ F.number new.old.file }
    ensures count { OnOk result (new.new.count ≡ new.old.count + length (T.rest text.old)) }
    ensures ok { IsTrue F.is_told → OnOk result (Adds F.disk folder.old folder.new
        (F.place new.old.dir.now new.old.beside.now) (F.number new.old.file) (T.rest text.old)) }
    ensures err { IsTrue F.is_told → OnErr result (Spoils F.disk folder.old folder.new
        (F.place new.old.dir.now new.old.beside.now) (F.number new.old.file)) }
{
    // Each block but the last makes the rest of the text shorter, so this ends.
    'parts: loop {
        match append_next(folder, new, text, block) {
            Ok(false) => {}
            Ok(true) => return Ok(()),
            Err(fault) => return Err(fault),
        }
    }
}

/// Writes the next block of a text to the new file, and returns whether it was the last one.
fn append_next<F: Folder, T: Text>(
    folder: &mut F,
    new: &mut NewText<'_, F>,
    text: &mut T,
    block: &mut Vec<u8>,
) -> Result<bool, Option<F::Fault>>
    ensures dir { new.new.dir.now ≡ new.old.dir.now }
    ensures beside { new.new.beside.now ≡ new.old.beside.now }
    ensures target { new.new.target.now ≡ new.old.target.now }
    ensures mode { new.new.mode ≡ new.old.mode }
    ensures file { F.number new.new.file ≡ F.number new.old.file }
    ensures ok { IfOk result (λ ended. (part : List ℕ)
        × (T.rest text.old ≡ part ++ T.rest text.new)
        × (new.new.count ≡ new.old.count + length part)
        × (IsTrue F.is_told → Adds F.disk folder.old folder.new
        (F.place new.old.dir.now new.old.beside.now) (F.number new.old.file) part)) }
    ensures end { IfOk result (λ ended. ended ≡ true → T.rest text.new ≡ []) }
    // At least 64 KiB are written, or the text has ended.
    ensures more { IfOk result (λ ended. ended ≡ false
        → ENOUGH + length (T.rest text.new) ≤ length (T.rest text.old)) }
    ensures err { IsTrue F.is_told → OnErr result (Spoils F.disk folder.old folder.new
        (F.place new.old.dir.now new.old.beside.now) (F.number new.old.file)) }
{
    match fill_next(text, block, new.count) {
        Some(ended) => append_block(folder, new, block, ended),
        None => Err(None),
    }
}

/// Returns `ended` as it is given: whether the block is the last one.
fn append_block<F: Folder>(
    folder: &mut F,
    new: &mut NewText<'_, F>,
    block: &[u8],
    ended: bool,
) -> Result<bool, Option<F::Fault>>
    ensures dir { new.new.dir.now ≡ new.old.dir.now }
    ensures beside { new.new.beside.now ≡ new.old.beside.now }
    ensures target { new.new.target.now ≡ new.old.target.now }
    ensures mode { new.new.mode ≡ new.old.mode }
    ensures file { F.number new.new.file ≡ F.number new.old.file }
    ensures ended { IfOk result (λ last. last ≡ ended) }
    ensures call { IfErr result (λ fault. IsSome fault) }
    ensures count { new.old.count + length block.now < 2 ^ 64 → OnOk result
        (new.new.count ≡ new.old.count + length block.now) }
    ensures ok { IsTrue F.is_told → OnOk result (Adds F.disk folder.old folder.new
        (F.place new.old.dir.now new.old.beside.now) (F.number new.old.file) block.now) }
    ensures err { IsTrue F.is_told → OnErr result (Spoils F.disk folder.old folder.new
        (F.place new.old.dir.now new.old.beside.now) (F.number new.old.file)) }
{
    match new.append(folder, block) {
        Ok(_) => Ok(ended),
        Err(fault) => Err(Some(fault)),
    }
}

/// Fills the block with the next bytes of a text, and returns whether they are its last ones.
/// `None`: memory ran out, or no count holds these and the `before` bytes written already.
fn fill_next<T: Text>(text: &mut T, block: &mut Vec<u8>, before: u64) -> Option<bool>
    ensures bytes { OnSome result (T.rest text.old ≡ block.new.items ++ T.rest text.new) }
    ensures end { IfSome result (λ ended. ended ≡ true → T.rest text.new ≡ []) }
    ensures full { IfSome result (λ ended. ended ≡ false → ENOUGH ≤ length block.new.items) }
    ensures fits { OnSome result (before + length block.new.items < 2 ^ 64) }
{
    block.clear();
    match text.fill(block, ENOUGH) {
        Ok(ended) if before.checked_add(block.len() as u64).is_some() => Some(ended),
        _ => None,
    }
}
