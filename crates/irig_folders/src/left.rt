//! What a crash may leave of a folder in memory, for tests.

ghost use Rattle.std.specs.Prelude.{◌≡◌, ◌++◌, IfOk, IsTrue};
ghost use Rattle.irig_disk.specs.Held.{Held};
ghost use Rattle.irig_folders.specs.{Log.holds_in, LogLeft.may_hold_in};

use crate::call::Call;
use std::alloc::{AllocError, Global};

/// The bytes that the file of this number holds: what was added since it was made; none if there is
/// no such file.
pub fn bytes_of(alloc: Global, calls: &[Call], number: usize) -> Result<Vec<u8>, AllocError>
    ensures { IfOk result (λ bytes. bytes.items ≡ (holds_in calls.now number).bytes) }
{
    let Some((call, older)) = calls.split_first() else {
        return Ok(Vec::new(alloc));
    };
    match call {
        Call::Make(_, _) if older.len() == number => Ok(Vec::new(alloc)),
        Call::Append(file, part) if *file == number => {
            let bytes = bytes_of(alloc, older, number)?;
            with_part(bytes, part)
        }
        _ => bytes_of(alloc, older, number),
    }
}

/// Bytes with those of a part after them.
fn with_part(mut bytes: Vec<u8>, part: &[u8]) -> Result<Vec<u8>, AllocError>
    ensures { IfOk result (λ all. all.items ≡ bytes.items ++ part.now) }
{
    bytes.extend_from_slice(part)?;
    Ok(bytes)
}

/// The mode of the file of this number, the last that it was given; 0 if there is no such file.
pub fn mode_of(calls: &[Call], number: usize) -> u32
    ensures { result ≡ (holds_in calls.now number).mode }
{
    let Some((call, older)) = calls.split_first() else {
        return 0;
    };
    match call {
        Call::Make(_, mode) if older.len() == number => *mode,
        Call::TakeMode(file, mode) if *file == number => *mode,
        _ => mode_of(older, number),
    }
}

/// Whether each crash leaves the file of this number as it is seen: the newest call on it is a
/// sync. True if there is no such file.
pub fn is_kept(calls: &[Call], number: usize) -> bool
    ensures kept { IsTrue result → (h : Held) → may_hold_in calls.now number h
        → h ≡ holds_in calls.now number }
    ensures only { ((h : Held) → may_hold_in calls.now number h → h ≡ holds_in calls.now number)
        → IsTrue result }
{
    let Some((call, older)) = calls.split_first() else {
        return true;
    };
    match call {
        Call::Make(_, _) if older.len() == number => false,
        Call::Append(file, _) | Call::TakeMode(file, _) if *file == number => false,
        Call::SyncFile(file) if *file == number => true,
        _ => is_kept(older, number),
    }
}
