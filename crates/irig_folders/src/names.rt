//! Which file a name leads to in a folder in memory, by the log of its calls.

ghost use Rattle.std.specs.Prelude.{◌≡◌, ◌∷◌, List, MatchOption, None, false};
ghost use Rattle.irig_folders.specs.{Led.makes, Log.leads_in, declared.call.Call.Call};

use crate::call::Call;

/// The number of the file that a name leads to after these calls.
pub fn file_at(calls: &[Call], name: &[u8]) -> Option<usize>
    ensures { result ≡ leads_in calls.now name.now }
{
    let (call, older) = calls.split_first()?;
    if is_made(call, name) {
        return Some(older.len());
    }
    file_at(older, name_before(call, name)?)
}

/// Whether a call makes a new file with this name.
fn is_made(call: &Call, name: &[u8]) -> bool
    ensures { result ≡ makes call.now name.now }
{
    match call {
        Call::Make(made, _) => made.as_slice() == name,
        _ => false,
    }
}

/// The name that led, before this call, to the file to which `name` leads after it; `None` if the
/// call took `name` away. The call is not the one that makes the file.
fn name_before<'n>(call: &'n Call, name: &'n [u8]) -> Option<&'n [u8]>
    ensures { (older : List Call) → makes call.now name.now ≡ false → MatchOption result
        (leads_in (call.now ∷ older) name.now ≡ None)
        (λ before. leads_in (call.now ∷ older) name.now ≡ leads_in older before.now) }
{
    match call {
        Call::Rename(from, to) if to.as_slice() == name => Some(from.as_slice()),
        Call::Rename(gone, _) | Call::Remove(gone) if gone.as_slice() == name => None,
        _ => Some(name),
    }
}
