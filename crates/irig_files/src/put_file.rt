//! Writes a text to what a path leads to.

ghost use Rattle.std.specs.Prelude.{◌≡◌, ℕ, List, length, None, Some, IfOk, IsTrue, ◌≢◌, IsErr};
ghost use Rattle.std.specs.Prelude.{IsOk, OnErr, OnOk, false, true};
ghost use Rattle.std.specs.Path.{path_buf_bytes};
ghost use Rattle.irig_disk.specs.Writing.{IsUnchanged};
ghost use Rattle.irig_files.specs.Paths.{LeadsTo, folder_of};
ghost use Rattle.irig_files.specs.{Once.PutsText, Puts.count_of, Taken.HasFile, Taken.IsLocked};
ghost use Rattle.irig_files.specs.Taken.{StaysBarred, TakesMode};

use crate::file_system::FileSystem;
use crate::in_place::write_in_place;
use crate::room::Room;
use crate::way::{Way, way_to};
use crate::whole::write_whole;
use crate::written::Written;
use irig_disk::{Kept, is_name};
use irig_text::{ShelfFault, Text};
use std::io::Write;
use std::path::Path;

/// `way_to` finds how, and leaves the path to be replaced in the room's target. `dir` is the place
/// for the folder that is opened.
pub fn put_file<C: FileSystem, T: Text>(
    system: &mut C,
    dir: &mut C::Dir,
    path: &str,
    text: &mut T,
    room: &mut Room,
) -> Result<Written, ShelfFault>
    ensures count { IfOk result (λ written. count_of written ≡ length (T.rest text.old)) }
    ensures put { IsTrue C.is_told → PutsText C.usual_mode (C.disk system.old) (C.disk system.new)
        ((C.disk system.old).paths path.now) (T.rest text.old) result }
    // A file that must not be written is not replaced.
    ensures locked { IsTrue C.is_told → HasFile (IsLocked (C.may_write system.old))
        (C.disk system.old) ((C.disk system.old).paths path.now)
        → IsErr result × IsUnchanged (C.disk system.old) (C.disk system.new) }
    ensures still { IsTrue C.is_told → StaysBarred (IsLocked (C.may_write system.old))
        (IsLocked (C.may_write system.new)) (C.disk system.old) (C.disk system.new) path.now }
{
    match way_to(system, path, &mut room.target) {
        Ok(Way::Replaced(mode)) => replace(system, dir, mode, text, room),
        Ok(Way::Output) => in_place(&mut system.open_output(path), text, &mut room.block),
        Ok(Way::Other) => put_other(system, path, text, &mut room.block),
        Err(fault) => Err(fault),
    }
}

fn put_other<C: FileSystem, T: Text>(
    system: &C,
    path: &str,
    text: &mut T,
    block: &mut Vec<u8>,
) -> Result<Written, ShelfFault>
    requires { IsTrue C.is_told → (C.disk system.now).paths path.now ≡ None }
    ensures { IfOk result (λ written. count_of written ≡ length (T.rest text.old)) }
{
    match system.open_other(path) {
        Ok(mut file) => in_place(&mut file, text, block),
        Err(_) => Err(ShelfFault),
    }
}

fn in_place<F: Write, T: Text>(
    file: &mut F,
    text: &mut T,
    block: &mut Vec<u8>,
) -> Result<Written, ShelfFault>
    ensures { IfOk result (λ written. count_of written ≡ length (T.rest text.old)) }
{
    match write_in_place(file, text, block) {
        Ok(all) => Ok(Written::InPlace(all)),
        Err(fault) => Err(fault),
    }
}

/// Replaces the file at the room's target by one with this mode (`None`: the usual one). The folder
/// is opened first: without its sync no crash is sure to keep the new name. A target that ends in
/// no name, as `..`, is a fault.
fn replace<C: FileSystem, T: Text>(
    system: &mut C,
    dir: &mut C::Dir,
    mode: Option<u32>,
    text: &mut T,
    room: &mut Room,
) -> Result<Written, ShelfFault>
    ensures count { IfOk result (λ written. count_of written ≡ length (T.rest text.old)) }
    ensures put { IsTrue C.is_told → (path : List ℕ) → LeadsTo (C.link_at system.old)
        (C.is_other system.old) (C.disk system.old).paths path (path_buf_bytes room.old.target)
        → (C.is_other system.old path → ⊥)
        → TakesMode (C.disk system.old) (C.may_write system.old) path mode
        → PutsText C.usual_mode (C.disk system.old) (C.disk system.new)
        ((C.disk system.old).paths path) (T.rest text.old) result }
{
    let target = room.target.as_str();
    let Some(name) = Path::new(target).file_name() else {
        return Err(ShelfFault);
    };
    if !is_name(name) {
        return Err(ShelfFault);
    }
    let Ok(()) = put_stem(name, &mut room.stem) else {
        return Err(ShelfFault);
    };
    let Ok(()) = system.open_folder(dir, folder_of(target)) else {
        return Err(ShelfFault);
    };
    let stem = room.stem.as_str();
    let (file_name, block) = (&mut room.name, &mut room.block);
    whole(write_whole(system, dir, file_name, name, stem, mode, text, block))
}

fn whole(outcome: Result<Kept, ShelfFault>) -> Result<Written, ShelfFault>
    ensures count { (n : ℕ) → IfOk outcome (λ kept. kept.count ≡ n)
        → IfOk result (λ written. count_of written ≡ n) }
    ensures ok { OnOk result (IsOk outcome) }
    ensures err { OnErr result (IsErr outcome) }
{
    match outcome {
        Ok(kept) => Ok(Written::Whole(kept)),
        Err(fault) => Err(fault),
    }
}

/// What the names of new files begin with: a dot hides them. The target's `name` is left out above
/// 200 bytes: a new name has then at most 1 + 200 + 13 + 4 bytes.
fn put_stem(name: &str, stem: &mut String) -> Result<(), ShelfFault> {
    // A folder takes no name of more than 255 bytes.
    let kept = if name.len() <= 200 { name } else { "" };
    stem.clear();
    match write!(stem, ".{kept}.irig_ed-new-") {
        Ok(()) => Ok(()),
        Err(_) => Err(ShelfFault),
    }
}

/// The folder of a path; `.` if it is a name alone, or has no folder, as `/`.
pub fn folder_of(target: &str) -> &str
    ensures { result.now ≡ folder_of target.now }
{
    match Path::new(target).parent() {
        Some(folder) if !folder.as_os_str().is_empty() => folder.as_os_str(),
        _ => ".",
    }
}
