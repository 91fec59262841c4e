//! How a text is written to what a path leads to.

ghost use Rattle.std.specs.Prelude.{◌≡◌, ◌≢◌, None, Some, IfOk, IsTrue, MatchOption, false, true};
ghost use Rattle.std.specs.Path.{path_buf_bytes};
ghost use Rattle.irig_files.specs.{Taken.IsFree, Taken.MayTake, Ways.IsWay};

use crate::described::Described;
use crate::file_system::FileSystem;
use crate::links::follow_links;
use irig_text::ShelfFault;
use std::path::PathBuf;

/// Who may read, write and run it. Whoever writes the new file owns it, so a bit that lets others
/// act as owner or group must not come along.
const PERMISSIONS: u32 = 0o777;

/// A way to write a text.
#[derive(Drop)]
pub enum Way {
    /// The regular file, or none yet, is replaced by one of this mode; `None`: of the usual one.
    Replaced(Option<u32>),
    /// The program's answers go there, too.
    Output,
    /// It is no regular file.
    Other,
}

/// Finds how; if a file is to be replaced, `target` gets the path at the end of its links, since a
/// link has to stay.
pub fn way_to<C: FileSystem>(
    system: &C,
    path: &str,
    target: &mut PathBuf,
) -> Result<Way, ShelfFault>
    ensures { IsTrue C.is_told → IfOk result (IsWay (C.link_at system.now)
        (C.is_other system.now) (C.may_write system.now) (C.disk system.now) path.now
        (path_buf_bytes target.new)) }
{
    match system.describe(path) {
        Ok(None) => replaced(system, path, false, target),
        Ok(Some(old)) => way_over(system, path, old, target),
        Err(_) => Err(ShelfFault),
    }
}

/// The same for a path that leads to `old`, of which the clauses require what `describe` says. The
/// output's file is not replaced, since later answers would go to the old one.
fn way_over<C: FileSystem>(
    system: &C,
    path: &str,
    old: Described,
    target: &mut PathBuf,
) -> Result<Way, ShelfFault>
    requires file { IsTrue C.is_told → old.is_file ≡ true → Some old.id ≢ C.output_id system.now
        → C.is_other system.now path.now → ⊥ }
    requires other { IsTrue C.is_told → old.is_file ≡ false
        → (C.disk system.now).paths path.now ≡ None }
    requires output { IsTrue C.is_told → Some old.id ≡ C.output_id system.now
        → (C.disk system.now).paths path.now ≡ None }
    ensures { IsTrue C.is_told → IfOk result (IsWay (C.link_at system.now)
        (C.is_other system.now) (C.may_write system.now) (C.disk system.now) path.now
        (path_buf_bytes target.new)) }
{
    match system.output() {
        Ok(output) if output == Some(old.id) => Ok(Way::Output),
        Ok(_) if old.is_file => replaced(system, path, true, target),
        Ok(_) => Ok(Way::Other),
        Err(_) => Err(ShelfFault),
    }
}

/// The way `Replaced` of a path that leads to a regular file (`is_there`) or to none yet.
fn replaced<C: FileSystem>(
    system: &C,
    path: &str,
    is_there: bool,
    target: &mut PathBuf,
) -> Result<Way, ShelfFault>
    requires regular { IsTrue C.is_told → C.is_other system.now path.now → ⊥ }
    requires free { IsTrue C.is_told → is_there ≡ false → IsFree (C.disk system.now) path.now }
    ensures { IsTrue C.is_told → IfOk result (IsWay (C.link_at system.now)
        (C.is_other system.now) (C.may_write system.now) (C.disk system.now) path.now
        (path_buf_bytes target.new)) }
{
    let Ok(()) = follow_links(system, path, target) else {
        return Err(ShelfFault);
    };
    match mode_to_take(system, is_there, target.as_str()) {
        Ok(mode) => Ok(Way::Replaced(mode)),
        Err(fault) => Err(fault),
    }
}

/// The permissions of the regular file at the target. A replacement does not need a file that may
/// be written, so it is first opened as if to write.
fn mode_to_take<C: FileSystem>(
    system: &C,
    is_there: bool,
    target: &str,
) -> Result<Option<u32>, ShelfFault>
    ensures { IsTrue C.is_told → IfOk result (λ mode. MatchOption mode (is_there ≡ false)
        (MayTake (C.disk system.now) (C.may_write system.now) target.now)) }
{
    if !is_there {
        return Ok(None);
    }
    let Ok(there) = system.open_seen(target) else {
        return Err(ShelfFault);
    };
    match system.seen(&there) {
        Ok(old) if old.is_file => Ok(Some(old.mode & PERMISSIONS)),
        _ => Err(ShelfFault),
    }
}
