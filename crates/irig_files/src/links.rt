//! Where a chain of symbolic links leads.

ghost use Rattle.std.specs.Prelude.{◌≡◌, None, Some, true, false, IfOk, IsTrue, OnOk};
ghost use Rattle.std.specs.Path.{path_buf_bytes};
ghost use Rattle.irig_files.specs.Paths.{LeadsTo, followed};

use crate::file_system::FileSystem;
use irig_text::ShelfFault;
use std::path::PathBuf;

/// 40 symbolic links, the limit of Linux, and the end, where no link is.
const TURNS: u32 = 41;

/// Follows the symbolic links from a path; `target` becomes the path at their end.
pub fn follow_links<C: FileSystem>(
    system: &C,
    path: &str,
    target: &mut PathBuf,
) -> Result<(), ShelfFault>
    ensures { IsTrue C.is_told → OnOk result (LeadsTo (C.link_at system.now)
        (C.is_other system.now) (C.disk system.now).paths path.now (path_buf_bytes target.new)) }
{
    target.clear();
    let Ok(()) = target.push(path) else {
        return Err(ShelfFault);
    };
    for _ in 0..TURNS {
        match follow_link(system, target) {
            Ok(true) => {}
            Ok(false) => return Ok(()),
            Err(fault) => return Err(fault),
        }
    }
    Err(ShelfFault)
}

/// Follows one link, if one is there; else the answer is `false`.
fn follow_link<C: FileSystem>(system: &C, target: &mut PathBuf) -> Result<bool, ShelfFault>
    ensures end { IsTrue C.is_told → IfOk result (λ is_link. is_link ≡ false
        → (C.link_at system.now (path_buf_bytes target.old) ≡ None)
        × (path_buf_bytes target.new ≡ path_buf_bytes target.old)) }
    ensures link { IsTrue C.is_told → IfOk result (λ is_link. is_link ≡ true
        → ((C.disk system.now).paths (path_buf_bytes target.new)
        ≡ (C.disk system.now).paths (path_buf_bytes target.old))
        × (C.is_other system.now (path_buf_bytes target.new)
        → C.is_other system.now (path_buf_bytes target.old))) }
{
    match system.read_link(target.as_str()) {
        Ok(Some(next)) => go_to(target, next.as_str()),
        Ok(None) => Ok(false),
        Err(_) => Err(ShelfFault),
    }
}

/// The target becomes the path that `next`, the text of a link, names: from its folder, or from the
/// root.
fn go_to(target: &mut PathBuf, next: &str) -> Result<bool, ShelfFault>
    ensures link { IfOk result (λ is_link. is_link ≡ true) }
    ensures to { OnOk result
        (path_buf_bytes target.new ≡ followed (path_buf_bytes target.old) next.now) }
{
    // The name of the link goes, and its folder is left.
    target.pop();
    match target.push(next) {
        Ok(()) => Ok(true),
        Err(_) => Err(ShelfFault),
    }
}
