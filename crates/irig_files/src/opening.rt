//! The files of the system, as a program makes them when it starts.

ghost use Rattle.std.specs.Prelude.{◌≡◌, IfOk};

use crate::files::Files;
use irig_disk::{SystemDir, SystemFolder};
use std::alloc::AllocError;
use std::rt::Files as FileRuntime;

/// Memory for the paths that a write hands to the system is taken here, so that a write asks for
/// none.
pub fn system_files<R: FileRuntime + Print + AllocGlobal>(
    rt: &R,
) -> Result<Files<SystemFolder<'_, R>>, AllocError>
    ensures { IfOk result (λ files. files.system.runtime.now ≡ rt.now) }
{
    let system = SystemFolder::new(rt.alloc(), rt)?;
    let dir = SystemDir::new(rt.alloc())?;
    Ok(Files::new(system, dir))
}
