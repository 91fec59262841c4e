//! What the system gives a program.

ghost use Rattle.std.specs.Prelude.{◌≡◌, IfOk};

use irig_disk::SystemFolder;
use irig_files::{Files, system_files};
use std::rt::{Files as FileRuntime, Runtime};
use std::{env, io};

/// The files of the system, and the words of the command line, the program's name being the first.
/// `Err` also if a word is not UTF-8.
pub fn given<R: FileRuntime + Runtime + Print + AllocGlobal>(
    rt: &R,
) -> io::Result<(Files<SystemFolder<'_, R>>, Vec<String>)>
    ensures { IfOk result (λ given. given.0.system.runtime.now ≡ rt.now) }
{
    let Ok(files) = system_files(rt) else {
        return Err(io::Error::from(io::ErrorKind::OutOfMemory));
    };
    let words = env::args(rt)?.collect(rt.alloc())?;
    Ok((files, words))
}
