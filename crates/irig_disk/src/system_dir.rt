//! An open folder of the system, and paths of names in it.

ghost use Rattle.std.specs.Prelude.{◌≡◌, ◌≤◌, ◌+◌, ◌↔◌, IfOk, IsOk, IsSome, OnOk, Some};
ghost use Rattle.std.specs.{Path.path_buf_cap};

use crate::system_fault::SystemFault;
use std::alloc::{AllocError, Global};
use std::io::ErrorKind;
use std::path::PathBuf;
use std::rt::Files;
use std::{fs, io};

/// A path has at most 4,095 bytes, and so has the text of a link. So a folder, a slash and such a
/// text have at most 8,191.
pub(crate) const PATH: usize = 8192;

/// A folder of the system, held open for its sync; or none yet.
#[derive(Drop)]
pub struct SystemDir<F: Drop> {
    pub(crate) file: Option<F>,
    pub(crate) path: PathBuf,
}

impl<F: Drop> SystemDir<F> {
    /// No folder yet, with room for the path of one.
    pub fn new(alloc: Global) -> Result<SystemDir<F>, AllocError>
        ensures { IfOk result (λ dir. 4_095 + 1 + 4_095 ≤ path_buf_cap dir.path) }
    {
        Ok(SystemDir {
            file: None,
            path: PathBuf::with_capacity(alloc, PATH)?,
        })
    }

    /// Opens the folder at a path. After an error the kept path can be another one than that of the
    /// folder that is still open, so call `open` again, and nothing else before it succeeds.
    pub fn open<R: Files<File = F>>(&mut self, runtime: &R, path: &str) -> Result<(), SystemFault>
        ensures { OnOk result (IsSome self.new.file) }
    {
        put_path(&mut self.path, path, "")?;
        self.hold(fs::open(runtime, path))
    }

    /// Holds the folder that a call opened; on its own for its contract, which can name `opened`.
    fn hold(&mut self, opened: io::Result<F>) -> Result<(), SystemFault>
        ensures held { IfOk opened (λ folder. self.new.file ≡ Some folder) }
        ensures done { IsOk result ↔ IsOk opened }
    {
        match opened {
            Ok(folder) => {
                self.file = Some(folder);
                Ok(())
            }
            Err(error) => Err(SystemFault(error)),
        }
    }
}

/// Writes the path of a name in a folder, or of the folder itself if the name is empty.
pub(crate) fn put_path(path: &mut PathBuf, folder: &str, name: &str) -> Result<(), SystemFault> {
    path.clear();
    let Ok(()) = path.push(folder) else {
        return Err(SystemFault(io::Error::from(ErrorKind::OutOfMemory)));
    };
    if name.is_empty() {
        return Ok(());
    }
    match path.push(name) {
        Ok(()) => Ok(()),
        Err(_) => Err(SystemFault(io::Error::from(ErrorKind::OutOfMemory))),
    }
}
