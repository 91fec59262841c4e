//! The files of the folder `.` in memory, which has no links; what each method does is said with
//! the traits in irig_files.

ghost use Rattle.std.specs.Prelude.{◌≡◌, None, ⊤};
ghost use Rattle.std.proofs.Common.{ap};
ghost use Rattle.irig_folders.specs.LogDisk.{own_place};
ghost use Rattle.irig_folders.specs.InMemory.{holds_at, no_links};

use crate::left::{bytes_of, mode_of};
use crate::memory::Memory;
use crate::memory_fault::MemoryFault;
use crate::names::file_at;
use crate::seen_file::SeenFile;
use irig_disk::is_name;
use irig_files::{Described, DumpFileFault, FileSystem, LongParts, PlainCalls, read_extent};
use irig_vcd::{Extent, VcdFault};
use std::alloc::Global;
use std::io;
use std::io::{ErrorKind, Write};
use std::path::PathBuf;

/// What is no regular file: it takes no byte.
#[derive(Drop)]
pub struct Nothing;

impl Write for Nothing {
    // Fails always.
    fn write(&mut self, _: &[u8]) -> io::Result<usize> {
        Err(io::Error::from(ErrorKind::Other))
    }

    fn flush(&mut self) -> io::Result<()> {
        Ok(())
    }
}

impl PlainCalls for Memory {
    type Seen = SeenFile;

    type Other = Nothing;

    type Output = Nothing;

    ghost seen_number = { λ file. file.number };

    ghost may_write = { λ _ _. ⊤ };

    // No answers go to a file of this folder, whatever the path is.
    fn open_output(&self, _: &str) -> Nothing {
        Nothing
    }

    // There is no such file here, so what is given takes no byte.
    fn open_other(&self, _: &str) -> Result<Nothing, MemoryFault> {
        Ok(Nothing)
    }

    // Each file may be written. `NoSuchName`: none is at the path.
    fn open_seen(&self, path: &str) -> Result<SeenFile, MemoryFault> {
        match file_at(self.calls(), path.as_bytes()) {
            Some(number) => Ok(SeenFile { number }),
            None => Err(MemoryFault::NoSuchName),
        }
    }

    fn seen(&self, file: &SeenFile) -> Result<Described, MemoryFault> {
        Ok(Described {
            is_file: true,
            mode: mode_of(self.calls(), file.number),
            id: (0, file.number as u64),
        })
    }
}

impl FileSystem for Memory {
    ghost output_id = { λ _. None };

    ghost id_of = { λ _ file. (0, file) };

    ghost is_other = { λ _ path. own_place path ≡ None };

    ghost link_at = { λ _ _. None };

    ghost held = { λ m path. holds_at m.calls.items path };

    ghost unread = { λ _ _ _. ⊤ };

    ghost follows = { λ _ path text link. no_links path text link };

    ghost ids_differ = { λ _ one other same. ap (λ id. id.1) same };

    // The error is `CannotBeRead` if no file is at the path; `bytes_of` fails for memory alone, and
    // `TooLong` is from the function of the same name.
    fn read_extent(
        &self,
        alloc: Global,
        path: &str,
        wire: Option<&[u8]>,
        extent: Extent,
    ) -> Result<Result<LongParts, VcdFault>, DumpFileFault> {
        let Some(file) = file_at(self.calls(), path.as_bytes()) else {
            return Err(DumpFileFault::CannotBeRead);
        };
        let Ok(bytes) = bytes_of(alloc, self.calls(), file) else {
            return Err(DumpFileFault::OutOfMemory);
        };
        read_extent(alloc, bytes.as_slice(), wire, extent)
    }

    // A path that is no single name is described as no regular file, since `None` would mean that a
    // file can be made there. Its id does not matter: no answers go to a file here.
    fn describe(&self, path: &str) -> Result<Option<Described>, MemoryFault> {
        if !is_name(path) {
            return Ok(Some(Described {
                is_file: false,
                mode: 0,
                id: (0, 0),
            }));
        }
        match file_at(self.calls(), path.as_bytes()) {
            Some(file) => Ok(Some(Described {
                is_file: true,
                mode: mode_of(self.calls(), file),
                id: (0, file as u64),
            })),
            None => Ok(None),
        }
    }

    fn output(&self) -> Result<Option<(u64, u64)>, MemoryFault> {
        Ok(None)
    }

    fn read_link(&self, _: &str) -> Result<Option<PathBuf>, MemoryFault> {
        Ok(None)
    }

    // Only `.` is a folder here.
    fn open_folder(&self, _: &mut (), path: &str) -> Result<(), MemoryFault> {
        if path == "." {
            Ok(())
        } else {
            Err(MemoryFault::NoSuchName)
        }
    }
}
