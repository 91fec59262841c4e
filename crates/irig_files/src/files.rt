//! The files of a file system as a `Disk`.

ghost use Rattle.std.specs.Prelude.{◌≡◌};
ghost use Rattle.irig_files.specs.Taken.{IsLocked};

use crate::disk::Disk;
use crate::dump_file::DumpFileFault;
use crate::file_system::FileSystem;
use crate::intake::LongParts;
use crate::put_file::put_file;
use crate::room::Room;
use crate::same_file::is_same_file;
use crate::written::Written;
use irig_text::{ShelfFault, Text};
use irig_vcd::{Extent, VcdFault};
use std::alloc::Global;

/// The files of a file system; `docs/FORMATS.md` says how one is written.
#[derive(Drop)]
pub struct Files<C: FileSystem> {
    system: C,
    dir: C::Dir,
}

impl<C: FileSystem> Files<C> {
    /// `dir` is the place for the folder that a write opens.
    pub fn new(system: C, dir: C::Dir) -> Files<C>
        ensures { result.system ≡ system }
    {
        Files { system, dir }
    }

    pub fn system(&self) -> &C
        ensures { result.now ≡ self.now.system }
    {
        &self.system
    }
}

impl<C: FileSystem> Disk for Files<C> {
    ghost held = { λ f. C.held f.system };

    ghost unread = { λ f. C.unread f.system };

    ghost is_told = { C.is_told };

    ghost disk = { λ f. C.disk f.system };

    ghost usual_mode = { C.usual_mode };

    ghost is_barred = { λ f. IsLocked (C.may_write f.system) };

    ghost counts_now = { λ f. C.counts_now f.system };

    ghost only_now = { λ f. C.only_now f.system };

    fn read_extent(
        &self,
        alloc: Global,
        path: &str,
        wire: Option<&[u8]>,
        extent: Extent,
    ) -> Result<Result<LongParts, VcdFault>, DumpFileFault> {
        self.system.read_extent(alloc, path, wire, extent)
    }

    fn put<T: Text>(
        &mut self,
        path: &str,
        text: &mut T,
        room: &mut Room,
    ) -> Result<Written, ShelfFault> {
        put_file(&mut self.system, &mut self.dir, path, text, room)
    }

    fn is_same(&self, one: &str, other: &str) -> Result<bool, ShelfFault> {
        is_same_file(&self.system, one, other)
    }
}
