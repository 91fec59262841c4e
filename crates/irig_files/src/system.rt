//! The files of the system, of which contracts know nothing; each method is one call.

ghost use Rattle.std.specs.Prelude.{◌≡◌, ◌≢◌, ◌↔◌, IfErr, IfOk, IsOk, IsTrue, None, Ok, OnErr, OnOk};
ghost use Rattle.std.specs.Prelude.{Some, false, ⊤};
ghost use Rattle.std.specs.Fs.{IsFile, asks_create, asks_truncate, asks_write, file_type};
ghost use Rattle.std.specs.Fs.{metadata_mode};
ghost use Rattle.std.specs.{IoError.error_kind};
ghost use Rattle.std.proofs.Common.{ap};

use crate::described::Described;
use crate::dump_file::{DumpFileFault, read_dump};
use crate::file_system::FileSystem;
use crate::intake::LongParts;
use crate::plain_calls::PlainCalls;
use irig_disk::{SystemDir, SystemFault, SystemFolder};
use irig_vcd::{Extent, VcdFault};
use std::alloc::Global;
use std::fs::{Metadata, OpenFile, OpenOptions};
use std::io::{ErrorKind, Printer};
use std::os::unix::fs::{MetadataExt, PermissionsExt};
use std::path::PathBuf;
use std::rt::Files;
use std::{fs, io};

/// Open to be described.
#[derive(Drop)]
pub struct SystemSeen<F: Drop>(F);

impl<'a, R: Files + Print + AllocGlobal> PlainCalls for SystemFolder<'a, R> {
    type Seen = SystemSeen<R::File>;

    type Other = R::File;

    type Output = Printer<'a, R>;

    ghost seen_number = { λ _. 0 };

    ghost may_write = { λ _ _. ⊤ };

    fn open_output(&self, _: &str) -> Printer<'a, R> {
        io::writer(self.runtime())
    }

    fn open_other(&self, path: &str) -> Result<R::File, SystemFault> {
        match as_it_is().open(self.runtime(), path) {
            Ok(file) => Ok(file),
            Err(error) => Err(SystemFault(error)),
        }
    }

    fn open_seen(&self, path: &str) -> Result<SystemSeen<R::File>, SystemFault> {
        match as_it_is().open(self.runtime(), path) {
            Ok(file) => Ok(SystemSeen(file)),
            Err(error) => Err(SystemFault(error)),
        }
    }

    fn seen(&self, file: &SystemSeen<R::File>) -> Result<Described, SystemFault> {
        match file.0.metadata() {
            Ok(found) => Ok(described(&found)),
            Err(error) => Err(SystemFault(error)),
        }
    }
}

impl<R: Files + Print + AllocGlobal> FileSystem for SystemFolder<'_, R> {
    ghost output_id = { λ _. None };

    ghost id_of = { λ _ file. (0, file) };

    ghost is_other = { λ _ _. ⊥ };

    ghost link_at = { λ _ _. None };

    ghost held = { λ _ _. None };

    ghost unread = { λ _ _ _. ⊤ };

    ghost follows = { λ _ _ text link. absurd (cc link) };

    ghost ids_differ = { λ _ one other same. ap (λ id. id.1) same };

    fn read_extent(
        &self,
        alloc: Global,
        path: &str,
        wire: Option<&[u8]>,
        extent: Extent,
    ) -> Result<Result<LongParts, VcdFault>, DumpFileFault> {
        read_dump(self.runtime(), alloc, path, wire, extent)
    }

    fn describe(&self, path: &str) -> Result<Option<Described>, SystemFault> {
        found(fs::metadata(self.runtime(), path))
    }

    fn output(&self) -> Result<Option<(u64, u64)>, SystemFault> {
        // The system has a path for what the answers go to.
        numbers(fs::metadata(self.runtime(), "/dev/stdout"))
    }

    fn read_link(&self, path: &str) -> Result<Option<PathBuf>, SystemFault> {
        match fs::read_link(self.runtime(), path) {
            Ok(text) => Ok(Some(text)),
            // Nothing is there, or what is there is no link.
            Err(error)
                if error.kind() == ErrorKind::InvalidInput || error.kind() == ErrorKind::NotFound =>
                { Ok(None) }
            Err(error) => Err(SystemFault(error)),
        }
    }

    fn open_folder(&self, dir: &mut SystemDir<R::File>, path: &str) -> Result<(), SystemFault> {
        dir.open(self.runtime(), path)
    }
}

/// The answer of `describe`; its own contract also holds of the real system.
fn found(said: io::Result<Metadata>) -> Result<Option<Described>, SystemFault>
    ensures some { IfOk said (λ found. (d : Described) × (result ≡ Ok (Some d))
        × (IsTrue d.is_file ↔ IsFile (file_type found)) × (d.mode ≡ metadata_mode found)) }
    ensures none { IfErr said (λ error. IsOk result
        ↔ (error_kind error ≡ ErrorKind.NotFound)) }
    ensures nothing { OnErr said (IfOk result (λ there. there ≡ None)) }
{
    match said {
        Ok(found) => Ok(Some(described(&found))),
        Err(fault) if fault.kind() == ErrorKind::NotFound => Ok(None),
        Err(fault) => Err(SystemFault(fault)),
    }
}

/// The answer of `output`, in the same way.
fn numbers(said: io::Result<Metadata>) -> Result<Option<(u64, u64)>, SystemFault>
    ensures some { OnOk said (IfOk result (λ id. id ≢ None)) }
    ensures none { IfErr said (λ error. IsOk result
        ↔ (error_kind error ≡ ErrorKind.NotFound)) }
    ensures nothing { OnErr said (IfOk result (λ id. id ≡ None)) }
{
    match said {
        Ok(found) => Ok(Some((found.dev(), found.ino()))),
        Err(fault) if fault.kind() == ErrorKind::NotFound => Ok(None),
        Err(fault) => Err(SystemFault(fault)),
    }
}

/// How a file that is there is opened to be written: its bytes stay, and no file is made.
fn as_it_is() -> OpenOptions
    ensures write { IsTrue (asks_write result) }
    ensures kept { asks_truncate result ≡ false }
    ensures none { asks_create result ≡ false }
{
    let mut how = OpenOptions::new();
    how.write(true);
    how
}

fn described(found: &Metadata) -> Described
    ensures file { IsTrue result.is_file ↔ IsFile (file_type found.now) }
    ensures mode { result.mode ≡ metadata_mode found.now }
{
    Described {
        is_file: found.is_file(),
        mode: found.permissions().mode(),
        id: (found.dev(), found.ino()),
    }
}
