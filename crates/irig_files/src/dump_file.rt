//! Reads the dump in a file, in parts.

ghost use Rattle.std.specs.Prelude.{◌≡◌, ◌≢◌, ◌<◌, ◌↔◌, ℕ, List, Some, None, IfOk, OnOk};
ghost use Rattle.std.specs.Prelude.{IfErr, IfSome, IsErrOf, IsOk, IsTrue, MatchResult, true, false};
ghost use Rattle.std.specs.Prelude.{length};
ghost use Rattle.std.specs.Io.KnownBytes.{Consumes, IsAtEnd};
ghost use Rattle.std.specs.{IoError.error_kind, Fs.IsFile, Fs.file_type, Fs.metadata_len};
ghost use Rattle.irig_vcd.specs.Answer.{name_of};
ghost use Rattle.irig_files.specs.Reads.{IsCounted, IsReadBy, Takes, extent_bytes};
ghost use Rattle.irig_files.specs.declared.dump_file.DumpFileFault.TheVariants.{TooLong};

use crate::intake::{Intake, LongParts, most_bytes};
use irig_vcd::{Extent, VcdFault};
use std::alloc::Global;
use std::fs::{Metadata, OpenFile};
use std::io::{ErrorKind, Read};
use std::rt::Files;
use std::{fs, io};
use thiserror::Error;

/// Bytes of one read, at most: 64 KiB, this project's own choice.
const PART: usize = 65_536;

/// Why the dump in a file was not read.
#[derive(Clone, Copy, Debug, Error)]
pub enum DumpFileFault {
    /// Nothing is at the path, or no file, or there is no permission to read it.
    #[error("cannot be read")]
    CannotBeRead,
    /// The file has more than 2^28 bytes, or 2^47 if a window or a long recording is read.
    #[error("too long")]
    TooLong,
    #[error("V14 OutOfMemory")]
    OutOfMemory,
}

impl From<io::Error> for DumpFileFault {
    ghost from_gives = { λ _ e. e ≢ TooLong };

    fn from(error: io::Error) -> DumpFileFault {
        match error.kind() {
            ErrorKind::OutOfMemory => DumpFileFault::OutOfMemory,
            _ => DumpFileFault::CannotBeRead,
        }
    }
}

/// Whether a file shows by its size that it is too long; if the system does not say, its bytes are
/// counted.
fn is_too_long(described: io::Result<Metadata>, most: usize) -> bool
    ensures { MatchResult described (λ d. IsTrue result
        ↔ (IsFile (file_type d) × (most < metadata_len d))) (λ _. result ≡ false) }
{
    match described {
        Ok(described) => shows_more(&described, most),
        Err(_) => false,
    }
}

/// Only a regular file has a size; a pipe shows none.
fn shows_more(described: &Metadata, most: usize) -> bool
    ensures { IsTrue result
        ↔ (IsFile (file_type described.now) × (most < metadata_len described.now)) }
{
    described.is_file() && described.len() > most as u64
}

/// What `take_part` answers after an error: after an interruption the next read can give more.
fn after_error(error: io::Error) -> Result<bool, DumpFileFault>
    ensures more { IfOk result (λ is_more. is_more ≡ true) }
    ensures interrupted { IsOk result ↔ (error_kind error ≡ ErrorKind.Interrupted) }
    ensures read { IfErr result (λ fault. fault ≢ TooLong) }
{
    match error.kind() {
        ErrorKind::Interrupted => Ok(true),
        _ => Err(DumpFileFault::from(error)),
    }
}

/// Takes in the next bytes that a reader gives; `part` is the memory for them. `false` if it gave
/// none, as it is at its end or was asked for none.
fn take_part<R: Read>(
    dump: &mut Intake,
    reader: &mut R,
    part: &mut [u8],
) -> Result<bool, DumpFileFault>
    requires counted { IsCounted dump.old }
    ensures part { length part.new ≡ length part.old }
    ensures taken { OnOk result ((some : List ℕ) × Takes some dump.old dump.new
        × Consumes (R.remaining reader.old) (R.remaining reader.new) some) }
    ensures end { IfOk result (λ is_more. is_more ≡ false → 0 < length part.old
        → 0 < dump.new.left → IsAtEnd (R.remaining reader.new)) }
    ensures counted { OnOk result (IsCounted dump.new) }
    ensures extent { dump.new.extent ≡ dump.old.extent }
    ensures read { IfErr result (λ fault. fault ≢ TooLong) }
{
    let wanted = dump.wanted(part.len());
    match reader.read(&mut part[..wanted]) {
        Ok(0) => Ok(false),
        Ok(count) => match dump.put(&part[..count]) {
            Ok(()) => Ok(true),
            Err(fault) => Err(fault),
        },
        Err(error) => after_error(error),
    }
}

/// Takes in all that a reader has left, up to one byte more than the longest dump has. The loop has
/// a bound so that it is sure to end.
fn take_all<R: Read>(
    dump: &mut Intake,
    reader: &mut R,
    part: &mut [u8],
) -> Result<(), DumpFileFault>
    requires room { 0 < length part.old }
    requires counted { IsCounted dump.old }
    ensures taken { OnOk result ((some : List ℕ) × Takes some dump.old dump.new
        × Consumes (R.remaining reader.old) (R.remaining reader.new) some) }
    ensures end { OnOk result (0 < dump.new.left → IsAtEnd (R.remaining reader.new)) }
    ensures counted { OnOk result (IsCounted dump.new) }
    ensures extent { dump.new.extent ≡ dump.old.extent }
    ensures read { IfErr result (λ fault. fault ≢ TooLong) }
{
    for _ in 0..u64::MAX {
        match take_part(dump, reader, part) {
            Ok(true) => {}
            Ok(false) => return Ok(()),
            Err(fault) => return Err(fault),
        }
    }
    // Only a reader that is interrupted each time comes here.
    Err(DumpFileFault::CannotBeRead)
}

/// Reads a dump, and keeps as much of it as `extent` says.
pub fn read_extent<R: Read + Drop>(
    alloc: Global,
    mut reader: R,
    wire: Option<&[u8]>,
    extent: Extent,
) -> Result<Result<LongParts, VcdFault>, DumpFileFault>
    ensures read { IfOk result (IsReadBy extent (R.remaining reader) (name_of wire.entry)) }
    ensures long { IsErrOf result DumpFileFault.TooLong
        → IfSome (R.remaining reader) (λ all. extent_bytes extent < length all) }
{
    let mut part = [0; PART];
    read_by_parts(alloc, &mut reader, &mut part, wire, extent)
}

/// The same in parts, for which `part` is the memory.
fn read_by_parts<R: Read>(
    alloc: Global,
    reader: &mut R,
    part: &mut [u8],
    wire: Option<&[u8]>,
    extent: Extent,
) -> Result<Result<LongParts, VcdFault>, DumpFileFault>
    requires { 0 < length part.old }
    ensures read { IfOk result
        (IsReadBy extent (R.remaining reader.old) (name_of wire.entry)) }
    ensures long { IsErrOf result DumpFileFault.TooLong
        → IfSome (R.remaining reader.old) (λ all. extent_bytes extent < length all) }
{
    let Ok(mut dump) = Intake::new(alloc, wire, extent) else {
        return Err(DumpFileFault::OutOfMemory);
    };
    match take_all(&mut dump, reader, part) {
        Ok(()) => dump.end(),
        Err(fault) => {
            dump.let_go();
            Err(fault)
        }
    }
}

/// Reads the dump in the file at a path; nothing of it, if its size shows that it is too long.
pub fn read_dump<R: Files>(
    rt: &R,
    alloc: Global,
    path: &str,
    wire: Option<&[u8]>,
    extent: Extent,
) -> Result<Result<LongParts, VcdFault>, DumpFileFault>
    ensures { IfOk result (IsReadBy extent None (name_of wire.entry)) }
{
    let file = fs::open(rt, path)?;
    read_open(alloc, file, wire, extent)
}

fn read_open<F: OpenFile + Read + Drop>(
    alloc: Global,
    file: F,
    wire: Option<&[u8]>,
    extent: Extent,
) -> Result<Result<LongParts, VcdFault>, DumpFileFault>
    ensures { IfOk result (IsReadBy extent (F.remaining file) (name_of wire.entry)) }
{
    if is_too_long(file.metadata(), most_bytes(extent)) {
        return Err(DumpFileFault::TooLong);
    }
    read_extent(alloc, file, wire, extent)
}
