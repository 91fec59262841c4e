//! The header of the lines is read: the first `settings.header` lines.

ghost use Rattle.std.specs.Prelude.{◌≡◌, ◌≤◌, ◌<◌, ℕ, List, length, Option, IfErr, IfOk};
ghost use Rattle.std.specs.Prelude.{if◌then◌else◌, ◌==◌};
ghost use Rattle.irig_stamps.specs.HeaderSteps.{HasRead, HasStopped, Reading, ReadsOn};
ghost use Rattle.irig_stamps.specs.Named.{newlines};

use crate::fault::RunFault;
use crate::reading::{READ_LIMIT, READS_LIMIT, read_part};
use crate::settings::Settings;
use std::alloc::Global;
use std::io::Read;

/// If 1 MiB of the lines is read and their header has not ended, it is too long: what is read of it
/// has to stay in memory.
const HEADER_LIMIT: usize = 1_048_576;

/// The header, as far as it was read.
#[derive(Drop)]
struct Header {
    /// All bytes of the lines that were read.
    bytes: Vec<u8>,
    /// How many newlines they have, which is how many lines have ended.
    ended: usize,
}

/// Reads the lines until those of the header have ended, or until nothing is left to read: the
/// caller sees then whether the header is there.
pub fn read_header<R: Read>(
    alloc: Global,
    lines: &mut R,
    settings: &Settings<'_>,
) -> Result<Vec<u8>, RunFault>
    requires { 0 < settings.now.header }
    ensures read { IfOk result (λ bytes. HasRead settings.now (R.remaining lines.old)
        (R.remaining lines.new) bytes.items) }
    ensures fault { IfErr result (HasStopped settings.now (R.remaining lines.old)
        (R.remaining lines.new)) }
{
    let mut buffer = [0; READ_LIMIT];
    let mut header = Header {
        bytes: Vec::new(alloc),
        ended: 0,
    };
    for reads in 0..READS_LIMIT {
        match read_more(lines, &mut buffer, &mut header, settings) {
            Ok(true) => return Ok(header.bytes),
            Ok(false) => {}
            Err(fault) => return Err(fault),
        }
    }
    Err(RunFault::TooManyReads)
}

/// Reads a part of the lines into the buffer, and adds it to the header.
fn read_more<R: Read>(
    lines: &mut R,
    buffer: &mut [u8; READ_LIMIT],
    header: &mut Header,
    settings: &Settings<'_>,
) -> Result<bool, RunFault>
    ensures { (start : Option (List ℕ))
        → Reading settings.now start (R.remaining lines.old) header.old
        → ReadsOn settings.now start (R.remaining lines.new) header.new result }
{
    let Ok(count) = read_part(lines, buffer) else {
        return Err(RunFault::ReadFailed);
    };
    if count == 0 {
        return Ok(true);
    }
    let part = &buffer[..count];
    let Ok(()) = header.bytes.extend_from_slice(part) else {
        return Err(RunFault::OutOfMemory);
    };
    header.ended = header.ended.saturating_add(newlines(part));
    if header.ended as u64 >= settings.header {
        return Ok(true);
    }
    if header.bytes.len() >= HEADER_LIMIT {
        return Err(RunFault::LongHeader);
    }
    Ok(false)
}

/// How many newlines some bytes have.
pub fn newlines(bytes: &[u8]) -> usize
    ensures count { result ≡ newlines bytes.now }
    ensures bound { result ≤ length bytes.now }
{
    let mut count = 0;
    for byte in bytes {
        count += newline(*byte);
    }
    count
}

fn newline(byte: u8) -> usize
    ensures value { result ≡ (if byte == 10 then 1 else 0) }
    ensures bound { result ≤ 1 }
{
    if byte == b'\n' { 1 } else { 0 }
}
