//! Lines are read in parts.

ghost use Rattle.std.specs.{Io.ReadsAtMost, Io.KnownBytes.ReadConsumes};

use crate::fault::RunFault;
use std::io::Read;

/// The most bytes of one read.
pub const READ_LIMIT: usize = 32_768;

/// The most reads: 2^32.
pub const READS_LIMIT: u64 = 4_294_967_296;

/// Reads a part of the lines into the buffer, by one read.
pub fn read_part<R: Read>(lines: &mut R, buffer: &mut [u8; READ_LIMIT]) -> Result<usize, RunFault>
    ensures bound { ReadsAtMost result buffer.new }
    ensures bytes { ReadConsumes (R.remaining lines.old) (R.remaining lines.new) result buffer.new }
{
    match lines.read(buffer) {
        Ok(count) => Ok(count),
        Err(_) => Err(RunFault::ReadFailed),
    }
}
