//! Bytes that are written whole.

ghost use Rattle.std.specs.Prelude.{◌≡◌, ◌↔◌};
ghost use Rattle.std.specs.{IoError.error_kind};
ghost use Rattle.irig_print.specs.Front.{Prints};

use std::io;
use std::io::{ErrorKind, Write};

/// Why the output failed.
#[derive(Clone, Copy, Debug)]
pub enum PrintFault {
    /// It is a pipe that nobody reads any more, as that to `head`.
    Closed,
    /// Any other reason, as a full disk.
    Other,
}

/// Writes all of the bytes, in as many writes as that takes. If a write fails or takes no byte, a
/// front of the bytes may be out, but not all.
pub fn put_all<W: Write>(out: &mut W, bytes: &[u8]) -> Result<(), PrintFault>
    ensures { Prints (W.contents out.old) (W.contents out.new) bytes.now result }
{
    let mut done = 0;
    while done < bytes.len() {
        match out.write(&bytes[done..]) {
            Ok(0) => return Err(PrintFault::Other),
            Ok(count) => done += count,
            Err(error) => return Err(print_fault(&error)),
        }
    }
    Ok(())
}

fn print_fault(error: &io::Error) -> PrintFault
    ensures { (result ≡ PrintFault.Closed) ↔ (error_kind error.now ≡ ErrorKind.BrokenPipe) }
{
    if error.kind() == ErrorKind::BrokenPipe {
        PrintFault::Closed
    } else {
        PrintFault::Other
    }
}
