//! The run of a script, which is read in parts.

ghost use Rattle.std.specs.Prelude.{◌≡◌, ◌<◌, ◌≤◌, ◌^◌, ℕ, List, Option, IfErr, length, take};
ghost use Rattle.std.specs.{Io.ReadsAtMost, Io.KnownBytes.ReadConsumes};
ghost use Rattle.irig_script.specs.declared.obey.status.RunFault.TheVariants.{ReadFailed};
ghost use Rattle.irig_script.specs.Obey.Desk.{Desk, desk_at};
ghost use Rattle.irig_script.specs.Obey.Progress.{Holds};
ghost use Rattle.irig_script.specs.Obey.Reads.{GoesOn, IsUnderway, with_end};
ghost use Rattle.irig_script.specs.{Obey.Ending.EndsAs, Obey.Reading.ReadsTo, Obey.Machine.Machine};

use crate::obey::bytes::obey_bytes;
use crate::obey::line::Line;
use crate::obey::status::{RunFault, Status};
use crate::print::screen::Screen;
use crate::print::witness::Witness;
use irig_edit::Session;
use irig_text::Shelf;
use std::io::{Read, Write};

/// Bytes, at most, of one read of a script.
const READ_LIMIT: usize = 4096;

/// The most reads of a script, so that each run ends.
const READS_LIMIT: u64 = 4_294_967_296;

/// Obeys a script to its end or its line `quit`, and returns whether a line was refused; each line
/// is answered before the next is obeyed.
pub fn run<R: Read, W: Write, N: Witness, S: Shelf>(
    session: &mut Session,
    script: &mut R,
    screen: &mut Screen<W, N>,
    shelf: &mut S,
) -> Result<Status, RunFault>
    ensures ends { EndsAs (R.remaining script.old) (R.remaining script.new)
        (desk_at screen.old (S.known shelf.old))
        (desk_at screen.new (S.known shelf.new)) session.old session.new result }
    ensures reads { ReadsTo (R.remaining script.old) (R.remaining script.new) }
    ensures label { (S.known shelf.new).label ≡ (S.known shelf.old).label }
    ensures since { S.since shelf.old shelf.new }
{
    let mut line = Line::new();
    let mut buffer = [0; READ_LIMIT];
    let mut status = Status::AllAccepted;
    for reads in 0..READS_LIMIT {
        match read_and_obey(
            script,
            &mut buffer,
            &mut line,
            session,
            screen,
            shelf,
            &mut status,
        ) {
            Ok(true) => return Ok(status),
            Ok(false) => {}
            Err(fault) => return Err(fault),
        }
    }
    Err(RunFault::TooManyReads)
}

/// Makes one read of a script and obeys its bytes. Returns whether the script has ended; then a
/// last line that lacks its newline is obeyed, too. In the contract `reads` were made before, and
/// `start`, `from` and `first` are script, desk and session as the run began.
fn read_and_obey<R: Read, W: Write, N: Witness, S: Shelf>(
    script: &mut R,
    buffer: &mut [u8; READ_LIMIT],
    line: &mut Line,
    session: &mut Session,
    screen: &mut Screen<W, N>,
    shelf: &mut S,
    status: &mut Status,
) -> Result<bool, RunFault>
    ensures goes_on { (reads : ℕ) (start : Option (List ℕ)) (from : Desk) (first : Machine)
        → reads < 2 ^ 32 → IsUnderway reads start (R.remaining script.old) from
        (desk_at screen.old (S.known shelf.old)) status.old first session.old line.old
        → GoesOn reads start (R.remaining script.new) from
        (desk_at screen.new (S.known shelf.new)) status.new first session.new line.new
        result }
    ensures since { S.since shelf.old shelf.new }
{
    let Ok(count) = read_part(script, buffer) else {
        return Err(RunFault::ReadFailed);
    };
    let bytes = bytes_to_obey(buffer, count, line);
    let Ok(ended) = obey_bytes(line, bytes, session, screen, shelf, status) else {
        return Err(RunFault::PrintFailed);
    };
    if count == 0 {
        return Ok(true);
    }
    Ok(ended)
}

/// Makes one read of a script; 0 if nothing is left.
fn read_part<R: Read>(script: &mut R, buffer: &mut [u8; READ_LIMIT]) -> Result<usize, RunFault>
    ensures bound { ReadsAtMost result buffer.new }
    ensures bytes { ReadConsumes (R.remaining script.old) (R.remaining script.new) result
        buffer.new }
    ensures fault { IfErr result (λ fault. fault ≡ ReadFailed) }
{
    match script.read(buffer) {
        Ok(count) => Ok(count),
        Err(_) => Err(RunFault::ReadFailed),
    }
}

/// The bytes of this read; at the end of the script a newline, if the last line lacks one.
fn bytes_to_obey<'a>(buffer: &'a [u8; READ_LIMIT], count: usize, line: &Line) -> &'a [u8]
    requires { count ≤ length buffer.now }
    ensures { (text : List ℕ) → Holds text line.now
        → result.now ≡ with_end text (take count buffer.now) }
{
    if count != 0 {
        return &buffer[..count];
    }
    if line.is_empty() {
        return b"";
    }
    b"\n"
}
