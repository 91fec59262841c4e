//! The listing of the frames.

ghost use Rattle.std.specs.Prelude.{◌≡◌, ◌≤◌, ◌-◌, Some, length, slice_get};
ghost use Rattle.irig_index.specs.declared.record.Record.{Record};
ghost use Rattle.irig_edit.specs.State.State.{frames_of};
ghost use Rattle.irig_print.specs.Front.{Prints};
ghost use Rattle.irig_script.specs.Print.Printed.{frames_text, record_line};

use irig_edit::Session;
use irig_print::{Block, PrintFault, Row, put_frame};
use std::io::Write;

/// Prints a line for each frame, in blocks. It is not inlined, else the block would be on the stack
/// of `print` for each reply.
#[inline(never)]
pub fn print_frames<W: Write>(session: &Session, out: &mut W) -> Result<(), PrintFault>
    ensures { Prints (W.contents out.old) (W.contents out.new)
        (frames_text session.now.state) result }
{
    let mut block = Block::new();
    let mut row = Row::new();
    for index in 0..session.frames() {
        put_record(&mut row, session, index + 1);
        match block.put(out, row.text()) {
            Ok(()) => {}
            Err(fault) => return Err(fault),
        }
    }
    block.flush(out)
}

/// Makes the row the line of a frame, by its number, from 1.
fn put_record(row: &mut Row, session: &Session, number: usize)
    requires { (1 ≤ number) × (number ≤ length (frames_of session.now.state)) }
    ensures { (r : Record) → slice_get (frames_of session.now.state) (number - 1) ≡ Some r
        → row.new ≡ record_line session.now.state number r }
{
    let record = session.frame(number);
    let rise = session.pulse(record.marker).rise;
    put_frame(
        row,
        number as u64,
        record.marker as u64,
        rise,
        &record.verdict,
    );
}
