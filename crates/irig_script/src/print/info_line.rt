//! The line that the command `info` prints.

ghost use Rattle.std.specs.Prelude.{◌≡◌, ◌≤◌, ◌+◌, ◌++◌, [], codes, length, decimal};
ghost use Rattle.irig_codes.specs.Words.{kind_word};
ghost use Rattle.irig_edit.specs.State.State.{frames_of};
ghost use Rattle.irig_script.specs.Print.Listings.{info_text};
ghost use Rattle.irig_print.specs.Front.{Prints};

use irig_codes::kind_word;
use irig_edit::Session;
use irig_print::{PrintFault, Row, put_all};
use std::io::Write;

/// Prints the line.
pub fn print_info<W: Write>(session: &Session, out: &mut W) -> Result<(), PrintFault>
    ensures { Prints (W.contents out.old) (W.contents out.new) (info_text session.now) result }
{
    let mut row = Row::new();
    put_track(&mut row, session);
    put_count(&mut row, b" cursor ", session.cursor() as u64);
    put_count(&mut row, b" past ", session.steps_back() as u64);
    put_count(&mut row, b" future ", session.steps_forward() as u64);
    row.put(b"\n");
    put_all(out, row.text())
}

/// Writes length, pulses, frames and format to an empty row. Its words have 32 bytes, the kind 1
/// and each of the four numbers at most 20; the rest of the line has at most 83.
fn put_track(row: &mut Row, session: &Session)
    requires { row.old ≡ [] }
    ensures text { row.new ≡ codes "length " ++ decimal session.now.state.micros
        ++ codes " pulses " ++ decimal (length session.now.state.pulses)
        ++ codes " frames " ++ decimal (length (frames_of session.now.state))
        ++ codes " format " ++ kind_word session.now.state.format.kind
        ++ codes " " ++ decimal session.now.state.format.expression }
    ensures short { length row.new ≤ 120 }
{
    put_count(row, b"length ", session.length());
    put_count(row, b" pulses ", session.len() as u64);
    put_count(row, b" frames ", session.frames() as u64);
    let format = session.current_format();
    row.put(b" format ");
    row.put(kind_word(format.kind()).as_bytes());
    put_count(row, b" ", format.expression() as u64);
}

/// Writes a word and a number, which has at most 20 digits: 236 and 20 are the 256 bytes of a row.
fn put_count(row: &mut Row, word: &[u8], count: u64)
    requires room { length row.old + length word.now ≤ 236 }
    ensures text { row.new ≡ row.old ++ word.now ++ decimal count }
    ensures short { length row.new ≤ length row.old + length word.now + 20 }
{
    row.put(word);
    row.put_number(count);
}
