//! The listing of the marks.

ghost use Rattle.std.specs.Prelude.{◌≡◌};
ghost use Rattle.irig_print.specs.Front.{Prints};
ghost use Rattle.irig_script.specs.Print.Listings.{marks_text, mark_line};

use irig_edit::Session;
use irig_print::{Block, PrintFault, Row};
use irig_saved::Letter;
use std::io::Write;

/// Prints a line for each mark that is set. Not inlined, as `print_frames`.
#[inline(never)]
pub fn print_marks<W: Write>(session: &Session, out: &mut W) -> Result<(), PrintFault>
    ensures { Prints (W.contents out.old) (W.contents out.new)
        (marks_text session.now.state) result }
{
    let mut block = Block::new();
    let mut row = Row::new();
    for place in 0..26 {
        let letter = Letter::new(place);
        put_mark(&mut row, letter, session.mark_time(letter.byte()));
        match block.put(out, row.text()) {
            Ok(()) => {}
            Err(fault) => return Err(fault),
        }
    }
    block.flush(out)
}

/// Makes the row the line of a mark; it is empty if the mark is not set.
fn put_mark(row: &mut Row, letter: Letter, time: Option<u64>)
    ensures { row.new ≡ mark_line letter time }
{
    row.clear();
    if let Some(time) = time {
        row.put(&[letter.byte()]);
        row.put(b" ");
        row.put_number(time);
        row.put(b"\n");
    }
}
