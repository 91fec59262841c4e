//! The bytes of a script, obeyed one after another; a newline ends a line.

ghost use Rattle.std.specs.Prelude.{◌≡◌, ◌++◌, ◌∷◌, [], ℕ, List, IfOk, OnErr};
ghost use Rattle.irig_script.specs.Print.Printed.{answer_with, reply_text};
ghost use Rattle.irig_script.specs.Obey.Desk.{desk_at, status_after};
ghost use Rattle.irig_script.specs.Obey.Progress.{BrokeIn, Holds, Obeyed};
ghost use Rattle.irig_script.specs.Print.Screen.{sight};
ghost use Rattle.irig_print.specs.Front.{Prints};
ghost use Rattle.irig_text.specs.Shelved.{GrowsBy};

use crate::obey::line::Line;
use crate::obey::obeying::obey_line;
use crate::obey::status::Status;
use crate::print::reply::Reply;
use crate::print::screen::Screen;
use crate::print::witness::Witness;
use irig_edit::Session;
use irig_print::PrintFault;
use irig_text::Shelf;
use std::io::Write;

/// Obeys bytes of a script and returns whether a line that ends in them is `quit`. `line` has what
/// came of the first line before them; bytes after `quit` are passed over.
pub fn obey_bytes<W: Write, N: Witness, S: Shelf>(
    line: &mut Line,
    bytes: &[u8],
    session: &mut Session,
    screen: &mut Screen<W, N>,
    shelf: &mut S,
    status: &mut Status,
) -> Result<bool, PrintFault>
    ensures ok { IfOk result (λ ended. (text : List ℕ) → Holds text line.old → Obeyed ended
        (desk_at screen.old (S.known shelf.old))
        (desk_at screen.new (S.known shelf.new))
        status.old status.new session.old session.new (text ++ bytes.now) line.new) }
    ensures err { OnErr result ((text : List ℕ) → Holds text line.old → BrokeIn
        (desk_at screen.old (S.known shelf.old))
        (desk_at screen.new (S.known shelf.new))
        session.old session.new (text ++ bytes.now)) }
    ensures since { S.since shelf.old shelf.new }
{
    for byte in bytes {
        match obey_byte(line, *byte, session, screen, shelf, status) {
            Ok(true) => return Ok(true),
            Ok(false) => {}
            Err(fault) => return Err(fault),
        }
    }
    Ok(false)
}

/// Obeys one byte, and returns whether it ends the line `quit`.
fn obey_byte<W: Write, N: Witness, S: Shelf>(
    line: &mut Line,
    byte: u8,
    session: &mut Session,
    screen: &mut Screen<W, N>,
    shelf: &mut S,
    status: &mut Status,
) -> Result<bool, PrintFault>
    ensures ok { IfOk result (λ ended. (text : List ℕ) → Holds text line.old → Obeyed ended
        (desk_at screen.old (S.known shelf.old))
        (desk_at screen.new (S.known shelf.new))
        status.old status.new session.old session.new (text ++ byte ∷ []) line.new) }
    ensures err { OnErr result ((text : List ℕ) → Holds text line.old → BrokeIn
        (desk_at screen.old (S.known shelf.old))
        (desk_at screen.new (S.known shelf.new))
        session.old session.new (text ++ byte ∷ [])) }
    ensures since { S.since shelf.old shelf.new }
{
    if byte != b'\n' {
        line.push(byte);
        return Ok(false);
    }
    let Some(reply) = obey_line(line, session, shelf) else {
        return Ok(true);
    };
    match answer(reply, session, shelf, screen, status) {
        Ok(()) => {}
        Err(fault) => return Err(fault),
    }
    line.clear();
    Ok(false)
}

/// Answers a line. The witness sees output and shelf before the reply is printed.
fn answer<W: Write, N: Witness, S: Shelf>(
    reply: Reply,
    session: &Session,
    shelf: &S,
    screen: &mut Screen<W, N>,
    status: &mut Status,
) -> Result<(), PrintFault>
    ensures text { Prints screen.old.out screen.new.out (reply_text session.now reply) result }
    ensures seen { GrowsBy screen.old.seen screen.new.seen
        (sight screen.old.out (S.known shelf.now).texts ∷ []) }
    ensures status { status.new ≡ status_after status.old (answer_with session.now reply ∷ []) }
{
    if reply.is_refusal() {
        *status = Status::SomeRefused;
    }
    screen.show(shelf);
    screen.print(reply, session)
}
