//! What is answered to a line of a script.

ghost use Rattle.std.specs.Prelude.{◌≡◌, ◌++◌, ◌∷◌, [], true, decimal};
ghost use Rattle.irig_script.specs.Print.Printed.{refusal_text, reply_text};
ghost use Rattle.irig_script.specs.{Obey.Desk.is_refusal, Obey.Machine.Machine};
ghost use Rattle.irig_print.specs.Front.{Prints};

use crate::print::info_line::print_info;
use crate::print::listing::print_frames;
use crate::print::mark_lines::print_marks;
use crate::print::pulse_lines::print_pulses;
use irig_edit::{Refusal, Session};
use irig_print::{PrintFault, put_all};
use std::io::Write;

/// An answer to a line; S1 to S3 are refusals of the line itself.
#[derive(Clone, Copy)]
pub enum Reply {
    /// Nothing is printed.
    Silent,
    /// Bytes of the text that was written.
    Written(u64),
    /// How many pulses come before those of the list, and how many these are.
    Listed(usize, usize),
    Frames,
    Marks,
    Info,
    Refused(Refusal),
    /// S1: the line is not valid.
    BadLine,
    /// S2: the line has more than 1,000 bytes.
    LineTooLong,
    /// S3: the text could not be written.
    WriteFailed,
}

impl Reply {
    /// Whether the line was refused.
    pub fn is_refusal(&self) -> bool
        ensures { result ≡ is_refusal self.now }
    {
        matches!(
            self,
            Reply::Refused(_) | Reply::BadLine | Reply::LineTooLong | Reply::WriteFailed
        )
    }
}

/// Prints what a reply asks for, by what the session has now. A line goes out by one write, if the
/// output takes it.
pub fn print<W: Write>(reply: Reply, session: &Session, out: &mut W) -> Result<(), PrintFault>
    ensures { Prints (W.contents out.old) (W.contents out.new)
        (reply_text session.now reply) result }
{
    match reply {
        Reply::Silent => Ok(()),
        Reply::Written(count) => put_number(out, count),
        Reply::Listed(before, count) => print_pulses(session, before, count, out),
        Reply::Frames => print_frames(session, out),
        Reply::Marks => print_marks(session, out),
        Reply::Info => print_info(session, out),
        // All other replies are refusals.
        _ => put_all(out, refusal_line(reply)),
    }
}

/// The line of a refusal, whatever the session has (`m`).
fn refusal_line(reply: Reply) -> &'static [u8]
    requires { is_refusal reply ≡ true }
    ensures { (m : Machine) → result.now ≡ reply_text m reply }
{
    match reply {
        Reply::Refused(why) => session_refusal_line(why),
        Reply::BadLine => b"? S1 BadLine\n",
        Reply::LineTooLong => b"? S2 LineTooLong\n",
        _ => b"? S3 WriteFailed\n",
    }
}

fn session_refusal_line(why: Refusal) -> &'static [u8]
    ensures { result.now ≡ refusal_text why }
{
    match why {
        Refusal::OutOfRange => b"? E1 OutOfRange\n",
        Refusal::NoPulse => b"? E2 NoPulse\n",
        Refusal::Touching => b"? E3 Touching\n",
        Refusal::NotInside => b"? E4 NotInside\n",
        Refusal::TooMany => b"? E5 TooMany\n",
        Refusal::BadExpression => b"? E6 BadExpression\n",
        Refusal::BadTime => b"? E7 BadTime\n",
        Refusal::BadControl => b"? E8 BadControl\n",
        Refusal::NothingToUndo => b"? E9 NothingToUndo\n",
        Refusal::NothingToRedo => b"? E10 NothingToRedo\n",
        Refusal::OutOfMemory => b"? E11 OutOfMemory\n",
        Refusal::GroupOpen => b"? E12 GroupOpen\n",
        Refusal::NoGroup => b"? E13 NoGroup\n",
        Refusal::GroupFloor => b"? E14 GroupFloor\n",
    }
}

/// Prints a number, of at most 20 digits, and a newline: the last byte of the buffer.
fn put_number<W: Write>(out: &mut W, number: u64) -> Result<(), PrintFault>
    ensures { Prints (W.contents out.old) (W.contents out.new) (decimal number ++ 10 ∷ []) result }
{
    let mut buffer = [b'\n'; 24];
    let start = itoa::write_digits(number, &mut buffer, 23);
    put_all(out, &buffer[start..])
}
