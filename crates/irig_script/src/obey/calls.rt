//! Commands as calls of the session, as it is before the call.

ghost use Rattle.std.specs.Prelude.{◌≡◌};
ghost use Rattle.irig_lines.specs.declared.command.Command.{Command};
ghost use Rattle.irig_script.specs.{Obey.Obeying.Obeys, Obey.Replies.reply_to};

use crate::obey::pulse_numbers::{ends, join_ends, number_at, time};
use crate::print::reply::Reply;
use irig_codes::{Element, Format, Kind};
use irig_edit::{Refusal, Session};
use irig_lines::{Address, Range, Time};
use irig_moment::Moment;
use irig_saved::Letter;

/// The reply to an edit.
fn reply_to(outcome: Result<(), Refusal>) -> Reply
    ensures { result ≡ reply_to outcome }
{
    match outcome {
        Ok(()) => Reply::Silent,
        Err(why) => Reply::Refused(why),
    }
}

/// Moves the cursor to a pulse, and lists it. Number 0 is refused, so the 1 can be subtracted.
pub fn show(session: &mut Session, address: Address) -> Reply
    ensures { Obeys (Command.Show address) session.old result session.new }
{
    let number = number_at(session, &address);
    match session.go(number) {
        Ok(()) => Reply::Listed(number.saturating_sub(1), 1),
        Err(why) => Reply::Refused(why),
    }
}

/// Lists the pulses of a range: how many come before them, and how many they are.
pub fn list(session: &Session, range: Range) -> Reply
    ensures { Obeys (Command.List range) session.now result session.now }
{
    let (first, last) = ends(session, &range);
    if first == 0 || first > last || last > session.len() {
        Reply::Refused(Refusal::NoPulse)
    } else {
        Reply::Listed(first - 1, last - first + 1)
    }
}

/// Removes the pulses of a range.
pub fn delete(session: &mut Session, range: Range) -> Reply
    ensures { Obeys (Command.Delete range) session.old result session.new }
{
    let (first, last) = ends(session, &range);
    reply_to(session.delete(first, last))
}

/// Moves the pulses of a range by `by` microseconds; below zero is earlier.
pub fn shift(session: &mut Session, range: Range, by: i64) -> Reply
    ensures { Obeys (Command.Shift range by) session.old result session.new }
{
    let (first, last) = ends(session, &range);
    reply_to(session.shift(first, last, by))
}

/// Makes one pulse of all pulses of a range; of one address and the next pulse (`join_ends`).
pub fn join(session: &mut Session, range: Range) -> Reply
    ensures { Obeys (Command.Join range) session.old result session.new }
{
    let (first, last) = join_ends(session, &range);
    reply_to(session.join(first, last))
}

/// Makes the level low inside of a pulse, from one time to another.
pub fn split(session: &mut Session, address: Address, from: Time, to: Time) -> Reply
    ensures { Obeys (Command.Split address from to) session.old result session.new }
{
    let number = number_at(session, &address);
    let (from, to) = (time(session, &from), time(session, &to));
    reply_to(session.split(number, from, to))
}

/// Gives a pulse the nominal width of `element`; its rise stays.
pub fn force(session: &mut Session, address: Address, element: Element) -> Reply
    ensures { Obeys (Command.Force address element) session.old result session.new }
{
    let number = number_at(session, &address);
    reply_to(session.force(number, element))
}

/// Inserts a pulse from one time to another.
pub fn insert(session: &mut Session, from: Time, to: Time) -> Reply
    ensures { Obeys (Command.Insert from to) session.old result session.new }
{
    let (from, to) = (time(session, &from), time(session, &to));
    reply_to(session.insert(from, to))
}

/// Inverts the level from one time to another.
pub fn invert(session: &mut Session, from: Time, to: Time) -> Reply
    ensures { Obeys (Command.Invert from to) session.old result session.new }
{
    let (from, to) = (time(session, &from), time(session, &to));
    reply_to(session.invert(from, to))
}

/// Generates frames from `start` on, instead of the pulses that rise there; the first has the
/// moment `from`, and the lowest bit of `control` is the first control function.
pub fn regen(session: &mut Session, start: Time, frames: u64, from: Moment, control: u64) -> Reply
    ensures { Obeys (Command.Regen start frames from control) session.old result session.new }
{
    let start = time(session, &start);
    reply_to(session.regen(start, frames, from, control))
}

/// Sets the format in which frames are read.
pub fn set_format(session: &mut Session, kind: Kind, expression: u8) -> Reply
    ensures { Obeys (Command.Format kind expression) session.old result session.new }
{
    match Format::new(kind, expression) {
        Ok(format) => reply_to(session.format(format)),
        Err(_) => Reply::Refused(Refusal::BadExpression),
    }
}

/// Sets the mark of a letter to a time.
pub fn mark(session: &mut Session, letter: Letter, at: Time) -> Reply
    ensures { Obeys (Command.Mark letter at) session.old result session.new }
{
    let time = time(session, &at);
    reply_to(session.mark(letter.byte(), Some(time)))
}

/// Clears the mark of a letter. This is a step, too, also if the mark was not set.
pub fn unmark(session: &mut Session, letter: Letter) -> Reply
    ensures { Obeys (Command.Unmark letter) session.old result session.new }
{
    reply_to(session.mark(letter.byte(), None))
}

/// Undoes the newest step.
pub fn undo(session: &mut Session) -> Reply
    ensures { Obeys Command.Undo session.old result session.new }
{
    reply_to(session.undo())
}

/// Redoes the step that was undone last.
pub fn redo(session: &mut Session) -> Reply
    ensures { Obeys Command.Redo session.old result session.new }
{
    reply_to(session.redo())
}

/// Opens a group of edits.
pub fn begin(session: &mut Session) -> Reply
    ensures { Obeys Command.Begin session.old result session.new }
{
    reply_to(session.begin())
}

/// Makes one step of what was done since the group was opened.
pub fn end(session: &mut Session) -> Reply
    ensures { Obeys Command.End session.old result session.new }
{
    reply_to(session.end())
}

/// Undoes what was done since the group was opened, for good.
pub fn abort(session: &mut Session) -> Reply
    ensures { Obeys Command.Abort session.old result session.new }
{
    reply_to(session.abort())
}
