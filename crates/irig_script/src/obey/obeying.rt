//! What is replied to a line of a script, and done for it: `calls` has each call.

ghost use Rattle.std.specs.Prelude.{◌≡◌, ◌≢◌, length};
ghost use Rattle.irig_script.specs.Obey.Obeying.{Obeys};
ghost use Rattle.irig_script.specs.Obey.Desk.{IsQuiet, failures_of};
ghost use Rattle.irig_script.specs.{Obey.Answer.texts_of, Obey.Seen.numbers_of};
ghost use Rattle.irig_script.specs.{Obey.Progress.Answers, Obey.Replies.texts_put};
ghost use Rattle.irig_text.specs.Shelved.{Puts};
ghost use Rattle.irig_lines.specs.{Purposes.purpose_of, declared.command.Command.Command};
ghost use Rattle.irig_lines.specs.declared.purpose.Purpose.{Purpose};

use crate::obey::calls::{
    abort, begin, delete, end, force, insert, invert, join, list, mark, redo, regen, set_format,
    shift, show, split, undo, unmark,
};
use crate::obey::line::Line;
use crate::obey::writing::{write_dump, write_saved};
use crate::print::reply::Reply;
use irig_edit::Session;
use irig_lines::{BadLine, Command, Purpose, parse_line};
use irig_text::Shelf;

/// Obeys a line; `None` if it is `quit`. A refused line changes nothing of the session.
pub fn obey_line<S: Shelf>(line: &Line, session: &mut Session, shelf: &mut S) -> Option<Reply>
    ensures answers { Answers result (S.known shelf.old) (S.known shelf.new)
        session.old session.new line.now }
    ensures since { S.since shelf.old shelf.new }
{
    let Some(text) = line.text() else {
        return Some(Reply::LineTooLong);
    };
    match parse_line(text) {
        Ok(Command::Quit) => None,
        Ok(command) => Some(write_or_obey(command, session, shelf)),
        Err(BadLine) => Some(Reply::BadLine),
    }
}

/// Obeys a command that does not end the script; only `write` and `save` need the shelf.
fn write_or_obey<S: Shelf>(command: Command, session: &mut Session, shelf: &mut S) -> Reply
    requires { command ≢ Command.Quit }
    ensures answer { Obeys command session.old result session.new }
    ensures put { Puts (S.known shelf.old) (S.known shelf.new)
        (texts_put (texts_of command session.old) result) (failures_of result) }
    ensures count { length (texts_put (texts_of command session.old) result)
        ≡ numbers_of result }
    ensures since { S.since shelf.old shelf.new }
{
    match command {
        Command::Write => write_dump(session, shelf),
        Command::Save => write_saved(session, shelf),
        _ => obey(command, session),
    }
}

/// Obeys a command that neither writes a text nor ends the script. Each function below has the
/// commands of one purpose, so its last case never comes.
pub fn obey(command: Command, session: &mut Session) -> Reply
    requires goes_on { command ≢ Command.Quit }
    requires writes_none { command ≢ Command.Write }
    requires saves_none { command ≢ Command.Save }
    ensures answer { Obeys command session.old result session.new }
    ensures quiet { IsQuiet result }
{
    match command.purpose() {
        Purpose::Edit => edit(command, session),
        Purpose::Mark => set_mark(command, session),
        Purpose::Format => choose_format(command, session),
        Purpose::Question => answer_question(command, session),
        Purpose::Steps => change_steps(command, session),
        Purpose::Nothing | Purpose::Text | Purpose::End => Reply::Silent,
    }
}

fn edit(command: Command, session: &mut Session) -> Reply
    requires { purpose_of command ≡ Purpose.Edit }
    ensures answer { Obeys command session.old result session.new }
    ensures quiet { IsQuiet result }
{
    match command {
        Command::Delete(range) => delete(session, range),
        Command::Shift(range, by) => shift(session, range, by),
        Command::Join(range) => join(session, range),
        Command::Split(address, from, to) => split(session, address, from, to),
        Command::Force(address, element) => force(session, address, element),
        Command::Insert(from, to) => insert(session, from, to),
        Command::Invert(from, to) => invert(session, from, to),
        Command::Regen(start, frames, from, control) => {
            regen(session, start, frames, from, control)
        }
        _ => unreachable!(),
    }
}

fn set_mark(command: Command, session: &mut Session) -> Reply
    requires { purpose_of command ≡ Purpose.Mark }
    ensures answer { Obeys command session.old result session.new }
    ensures quiet { IsQuiet result }
{
    match command {
        Command::Mark(letter, at) => mark(session, letter, at),
        Command::Unmark(letter) => unmark(session, letter),
        _ => unreachable!(),
    }
}

fn choose_format(command: Command, session: &mut Session) -> Reply
    requires { purpose_of command ≡ Purpose.Format }
    ensures answer { Obeys command session.old result session.new }
    ensures quiet { IsQuiet result }
{
    match command {
        Command::Format(kind, expression) => set_format(session, kind, expression),
        _ => unreachable!(),
    }
}

/// `show` moves the cursor to its pulse; no other question does.
fn answer_question(command: Command, session: &mut Session) -> Reply
    requires { purpose_of command ≡ Purpose.Question }
    ensures answer { Obeys command session.old result session.new }
    ensures quiet { IsQuiet result }
{
    match command {
        Command::Show(address) => show(session, address),
        Command::List(range) => list(session, range),
        Command::Frames => Reply::Frames,
        Command::Marks => Reply::Marks,
        Command::Info => Reply::Info,
        _ => unreachable!(),
    }
}

fn change_steps(command: Command, session: &mut Session) -> Reply
    requires { purpose_of command ≡ Purpose.Steps }
    ensures answer { Obeys command session.old result session.new }
    ensures quiet { IsQuiet result }
{
    match command {
        Command::Undo => undo(session),
        Command::Redo => redo(session),
        Command::Begin => begin(session),
        Command::End => end(session),
        Command::Abort => abort(session),
        _ => unreachable!(),
    }
}
