//! What the lines of a proposed script ask for.

ghost use Rattle.std.specs.Prelude.{◌≡◌, ◌↔◌, ◌⊎◌, IsTrue, MatchOption};
ghost use Rattle.irig_guarding.specs.Repair.{Asks, IsRepair, texts};
ghost use Rattle.irig_guarding.specs.{Cutting.IsClosing, RepairLines.IsIdle};
ghost use Rattle.irig_lines.specs.declared.command.Command.{Command as SomeCommand};
ghost use Rattle.irig_lines.specs.declared.command.Command.TheVariants as command;

use crate::line::Line;
use irig_lines::{Command, Purpose, parse_line};

/// The most bytes of a line of a script, without the newline, as in the editor.
const LINE_LIMIT: usize = 1000;

/// What a line asks for; `None` if it is not valid or too long.
pub fn command_of(line: &Line<'_>) -> Option<Command>
    ensures { MatchOption result ((asked : SomeCommand) → Asks asked line.now.bytes.now → ⊥)
        (λ asked. Asks asked line.now.bytes.now) }
{
    command_in(line.bytes)
}

/// What the bytes of a line ask for; `None` if they are not valid, or more than `LINE_LIMIT`.
fn command_in(line: &[u8]) -> Option<Command>
    ensures { MatchOption result ((asked : SomeCommand) → Asks asked line.now → ⊥)
        (λ asked. Asks asked line.now) }
{
    if line.len() > LINE_LIMIT {
        return None;
    }
    match parse_line(line) {
        Ok(command) => Some(command),
        Err(_) => None,
    }
}

/// Whether a command is an edit, as a repair has them: it edits pulses, or sets or clears a mark,
/// which is a letter for a time.
pub fn is_edit(command: &Command) -> bool
    ensures { IsTrue result ↔ IsRepair command.now }
{
    match command.purpose() {
        Purpose::Edit | Purpose::Mark => true,
        Purpose::Nothing
        | Purpose::Format
        | Purpose::Question
        | Purpose::Steps
        | Purpose::Text
        | Purpose::End => false,
    }
}

/// Whether a line is a `begin`, which opens a group.
pub fn begins(line: &Line<'_>) -> bool
    ensures { IsTrue result ↔ Asks command.Begin line.now.bytes.now }
{
    match command_of(line) {
        Some(command) => is_begin(&command),
        None => false,
    }
}

/// Whether a command is `begin`, which opens a group.
fn is_begin(command: &Command) -> bool
    ensures { IsTrue result ↔ (command.now ≡ Command.Begin) }
{
    matches!(command, Command::Begin)
}

/// Whether a line is an `end`, which ends a group and keeps what it did.
pub fn ends(line: &Line<'_>) -> bool
    ensures { IsTrue result ↔ Asks command.End line.now.bytes.now }
{
    match command_of(line) {
        Some(command) => is_end(&command),
        None => false,
    }
}

/// Whether a command is `end`, which ends a group and keeps what it did.
fn is_end(command: &Command) -> bool
    ensures { IsTrue result ↔ (command.now ≡ Command.End) }
{
    matches!(command, Command::End)
}

/// Whether a line closes a group: `end` ends it, `abort` gives it up.
pub fn closes(line: &Line<'_>) -> bool
    ensures { IsTrue result ↔ IsClosing line.now.bytes.now }
{
    match command_of(line) {
        Some(command) => is_closing(&command),
        None => false,
    }
}

/// Whether a command closes a group: `end` ends it, `abort` gives it up.
fn is_closing(command: &Command) -> bool
    ensures { IsTrue result ↔ ((command.now ≡ Command.End) ⊎ (command.now ≡ Command.Abort)) }
{
    matches!(command, Command::End | Command::Abort)
}

/// Whether a line is a comment, or blank: it asks for nothing.
pub fn is_comment(line: &Line<'_>) -> bool
    ensures { IsTrue result ↔ Asks command.Nothing line.now.bytes.now }
{
    match command_of(line) {
        Some(command) => is_nothing(&command),
        None => false,
    }
}

/// Whether a command asks for nothing: it is that of a comment or of a blank line.
fn is_nothing(command: &Command) -> bool
    ensures { IsTrue result ↔ (command.now ≡ Command.Nothing) }
{
    matches!(command, Command::Nothing)
}

/// Whether lines that are tried together are one line alone, a comment or a blank one: that is no
/// repair, and is printed as it is.
pub fn is_lone_comment(lines: &[Line<'_>]) -> bool
    ensures { IsTrue result ↔ IsIdle (texts lines.now) }
{
    match lines {
        [line] => is_comment(line),
        _ => false,
    }
}
