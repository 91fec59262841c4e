//! Lines of a script as commands.

ghost use Rattle.std.specs.Prelude.{◌≡◌, ◌++◌, ◌&&◌, ◌||◌, not, ℕ, List, [], true, IfOk, OnErr};
ghost use Rattle.irig_lines.specs.Commands.{Asks, IsAlone};
ghost use Rattle.irig_lines.specs.Words.{is_letter, is_space, words_of};
ghost use Rattle.irig_lines.specs.Grammar.{Means, Orders, follows_range, is_nothing};
ghost use Rattle.irig_lines.specs.declared.command.Command.{Command};
ghost use Rattle.irig_lines.specs.{Findings.Finds, Addresses.IsRange, declared.range.Range.Range};

use crate::command::{BadLine, Command};
use crate::cutting::{Until, cut, is_space};
use crate::keyword::{Keyword, keyword_of};
use crate::orders::{
    delete, force, format, insert, invert, join, list, no_range, regen, set_mark, shift, show,
    split, unmark,
};
use crate::words::{no_word, split_word};

/// What a line without its newline asks for.
pub fn parse_line(line: &[u8]) -> Result<Command, BadLine>
    ensures meant { IfOk result (λ command. Means command line.now) }
    ensures bad { OnErr result ((command : Command) → Means command line.now → ⊥) }
{
    let (_, text) = cut(line, Until::Text);
    if is_nothing(text) {
        Ok(Command::Nothing)
    } else {
        in_text(text)
    }
}

fn is_nothing(text: &[u8]) -> bool
    ensures { result ≡ is_nothing text.now }
{
    matches!(text, [] | [b'#', ..])
}

/// What a text without white space at its begin asks for.
fn in_text(text: &[u8]) -> Result<Command, BadLine>
    ensures { Finds (λ c. Orders c text.now) result }
{
    let (range, rest) = split_range(text);
    let (word, arguments) = split_word(rest);
    asked(range, keyword_of(word), arguments)
}

/// Cuts a text before the first white space or small letter, with which a word begins. A letter
/// just after an apostrophe is the name of a mark.
fn split_range(text: &[u8]) -> (&[u8], &[u8])
    ensures whole { text.now ≡ result.0.now ++ result.1.now }
    ensures cut { (range : List ℕ) → (rest : List ℕ) → (r : Range) → text.now ≡ range ++ rest
        → IsRange range r → follows_range rest ≡ true
        → (result.0.now ≡ range) × (result.1.now ≡ rest) }
{
    let mut at = 0;
    let mut quoted = false;
    while at < text.len() && !ends_range(quoted, text[at]) {
        quoted = text[at] == b'\'';
        at += 1;
    }
    (&text[..at], &text[at..])
}

/// `quoted`: an apostrophe is just before the byte.
fn ends_range(quoted: bool, byte: u8) -> bool
    ensures { result ≡ (is_space byte || (not quoted && is_letter byte)) }
{
    is_space(byte) || !quoted && byte.is_ascii_lowercase()
}

/// What a word asks for. `Missing` is no word: the range is the address of a pulse to be shown.
fn asked(front: &[u8], word: Keyword, arguments: &[u8]) -> Result<Command, BadLine>
    ensures { Finds (Asks word front.now (words_of arguments.now)) result }
{
    match word {
        Keyword::Missing => show(front),
        Keyword::List => list(front, arguments),
        Keyword::Delete => delete(front, arguments),
        Keyword::Shift => shift(front, arguments),
        Keyword::Join => join(front, arguments),
        Keyword::Split => split(front, arguments),
        Keyword::Force => force(front, arguments),
        Keyword::Insert => insert(front, arguments),
        Keyword::Invert => invert(front, arguments),
        Keyword::Regen => regen(front, arguments),
        Keyword::Format => format(front, arguments),
        Keyword::Mark => set_mark(front, arguments),
        Keyword::Unmark => unmark(front, arguments),
        Keyword::Unknown => Err(BadLine),
        _ => asked_alone(front, word, arguments),
    }
}

fn asked_alone(front: &[u8], word: Keyword, arguments: &[u8]) -> Result<Command, BadLine>
    requires { IsAlone word }
    ensures { Finds (Asks word front.now (words_of arguments.now)) result }
{
    let Ok(()) = no_range(front) else {
        return Err(BadLine);
    };
    let Ok(()) = no_word(arguments) else {
        return Err(BadLine);
    };
    Ok(alone(word))
}

/// The last case is `quit`.
fn alone(word: Keyword) -> Command
    requires { IsAlone word }
    ensures { Asks word [] [] result }
{
    match word {
        Keyword::Undo => Command::Undo,
        Keyword::Redo => Command::Redo,
        Keyword::Begin => Command::Begin,
        Keyword::End => Command::End,
        Keyword::Abort => Command::Abort,
        Keyword::Frames => Command::Frames,
        Keyword::Marks => Command::Marks,
        Keyword::Info => Command::Info,
        Keyword::Write => Command::Write,
        Keyword::Save => Command::Save,
        _ => Command::Quit,
    }
}
