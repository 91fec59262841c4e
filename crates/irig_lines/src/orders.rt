//! What a word asks for with the text before it (`front`) and after it (`arguments`).

ghost use Rattle.std.specs.Prelude.{◌≡◌, [], OnOk, OnErr};
ghost use Rattle.irig_lines.specs.{Findings.Finds, Addresses.IsRange, Commands.Asks};
ghost use Rattle.irig_lines.specs.{Words.words_of, declared.keyword.Keyword.Keyword};

use crate::addresses::{address, address_or_cursor, letter, range, time};
use crate::arguments::{controls, element, expression, kind, moment, times};
use crate::command::{BadLine, Command};
use crate::numbers::{distance, number};
use crate::range::Range;
use crate::words::{no_word, one_word, split_word, two_words};

pub fn no_range(front: &[u8]) -> Result<(), BadLine>
    ensures ok { OnOk result (front.now ≡ []) }
    ensures err { OnErr result (front.now ≡ [] → ⊥) }
{
    if front.is_empty() {
        Ok(())
    } else {
        Err(BadLine)
    }
}

/// `ADDRESS`. An empty one does not come here: such a line asks for nothing.
pub fn show(front: &[u8]) -> Result<Command, BadLine>
    ensures { Finds (Asks Keyword.Missing front.now []) result }
{
    Ok(Command::Show(address(front)?))
}

/// `RANGE list`.
pub fn list(front: &[u8], arguments: &[u8]) -> Result<Command, BadLine>
    ensures { Finds (Asks Keyword.List front.now (words_of arguments.now)) result }
{
    Ok(Command::List(ranged(front, arguments)?))
}

/// `RANGE delete`.
pub fn delete(front: &[u8], arguments: &[u8]) -> Result<Command, BadLine>
    ensures { Finds (Asks Keyword.Delete front.now (words_of arguments.now)) result }
{
    Ok(Command::Delete(ranged(front, arguments)?))
}

/// `RANGE join`; of one address its pulse and the next.
pub fn join(front: &[u8], arguments: &[u8]) -> Result<Command, BadLine>
    ensures { Finds (Asks Keyword.Join front.now (words_of arguments.now)) result }
{
    Ok(Command::Join(ranged(front, arguments)?))
}

/// `RANGE shift DISTANCE`.
pub fn shift(front: &[u8], arguments: &[u8]) -> Result<Command, BadLine>
    ensures { Finds (Asks Keyword.Shift front.now (words_of arguments.now)) result }
{
    let by = one_word(arguments)?;
    Ok(Command::Shift(range(front)?, distance(by)?))
}

/// `ADDRESS split TIME TIME`; without an address it is the cursor's pulse.
pub fn split(front: &[u8], arguments: &[u8]) -> Result<Command, BadLine>
    ensures { Finds (Asks Keyword.Split front.now (words_of arguments.now)) result }
{
    let (a, b) = times(arguments)?;
    Ok(Command::Split(address_or_cursor(front)?, a, b))
}

/// `ADDRESS force ELEMENT`, in the same way.
pub fn force(front: &[u8], arguments: &[u8]) -> Result<Command, BadLine>
    ensures { Finds (Asks Keyword.Force front.now (words_of arguments.now)) result }
{
    let name = one_word(arguments)?;
    Ok(Command::Force(address_or_cursor(front)?, element(name)?))
}

/// `insert TIME TIME`.
pub fn insert(front: &[u8], arguments: &[u8]) -> Result<Command, BadLine>
    ensures { Finds (Asks Keyword.Insert front.now (words_of arguments.now)) result }
{
    let Ok(()) = no_range(front) else {
        return Err(BadLine);
    };
    let Ok((a, b)) = times(arguments) else {
        return Err(BadLine);
    };
    Ok(Command::Insert(a, b))
}

/// `invert TIME TIME`.
pub fn invert(front: &[u8], arguments: &[u8]) -> Result<Command, BadLine>
    ensures { Finds (Asks Keyword.Invert front.now (words_of arguments.now)) result }
{
    let Ok(()) = no_range(front) else {
        return Err(BadLine);
    };
    let Ok((a, b)) = times(arguments) else {
        return Err(BadLine);
    };
    Ok(Command::Invert(a, b))
}

/// `format KIND DIGIT`.
pub fn format(front: &[u8], arguments: &[u8]) -> Result<Command, BadLine>
    ensures { Finds (Asks Keyword.Format front.now (words_of arguments.now)) result }
{
    let Ok(()) = no_range(front) else {
        return Err(BadLine);
    };
    let (name, digit) = two_words(arguments)?;
    Ok(Command::Format(kind(name)?, expression(digit)?))
}

/// `mark LETTER TIME`.
pub fn set_mark(front: &[u8], arguments: &[u8]) -> Result<Command, BadLine>
    ensures { Finds (Asks Keyword.Mark front.now (words_of arguments.now)) result }
{
    let Ok(()) = no_range(front) else {
        return Err(BadLine);
    };
    let (name, at) = two_words(arguments)?;
    Ok(Command::Mark(letter(name)?, time(at)?))
}

/// `unmark LETTER`.
pub fn unmark(front: &[u8], arguments: &[u8]) -> Result<Command, BadLine>
    ensures { Finds (Asks Keyword.Unmark front.now (words_of arguments.now)) result }
{
    let Ok(()) = no_range(front) else {
        return Err(BadLine);
    };
    let name = one_word(arguments)?;
    Ok(Command::Unmark(letter(name)?))
}

/// `regen` with the arguments that `frames` reads.
pub fn regen(front: &[u8], arguments: &[u8]) -> Result<Command, BadLine>
    ensures { Finds (Asks Keyword.Regen front.now (words_of arguments.now)) result }
{
    let Ok(()) = no_range(front) else {
        return Err(BadLine);
    };
    frames(arguments)
}

/// The range before a word that takes no argument.
fn ranged(front: &[u8], arguments: &[u8]) -> Result<Range, BadLine>
    ensures { Finds (λ r. IsRange front.now r × (words_of arguments.now ≡ [])) result }
{
    no_word(arguments)?;
    range(front)
}

/// `TIME FRAMES MOMENT`, and maybe control functions. A missing word is empty here, which none of
/// the first three may be.
fn frames(arguments: &[u8]) -> Result<Command, BadLine>
    ensures { Finds (Asks Keyword.Regen [] (words_of arguments.now)) result }
{
    let (start, rest) = split_word(arguments);
    let (frames, rest) = split_word(rest);
    let (written, rest) = split_word(rest);
    let Ok(start) = time(start) else {
        return Err(BadLine);
    };
    let Ok(frames) = number(frames) else {
        return Err(BadLine);
    };
    let Ok(from) = moment(written) else {
        return Err(BadLine);
    };
    Ok(Command::Regen(start, frames, from, controls(rest)?))
}
