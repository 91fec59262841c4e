//! The arguments of a line.

ghost use Rattle.std.specs.Prelude.{◌≡◌, Some};
ghost use Rattle.irig_moment.specs.Written.{moment_of};
ghost use Rattle.irig_codes.specs.Words.{element_word, kind_word};
ghost use Rattle.irig_lines.specs.Arguments.{AreControls, AreTimes, IsExpression};
ghost use Rattle.irig_lines.specs.{Findings.Finds, Words.words_of};

use crate::addresses::time;
use crate::command::BadLine;
use crate::numbers::control;
use crate::time::Time;
use crate::words::{no_word, split_word, two_words};
use irig_codes::{Element, Kind, element_named, kind_named};
use irig_moment::Moment;

/// Two times, which have to be all the words of a text.
pub fn times(arguments: &[u8]) -> Result<(Time, Time), BadLine>
    ensures { Finds (λ t. AreTimes (words_of arguments.now) t.0 t.1) result }
{
    let (a, b) = two_words(arguments)?;
    Ok((time(a)?, time(b)?))
}

/// A day and a time of day, as `2024-001T00:00:00.50` or `2024-01-01T00:00:00`.
pub fn moment(word: &[u8]) -> Result<Moment, BadLine>
    ensures { Finds (λ m. moment_of word.now ≡ Some m) result }
{
    match Moment::parse(word) {
        Some(moment) => Ok(moment),
        None => Err(BadLine),
    }
}

/// The control functions at the end of a line, 0 if there are none: the lowest bit is the first.
/// Whether the format has that many is not tested here.
pub fn controls(text: &[u8]) -> Result<u64, BadLine>
    ensures { Finds (AreControls (words_of text.now)) result }
{
    let (word, rest) = split_word(text);
    if word.is_empty() {
        return Ok(0);
    }
    no_word(rest)?;
    control(word)
}

/// `zero`, `one` or `position`.
pub fn element(word: &[u8]) -> Result<Element, BadLine>
    ensures { Finds (λ e. word.now ≡ element_word e) result }
{
    element_named(word).ok_or(BadLine)
}

/// `A`, `B`, `E` or `G`.
pub fn kind(word: &[u8]) -> Result<Kind, BadLine>
    ensures { Finds (λ k. word.now ≡ kind_word k) result }
{
    kind_named(word).ok_or(BadLine)
}

/// One digit, 0 to 7; whether the kind permits it is not tested here.
pub fn expression(word: &[u8]) -> Result<u8, BadLine>
    ensures { Finds (IsExpression word.now) result }
{
    match word {
        [digit @ b'0'..=b'7'] => Ok(*digit - b'0'),
        _ => Err(BadLine),
    }
}
