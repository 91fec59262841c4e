//! Parts of a saved journal, read from the front of a text.

ghost use Rattle.std.specs.Prelude.{◌≡◌, ◌<◌, ◌+◌, ◌∷◌, [], codes, length};
ghost use Rattle.irig_saved.specs.Ranges.{IsNumber, IsSingle, IsChange, IsStep, AreSteps};
ghost use Rattle.irig_saved.specs.Ranges.{ArePulses, AreSingles, ManySteps};
ghost use Rattle.irig_saved.specs.SavedText.{pulse_lines, single_lines, singles_lines};
ghost use Rattle.irig_saved.specs.SavedText.{change_lines, step_lines, steps_lines, counted_lines};
ghost use Rattle.irig_saved.specs.SavedText.{mark_lines};
ghost use Rattle.irig_saved.specs.Leading.{BeginsSome, BeginsSplice, BeginsStep, BeginsSteps};
ghost use Rattle.irig_saved.specs.Leading.{Leads};
ghost use Rattle.irig_saved.specs.{Lines.numbered, Reading.Any, Reading.Parses, Reading.IsWordy};

use crate::change::Change;
use crate::cut::line_of;
use crate::letter::Marks;
use crate::lines::{counted, mark, pulse, short, splice};
use crate::pulses::Pulses;
use crate::single::Single;
use crate::singles::Singles;
use crate::step::SavedStep;
use crate::steps::Steps;
use crate::stop::Stop;
use std::alloc::Global;

/// Reads `count` lines of pulses; if there are fewer, it stops at what comes after them.
pub fn pulses(alloc: Global, count: u64, text: &[u8]) -> Result<(Pulses, &[u8]), Stop<'_>>
    ensures { Parses (ArePulses count) pulse_lines (λ _. 0 < count) text.now result }
{
    let mut pulses = Pulses::new(alloc);
    let mut rest = text;
    for _ in 0..count {
        let Some((line, next)) = line_of(rest) else {
            return Err(Stop::At(rest));
        };
        let Some(pulse) = pulse(line) else {
            return Err(Stop::At(rest));
        };
        let Ok(()) = pulses.push(pulse) else {
            return Err(Stop::Memory);
        };
        rest = next;
    }
    Ok((pulses, rest))
}

/// Reads one change that is no group; only the pulses of a splice take memory.
pub fn single(alloc: Global, text: &[u8]) -> Result<(Single, &[u8]), Stop<'_>>
    ensures { Parses IsSingle single_lines BeginsSplice text.now result }
{
    let Some((line, next)) = line_of(text) else {
        return Err(Stop::At(text));
    };
    if let Some((at, count, put)) = splice(line) {
        return match pulses(alloc, put, next) {
            Ok((put, rest)) => Ok((Single::Splice { at, count, put }, rest)),
            Err(stop) => Err(stop),
        };
    }
    match short(line) {
        Some(single) => Ok((single, next)),
        None => Err(Stop::At(text)),
    }
}

/// Reads `count` changes, none of them a group.
pub fn singles(alloc: Global, count: u64, text: &[u8]) -> Result<(Singles, &[u8]), Stop<'_>>
    ensures { Parses (AreSingles count) singles_lines Any text.now result }
{
    let mut singles = Singles::new(alloc);
    let mut rest = text;
    for _ in 0..count {
        let (one, next) = match single(alloc, rest) {
            Ok(read) => read,
            Err(stop) => return Err(stop),
        };
        let Ok(()) = singles.push(one) else {
            return Err(Stop::Memory);
        };
        rest = next;
    }
    Ok((singles, rest))
}

/// Reads a change alone, or a group: a line `group K` and K changes that are no groups.
pub fn change(alloc: Global, text: &[u8]) -> Result<(Change, &[u8]), Stop<'_>>
    ensures { Parses IsChange change_lines Any text.now result }
{
    let Some((line, next)) = line_of(text) else {
        return Err(Stop::At(text));
    };
    if let Some(count) = counted(b"group", line) {
        return match singles(alloc, count, next) {
            Ok((group, rest)) => Ok((Change::Group(group), rest)),
            Err(stop) => Err(stop),
        };
    }
    // A change alone begins with the line itself, so it is read from there.
    match single(alloc, text) {
        Ok((one, rest)) => Ok((Change::One(one), rest)),
        Err(stop) => Err(stop),
    }
}

/// Reads a step: a line `at C` with the cursor that it leads to, and a change.
pub fn step(alloc: Global, text: &[u8]) -> Result<(SavedStep, &[u8]), Stop<'_>>
    ensures { Parses IsStep step_lines BeginsStep text.now result }
{
    let Some((line, next)) = line_of(text) else {
        return Err(Stop::At(text));
    };
    let Some(cursor) = counted(b"at", line) else {
        return Err(Stop::At(text));
    };
    match change(alloc, next) {
        Ok((change, rest)) => Ok((SavedStep { cursor, change }, rest)),
        Err(stop) => Err(stop),
    }
}

/// Reads `count` steps, in the order of the text.
pub fn steps(alloc: Global, count: u64, text: &[u8]) -> Result<(Steps, &[u8]), Stop<'_>>
    ensures { Parses (ManySteps count) steps_lines (BeginsSome count) text.now result }
{
    let mut steps = Steps::new(alloc);
    let mut rest = text;
    for _ in 0..count {
        let (one, next) = match step(alloc, rest) {
            Ok(read) => read,
            Err(stop) => return Err(stop),
        };
        let Ok(()) = steps.push(one) else {
            return Err(Stop::Memory);
        };
        rest = next;
    }
    Ok((steps, rest))
}

/// Reads a line of the word `head` and a count, and then that many steps.
pub fn counted_steps<'a>(
    alloc: Global,
    head: &[u8],
    text: &'a [u8],
) -> Result<(Steps, &'a [u8]), Stop<'a>>
    requires { IsWordy head.now }
    ensures { Parses AreSteps (counted_lines head.now) (BeginsSteps head.now) text.now result }
{
    let Some((line, next)) = line_of(text) else {
        return Err(Stop::At(text));
    };
    let Some(count) = counted(head, line) else {
        return Err(Stop::At(text));
    };
    steps(alloc, count, next)
}

/// Reads the lines of marks, in the order a to z. The rest begins with the first line that is no
/// mark's or is out of order.
pub fn marks(text: &[u8]) -> (Marks, &[u8])
    ensures { (length result.0 ≡ 26) × Leads 97 result.0 text.now result.1.now }
{
    let mut marks = [None; 26];
    let mut rest = text;
    for letter in 0..26 {
        let (time, next) = marked(b'a' + letter, rest);
        marks[letter as usize] = time;
        rest = next;
    }
    (marks, rest)
}

/// Reads the time of one mark, if the first line is that of its letter, `a` to `z`.
fn marked(letter_byte: u8, text: &[u8]) -> (Option<u64>, &[u8])
    requires { (32 < letter_byte) × (letter_byte < 127) }
    ensures { Leads letter_byte (result.0 ∷ []) text.now result.1.now }
{
    let Some((line, next)) = line_of(text) else {
        return (None, text);
    };
    match mark(letter_byte, line) {
        Some(time) => (Some(time), next),
        None => (None, text),
    }
}
