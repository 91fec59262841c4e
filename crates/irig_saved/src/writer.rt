//! Writes the lines of a saved journal before its steps, and those of a step before its changes.

ghost use Rattle.std.specs.Prelude.{◌≡◌, ◌++◌, ◌+◌, ◌<◌, ◌∷◌, [], OnOk, codes, decimal};
ghost use Rattle.irig_codes.specs.Words.{kind_word};
ghost use Rattle.irig_saved.specs.Lines.{line, numbered, text_of};
ghost use Rattle.irig_saved.specs.SavedText.{count_text, head_lines, mark_lines, step_head};

use crate::letter::Marks;
use crate::word_writer::{put_formatted, put_lettered, put_number, put_numbered};
use irig_codes::{Format, Kind};
use std::alloc::AllocError;

/// Writes all lines before the first step; the last is `past P`, how many steps back come next.
pub fn put_head(
    text: &mut Vec<u8>,
    format: Format,
    cursor: u64,
    marks: &Marks,
    past: u64,
) -> Result<(), AllocError>
    ensures { OnOk result (text.new.items ≡ text.old.items
        ++ (text_of (head_lines format.kind format.expression cursor marks.now)
        ++ count_text (codes "past") past)) }
{
    put_name(text)?;
    put_format(text, format.kind(), format.expression())?;
    put_cursor(text, cursor)?;
    put_marks(text, marks)?;
    put_past(text, past)
}

/// `at C` with the cursor that the step leads to, and for a group `group K`.
pub fn put_step(
    text: &mut Vec<u8>,
    cursor: u64,
    is_group: bool,
    changes: u64,
) -> Result<(), AllocError>
    ensures { OnOk result (text.new.items
        ≡ text.old.items ++ text_of (step_head cursor is_group changes)) }
{
    put_at(text, cursor)?;
    if is_group {
        put_group(text, changes)?;
    }
    Ok(())
}

/// `future Q`: the line before the steps that can be redone.
pub fn put_future(text: &mut Vec<u8>, count: u64) -> Result<(), AllocError>
    ensures { OnOk result (text.new.items
        ≡ text.old.items ++ count_text (codes "future") count) }
{
    put_numbered(text, b"future", &[count])
}

/// Line 1 of a saved journal, which names its form.
fn put_name(text: &mut Vec<u8>) -> Result<(), AllocError>
    ensures { OnOk result (text.new.items
        ≡ text.old.items ++ (codes "irig-journal-1" ++ 10 ∷ [])) }
{
    put_numbered(text, b"irig-journal-1", &[])
}

/// `format X N`: a kind such as `B`, and an expression, 0 to 7.
fn put_format(text: &mut Vec<u8>, kind: Kind, expression: u8) -> Result<(), AllocError>
    ensures { OnOk result (text.new.items ≡ text.old.items
        ++ (line (codes "format") (kind_word kind ∷ decimal expression ∷ []) ++ 10 ∷ [])) }
{
    put_formatted(text, b"format", kind, expression)
}

/// `cursor C`.
fn put_cursor(text: &mut Vec<u8>, cursor: u64) -> Result<(), AllocError>
    ensures { OnOk result (text.new.items
        ≡ text.old.items ++ (numbered (codes "cursor") (cursor ∷ []) ++ 10 ∷ [])) }
{
    put_numbered(text, b"cursor", &[cursor])
}

/// A line for each mark that is set, in the order a to z.
fn put_marks(text: &mut Vec<u8>, marks: &Marks) -> Result<(), AllocError>
    ensures { OnOk result (text.new.items
        ≡ text.old.items ++ text_of (mark_lines 97 marks.now)) }
{
    for letter in 0..26 {
        put_mark(text, letter, marks[letter as usize])?;
    }
    Ok(())
}

/// `mark x TIME`, nothing without a time; `letter` is from 0 (a) to 25.
fn put_mark(text: &mut Vec<u8>, letter: u8, time: Option<u64>) -> Result<(), AllocError>
    requires { letter < 26 }
    ensures { OnOk result (text.new.items
        ≡ text.old.items ++ text_of (mark_lines (97 + letter) (time ∷ []))) }
{
    let Some(time) = time else {
        return Ok(());
    };
    put_lettered(text, b"mark", letter)?;
    put_number(text, time)?;
    text.push(b'\n')?;
    Ok(())
}

/// `past P`: the line before the steps that can be undone.
fn put_past(text: &mut Vec<u8>, count: u64) -> Result<(), AllocError>
    ensures { OnOk result (text.new.items
        ≡ text.old.items ++ (numbered (codes "past") (count ∷ []) ++ 10 ∷ [])) }
{
    put_numbered(text, b"past", &[count])
}

/// `at C`: the first line of a step.
fn put_at(text: &mut Vec<u8>, cursor: u64) -> Result<(), AllocError>
    ensures { OnOk result (text.new.items
        ≡ text.old.items ++ (numbered (codes "at") (cursor ∷ []) ++ 10 ∷ [])) }
{
    put_numbered(text, b"at", &[cursor])
}

/// `group K`: the line before the changes of a group.
fn put_group(text: &mut Vec<u8>, count: u64) -> Result<(), AllocError>
    ensures { OnOk result (text.new.items
        ≡ text.old.items ++ (numbered (codes "group") (count ∷ []) ++ 10 ∷ [])) }
{
    put_numbered(text, b"group", &[count])
}
