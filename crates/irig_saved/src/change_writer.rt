//! Writes lines of changes in the form of a saved journal.

ghost use Rattle.std.specs.Prelude.{◌≡◌, ◌++◌, ◌<◌, ◌∷◌, [], OnOk, codes, decimal};
ghost use Rattle.std.specs.Fmt.{signed_decimal};
ghost use Rattle.irig_saved.specs.ChangeWords.{moved_word, single_line, time_word};
ghost use Rattle.irig_saved.specs.declared.single.Single.TheVariants.{Toggle, Shift, SetFormat};
ghost use Rattle.irig_saved.specs.declared.single.Single.TheVariants.{SetMark};
ghost use Rattle.irig_saved.specs.{Lines.line, Lines.numbered, SavedText.pulse_line};

use crate::letter::Letters;
use crate::single::Single;
use crate::word_writer::{
    put_formatted, put_lettered, put_number, put_numbered, put_numbers, put_word,
};
use irig_codes::Kind;
use irig_track::Pulse;
use itoa::Buffer;
use std::alloc::AllocError;

/// Writes the first line of a change; `put_pulse` writes the others that a splice has.
pub fn put_single(text: &mut Vec<u8>, single: &Single) -> Result<(), AllocError>
    ensures { OnOk result (text.new.items
        ≡ text.old.items ++ (single_line single.now ++ 10 ∷ [])) }
{
    match single {
        Single::Splice { at, count, put } => put_splice(text, *at, *count, put.len() as u64),
        Single::Toggle { a, b } => put_toggle(text, *a, *b),
        Single::Shift { i, j, by, marks } => put_shift(text, *i, *j, *by, marks),
        Single::SetFormat { kind, expression } => put_set_format(text, *kind, *expression),
        Single::SetMark { letter, time } => put_set_mark(text, letter.place(), *time),
    }
}

/// `splice AT COUNT K`: `at` is the first pulse that goes, `count` go, and `put` come.
fn put_splice(text: &mut Vec<u8>, at: u64, count: u64, put: u64) -> Result<(), AllocError>
    ensures { OnOk result (text.new.items
        ≡ text.old.items ++ (numbered (codes "splice") (at ∷ count ∷ put ∷ []) ++ 10 ∷ [])) }
{
    put_numbered(text, b"splice", &[at, count, put])
}

/// Writes the line of a pulse that a splice inserts: its rise and its fall.
pub fn put_pulse(text: &mut Vec<u8>, pulse: Pulse) -> Result<(), AllocError>
    ensures { OnOk result (text.new.items ≡ text.old.items ++ (pulse_line pulse ++ 10 ∷ [])) }
{
    let mut buffer = Buffer::new();
    let rise = buffer.format(pulse.rise).as_bytes();
    put_numbered(text, rise, &[pulse.fall])
}

/// `toggle A B`.
fn put_toggle(text: &mut Vec<u8>, a: u64, b: u64) -> Result<(), AllocError>
    ensures { OnOk result (text.new.items
        ≡ text.old.items ++ (single_line (Toggle a b) ++ 10 ∷ [])) }
{
    put_numbered(text, b"toggle", &[a, b])
}

/// `shift I J D MARKS`: the pulses `i` to `j`, both included, and marks move by `by` microseconds.
fn put_shift(text: &mut Vec<u8>, i: u64, j: u64, by: i64, marks: &Letters) -> Result<(), AllocError>
    ensures { OnOk result (text.new.items
        ≡ text.old.items ++ (single_line (Shift i j by marks.now) ++ 10 ∷ [])) }
{
    put_shifted(text, i, j, by)?;
    put_moved(text, marks)?;
    text.push(b'\n')?;
    Ok(())
}

/// The front of this line, without the marks.
fn put_shifted(text: &mut Vec<u8>, i: u64, j: u64, by: i64) -> Result<(), AllocError>
    ensures { OnOk result (text.new.items ≡ text.old.items
        ++ line (codes "shift") (decimal i ∷ decimal j ∷ signed_decimal by ∷ [])) }
{
    text.extend_from_slice(b"shift")?;
    put_numbers(text, &[i, j])?;
    let mut buffer = Buffer::new();
    put_word(text, buffer.format(by).as_bytes())
}

/// A space and the letters of the marks that move, a to z, or `-` if none does.
fn put_moved(text: &mut Vec<u8>, marks: &Letters) -> Result<(), AllocError>
    ensures { OnOk result (text.new.items ≡ text.old.items ++ 32 ∷ moved_word marks.now) }
{
    // Each letter occurs at most once, so 26 bytes suffice.
    let mut letters = [0; 26];
    let mut count = 0;
    for letter in 0..26 {
        if marks[letter as usize] {
            letters[count] = b'a' + letter;
            count += 1;
        }
    }
    if count == 0 {
        return put_word(text, b"-");
    }
    put_word(text, &letters[..count])
}

/// `setformat X N`.
fn put_set_format(text: &mut Vec<u8>, kind: Kind, expression: u8) -> Result<(), AllocError>
    ensures { OnOk result (text.new.items
        ≡ text.old.items ++ (single_line (SetFormat kind expression) ++ 10 ∷ [])) }
{
    put_formatted(text, b"setformat", kind, expression)
}

/// `setmark x TIME`, or `setmark x -`, which clears the mark; `letter` is from 0 (a) to 25.
fn put_set_mark(text: &mut Vec<u8>, letter: u8, time: Option<u64>) -> Result<(), AllocError>
    requires { letter < 26 }
    ensures { OnOk result (text.new.items
        ≡ text.old.items ++ (single_line (SetMark letter time) ++ 10 ∷ [])) }
{
    put_lettered(text, b"setmark", letter)?;
    put_time(text, time)?;
    text.push(b'\n')?;
    Ok(())
}

/// A space and a time in microseconds, or a space and `-`.
fn put_time(text: &mut Vec<u8>, time: Option<u64>) -> Result<(), AllocError>
    ensures { OnOk result (text.new.items ≡ text.old.items ++ 32 ∷ time_word time) }
{
    match time {
        Some(time) => put_number(text, time),
        None => put_word(text, b"-"),
    }
}
