//! The patch between two recordings, as a text in parts.

ghost use Rattle.std.specs.Prelude.{◌≡◌, ◌↔◌, ◌≤◌, ◌++◌, ◌∷◌, [], true, false, IfOk, OnOk, decimal};
ghost use Rattle.std.specs.Prelude.{drop, length, vec_len};
ghost use Rattle.irig_difference.specs.PatchText.{length_note, line_of, patch_text, script_of};

use crate::differences::Differences;
use irig_recording::Recording;
use irig_text::Text;
use std::alloc::AllocError;
use std::marker::Model;

/// The room for a space and the most decimal digits of a `u64`, which are 20.
const ROOM: usize = 21;

/// The patch between two recordings: a line of the editor's language for each stretch, after the
/// note if their lengths differ.
#[derive(Drop)]
pub struct PatchText<'a> {
    // Whether the note was written, if there is one.
    is_noted: bool,
    // The two lengths, in microseconds.
    before: u64,
    after: u64,
    left: Differences<'a>,
}

impl<'a> Model for PatchText<'a> {
    ghost use Rattle.std.specs.Prelude.{ℕ, List};
    ghost use Rattle.irig_difference.specs.PatchText.{patch_left};

    ghost Value = { List ℕ };

    ghost view = { λ p. patch_left p.is_noted p.before p.after p.left };
}

impl<'a> PatchText<'a> {
    /// The patch that turns `before` into `after`; `fill` writes its lines.
    pub fn between(before: &'a Recording, after: &'a Recording) -> PatchText<'a>
        ensures text { result ≡ patch_text before.now after.now }
        // The text is empty if the two recordings are the same, and only then.
        ensures same { result ≡ [] ↔ before.now ≡ after.now }
    {
        PatchText {
            is_noted: false,
            before: before.length(),
            after: after.length(),
            left: Differences::between(before, after),
        }
    }
}

impl Text for PatchText<'_> {
    ghost rest = { λ p. p };

    // The note comes first. True only if no line is left; false if the block is full.
    fn fill(&mut self, block: &mut Vec<u8>, enough: usize) -> Result<bool, AllocError> {
        if !self.is_noted {
            put_note(block, self.before, self.after)?;
            self.is_noted = true;
        }
        put_lines(block, &mut self.left, enough)
    }
}

/// Writes the note with two lengths, as in `# length 1000 3000`; nothing if they are the same.
pub fn put_note(block: &mut Vec<u8>, before: u64, after: u64) -> Result<(), AllocError>
    ensures { OnOk result (block.new.items ≡ block.old.items ++ length_note before after) }
{
    if before == after {
        return Ok(());
    }
    put_line(block, b"# length", before, after)
}

/// Writes lines of stretches to a block until it has `enough` bytes.
fn put_lines(
    block: &mut Vec<u8>,
    left: &mut Differences<'_>,
    enough: usize,
) -> Result<bool, AllocError>
    ensures bytes { OnOk result
        (block.new.items ++ script_of left.new ≡ block.old.items ++ script_of left.old) }
    ensures end { IfOk result (λ ended. ended ≡ true → left.new ≡ []) }
    ensures full { IfOk result (λ ended. ended ≡ false → enough ≤ vec_len block.new) }
{
    while block.len() < enough {
        match left.next() {
            Some(stretch) => put_line(block, b"invert", stretch.rise, stretch.fall)?,
            None => return Ok(true),
        }
    }
    Ok(false)
}

/// Writes a line: a word and two numbers, as in `invert 1000 3000`.
pub fn put_line(block: &mut Vec<u8>, word: &[u8], first: u64, second: u64) -> Result<(), AllocError>
    ensures { OnOk result (block.new.items ≡ block.old.items ++ line_of word.now first second) }
{
    block.extend_from_slice(word)?;
    put_number(block, first)?;
    put_number(block, second)?;
    block.extend_from_slice(b"\n")
}

pub fn put_number(block: &mut Vec<u8>, number: u64) -> Result<(), AllocError>
    ensures { OnOk result (block.new.items ≡ block.old.items ++ 32 ∷ decimal number) }
{
    let mut digits = [0; ROOM];
    let start = put_digits(&mut digits, number);
    block.extend_from_slice(&digits[start..])
}

/// Writes a space and a number into the last of the 21 bytes of `digits`, which have room for it.
/// Returns the index, from 0, of the space.
fn put_digits(digits: &mut [u8], number: u64) -> usize
    requires { length digits.old ≡ 21 }
    ensures within { result ≤ length digits.new }
    ensures written { drop result digits.new ≡ 32 ∷ decimal number }
{
    let start = itoa::write_digits(number, digits, ROOM) - 1;
    digits[start] = b' ';
    start
}
