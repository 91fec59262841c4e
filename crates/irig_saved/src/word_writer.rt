//! Writes words of a line of a saved journal, with one space between them.

ghost use Rattle.std.specs.Prelude.{◌≡◌, ◌+◌, ◌++◌, ◌<◌, ◌∷◌, [], OnOk, map, decimal};
ghost use Rattle.irig_codes.specs.Words.{kind_word};
ghost use Rattle.irig_saved.specs.Lines.{behind, line, numbered};

use irig_codes::{Kind, kind_word};
use itoa::Buffer;
use std::alloc::AllocError;

/// Writes a space and a word.
pub(crate) fn put_word(text: &mut Vec<u8>, word: &[u8]) -> Result<(), AllocError>
    ensures { OnOk result (text.new.items ≡ text.old.items ++ 32 ∷ word.now) }
{
    text.push(b' ')?;
    text.extend_from_slice(word)?;
    Ok(())
}

/// Writes a space and a number in decimal.
pub(crate) fn put_number(text: &mut Vec<u8>, number: u64) -> Result<(), AllocError>
    ensures { OnOk result (text.new.items ≡ text.old.items ++ 32 ∷ decimal number) }
{
    let mut buffer = Buffer::new();
    put_word(text, buffer.format(number).as_bytes())
}

/// Writes numbers, each after a space.
pub(crate) fn put_numbers(text: &mut Vec<u8>, numbers: &[u64]) -> Result<(), AllocError>
    ensures { OnOk result (text.new.items ≡ text.old.items ++ behind (map decimal numbers.now)) }
{
    for number in numbers {
        put_number(text, *number)?;
    }
    Ok(())
}

/// Writes a whole line: the word `head`, each number after a space, and the newline.
pub(crate) fn put_numbered(
    text: &mut Vec<u8>,
    head: &[u8],
    numbers: &[u64],
) -> Result<(), AllocError>
    ensures { OnOk result (text.new.items
        ≡ text.old.items ++ (numbered head.now numbers.now ++ 10 ∷ [])) }
{
    text.extend_from_slice(head)?;
    put_numbers(text, numbers)?;
    text.push(b'\n')?;
    Ok(())
}

/// Writes the word `head`, and after a space a letter, 0 (a) to 25; no newline.
pub(crate) fn put_lettered(text: &mut Vec<u8>, head: &[u8], letter: u8) -> Result<(), AllocError>
    requires { letter < 26 }
    ensures { OnOk result (text.new.items
        ≡ text.old.items ++ line head.now (((97 + letter) ∷ []) ∷ [])) }
{
    text.extend_from_slice(head)?;
    put_word(text, &[b'a' + letter])
}

/// Writes a whole line: the word `head`, a kind of time code and an expression.
pub(crate) fn put_formatted(
    text: &mut Vec<u8>,
    head: &[u8],
    kind: Kind,
    expression: u8,
) -> Result<(), AllocError>
    ensures { OnOk result (text.new.items ≡ text.old.items
        ++ (line head.now (kind_word kind ∷ decimal expression ∷ []) ++ 10 ∷ [])) }
{
    text.extend_from_slice(head)?;
    put_word(text, kind_word(kind).as_bytes())?;
    put_number(text, u64::from(expression))?;
    text.push(b'\n')?;
    Ok(())
}
