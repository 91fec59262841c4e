//! Numbers and words, each added to the end of a text.

ghost use Rattle.std.specs.Prelude.{◌≡◌, ◌++◌, OnOk, decimal};

use std::alloc::AllocError;

/// The most digits of a number of 64 bits.
const MOST_DIGITS: usize = 20;

/// A word, and a number in decimal.
pub fn put_word(text: &mut Vec<u8>, word: &[u8], number: u64) -> Result<(), AllocError>
    ensures { OnOk result (text.new.items ≡ text.old.items ++ (word.now ++ decimal number)) }
{
    text.extend_from_slice(word)?;
    put_number(text, number)
}

pub fn put_number(text: &mut Vec<u8>, number: u64) -> Result<(), AllocError>
    ensures { OnOk result (text.new.items ≡ text.old.items ++ decimal number) }
{
    let mut digits = [0; MOST_DIGITS];
    let start = itoa::write_digits(number, &mut digits, MOST_DIGITS);
    text.extend_from_slice(&digits[start..])
}
