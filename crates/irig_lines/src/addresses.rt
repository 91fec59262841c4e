//! Addresses, ranges and times of a script, read.

ghost use Rattle.std.specs.Prelude.{◌≡◌, ◌<◌};
ghost use Rattle.irig_saved.specs.Letters.{letter_word};
ghost use Rattle.irig_lines.specs.Findings.{Finds};
ghost use Rattle.irig_lines.specs.Addresses.{IsBase, IsOffset, IsAddress, IsPair};
ghost use Rattle.irig_lines.specs.Addresses.{IsAddressOrCursor, IsRange, IsTime, at};

use crate::address::{Address, Base};
use crate::command::BadLine;
use crate::cutting::{Until, cut, is_sign};
use crate::numbers::{number, signed};
use crate::range::Range;
use crate::time::Time;
use irig_saved::Letter;

/// The letter of a mark, alone in a word.
pub fn letter(word: &[u8]) -> Result<Letter, BadLine>
    ensures { Finds (λ l. (word.now ≡ letter_word l) × (l < 26)) result }
{
    Letter::named(word).ok_or(BadLine)
}

/// A number of microseconds, or an apostrophe and the letter of a mark, set or not.
pub fn time(word: &[u8]) -> Result<Time, BadLine>
    ensures { Finds (IsTime word.now) result }
{
    match word {
        [b'\'', name @ ..] => Ok(Time::Mark(letter(name)?)),
        _ => Ok(Time::At(number(word)?)),
    }
}

/// What an address counts from: `.` or no text, `$`, an apostrophe and a letter, or a number.
fn base(text: &[u8]) -> Result<Base, BadLine>
    ensures { Finds (IsBase text.now) result }
{
    match text {
        [] | [b'.'] => Ok(Base::Current),
        [b'$'] => Ok(Base::Last),
        [b'\'', name @ ..] => Ok(Base::Mark(letter(name)?)),
        _ => Ok(Base::Number(number(text)?)),
    }
}

/// The text of an address from its sign on: no text is 0, a sign alone is 1 or -1.
fn offset(text: &[u8]) -> Result<i64, BadLine>
    ensures { Finds (IsOffset text.now) result }
{
    match text {
        [] => Ok(0),
        [sign] if is_sign(*sign) => Ok(signed(*sign, 1)),
        [sign, digits @ ..] if is_sign(*sign) => Ok(signed(*sign, number(digits)?)),
        _ => Err(BadLine),
    }
}

/// A base and an offset, either of which may be missing, but not both.
pub fn address(text: &[u8]) -> Result<Address, BadLine>
    ensures { Finds (IsAddress text.now) result }
{
    if text.is_empty() {
        return Err(BadLine);
    }
    let (front, back) = cut(text, Until::Sign);
    Ok(Address {
        base: base(front)?,
        offset: offset(back)?,
    })
}

fn at(base: Base) -> Address
    ensures { result ≡ at base }
{
    Address { base, offset: 0 }
}

/// An empty text is the address of the cursor.
pub fn address_or_cursor(text: &[u8]) -> Result<Address, BadLine>
    ensures { Finds (IsAddressOrCursor text.now) result }
{
    if text.is_empty() {
        Ok(at(Base::Current))
    } else {
        address(text)
    }
}

/// Two addresses with a comma between them, or one; a comma alone is all pulses, `1,$`.
pub fn range(text: &[u8]) -> Result<Range, BadLine>
    ensures { Finds (IsRange text.now) result }
{
    let (first, rest) = cut(text, Until::Comma);
    match rest {
        [] => Ok(Range::One(address_or_cursor(text)?)),
        [_, second @ ..] => {
            let (first, last) = pair(first, second)?;
            Ok(Range::Two(first, last))
        }
    }
}

fn pair(first: &[u8], second: &[u8]) -> Result<(Address, Address), BadLine>
    ensures { Finds (λ p. IsPair first.now second.now p.0 p.1) result }
{
    if first.is_empty() && second.is_empty() {
        return Ok((at(Base::Number(1)), at(Base::Last)));
    }
    Ok((address(first)?, address(second)?))
}
