//! One printed line, while it is put together.

ghost use Rattle.std.specs.Prelude.{◌≡◌, ◌<◌, ◌≤◌, ◌+◌, ◌-◌, ◌++◌, [], length, decimal, take};
ghost use Rattle.std.specs.Prelude.{false};
ghost use Rattle.std.specs.Fmt.{digit_glyph};
ghost use Rattle.irig_print.specs.Row.{padded, hexadecimal};

use std::marker::Model;

/// The most bytes of a printed line.
const ROW_LIMIT: usize = 256;

/// Decimal, of a `u64`.
const LONG_DIGITS: usize = 20;

/// Decimal, of a `u32`.
const SHORT_DIGITS: usize = 10;

/// Of a `u64`.
const HEXADECIMAL_DIGITS: usize = 16;

/// At most 256 bytes; it takes no memory.
#[derive(Drop)]
pub struct Row {
    bytes: [u8; ROW_LIMIT],
    len: usize,
}

impl Model for Row {
    ghost use Rattle.std.specs.Prelude.{ℕ, List, take, ◌≤◌};

    ghost Value = { List ℕ };

    ghost view = { λ r. take r.len r.bytes };

    ghost invariant = { λ r. r.len ≤ 256 };
}

impl Row {
    /// An empty line.
    pub fn new() -> Row
        ensures { result ≡ [] }
    {
        Row {
            bytes: [0; ROW_LIMIT],
            len: 0,
        }
    }

    /// What was written so far.
    pub fn text(&self) -> &[u8]
        ensures text { result.now ≡ self.now }
        ensures short { length result.now ≤ 256 }
    {
        &self.bytes[..self.len]
    }

    pub fn clear(&mut self)
        ensures { self.new ≡ [] }
    {
        self.len = 0;
    }

    /// Writes bytes at the end.
    pub fn put(&mut self, text: &[u8])
        requires room { length self.old + length text.now ≤ 256 }
        ensures text { self.new ≡ self.old ++ text.now }
    {
        let len = self.len;
        self.bytes[len..len + text.len()].copy_from_slice(text);
        self.len = len + text.len();
    }

    /// In decimal, at the end.
    pub fn put_number(&mut self, number: u64)
        requires room { length self.old ≤ 236 }
        ensures text { self.new ≡ self.old ++ decimal number }
        ensures short { length self.new ≤ length self.old + 20 }
    {
        let mut digits = [0; LONG_DIGITS];
        let start = itoa::write_digits(number, &mut digits, LONG_DIGITS);
        self.put(&digits[start..]);
    }

    /// In decimal, with zeros before it if it has fewer digits than `width`.
    pub fn put_padded(&mut self, width: usize, number: u32)
        requires narrow { width ≤ 3 }
        requires room { length self.old ≤ 246 }
        ensures text { self.new ≡ self.old ++ padded width number }
        ensures short { length self.new ≤ length self.old + 10 }
    {
        let mut digits = [0; SHORT_DIGITS];
        let start = itoa::write_digits(number as u64, &mut digits, SHORT_DIGITS);
        let zeros = width.saturating_sub(SHORT_DIGITS - start);
        self.put(&b"000"[..zeros]);
        self.put(&digits[start..]);
    }

    /// In lower-case hexadecimal, without zeros before it; 0 is `0`.
    pub fn put_hexadecimal(&mut self, number: u64)
        requires room { length self.old ≤ 240 }
        ensures text { self.new ≡ self.old ++ hexadecimal number }
        ensures short { length self.new ≤ length self.old + 16 }
    {
        let mut digits = [0; HEXADECIMAL_DIGITS];
        let mut rest = number;
        let mut at = HEXADECIMAL_DIGITS - 1;
        while rest >= 16 {
            digits[at] = glyph(rest % 16);
            rest /= 16;
            at -= 1;
        }
        digits[at] = glyph(rest);
        self.put(&digits[at..]);
    }
}

/// `0` to `9` or `a` to `f`: 48 is `0`, and 87 is ten before `a`.
fn glyph(digit: u64) -> u8
    requires { digit < 16 }
    ensures { result ≡ digit_glyph false digit }
{
    if digit < 10 {
        48 + digit as u8
    } else {
        87 + digit as u8
    }
}
