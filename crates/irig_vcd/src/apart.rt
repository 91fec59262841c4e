//! Values on other codes of one byte, which are skipped with the newline after them.

ghost use Rattle.std.specs.Prelude.{◌≡◌, ◌≤◌, ◌<◌, ◌+◌, ◌∷◌, ◌↔◌, [], true, false, length, drop};
ghost use Rattle.std.specs.Prelude.{◌⊎◌, ℕ, map, slice_index, IfSome};
ghost use Rattle.std.specs.Simd.Lanes.{mask_l};
ghost use Rattle.irig_vcd.specs.Code.Short.{TakesApart, TakesValue, takes_code};
ghost use Rattle.irig_vcd.specs.{Code.Lanes.is_low, Words.words_from, Words.kind_of_byte};

use std::simd::prelude::*;

#[inline(always)]
fn is_byte(code: &[u8], byte: u8) -> bool
    ensures { (result ≡ true) ↔ (code.now ≡ byte ∷ []) }
{
    match code {
        [only] => *only == byte,
        _ => false,
    }
}

/// A value, 0 or 1, a printable code of one byte that is not the wire's, and a newline.
#[inline(always)]
fn is_apart(source: &[u8], start: usize, code: &[u8]) -> bool
    requires room { start + 3 ≤ length source.now }
    ensures { result ≡ true → TakesApart (words_from start false (drop start source.now))
        (words_from (start + 3) false (drop (start + 3) source.now)) code.now }
{
    let value = source[start];
    let other = source[start + 1];
    if value < b'0' || value > b'1' || other < b'!' || other > b'~' {
        return false;
    }
    if is_byte(code, other) {
        return false;
    }
    source[start + 2] == b'\n'
}

/// Bit k is set if byte k is at most 32: white space, or a rare byte of a word.
#[inline(always)]
fn spaces(bytes: u8x16) -> u64
    ensures { result ≡ mask_l (map is_low bytes) }
{
    bytes.simd_le(u8x16::splat(b' ')).to_bitmask()
}

/// How many bytes from the place `from` on are above 32, up to the first that is not: 0 to 16.
#[inline(always)]
fn dark_count(source: &[u8], from: usize) -> usize
    requires { from + 16 ≤ length source.now }
    ensures few { result ≤ 16 }
    ensures dark { (k : ℕ) → from ≤ k → k < from + result
        → is_low (slice_index source.now k) ≡ false }
{
    let found = spaces(u8x16::from_slice(&source[from..]));
    if found == 0 {
        return 16;
    }
    found.trailing_zeros() as usize
}

/// Where a word ends that goes on at `from`, or a place in it if fewer than 16 bytes are left.
/// Never inlined: so the loop over the tokens keeps its values in registers.
#[inline(never)]
fn dark_end(source: &[u8], from: usize) -> usize
    requires { from ≤ length source.now }
    ensures within { result ≤ length source.now }
    ensures words { words_from result true (drop result source.now)
        ≡ words_from from true (drop from source.now) }
{
    let mut at = from;
    while source.len() - at >= 16 {
        let count = dark_count(source, at);
        at += count;
        if count < 16 {
            break;
        }
    }
    at
}

/// Whether a vector, a real or a text begins with this byte.
#[inline(always)]
fn begins_value(byte: u8) -> bool
    ensures kind { result ≡ takes_code (kind_of_byte byte) }
    ensures dark { result ≡ true → 32 < byte }
{
    matches!(byte, b'b' | b'B' | b'r' | b'R' | b's' | b'S')
}

/// The place after a vector, a real or a text on another code of one byte, whatever its value is.
/// `None` also if too few bytes are left.
#[inline(always)]
fn value_apart(source: &[u8], start: usize, code: &[u8]) -> Option<usize>
    requires { start < length source.now }
    ensures taken { IfSome result (λ end. TakesValue
        (words_from start false (drop start source.now))
        (words_from end false (drop end source.now)) code.now) }
    ensures within { IfSome result (λ end. end ≤ length source.now) }
{
    if !begins_value(source[start]) {
        return None;
    }
    let space = dark_end(source, start + 1);
    if source.len() - space < 3 || source[space] != b' ' || source[space + 2] != b'\n' {
        return None;
    }
    let other = source[space + 1];
    if other <= b' ' || is_byte(code, other) {
        return None;
    }
    Some(space + 3)
}

/// The place after a value on another code of one byte, and its newline. `None`: something else is
/// there, which the slower way for any token reads.
#[inline(always)]
pub fn end_apart(source: &[u8], start: usize, code: &[u8]) -> Option<usize>
    requires room { start + 3 ≤ length source.now }
    ensures taken { IfSome result (λ end. TakesApart
        (words_from start false (drop start source.now))
        (words_from end false (drop end source.now)) code.now
        ⊎ TakesValue (words_from start false (drop start source.now))
        (words_from end false (drop end source.now)) code.now) }
    ensures within { IfSome result (λ end. end ≤ length source.now) }
{
    if is_apart(source, start, code) {
        return Some(start + 3);
    }
    value_apart(source, start, code)
}
