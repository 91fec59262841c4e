//! Decimal digits that are read sixteen at a time, the first one in the lowest byte.

ghost use Rattle.std.specs.Prelude.{◌≡◌, ◌≤◌, ◌<◌, ◌+◌, ◌-◌, ◌*◌, ◌^◌, ◌++◌, ℕ, length, drop, map};
ghost use Rattle.std.specs.Prelude.{replicate, slice_index};
ghost use Rattle.std.specs.Int.Digits.{number_from_digits, AllBelowBase};
ghost use Rattle.std.specs.Simd.Lanes.{mask_l};
ghost use Rattle.irig_vcd.specs.{Code.Lanes.pairs_joined, Code.Lanes.shows_none, Code.Spelled.Spells};

use std::simd::prelude::*;

/// From byte `count` on these keep the last `count` of sixteen lanes by `&`, and clear the others.
const KEEP: [u8; 32] = [
    0, 0, 0, 0, 0, 0, 0, 0, 0, 0, 0, 0, 0, 0, 0, 0, 255, 255, 255, 255, 255, 255, 255, 255, 255,
    255, 255, 255, 255, 255, 255, 255,
];

/// Each two neighbours a and b are one word a + 2^k b of 2k bits. That times base * 2^k + 1, of
/// which 2k bits stay, is a + 2^k (base * a + b); the shift leaves base * a + b. Here k is 8.
#[inline(always)]
fn twos(digits: u8x16) -> u16x8
    requires digits { AllBelowBase 10 digits }
    requires long { length digits ≡ 16 }
    ensures { result ≡ pairs_joined 10 digits }
{
    (u16x8::from_le_bytes(digits) * u16x8::splat(2561)) >> u16x8::splat(8)
}

/// The same with the base 100: k is 16.
#[inline(always)]
fn fours(twos: u16x8) -> u32x4
    requires digits { AllBelowBase 100 twos }
    requires long { length twos ≡ 8 }
    ensures { result ≡ pairs_joined 100 twos }
{
    (u32x4::from_le_bytes(twos.to_le_bytes()) * u32x4::splat(6553601)) >> u32x4::splat(16)
}

/// The same with the base 10000: k is 32. `pair` has the first number in its lower half.
#[inline(always)]
fn eight(pair: u64) -> u64
    ensures { (a b : ℕ) → pair ≡ a + 2 ^ 32 * b → a < 10000 → b < 10000 → result ≡ 10000 * a + b }
{
    pair.wrapping_mul(42949672960001) >> 32
}

#[inline(always)]
fn eights(fours: u32x4) -> [u64; 2]
    requires digits { AllBelowBase 10000 fours }
    requires long { length fours ≡ 4 }
    ensures { result ≡ pairs_joined 10000 fours }
{
    let pairs = u64x2::from_le_bytes(fours.to_le_bytes()).to_array();
    [eight(pairs[0]), eight(pairs[1])]
}

/// The number that sixteen digits spell, the first of them the highest.
#[inline(always)]
pub fn sixteen(digits: u8x16) -> u64
    requires digits { AllBelowBase 10 digits }
    requires long { length digits ≡ 16 }
    ensures { result ≡ number_from_digits 10 digits }
{
    let parts = eights(fours(twos(digits)));
    parts[0] * 100_000_000 + parts[1]
}

/// Bit k is set if byte k shows no digit. A byte below `0` wraps around to a number above 9.
#[inline(always)]
fn no_digits(bytes: u8x16) -> u64
    ensures { result ≡ mask_l (map shows_none bytes) }
{
    (bytes - u8x16::splat(b'0'))
        .simd_ge(u8x16::splat(10))
        .to_bitmask()
}

/// The last `count` of sixteen lanes as they are, and 0 in those before.
#[inline(always)]
fn last_lanes(lanes: u8x16, count: usize) -> u8x16
    requires { count ≤ 16 }
    ensures { result ≡ replicate (16 - count) 0 ++ drop (16 - count) lanes }
{
    lanes & u8x16::from_slice(&KEEP[count..])
}

/// How many bytes from `from` on show digits: 0 to 15. If all sixteen do, 0: there may be more.
#[inline(always)]
fn digits_count(source: &[u8], from: usize) -> usize
    requires { from + 16 ≤ length source.now }
    ensures few { result ≤ 16 }
    ensures digits { (k : ℕ) → from ≤ k → k < from + result
        → (48 ≤ slice_index source.now k) × (slice_index source.now k ≤ 57) }
{
    let found = no_digits(u8x16::from_slice(&source[from..]));
    if found == 0 {
        return 0;
    }
    found.trailing_zeros() as usize
}

/// Where the digits from the place `from` on end, and their number; the place itself and 0 if there
/// are none or more than 15. It reads the 16 bytes from the place on, to count the digits, and then
/// the 16 before their end, so that these are the last lanes.
#[inline(always)]
pub fn lanes_end(source: &[u8], from: usize) -> (usize, u64)
    requires back { 16 ≤ from }
    requires room { from + 16 ≤ length source.now }
    ensures { Spells source.now from result.0 result.1 }
{
    let count = digits_count(source, from);
    let end = from + count;
    let ending = u8x16::from_slice(&source[end - 16..]);
    (end, sixteen(last_lanes(ending - u8x16::splat(b'0'), count)))
}
