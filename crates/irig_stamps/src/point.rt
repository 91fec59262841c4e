//! A decimal number whose point is moved.

ghost use Rattle.std.specs.Prelude.{◌≡◌, ◌≤◌, ◌^◌, ◌+◌, ◌*◌, ◌-◌, ◌∷◌, ℕ, suc, List, min};
ghost use Rattle.std.specs.Prelude.{drop, false, true, ◌&&◌, ◌||◌};
ghost use Rattle.irig_stamps.specs.Points.{digits_after, has_weight, padded, rounded, with_one};

use crate::cutting::{Until, cut};

/// The greatest result: 2^120.
const MOST: u128 = 1_329_227_995_784_915_872_903_807_060_280_344_576;

/// The number times 10^(`places` + `power`): the point goes to the right.
pub fn times_power(up: bool, places: usize, power: u128, integer: &[u8], fraction: &[u8]) -> u128
    requires { power ≤ 2 ^ 120 }
    ensures { (e : ℕ) → power ≡ min e (2 ^ 120)
        → result ≡ min (rounded up (places + e) 0 integer.now fraction.now) (2 ^ 120) }
{
    // Moved this far, the last digit of the fraction has 37 zeros after it. So a number with a
    // digit that is not 0 is 10^37 or more, which is greater than 2^120 (1.3 * 10^36). The point is
    // moved no further, so a great power takes no more time.
    let enough = fraction.len() as u128 + 37;
    point_right(
        up,
        enough.min(places as u128 + power) as usize,
        integer,
        fraction,
    )
}

/// The number times 10^`places`, divided by 10^`power`, and rounded as the head of this file says.
pub fn divided_by_power(
    up: bool,
    places: usize,
    power: u128,
    integer: &[u8],
    fraction: &[u8],
) -> u128
    requires { power ≤ 2 ^ 120 }
    ensures { (e : ℕ) → power ≡ min e (2 ^ 120)
        → result ≡ min (rounded up places e integer.now fraction.now) (2 ^ 120) }
{
    let places = places as u128;
    if power <= places {
        point_right(up, (places - power) as usize, integer, fraction)
    } else {
        point_left(up, power - places, integer, fraction)
    }
}

/// The number times 10^`right`.
pub fn point_right(up: bool, right: usize, integer: &[u8], fraction: &[u8]) -> u128
    ensures { result ≡ min (rounded up right 0 integer.now fraction.now) (2 ^ 120) }
{
    let value = padded(with_digits(0, integer), right, fraction);
    let one_more = rounds_up(up, digits_after_first(right, fraction), b"");
    with_one(one_more, value)
}

/// The number divided by 10^`left`.
fn point_left(up: bool, left: u128, integer: &[u8], fraction: &[u8]) -> u128
    ensures { result ≡ min (rounded up 0 left integer.now fraction.now) (2 ^ 120) }
{
    let kept = (integer.len() as u128).saturating_sub(left) as usize;
    let value = with_digits(0, &integer[..kept]);
    let one_more = rounds_up(up, digits_after_first(kept, integer), fraction);
    with_one(one_more, value)
}

fn rounds_up(up: bool, digits: &[u8], others: &[u8]) -> bool
    ensures { result ≡ (up && (has_weight digits.now || has_weight others.now)) }
{
    up && (has_nonzero(digits) || has_nonzero(others))
}

fn with_one(more: bool, value: u128) -> u128
    requires { value ≤ 2 ^ 120 }
    ensures { result ≡ min (with_one more value) (2 ^ 120) }
{
    if more { MOST.min(value + 1) } else { value }
}

/// The digits after the first `count`; none if there are no more than `count`.
fn digits_after_first(count: usize, digits: &[u8]) -> &[u8]
    ensures { result.now ≡ drop count digits.now }
{
    &digits[count.min(digits.len())..]
}

fn has_nonzero(digits: &[u8]) -> bool
    ensures { result ≡ has_weight digits.now }
{
    let (_, left) = cut(digits, Until::NonZero);
    !left.is_empty()
}

/// A value with one more decimal digit, in ASCII, after it: 10 times the value, and the digit.
fn with_digit(value: u128, digit: u8) -> u128
    requires { value ≤ 2 ^ 120 }
    ensures value { result ≡ min (10 * value + (digit - 48)) (2 ^ 120) }
    ensures most { result ≤ 2 ^ 120 }
{
    if value > MOST / 10 {
        MOST
    } else {
        MOST.min(10 * value + digit.saturating_sub(b'0') as u128)
    }
}

/// A value with more decimal digits, in ASCII, after it: 7 with `35` is 735.
pub fn with_digits(value: u128, digits: &[u8]) -> u128
    requires { value ≤ 2 ^ 120 }
    ensures { result ≡ min (digits_after value digits.now) (2 ^ 120) }
{
    let mut value = value;
    for digit in digits {
        value = with_digit(value, *digit);
    }
    value
}

/// A value with the first `places` digits of a fraction after it, and zeros for digits that the
/// fraction does not have: 7 with 3 places of `35` is 7350.
fn padded(value: u128, places: usize, fraction: &[u8]) -> u128
    requires { value ≤ 2 ^ 120 }
    ensures { result ≡ min (digits_after value (padded places fraction.now)) (2 ^ 120) }
{
    let mut value = value;
    let mut left = fraction;
    for place in 0..places {
        let (digit, rest) = first_digit(left);
        value = with_digit(value, digit);
        left = rest;
    }
    value
}

/// The first digit of a fraction, in ASCII, and the digits after it.
fn first_digit(fraction: &[u8]) -> (u8, &[u8])
    ensures { (n : ℕ) → padded (suc n) fraction.now ≡ result.0 ∷ padded n result.1.now }
{
    match fraction {
        [digit, rest @ ..] => (*digit, rest),
        [] => (b'0', fraction),
    }
}
