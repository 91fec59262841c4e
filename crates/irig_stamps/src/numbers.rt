//! The decimal number in a column, times 10^`places`, as a whole number.

ghost use Rattle.std.specs.Prelude.{◌≡◌, ◌^◌, ℕ, List, min, option_map};
ghost use Rattle.irig_stamps.specs.Columns.{before, onward};
ghost use Rattle.irig_stamps.specs.Exponents.{after_e, if_blank, powered, with_exponent};
ghost use Rattle.irig_stamps.specs.Numbers.{capped, number_in, signed, size_in, sized, whole_in};
ghost use Rattle.irig_stamps.specs.Numbers.{with_fraction, with_sign};
ghost use Rattle.irig_stamps.specs.declared.cutting.Until.TheVariants.{NonDigit};

use crate::cutting::{Until, cut};
use crate::picos::Picos;
use crate::point::{divided_by_power, point_right, times_power, with_digits};

/// The number in a column, if it is one: maybe a sign, digits, maybe a point and digits, and maybe
/// an exponent, with white space round it; else `None`.
pub fn number(places: usize, text: &[u8]) -> Option<Picos>
    ensures { result ≡ option_map capped (number_in places text.now) }
{
    let (_, text) = cut(text, Until::NonBlank);
    signed(places, text)
}

/// The number of a text, maybe with a sign before its first digit.
fn signed(places: usize, text: &[u8]) -> Option<Picos>
    ensures { result ≡ option_map capped (signed places text.now) }
{
    match text {
        [b'-', text @ ..] => sized(true, places, text),
        [b'+', text @ ..] => sized(false, places, text),
        _ => sized(false, places, text),
    }
}

/// The number of a text that has no sign, or whose sign is passed already: before zero if that was
/// a minus (`negative`).
fn sized(negative: bool, places: usize, text: &[u8]) -> Option<Picos>
    ensures { result ≡ option_map capped (sized negative places text.now) }
{
    with_sign(negative, size_in(negative, places, text))
}

/// `None` if there is no size, as the text was no number.
fn with_sign(negative: bool, size: Option<u128>) -> Option<Picos>
    ensures { result ≡ with_sign negative size }
{
    match size {
        Some(size) => Some(Picos { negative, size }),
        None => None,
    }
}

/// The whole number that a text is, if it has only digits and at least one; 2^120 if it is greater.
pub fn whole(text: &[u8]) -> Option<u128>
    ensures { result ≡ option_map (λ v. min v (2 ^ 120)) (whole_in text.now) }
{
    let (number, rest) = cut(text, Until::NonDigit);
    if number.is_empty() || !rest.is_empty() {
        return None;
    }
    Some(with_digits(0, number))
}

/// The size of the number that a text without a sign is; `None` if the text does not begin with a
/// digit, or if something else than `with_fraction` takes is after its first digits.
fn size_in(up: bool, places: usize, text: &[u8]) -> Option<u128>
    ensures { result ≡ option_map (λ v. min v (2 ^ 120)) (size_in up places text.now) }
{
    let (integer, rest) = cut(text, Until::NonDigit);
    if integer.is_empty() {
        return None;
    }
    with_fraction(up, places, integer, rest)
}

/// The size of a number with the digits `integer` before its point.
fn with_fraction(up: bool, places: usize, integer: &[u8], rest: &[u8]) -> Option<u128>
    ensures { result ≡ option_map (λ v. min v (2 ^ 120))
        (with_fraction up places integer.now rest.now) }
{
    match rest {
        [] => Some(point_right(up, places, integer, b"")),
        [b'.', rest @ ..] => {
            let (fraction, rest) = cut(rest, Until::NonDigit);
            if fraction.is_empty() {
                return None;
            }
            with_exponent(up, places, integer, fraction, rest)
        }
        _ => with_exponent(up, places, integer, b"", rest),
    }
}

/// The size of a number with these digits before its point and after it.
fn with_exponent(
    up: bool,
    places: usize,
    integer: &[u8],
    fraction: &[u8],
    rest: &[u8],
) -> Option<u128>
    ensures { result ≡ option_map (λ v. min v (2 ^ 120))
        (with_exponent up places integer.now fraction.now rest.now) }
{
    match rest {
        [] => Some(point_right(up, places, integer, fraction)),
        [b'e' | b'E', rest @ ..] => after_e(up, places, integer, fraction, rest),
        _ => if_blank(rest, point_right(up, places, integer, fraction)),
    }
}

/// The size of a number with these digits and an exponent.
fn after_e(up: bool, places: usize, integer: &[u8], fraction: &[u8], rest: &[u8]) -> Option<u128>
    ensures { result ≡ option_map (λ v. min v (2 ^ 120))
        (after_e up places integer.now fraction.now rest.now) }
{
    match rest {
        [b'-', rest @ ..] => with_power(up, true, places, integer, fraction, rest),
        [b'+', rest @ ..] => with_power(up, false, places, integer, fraction, rest),
        _ => with_power(up, false, places, integer, fraction, rest),
    }
}

/// The size of a number with these digits and an exponent, whose sign is passed already.
fn with_power(
    up: bool,
    left: bool,
    places: usize,
    integer: &[u8],
    fraction: &[u8],
    rest: &[u8],
) -> Option<u128>
    ensures { result ≡ option_map (λ v. min v (2 ^ 120))
        (powered up left places integer.now fraction.now (before NonDigit rest.now)
        (onward NonDigit rest.now)) }
{
    let (power, rest) = cut(rest, Until::NonDigit);
    if power.is_empty() {
        return None;
    }
    let power = with_digits(0, power);
    if left {
        if_blank(rest, divided_by_power(up, places, power, integer, fraction))
    } else {
        if_blank(rest, times_power(up, places, power, integer, fraction))
    }
}

/// The value, if the text that is left is only white space or nothing; else `None`.
fn if_blank(text: &[u8], value: u128) -> Option<u128>
    ensures { result ≡ if_blank text.now value }
{
    let (_, left) = cut(text, Until::NonBlank);
    if left.is_empty() { Some(value) } else { None }
}
