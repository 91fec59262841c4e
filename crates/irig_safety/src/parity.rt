//! The parity of frames: whether the ones of a frame up to element 75 are odd in number or even.

ghost use Rattle.std.specs.Prelude.{◌≡◌, ◌≤◌};
ghost use Rattle.irig_codes.specs.Format.{control_count_of};
ghost use Rattle.irig_safety.specs.Parity.{changes, have_parity, is_parity_mended, ones_of_digit};
ghost use Rattle.irig_safety.specs.Parity.{ones_of_functions, ones_of_number, ones_of_time};
ghost use Rattle.irig_safety.specs.Parity.{parities, parity_of};

use crate::controls::{function_element, function_of, functions};
use crate::shown::Shown;
use irig_codes::{Fields, Format};

/// Its element, from 0, in IEEE 1344 and IEEE C37.118.
const PARITY: usize = 75;

/// Whether just one control function changed, and by that the parity became that of `others`. A
/// function after the element of the parity leaves it as it is.
pub fn is_parity_mended(format: Format, others: &[Shown], former: &Shown, frame: &Shown) -> bool
    ensures { result ≡ is_parity_mended format others.now former.now frame.now }
{
    changes(format, former, frame) == 1
        && parity_of(format, former) != parity_of(format, frame)
        && have_parity(format, others, parity_of(format, frame))
}

fn changes(format: Format, one: &Shown, other: &Shown) -> u32
    ensures { result ≡ changes (control_count_of format) one.now other.now }
{
    let mut changed = 0;
    for function in 0..functions(format) {
        if function_of(one, function) != function_of(other, function) {
            changed += 1;
        }
    }
    changed
}

/// Whether at least 8 + 5 * n frames have this parity, if n have the other one. Both numbers are
/// this project's own: a few frames can have the same parity by chance.
fn have_parity(format: Format, frames: &[Shown], parity: u64) -> bool
    requires { parity ≤ 1 }
    ensures { result ≡ have_parity format parity frames.now }
{
    8 + 5 * parities(format, frames, 1 - parity) as u128 <= parities(format, frames, parity) as u128
}

fn parities(format: Format, frames: &[Shown], parity: u64) -> usize
    ensures { result ≡ parities format parity frames.now }
{
    let mut many = 0;
    for frame in frames {
        if parity_of(format, frame) == parity {
            many += 1;
        }
    }
    many
}

/// 1 or 0. The ones of the time and the year count, those of straight binary seconds are after it.
fn parity_of(format: Format, frame: &Shown) -> u64
    ensures value { result ≡ parity_of format frame.now }
    ensures bit { result ≤ 1 }
{
    (ones_of_time(&frame.fields) + ones_of_functions(format, frame)) % 2
}

/// Six numbers of up to 12 ones.
fn ones_of_time(fields: &Fields) -> u64
    ensures value { result ≡ ones_of_time fields.now }
    ensures few { result ≤ 72 }
{
    ones_of_number(fields.seconds)
        + ones_of_number(fields.minutes)
        + ones_of_number(fields.hours)
        + ones_of_number(fields.days)
        + ones_of_number(fields.hundredths.unwrap_or(0))
        + ones_of_number(fields.year.unwrap_or(0))
}

/// The ones of the last three digits, each in binary; no number of a frame has more.
fn ones_of_number(number: u32) -> u64
    ensures value { result ≡ ones_of_number number }
    ensures few { result ≤ 12 }
{
    ones_of_digit(number % 10) + ones_of_digit(number / 10 % 10) + ones_of_digit(number / 100 % 10)
}

fn ones_of_digit(digit: u32) -> u64
    ensures value { result ≡ ones_of_digit digit }
    ensures few { result ≤ 4 }
{
    (digit % 2 + digit / 2 % 2 + digit / 4 % 2 + digit / 8 % 2) as u64
}

/// The control functions that are one, with elements up to that of the parity.
fn ones_of_functions(format: Format, frame: &Shown) -> u64
    ensures value { result ≡ ones_of_functions format (control_count_of format) frame.now }
    ensures few { result ≤ 45 }
{
    let mut many = 0;
    for function in 0..functions(format) {
        if function_element(format, function) <= PARITY {
            many += function_of(frame, function);
        }
    }
    many
}
