//! Numbers of a script.

ghost use Rattle.std.specs.Prelude.{◌≡◌, ◌<◌, ◌^◌, IfOk};
ghost use Rattle.irig_lines.specs.Findings.{Finds};
ghost use Rattle.irig_lines.specs.Numbers.{IsNumber, IsDistance, IsControl, IsSigned, is_digit};
ghost use Rattle.irig_lines.specs.Numbers.{size, hex_digit};

use crate::command::BadLine;
use crate::cutting::is_sign;

/// Digits of a number, at most: so each is below 2^63, with a sign too.
const DIGITS_LIMIT: usize = 18;

/// Hexadecimal digits of control functions: 48 bits, as no format has more than 45.
const CONTROL_LIMIT: usize = 12;

/// A number of 1 to 18 decimal digits.
pub fn number(word: &[u8]) -> Result<u64, BadLine>
    ensures read { Finds (IsNumber word.now) result }
    ensures small { IfOk result (λ n. n < 10 ^ 18) }
{
    if word.is_empty() || word.len() > DIGITS_LIMIT {
        return Err(BadLine);
    }
    let mut number = 0;
    for digit in word {
        if !is_digit(*digit) {
            return Err(BadLine);
        }
        number = 10 * number + u64::from(*digit - b'0');
    }
    Ok(number)
}

fn is_digit(byte: u8) -> bool
    ensures { result ≡ is_digit byte }
{
    matches!(byte, b'0'..=b'9')
}

/// A distance in microseconds: such a number with an optional sign.
pub fn distance(word: &[u8]) -> Result<i64, BadLine>
    ensures { Finds (IsDistance word.now) result }
{
    match word {
        [sign, digits @ ..] if is_sign(*sign) => Ok(signed(*sign, number(digits)?)),
        _ => Ok(signed(b'+', number(word)?)),
    }
}

/// A number after a sign; any byte but a minus counts as a plus.
pub fn signed(sign: u8, number: u64) -> i64
    requires { number < 2 ^ 63 }
    ensures sign { IsSigned sign result }
    ensures size { size result ≡ number }
{
    if sign == b'-' {
        -(number as i64)
    } else {
        number as i64
    }
}

/// Control functions, of which the lowest bit is the first.
pub fn control(word: &[u8]) -> Result<u64, BadLine>
    ensures { Finds (IsControl word.now) result }
{
    if word.is_empty() || word.len() > CONTROL_LIMIT {
        return Err(BadLine);
    }
    let mut number = 0;
    for byte in word {
        let digit = hex_digit(*byte);
        if digit > 15 {
            return Err(BadLine);
        }
        number = 16 * number + digit;
    }
    Ok(number)
}

/// 16 if the byte is no digit, of either case.
fn hex_digit(byte: u8) -> u64
    ensures { result ≡ hex_digit byte }
{
    match byte {
        b'0'..=b'9' => u64::from(byte - b'0'),
        b'a'..=b'f' => u64::from(byte - b'a' + 10),
        b'A'..=b'F' => u64::from(byte - b'A' + 10),
        _ => 16,
    }
}
