//! Numbers in decimal digits.

ghost use Rattle.std.specs.Prelude.{◌≡◌};
ghost use Rattle.irig_vcd.specs.Code.Decimal.{capped_from};

/// A larger number is read as this one. A time of a dump is at most 2^40 microseconds.
pub const NUMBER_LIMIT: u64 = 1 << 41;

/// The number that digits spell, or 2^41 if it is above; `None` if a byte is no digit.
pub fn number(digits: &[u8]) -> Option<u64>
    ensures { result ≡ capped_from 0 digits.now }
{
    let mut value = 0u64;
    for digit in digits {
        if *digit < b'0' || *digit > b'9' {
            return None;
        }
        value = (10 * value + (*digit - b'0') as u64).min(NUMBER_LIMIT);
    }
    Some(value)
}
