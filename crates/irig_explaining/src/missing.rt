//! What elements cost that have no rise.

ghost use Rattle.std.specs.Prelude.{◌≡◌, ◌+◌, ◌*◌, ◌^◌, ◌<◌, ◌≤◌};
ghost use Rattle.irig_explaining.specs.Missing.{logarithm, missing};

use crate::table::{LOGARITHMS, MISSING};

/// What that many elements next to each other cost that have no rise.
pub(crate) fn missing(count: u64) -> u64
    requires { count < 2 ^ 50 }
    ensures exact { result ≡ missing count }
    ensures small { result < 2 ^ 57 }
{
    if count == 0 {
        return 0;
    }
    MISSING + 6 * logarithm(count) / 5
}

/// Sixteen times the natural logarithm of a number from 1 on: larger ones are halved until the
/// table has them.
pub fn logarithm(number: u64) -> u64
    requires { number < 2 ^ 50 }
    ensures exact { result ≡ logarithm number }
    ensures small { result < 2 ^ 10 }
{
    let mut left = number;
    let mut more = 0;
    while 16 <= left {
        left /= 2;
        more += 11;
    }
    more + LOGARITHMS[left as usize]
}
