//! How the times and the rises of two frames, `one` and then `other`, go together.

ghost use Rattle.std.specs.Prelude.{◌≡◌, ◌^◌, ◌<◌};
ghost use Rattle.irig_safety.specs.Bearing.{agrees, allows, apart, distance, is_far, is_shown};
ghost use Rattle.irig_safety.specs.Bearing.{is_within, leads, slack, stray};

use crate::calendar::{is_later, periods};
use crate::shown::Shown;
use irig_codes::Format;

/// How many microseconds after `one` the frame `other` begins; 0 if it does not begin later.
pub fn distance(one: &Shown, other: &Shown) -> u128
    ensures value { result ≡ distance one.now other.now }
    ensures small { result < 2 ^ 64 }
{
    u128::from(other.rise.saturating_sub(one.rise))
}

pub fn apart(one: u128, other: u128) -> u128
    ensures value { result ≡ apart one other }
    ensures within { (one < 2 ^ 125) → (other < 2 ^ 125) → result < 2 ^ 125 }
{
    if one < other {
        other - one
    } else {
        one - other
    }
}

/// In microseconds.
pub fn stray(format: Format, one: &Shown, other: &Shown) -> u128
    ensures value { result ≡ stray format one.now other.now }
    ensures small { result < 2 ^ 90 }
{
    let expected = periods(format, one, other) * u128::from(format.frame_period());
    apart(distance(one, other), expected)
}

/// Half an interval, up to which a pulse is nearest to its own place, and a thousandth of the
/// distance, for a clock that is off. In units of 1/2000 of a microsecond.
fn slack(format: Format, one: &Shown, other: &Shown) -> u128
    ensures value { result ≡ slack format one.now other.now }
{
    1_000 * u128::from(format.interval()) + 2 * distance(one, other)
}

/// Whether two frames may stray by half a period, 50 intervals, or more (`slack`), so that their
/// distance does not say how many periods it is. That is so from 495 periods on.
pub fn is_far(format: Format, one: &Shown, other: &Shown) -> bool
    ensures { result ≡ is_far format one.now other.now }
{
    1_000 * u128::from(format.frame_period()) <= slack(format, one, other)
}

/// Whether `other` is whole periods later, and they stray by less than half a period.
pub fn is_shown(format: Format, one: &Shown, other: &Shown) -> bool
    ensures { result ≡ is_shown format one.now other.now }
{
    is_later(format, one, other)
        && 2 * stray(format, one, other) < u128::from(format.frame_period())
}

/// Whether the times of two frames fit: `other` is whole periods later, is not far from `one`, and
/// begins when it should (`slack`).
pub fn leads(format: Format, one: &Shown, other: &Shown) -> bool
    ensures { result ≡ leads format one.now other.now }
{
    is_later(format, one, other)
        && !is_far(format, one, other)
        && 2_000 * stray(format, one, other) <= slack(format, one, other)
}

/// Whether the times of two frames do not contradict each other: these are far from each other, or
/// fit.
pub fn allows(format: Format, one: &Shown, other: &Shown) -> bool
    ensures { result ≡ allows format one.now other.now }
{
    is_far(format, one, other) || is_shown(format, one, other)
}

/// Whether two frames are not far from each other, and their times fit their distance (`is_shown`).
pub fn agrees(format: Format, one: &Shown, other: &Shown) -> bool
    ensures { result ≡ agrees format one.now other.now }
{
    !is_far(format, one, other) && is_shown(format, one, other)
}

/// Whether `from` and `frame`, a part of a stretch, stray by at most half an interval more than the
/// whole from `one` to `other`, or the distance of these does not fit their times.
pub fn is_within(format: Format, one: &Shown, other: &Shown, from: &Shown, frame: &Shown) -> bool
    ensures { result ≡ is_within format one.now other.now from.now frame.now }
{
    !is_shown(format, one, other)
        || 2 * stray(format, from, frame)
            <= u128::from(format.interval()) + 2 * stray(format, one, other)
}
