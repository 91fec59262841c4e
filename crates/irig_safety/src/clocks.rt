//! When a frame begins by the clock that two other frames show.

ghost use Rattle.std.specs.Prelude.{◌≡◌};
ghost use Rattle.irig_safety.specs.Clocks.{is_by_clock, is_by_near_clock, is_in_time};
ghost use Rattle.irig_safety.specs.Clocks.{shows_any_clock, shows_clock};

use crate::bearing::{apart, distance, is_shown, stray};
use crate::calendar::{is_later, periods};
use crate::shown::Shown;
use irig_codes::Format;

/// Whether two frames agree and show a clock that is off by a fortieth at most; else a step can be
/// between them. One period apart, 8 in 100 is allowed: a step can only be in the last interval of
/// the first, which reads well.
pub fn shows_clock(format: Format, one: &Shown, other: &Shown) -> bool
    ensures { result ≡ shows_clock format one.now other.now }
{
    let (off, many) = (stray(format, one, other), periods(format, one, other));
    let frame = u128::from(format.frame_period());
    is_shown(format, one, other) && (40 * off <= many * frame || many == 1 && 25 * off <= 2 * frame)
}

/// Whether `frame` begins when it should after `from`, to half an interval, by the clock of `one`
/// and `other`; callers test that these show one. Both sides are times the periods of these two.
pub fn is_in_time(format: Format, one: &Shown, other: &Shown, from: &Shown, frame: &Shown) -> bool
    ensures { result ≡ is_in_time format one.now other.now from.now frame.now }
{
    let whole = periods(format, one, other);
    let here = distance(from, frame) * whole;
    let wanted = periods(format, from, frame) * distance(one, other);
    is_later(format, from, frame)
        && 2 * apart(here, wanted) <= whole * u128::from(format.interval())
}

/// Whether `one` and `other` show a clock (`shows_clock`), and `frame` is in time by it.
pub fn is_by_clock(format: Format, one: &Shown, other: &Shown, from: &Shown, frame: &Shown) -> bool
    ensures { result ≡ is_by_clock format one.now other.now from.now frame.now }
{
    shows_clock(format, one, other) && is_in_time(format, one, other, from, frame)
}

/// Whether `frame` is in time by the clock of two frames one period apart, at most two periods
/// after `from`: further away this clock says nothing, since it can wander.
pub fn is_by_near_clock(
    format: Format,
    one: &Shown,
    other: &Shown,
    from: &Shown,
    frame: &Shown,
) -> bool
    ensures { result ≡ is_by_near_clock format one.now other.now from.now frame.now }
{
    periods(format, one, other) == 1
        && periods(format, from, frame) <= 2
        && is_by_clock(format, one, other, from, frame)
}

/// Whether two frames agree, and show a clock that is off by 8 in 100 at most. A step can be
/// between them: callers compare this clock with that of other frames.
pub fn shows_any_clock(format: Format, one: &Shown, other: &Shown) -> bool
    ensures { result ≡ shows_any_clock format one.now other.now }
{
    is_shown(format, one, other)
        && 25 * stray(format, one, other)
            <= 2 * (periods(format, one, other) * u128::from(format.frame_period()))
}
