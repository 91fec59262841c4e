//! Whether the clock changes evenly from that of two frames to that of two later ones, as on a tape
//! that slows down.

ghost use Rattle.std.specs.Prelude.{◌≡◌, ◌≤◌, ◌<◌, ◌^◌, IsTrue};
ghost use Rattle.irig_safety.specs.Calendar.{periods};
ghost use Rattle.irig_safety.specs.Curves.{are_few, changes_evenly, clock_scale, is_mean};
ghost use Rattle.irig_safety.specs.Curves.{period_after, period_before};

use crate::bearing::{apart, distance};
use crate::calendar::{is_later, periods};
use crate::clocks::shows_any_clock;
use crate::shown::Shown;
use irig_codes::Format;

/// The two frames before a place, and the two after it.
#[derive(Clone, Copy)]
pub struct Sides {
    pub before2: Shown,
    pub before: Shown,
    pub after: Shown,
    pub after2: Shown,
}

/// Up to 500 periods no number below is too large for its type.
fn are_few(format: Format, sides: &Sides) -> bool
    ensures value { result ≡ are_few format sides.now }
    ensures before { IsTrue result → periods format sides.now.before2 sides.now.before ≤ 500 }
    ensures across { IsTrue result → periods format sides.now.before sides.now.after ≤ 500 }
    ensures after { IsTrue result → periods format sides.now.after sides.now.after2 ≤ 500 }
{
    periods(format, &sides.before2, &sides.before) <= 500
        && periods(format, &sides.before, &sides.after) <= 500
        && periods(format, &sides.after, &sides.after2) <= 500
}

/// The period by the clock of the two before, times `clock_scale`, of which their own periods
/// cancel.
pub fn period_before(format: Format, sides: &Sides) -> u128
    requires { periods format sides.now.after sides.now.after2 ≤ 500 }
    ensures value { result ≡ period_before format sides.now }
    ensures small { result < 2 ^ 73 }
{
    let many = periods(format, &sides.after, &sides.after2);
    distance(&sides.before2, &sides.before) * many
}

/// The period by the clock of the two after, times `clock_scale`.
pub fn period_after(format: Format, sides: &Sides) -> u128
    requires { periods format sides.now.before2 sides.now.before ≤ 500 }
    ensures value { result ≡ period_after format sides.now }
    ensures small { result < 2 ^ 73 }
{
    let many = periods(format, &sides.before2, &sides.before);
    distance(&sides.after, &sides.after2) * many
}

/// What both are multiplied by, so that they can be compared without dividing.
pub fn clock_scale(format: Format, sides: &Sides) -> u128
    requires before { periods format sides.now.before2 sides.now.before ≤ 500 }
    requires after { periods format sides.now.after sides.now.after2 ≤ 500 }
    ensures value { result ≡ clock_scale format sides.now }
    ensures small { result < 2 ^ 18 }
{
    let many = periods(format, &sides.before2, &sides.before);
    many * periods(format, &sides.after, &sides.after2)
}

/// Whether `before` and `after` are as far apart as the mean of both clocks says, to half an
/// interval. Both sides are times twice `clock_scale`.
fn is_mean(format: Format, sides: &Sides) -> bool
    requires before { periods format sides.now.before2 sides.now.before ≤ 500 }
    requires across { periods format sides.now.before sides.now.after ≤ 500 }
    requires after { periods format sides.now.after sides.now.after2 ≤ 500 }
    ensures { result ≡ is_mean format sides.now }
{
    let scale = clock_scale(format, sides);
    let both = period_before(format, sides) + period_after(format, sides);
    let found = 2 * (scale * distance(&sides.before, &sides.after));
    let wanted = periods(format, &sides.before, &sides.after) * both;
    apart(found, wanted) <= scale * u128::from(format.interval())
}

/// Whether the mean of both clocks fits between (`is_mean`). False if a clock is off by more than 8
/// in 100, or a frame is more than 500 periods before the next.
pub fn changes_evenly(format: Format, sides: &Sides) -> bool
    ensures value { result ≡ changes_evenly format sides.now }
    ensures before { IsTrue result → periods format sides.now.before2 sides.now.before ≤ 500 }
    ensures across { IsTrue result → periods format sides.now.before sides.now.after ≤ 500 }
    ensures after { IsTrue result → periods format sides.now.after sides.now.after2 ≤ 500 }
{
    shows_any_clock(format, &sides.before2, &sides.before)
        && shows_any_clock(format, &sides.after, &sides.after2)
        && is_later(format, &sides.before, &sides.after)
        && are_few(format, sides)
        && is_mean(format, sides)
}
