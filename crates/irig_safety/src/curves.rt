//! Whether a pulse is on the curve on which the clock of two frames becomes that of two later ones.

ghost use Rattle.std.specs.Prelude.{◌≡◌, ◌≤◌, ◌<◌, ◌*◌, ◌^◌};
ghost use Rattle.irig_codes.specs.Format.{interval_of};
ghost use Rattle.irig_safety.specs.{Bearing.apart, Calendar.periods};
ghost use Rattle.irig_safety.specs.Curves.{bend, bend_divisor, is_on_curve, is_on_curve_by};
ghost use Rattle.irig_safety.specs.Curves.{period_after, period_before, straightened};

use crate::bearing::apart;
use crate::calendar::periods;
use crate::lines::{Anchor, is_straight, micros_between};
use crate::turning::{Sides, changes_evenly, clock_scale, period_after, period_before};
use crate::witnesses::Witnesses;
use irig_codes::Format;

/// From the middle of the two before to that of the two after, which are `all` / 2 periods apart,
/// the period changes by `clock_difference` / `clock_scale`. 10,000, as `bend` multiplies two
/// counts of elements, 100 to a period each.
fn bend_divisor(format: Format, sides: &Sides) -> u128
    requires before { periods format sides.now.before2 sides.now.before ≤ 500 }
    requires across { periods format sides.now.before sides.now.after ≤ 500 }
    requires after { periods format sides.now.after sides.now.after2 ≤ 500 }
    ensures { result ≡ bend_divisor format sides.now }
{
    let many = periods(format, &sides.before2, &sides.before);
    let across = periods(format, &sides.before, &sides.after);
    let all = 2 * across + (many + periods(format, &sides.after, &sides.after2));
    10_000 * (clock_scale(format, sides) * all)
}

/// How many microseconds the curve is off the straight line, `since` elements after one anchor and
/// `until` before the other. If each period is longer by c than the one before, it is a parabola: s
/// periods after one anchor and u before the other it is off by c * s * u / 2.
fn bend(format: Format, sides: &Sides, since: u128, until: u128) -> u128
    requires before { periods format sides.now.before2 sides.now.before ≤ 500 }
    requires across { periods format sides.now.before sides.now.after ≤ 500 }
    requires after { periods format sides.now.after sides.now.after2 ≤ 500 }
    requires steps { (since ≤ 2 ^ 17) × (until ≤ 2 ^ 17) }
    ensures { result ≡ bend format sides.now since until }
{
    let divisor = bend_divisor(format, sides);
    if divisor == 0 {
        0
    } else {
        clock_difference(format, sides) * (since * until) / divisor
    }
}

/// By how many microseconds the periods of both clocks differ, times `clock_scale`.
fn clock_difference(format: Format, sides: &Sides) -> u128
    requires before { periods format sides.now.before2 sides.now.before ≤ 500 }
    requires after { periods format sides.now.after sides.now.after2 ≤ 500 }
    ensures value { result
        ≡ apart (period_before format sides.now) (period_after format sides.now) }
    ensures small { result < 2 ^ 73 }
{
    apart(period_before(format, sides), period_after(format, sides))
}

/// Takes the bend out of `micros` after the first anchor. If periods become longer, the first ones
/// are shorter than their mean, and the curve is earlier than the line: so the bend is added.
fn straightened(format: Format, sides: &Sides, by: u128, micros: u128) -> u128
    requires before { periods format sides.now.before2 sides.now.before ≤ 500 }
    requires after { periods format sides.now.after sides.now.after2 ≤ 500 }
    requires small { (by < 2 ^ 20) × (micros < 2 ^ 64) }
    ensures value { result ≡ straightened format sides.now by micros }
    ensures small { result < 2 ^ 65 }
{
    if period_before(format, sides) < period_after(format, sides) {
        micros + by
    } else {
        micros.saturating_sub(by)
    }
}

/// The most that a curve may bend, in microseconds: this project's own.
fn two_intervals(format: Format) -> u128
    ensures value { result ≡ 2 * interval_of format.kind }
    ensures small { result < 2 ^ 19 }
{
    2 * u128::from(format.interval())
}

/// Whether `rise` is on the curve between two anchors, to a tenth of an interval: the clock changes
/// evenly (`changes_evenly`), and without the bend the rise is on the straight line.
fn is_on_curve_by(format: Format, sides: &Sides, before: &Anchor, rise: u64, after: &Anchor) -> bool
    requires { (before.now.steps ≤ 2 ^ 17) × (after.now.steps ≤ 2 ^ 17) }
    ensures { result ≡ is_on_curve_by format sides.now before.now rise after.now }
{
    if !changes_evenly(format, sides) {
        return false;
    }
    let by = bend(format, sides, before.steps, after.steps);
    if by > two_intervals(format) {
        return false;
    }
    let micros = straightened(format, sides, by, micros_between(before.rise, rise));
    is_straight(format, before, micros, after)
}

/// Whether `rise` is on the curve by the four frames in `near`; false if one of them is not there.
pub fn is_on_curve(
    format: Format,
    near: &Witnesses,
    before: &Anchor,
    rise: u64,
    after: &Anchor,
) -> bool
    requires { (before.now.steps ≤ 2 ^ 17) × (after.now.steps ≤ 2 ^ 17) }
    ensures { result ≡ is_on_curve format near.now before.now rise after.now }
{
    match (near.before2, near.before, near.after, near.after2) {
        (Some(before2), Some(earlier), Some(later), Some(after2)) => {
            let sides = Sides {
                before2,
                before: earlier,
                after: later,
                after2,
            };
            is_on_curve_by(format, &sides, before, rise, after)
        }
        _ => false,
    }
}
