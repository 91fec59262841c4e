//! Whether a pulse is on the line between two anchors: all elements between them take equally long.

ghost use Rattle.std.specs.Prelude.{◌≡◌, ◌≤◌, ◌<◌, ◌-◌, ◌/◌, ◌^◌, IfSome};
ghost use Rattle.irig_codes.specs.Format.{interval_of};
ghost use Rattle.irig_safety.specs.Lines.{fits_clock, fits_clock_if_both, fits_nearest_clock};
ghost use Rattle.irig_safety.specs.Lines.{fits_nominal, fits_steps, is_on_line, is_on_line_between};
ghost use Rattle.irig_safety.specs.Straight.{is_straight};

use crate::bearing::{apart, distance};
use crate::calendar::periods;
use crate::clocks::shows_clock;
use crate::curves::is_on_curve;
use crate::shown::Shown;
use crate::witnesses::Witnesses;
use irig_codes::Format;

/// A pulse whose place is known, `steps` elements away from the one that is looked at.
#[derive(Clone, Copy)]
pub struct Anchor {
    pub steps: u128,
    pub rise: u64,
}

/// In microseconds: how far a pulse may be off.
fn tenth(format: Format) -> u128
    ensures value { result ≡ interval_of format.kind / 10 }
    ensures small { result < 2 ^ 20 }
{
    u128::from(format.interval() / 10)
}

pub fn micros_between(from: u64, to: u64) -> u128
    ensures value { result ≡ to - from }
    ensures small { result < 2 ^ 64 }
{
    u128::from(to.saturating_sub(from))
}

/// Whether a time `micros` after the first anchor is on the straight line, to a tenth of an
/// interval. Its bound is 2^65, as `straightened` can add to a time.
pub fn is_straight(format: Format, before: &Anchor, micros: u128, after: &Anchor) -> bool
    requires { (before.now.steps ≤ 2 ^ 17) × (after.now.steps ≤ 2 ^ 17) × (micros < 2 ^ 65) }
    ensures { result ≡ is_straight format before.now micros after.now }
{
    let whole = before.steps + after.steps;
    let found = micros * whole;
    let wanted = before.steps * micros_between(before.rise, after.rise);
    apart(found, wanted) <= whole * tenth(format)
}

/// On the straight line, or on the curve of a clock that changes evenly (`is_on_curve`).
fn is_on_line_between(
    format: Format,
    near: &Witnesses,
    before: &Anchor,
    rise: u64,
    after: &Anchor,
) -> bool
    requires { (before.now.steps ≤ 2 ^ 17) × (after.now.steps ≤ 2 ^ 17) }
    ensures { result ≡ is_on_line_between format near.now before.now rise after.now }
{
    is_straight(format, before, micros_between(before.rise, rise), after)
        || is_on_curve(format, near, before, rise, after)
}

/// To a tenth of an interval, and a thousandth of `micros` for a clock that is off.
fn fits_nominal(format: Format, steps: u128, micros: u128) -> bool
    requires { (steps ≤ 2 ^ 17) × (micros < 2 ^ 64) }
    ensures { result ≡ fits_nominal format steps micros }
{
    let interval = u128::from(format.interval());
    1_000 * apart(micros, steps * interval) <= 100 * interval + micros
}

/// Whether two frames show a clock, by which `steps` elements take `micros` microseconds. Both
/// sides are times the periods that the two frames are apart (`whole`).
fn fits_clock(format: Format, steps: u128, micros: u128, one: &Shown, other: &Shown) -> bool
    requires { (steps ≤ 2 ^ 17) × (micros < 2 ^ 64) }
    ensures { result ≡ fits_clock format steps micros one.now other.now }
{
    let whole = periods(format, one, other);
    let wanted = steps * distance(one, other) / 100;
    shows_clock(format, one, other) && apart(micros * whole, wanted) <= whole * tenth(format)
}

fn fits_clock_if_both(
    format: Format,
    steps: u128,
    micros: u128,
    one: Option<Shown>,
    other: Option<Shown>,
) -> bool
    requires { (steps ≤ 2 ^ 17) × (micros < 2 ^ 64) }
    ensures { result ≡ fits_clock_if_both format steps micros one other }
{
    match (one, other) {
        (Some(one), Some(other)) => fits_clock(format, steps, micros, &one, &other),
        _ => false,
    }
}

/// By the clock of the two nearest frames: one on each side, or both on the one side that has any.
fn fits_nearest_clock(format: Format, near: &Witnesses, steps: u128, micros: u128) -> bool
    requires { (steps ≤ 2 ^ 17) × (micros < 2 ^ 64) }
    ensures { result ≡ fits_nearest_clock format near.now steps micros }
{
    match (near.before, near.after) {
        (before, None) => fits_clock_if_both(format, steps, micros, near.before2, before),
        (None, Some(after)) => fits_clock_if_both(format, steps, micros, Some(after), near.after2),
        (Some(before), Some(after)) => fits_clock(format, steps, micros, &before, &after),
    }
}

/// Whether `steps` elements take `micros` microseconds, nominally or by the nearest clock.
fn fits_steps(format: Format, near: &Witnesses, steps: u128, micros: u128) -> bool
    requires { (steps ≤ 2 ^ 17) × (micros < 2 ^ 64) }
    ensures { result ≡ fits_steps format near.now steps micros }
{
    fits_nominal(format, steps, micros) || fits_nearest_clock(format, near, steps, micros)
}

/// Whether a rise is where its anchors have it: on the line between two, or as far from one as the
/// nominal interval or the clock of the nearest frames says. False if there is no anchor.
pub fn is_on_line(
    format: Format,
    near: &Witnesses,
    before: Option<Anchor>,
    rise: u64,
    after: Option<Anchor>,
) -> bool
    requires before { IfSome before (λ a. a.steps ≤ 2 ^ 17) }
    requires after { IfSome after (λ a. a.steps ≤ 2 ^ 17) }
    ensures { result ≡ is_on_line format near.now before rise after }
{
    match (before, after) {
        (None, None) => false,
        (Some(from), None) => fits_steps(format, near, from.steps, micros_between(from.rise, rise)),
        (None, Some(to)) => fits_steps(format, near, to.steps, micros_between(rise, to.rise)),
        (Some(from), Some(to)) => is_on_line_between(format, near, &from, rise, &to),
    }
}
