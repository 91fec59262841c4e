//! Whether a frame is in time by the recording's own clock: that of the frames on both sides of it.

ghost use Rattle.std.specs.Prelude.{◌≡◌, ◌<◌, ◌^◌, Some};
ghost use Rattle.irig_safety.specs.OwnClock.{is_between_clocks, is_by_own_clock, is_near_nominal};
ghost use Rattle.irig_safety.specs.OwnClock.{is_in_reach, is_on_own_clock, is_same_clock};
ghost use Rattle.irig_safety.specs.OwnClock.{is_wandering, keeps_clock_after, keeps_clock_before};
ghost use Rattle.irig_safety.specs.OwnClock.{micros_by_clock};

use crate::bearing::{apart, distance, stray};
use crate::calendar::{is_later, periods};
use crate::clocks::{is_in_time, shows_any_clock};
use crate::shown::Shown;
use crate::witnesses::Witnesses;
use irig_codes::Format;

/// Whether two frames are whole periods apart, and their clock is off by 8 in 100 at most. They do
/// not have to agree: over many periods it is off by more than half a period.
fn is_near_nominal(format: Format, one: &Shown, other: &Shown) -> bool
    ensures { result ≡ is_near_nominal format one.now other.now }
{
    let whole = periods(format, one, other) * u128::from(format.frame_period());
    is_later(format, one, other) && 25 * stray(format, one, other) <= 2 * whole
}

/// Whether `from` and `to` are at most a hundred times as far apart as `one` and `other`. The rises
/// of these are off by a tenth of an interval each at most: over that distance 20 intervals, which
/// is less than half a frame.
fn is_in_reach(format: Format, one: &Shown, other: &Shown, from: &Shown, to: &Shown) -> bool
    ensures { result ≡ is_in_reach format one.now other.now from.now to.now }
{
    periods(format, from, to) <= 100 * periods(format, one, other)
}

/// Whether `from` and `to` show the clock of `one` and `other`: neither is far off, they are in
/// reach, and by this clock `to` begins when it should after `from`.
fn is_same_clock(format: Format, one: &Shown, other: &Shown, from: &Shown, to: &Shown) -> bool
    ensures { result ≡ is_same_clock format one.now other.now from.now to.now }
{
    shows_any_clock(format, one, other)
        && is_near_nominal(format, from, to)
        && is_in_reach(format, one, other, from, to)
        && is_in_time(format, one, other, from, to)
}

/// Whether `before` and `after` show the clock of the two before.
fn keeps_clock_before(format: Format, before2: Option<Shown>, before: &Shown, after: &Shown) -> bool
    ensures { result ≡ keeps_clock_before format before2 before.now after.now }
{
    match before2 {
        Some(before2) => is_same_clock(format, &before2, before, before, after),
        None => false,
    }
}

/// Whether `before` and `after` show the clock of the two after.
fn keeps_clock_after(format: Format, before: &Shown, after: &Shown, after2: Option<Shown>) -> bool
    ensures { result ≡ keeps_clock_after format before.now after.now after2 }
{
    match after2 {
        Some(after2) => is_same_clock(format, after, &after2, before, after),
        None => false,
    }
}

/// How long `many` periods are on the clock of two frames; 0 if they are less than one apart.
fn micros_by_clock(format: Format, one: &Shown, other: &Shown, many: u128) -> u128
    requires { many < 2 ^ 61 }
    ensures { result ≡ micros_by_clock format one.now other.now many }
{
    let whole = periods(format, one, other);
    if whole == 0 {
        0
    } else {
        many * distance(one, other) / whole
    }
}

/// Whether a distance is between those by two clocks, to half an interval. False if these differ by
/// more than six intervals, which is this project's own: a step that is no larger would not be
/// seen.
fn is_between_clocks(interval: u64, one: u128, other: u128, micros: u128) -> bool
    requires { micros < 2 ^ 64 }
    ensures { result ≡ is_between_clocks interval one other micros }
{
    let (whole, half) = (u128::from(interval), u128::from(interval / 2));
    let (most, least) = (micros + half, micros.saturating_sub(half));
    apart(one, other) <= 6 * whole
        && (one <= most || other <= most)
        && (least <= one || least <= other)
}

fn is_wandering(
    format: Format,
    before2: Option<Shown>,
    before: &Shown,
    after: &Shown,
    after2: Option<Shown>,
) -> bool
    ensures { result ≡ is_wandering format before2 before.now after.now after2 }
{
    match (before2, after2) {
        (Some(before2), Some(after2)) => is_wandering_by(format, &before2, before, after, &after2),
        _ => false,
    }
}

/// Whether the clock wanders: the distance of `before` and `after` is between what the clock of the
/// two before and that of the two after say. All three are off by 8 in 100 at most.
fn is_wandering_by(
    format: Format,
    before2: &Shown,
    before: &Shown,
    after: &Shown,
    after2: &Shown,
) -> bool
    ensures { result
        ≡ is_wandering format (Some before2.now) before.now after.now (Some after2.now) }
{
    let many = periods(format, before, after);
    shows_any_clock(format, before2, before)
        && shows_any_clock(format, after, after2)
        && is_near_nominal(format, before, after)
        && is_in_reach(format, before2, before, before, after)
        && is_between_clocks(
            format.interval(),
            micros_by_clock(format, before2, before, many),
            micros_by_clock(format, after, after2, many),
            distance(before, after),
        )
}

/// Whether `frame` is in time by the clock of `before` and `after`, and that is the recording's
/// own: the two before or the two after show the same, or theirs is between both (`is_wandering`).
pub fn is_by_own_clock(
    format: Format,
    before2: Option<Shown>,
    before: &Shown,
    after: &Shown,
    after2: Option<Shown>,
    frame: &Shown,
) -> bool
    ensures { result ≡ is_by_own_clock format before2 before.now after.now after2 frame.now }
{
    (keeps_clock_before(format, before2, before, after)
        || keeps_clock_after(format, before, after, after2)
        || is_wandering(format, before2, before, after, after2))
        && is_in_time(format, before, after, before, frame)
        && is_in_time(format, before, after, frame, after)
}

/// Whether a frame is in time by the recording's own clock; false if one side has no frame.
pub fn is_on_own_clock(format: Format, near: &Witnesses, frame: &Shown) -> bool
    ensures { result ≡ is_on_own_clock format near.now.before2 near.now.before near.now.after
        near.now.after2 frame.now }
{
    match (near.before, near.after) {
        (Some(before), Some(after)) => {
            is_by_own_clock(format, near.before2, &before, &after, near.after2, frame)
        }
        _ => false,
    }
}
