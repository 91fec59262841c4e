//! What is between two pulses that have a time: a line that is nearly right, or why nothing there
//! has a time. Bounds in `requires`, as 2 ^ 26, only keep sums in their types.

ghost use Rattle.std.specs.Prelude.{◌≡◌, ◌<◌, ◌≤◌, ◌+◌, ◌^◌, IfSome, Some, length};
ghost use Rattle.irig_law.specs.{Holes.rate_of, Holes.units_of};
ghost use Rattle.irig_timed.specs.Gaps.{gap_at, gap_between, gap_by, gap_in, gap_of, gap_over, is_free};
ghost use Rattle.irig_timed.specs.Gaps.{is_event, is_step, most_off, off_in};
ghost use Rattle.irig_timed.specs.{Bends.bends_over, Strays.strays_by};
ghost use Rattle.irig_timed.specs.Stretches.{AreFramesOf, stretch_at};

use crate::apart::elements_after;
use crate::off::bends_over;
use crate::run::Place;
use crate::stray::{UNITS, strays_by};
use crate::stretch::stretch_at;
use irig_codes::{Format, in_step};
use irig_law::{Clock, Frame, clock_between, is_clean, micros_between};
use irig_times::Why;
use irig_track::Lens;

/// The greatest bound of a time: a fiftieth of an interval.
const WIDEST: u128 = 20_000_000_000;

/// The elements of a frame.
const FEW: u64 = 100;

/// Half an interval.
const HALF: u128 = 500_000_000_000;

#[derive(Clone, Copy)]
pub enum Gap {
    /// Time goes on the line between the two, which is off by that many trillionths of an interval
    /// at most.
    Line(u64),
    Untimed(Why),
}

/// What is between two pulses next to each other that have a time, before the first one, or after
/// the last one. `frames` are the believed ones.
pub fn gap_at(
    pulses: &mut Lens<'_>,
    frames: &[Frame],
    format: Format,
    century: u32,
    from: Option<Place>,
    to: Option<Place>,
) -> Gap
    requires century { century ≤ 99 }
    requires frames { AreFramesOf frames.now }
    requires from { IfSome from (λ p. (p.number < 2 ^ 26) × (p.point.element < 100)) }
    requires to { IfSome to (λ q. (q.number ≤ 2 ^ 26) × (q.point.element < 100)) }
    ensures gap { result ≡ gap_at format century pulses.old.track.pulses frames.now from to }
    ensures pulses { pulses.new.track ≡ pulses.old.track }
{
    match (from, to) {
        (Some(from), Some(to)) => gap_between(pulses, frames, format, century, &from, &to),
        (Some(_), None) => Gap::Untimed(Why::After),
        (None, Some(_)) => Gap::Untimed(Why::Before),
        (None, None) => Gap::Untimed(Why::Before),
    }
}

/// What is between two pulses next to each other that have a time.
fn gap_between(
    pulses: &mut Lens<'_>,
    frames: &[Frame],
    format: Format,
    century: u32,
    from: &Place,
    to: &Place,
) -> Gap
    requires century { century ≤ 99 }
    requires frames { AreFramesOf frames.now }
    requires from { (from.now.number < 2 ^ 26) × (from.now.point.element < 100) }
    requires to { (to.now.number ≤ 2 ^ 26) × (to.now.point.element < 100) }
    ensures gap { result ≡ gap_between format century pulses.old.track.pulses frames.now from.now
        to.now }
    ensures pulses { pulses.new.track ≡ pulses.old.track }
{
    let elements = elements_after(format, century, &from.point, &to.point);
    gap_of(pulses, frames, format, from.number, to.number, elements)
}

/// The same of pulses that are that many elements apart.
fn gap_of(
    pulses: &mut Lens<'_>,
    frames: &[Frame],
    format: Format,
    one: usize,
    other: usize,
    elements: u64,
) -> Gap
    requires frames { AreFramesOf frames.now }
    requires small { (one < 2 ^ 26) × (other ≤ 2 ^ 26) × (elements < 2 ^ 48) }
    ensures gap { result ≡ gap_of format pulses.old.track.pulses frames.now one other elements }
    ensures pulses { pulses.new.track ≡ pulses.old.track }
{
    if is_step(pulses, format, one, other, elements) {
        return Gap::Line(0);
    }
    if elements == 0 {
        return Gap::Untimed(Why::Step);
    }
    let free = is_free(pulses, format, one, other);
    let bends = bends_over(pulses, frames, format, one, other);
    let long = micros_between(pulses, one, other);
    gap_over(
        pulses,
        format,
        free,
        stretch_at(frames, one),
        bends,
        long,
        elements,
    )
}

/// Whether two pulses are next to each other, in step, and one element apart.
fn is_step(pulses: &mut Lens<'_>, format: Format, one: usize, other: usize, elements: u64) -> bool
    requires { one < 2 ^ 26 }
    ensures step { result ≡ is_step format pulses.old.track.pulses one other elements }
    ensures pulses { pulses.new.track ≡ pulses.old.track }
{
    other == one + 1 && elements == 1 && in_step(format, micros_between(pulses, one, other))
}

/// Whether no pulse between two others is clean.
fn is_free(pulses: &mut Lens<'_>, format: Format, one: usize, other: usize) -> bool
    requires { (one < 2 ^ 31) × (other < 2 ^ 31) }
    ensures free { result ≡ is_free format pulses.old.track.pulses one other }
    ensures pulses { pulses.new.track ≡ pulses.old.track }
{
    for number in one + 1..other {
        if is_clean(pulses, format, number) {
            return false;
        }
    }
    true
}

/// The same by the clock of the two frames around; `free` is whether a line can be there, and
/// `bends` by how much time bends there.
fn gap_over(
    pulses: &mut Lens<'_>,
    format: Format,
    free: bool,
    stretch: Option<(Frame, Frame)>,
    bends: u64,
    long: u64,
    elements: u64,
) -> Gap
    requires stretch { IfSome stretch (λ s. (s.0.marker < 2 ^ 26) × (s.1.marker < 2 ^ 26)) }
    requires small { (bends ≤ 2 ^ 40) × (long ≤ 2 ^ 40) × (elements < 2 ^ 48) }
    ensures gap { result
        ≡ gap_over format pulses.old.track.pulses free stretch bends long elements }
    ensures pulses { pulses.new.track ≡ pulses.old.track }
{
    match stretch {
        Some(stretch) => {
            let clock = clock_between(pulses, format, &stretch.0, &stretch.1);
            let strays = strays_by(pulses, format, bends, &stretch, long, elements);
            gap_in(free, &clock, strays, long, elements)
        }
        None => Gap::Untimed(Why::Hole),
    }
}

/// The same by a clock, and by how much rises stray.
fn gap_in(free: bool, clock: &Clock, strays: u128, long: u64, elements: u64) -> Gap
    requires clock { (clock.now.span ≤ 2 ^ 40) × (strays < 2 ^ 96) }
    requires small { (long ≤ 2 ^ 40) × (elements < 2 ^ 48) }
    ensures { result ≡ gap_in free clock.now strays long elements }
{
    if clock.span <= clock.slack {
        return Gap::Untimed(Why::Hole);
    }
    let least = least_of(clock);
    let most = most_of(clock);
    let long = long as u128;
    let off = off_in(least, most, strays, long, elements);
    gap_by(free, least, most, off, long, elements as u128 * UNITS)
}

/// The units that pass in a microsecond by a clock, at least.
fn least_of(clock: &Clock) -> u128
    requires { (clock.now.span ≤ 2 ^ 40) × (clock.now.slack < clock.now.span) }
    ensures least { result ≡ (rate_of clock.now).least }
    ensures low { result < 2 ^ 48 }
{
    99 * UNITS / (clock.span as u128 + clock.slack as u128)
}

/// The same at most.
fn most_of(clock: &Clock) -> u128
    requires { (clock.now.span ≤ 2 ^ 40) × (clock.now.slack < clock.now.span) }
    ensures most { result ≡ (rate_of clock.now).most }
    ensures low { result < 2 ^ 48 }
{
    99 * UNITS / (clock.span - clock.slack) as u128 + 1
}

/// By how many units the line can be off.
fn off_in(least: u128, most: u128, strays: u128, long: u128, elements: u64) -> u128
    requires { (least < 2 ^ 48) × (most < 2 ^ 48) × (long ≤ 2 ^ 40) × (elements < 2 ^ 48) }
    ensures { result ≡ off_in (record { least = least; most = most }) strays long elements }
{
    if elements < FEW {
        return strays;
    }
    most_off(least, most, long, elements as u128 * UNITS)
}

/// The same, if at least `least` and at most `most` units of the code pass in a microsecond.
fn gap_by(free: bool, least: u128, most: u128, off: u128, long: u128, units: u128) -> Gap
    requires { (least < 2 ^ 48) × (most < 2 ^ 48) × (long ≤ 2 ^ 40) × (units < 2 ^ 96) }
    ensures { result ≡ gap_by free (record { least = least; most = most }) off long units }
{
    if free && off <= WIDEST {
        Gap::Line(off as u64)
    } else if is_event(least, most, long, units) {
        Gap::Untimed(Why::Step)
    } else {
        Gap::Untimed(Why::Hole)
    }
}

/// The same of a clock at some rate.
fn most_off(least: u128, most: u128, long: u128, units: u128) -> u128
    requires { (least < 2 ^ 48) × (most < 2 ^ 48) × (long ≤ 2 ^ 40) × (units < 2 ^ 96) }
    ensures { result ≡ most_off (record { least = least; most = most }) long units }
{
    let more = (most * long).saturating_sub(units);
    let fewer = units.saturating_sub(least * long);
    more.max(fewer) + 1
}

/// Whether the clock shows another number of elements.
fn is_event(least: u128, most: u128, long: u128, units: u128) -> bool
    requires { (least < 2 ^ 48) × (most < 2 ^ 48) × (long ≤ 2 ^ 40) × (units < 2 ^ 96) }
    ensures { result ≡ is_event (record { least = least; most = most }) long units }
{
    most * long + HALF < units || units + HALF < least * long
}
