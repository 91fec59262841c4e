//! When two frames fit each other, so that no event is between them. `century` is that of years of
//! two digits: 20 for 2000 to 2099. `Lens` shows the pulses of a track. Bounds in `requires`, as
//! 2 ^ 26, only keep sums in their types.

ghost use Rattle.std.specs.Prelude.{◌≡◌, ◌↔◌, ◌<◌, ◌≤◌, ◌+◌, ◌-◌, ◌^◌, ℕ, IfSome, IsTrue};
ghost use Rattle.std.specs.Prelude.{MatchOption, Some, length, slice_get};
ghost use Rattle.irig_law.specs.Clocks.{slack_of};
ghost use Rattle.irig_law.specs.Fits.{Fits, IsBridged, IsLong, between};
ghost use Rattle.irig_law.specs.Seens.{MeetAt, SeenAfter, SeenBefore};

use crate::calendar::periods_apart;
use crate::clocks::{slack_of, span_of};
use crate::frame::Frame;
use crate::names::{Seen, Walk};
use crate::row::micros_between;
use crate::seens::{last_named, seen_at};
use irig_codes::Format;
use irig_track::Lens;

/// Whether some microseconds are that many elements by the clock of both frames, to half an
/// interval and to what the clock strays.
fn is_long(pulses: &mut Lens<'_>, from: &Frame, to: &Frame, micros: u64, many: u128) -> bool
    requires markers { (from.now.marker < 2 ^ 26) × (to.now.marker < 2 ^ 26) }
    requires small { (micros ≤ 2 ^ 40) × (many < 2 ^ 71) }
    ensures long { IsTrue result ↔ IsLong pulses.old.track.pulses from.now to.now micros many }
    ensures pulses { pulses.new.track ≡ pulses.old.track }
{
    let one = span_of(pulses, from);
    let other = span_of(pulses, to);
    let slack = slack_of(pulses, from, to);
    let both = one as u128 + other as u128;
    2 * (198 * micros as u128).abs_diff(many * both) <= both + 4 * (many * slack as u128)
}

/// How many elements are between pulses that have these names by frames that are this many periods
/// apart.
fn between(periods: u64, last: &Walk, first: &Walk) -> u128
    ensures between { result ≡ between periods last.now first.now }
    ensures low { result < 2 ^ 71 }
{
    (100 * periods as u128).saturating_sub(last.element as u128 + first.element as u128)
}

/// Whether from the last pulse that has a name by the first frame, to the first one that has one by
/// the second, it is as long as the elements between them have to be.
fn is_bridged(
    pulses: &mut Lens<'_>,
    from: &Frame,
    to: &Frame,
    periods: u64,
    last: &Walk,
    first: &Walk,
) -> bool
    requires markers { (from.now.marker < 2 ^ 26) × (to.now.marker < 2 ^ 26) }
    requires last { last.now.last < 2 ^ 32 }
    ensures bridged { IsTrue result
        ↔ IsBridged pulses.old.track.pulses from.now to.now periods last.now first.now }
    ensures pulses { pulses.new.track ≡ pulses.old.track }
{
    let many = between(periods, last, first);
    let end = to.marker.saturating_sub(first.last);
    let micros = micros_between(pulses, from.marker + last.last, end);
    let long = is_long(pulses, from, to, micros, many);
    0 < many && long
}

/// Whether a pulse has the same name by both frames, which are this many periods apart. The second
/// list goes back to the pulse that the first one begins with.
fn meet(after: &[Seen], before: &[Seen], periods: u64) -> bool
    requires few { length before.now ≤ length after.now }
    requires after { (k e : ℕ) → slice_get after.now k ≡ Some (Seen.Named e) → e < 2 ^ 63 }
    requires before { (k e : ℕ) → slice_get before.now k ≡ Some (Seen.Named e) → e < 2 ^ 63 }
    ensures { IsTrue result ↔ ((i : ℕ) × MeetAt after.now before.now periods i) }
{
    for place in 0..before.len() {
        if meet_at(after, before, periods, place) {
            return true;
        }
    }
    false
}

/// Whether the pulse at a place has.
fn meet_at(after: &[Seen], before: &[Seen], periods: u64, place: usize) -> bool
    requires few { length before.now ≤ length after.now }
    requires place { place < length before.now }
    requires after { (k e : ℕ) → slice_get after.now k ≡ Some (Seen.Named e) → e < 2 ^ 63 }
    requires before { (k e : ℕ) → slice_get before.now k ≡ Some (Seen.Named e) → e < 2 ^ 63 }
    ensures { IsTrue result ↔ MeetAt after.now before.now periods place }
{
    let one = seen_at(after, place);
    let other = seen_at(before, before.len() - 1 - place);
    match (one, other) {
        (Seen::Named(one), Seen::Named(other)) => {
            one as u128 + other as u128 == 100 * periods as u128
        }
        (Seen::Named(_), _) => false,
        (Seen::Astray, _) => false,
        (Seen::Unknown, _) => false,
    }
}

/// How many periods two frames next to each other are apart, if they fit. `after` and `before` are
/// what is seen of the pulses from the first one on, and back from the second one to the first.
pub fn fits(
    pulses: &mut Lens<'_>,
    format: Format,
    century: u32,
    from: &Frame,
    to: &Frame,
    after: &[Seen],
    before: &[Seen],
) -> Option<u64>
    requires century { century ≤ 99 }
    requires times { (from.now.time.micros < 61000000) × (to.now.time.micros < 61000000) }
    requires order { (from.now.marker < to.now.marker) × (to.now.marker < 2 ^ 26) }
    requires after { SeenAfter format pulses.old.track.pulses from.now
        (slack_of pulses.old.track.pulses from.now to.now) after.now }
    requires before { SeenBefore format pulses.old.track.pulses to.now
        (slack_of pulses.old.track.pulses from.now to.now) before.now }
    requires long { to.now.marker - from.now.marker + 1 ≤ length after.now }
    requires long_too { length before.now ≡ to.now.marker - from.now.marker + 1 }
    ensures fits { MatchOption result
        ((n : ℕ) → Fits format century pulses.old.track.pulses from.now to.now n → ⊥)
        (λ n. Fits format century pulses.old.track.pulses from.now to.now n) }
    ensures few { IfSome result (λ n. n < 2 ^ 41) }
    ensures pulses { pulses.new.track ≡ pulses.old.track }
{
    let Some(periods) = periods_apart(format, century, &from.time, &to.time) else {
        return None;
    };
    let last = last_named(after, before.len());
    let first = last_named(before, before.len());
    if is_bridged(pulses, from, to, periods, &last, &first) {
        return Some(periods);
    }
    if meet(after, before, periods) {
        return Some(periods);
    }
    None
}
