//! How far a printed time can be off, in microseconds.

ghost use Rattle.std.specs.Prelude.{◌≡◌, ◌+◌, ◌<◌, ◌≤◌, ◌^◌, ℕ, Bool, List, IfSome, max};
ghost use Rattle.irig_law.specs.declared.frame.Frame.{Frame};
ghost use Rattle.irig_timed.specs.Bends.{bend_at, bend_of, bends_over, micros_up};
ghost use Rattle.irig_timed.specs.Bends.{most_around, most_in, most_within, off_over};
ghost use Rattle.irig_timed.specs.{Knowns.IsKnownBy};
ghost use Rattle.irig_timed.specs.Stretches.{AreFramesOf};

use crate::known::Known;
use crate::moment::Moment;
use crate::stretch::frames_around;
use irig_codes::{Format, in_step};
use irig_law::{Frame, micros_between};
use irig_track::Lens;

/// The trillionths of an interval.
const UNITS: u64 = 1_000_000_000_000;

/// One for rises, which are recorded in whole microseconds, and one for what is printed.
const ROUNDED: u64 = 2;

/// By how many microseconds the time of a moment can be off, as it is printed.
pub fn off_of(pulses: &mut Lens<'_>, known: &Known, format: Format, moment: &Moment) -> u64
    requires known { (century : ℕ) × (believed : List Frame) × (held : List Bool)
        × IsKnownBy format century pulses.old.track.pulses believed held known.now }
    requires low { (moment.now.from < 2 ^ 27) × (moment.now.to < 2 ^ 27)
        × (moment.now.bound ≤ 20000000000) }
    ensures off { (century : ℕ) (believed : List Frame) (held : List Bool)
        → IsKnownBy format century pulses.old.track.pulses believed held known.now
        → result ≡ off_over format pulses.old.track.pulses believed
        moment.now.from moment.now.to moment.now.bound }
    ensures pulses { pulses.new.track ≡ pulses.old.track }
{
    // The call's contract bounds the track.
    let _count = pulses.len();
    let bends = bends_over(pulses, &known.frames, format, moment.from, moment.to);
    off_by(format, moment.bound, bends)
}

/// The same by a bound and by what time bends.
fn off_by(format: Format, bound: u64, bends: u64) -> u64
    requires { (bound ≤ 20000000000) × (bends ≤ 2 ^ 40) }
    ensures { result ≡ micros_up format bound + bends + 2 }
{
    micros_up(format, bound) + bends + ROUNDED
}

/// The most by which time bends between two pulses: in the frames around, and at the two.
pub fn bends_over(
    pulses: &mut Lens<'_>,
    frames: &[Frame],
    format: Format,
    one: usize,
    other: usize,
) -> u64
    requires frames { AreFramesOf frames.now }
    requires low { (one < 2 ^ 27) × (other < 2 ^ 27) }
    ensures bends { result ≡ bends_over format pulses.old.track.pulses frames.now one other }
    ensures low { result ≤ 2 ^ 40 }
    ensures pulses { pulses.new.track ≡ pulses.old.track }
{
    let most = most_around(pulses, frames, format, one);
    let first = bend_at(pulses, format, one);
    let last = bend_at(pulses, format, other);
    greater(most, greater(first, last))
}

/// The microseconds of a bound, rounded up.
fn micros_up(format: Format, bound: u64) -> u64
    requires { bound ≤ 20000000000 }
    ensures micros { result ≡ micros_up format bound }
    ensures low { result ≤ 2 ^ 40 }
{
    if bound == 0 {
        return 0;
    }
    (bound - 1) / (UNITS / format.interval()) + 1
}

/// The most by which time bends in the two frames around a pulse.
fn most_around(pulses: &mut Lens<'_>, frames: &[Frame], format: Format, number: usize) -> u64
    requires frames { AreFramesOf frames.now }
    ensures most { result ≡ most_around format pulses.old.track.pulses frames.now number }
    ensures low { result ≤ 2 ^ 40 }
    ensures pulses { pulses.new.track ≡ pulses.old.track }
{
    let (last, next) = frames_around(frames, number);
    let one = most_in(pulses, format, last);
    let other = most_in(pulses, format, next);
    greater(one, other)
}

fn most_in(pulses: &mut Lens<'_>, format: Format, frame: Option<Frame>) -> u64
    requires frame { IfSome frame (λ a. a.marker < 2 ^ 26) }
    ensures most { result ≡ most_in format pulses.old.track.pulses frame }
    ensures low { result ≤ 2 ^ 40 }
    ensures pulses { pulses.new.track ≡ pulses.old.track }
{
    match frame {
        Some(frame) => most_within(pulses, format, frame.marker),
        None => 0,
    }
}

/// The most of the elements after a marker, up to the last but one.
fn most_within(pulses: &mut Lens<'_>, format: Format, marker: usize) -> u64
    requires { marker < 2 ^ 26 }
    ensures most { result ≡ most_within format pulses.old.track.pulses marker }
    ensures low { result ≤ 2 ^ 40 }
    ensures pulses { pulses.new.track ≡ pulses.old.track }
{
    let mut step = micros_between(pulses, marker, marker + 1);
    let mut most = 0;
    for number in marker + 1..marker + 99 {
        let next = micros_between(pulses, number, number + 1);
        most = greater(most, bend_of(format, step, next));
        step = next;
    }
    most
}

fn greater(one: u64, other: u64) -> u64
    ensures { result ≡ max one other }
{
    one.max(other)
}

/// How much the step to a pulse and the one from it differ.
fn bend_at(pulses: &mut Lens<'_>, format: Format, number: usize) -> u64
    requires { number < 2 ^ 27 }
    ensures bend { result ≡ bend_at format pulses.old.track.pulses number }
    ensures low { result ≤ 2 ^ 40 }
    ensures pulses { pulses.new.track ≡ pulses.old.track }
{
    let before = micros_between(pulses, number.saturating_sub(1), number);
    let after = micros_between(pulses, number, number + 1);
    bend_of(format, before, after)
}

fn bend_of(format: Format, one: u64, other: u64) -> u64
    requires { (one ≤ 2 ^ 40) × (other ≤ 2 ^ 40) }
    ensures bend { result ≡ bend_of format one other }
    ensures low { result ≤ 2 ^ 40 }
{
    if in_step(format, one) && in_step(format, other) {
        one.abs_diff(other)
    } else {
        0
    }
}
