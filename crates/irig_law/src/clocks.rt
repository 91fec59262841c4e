//! The recorder's clock, as believed frames show it. `Lens` shows the pulses of a track.

ghost use Rattle.std.specs.Prelude.{◌≡◌, ◌<◌, ◌≤◌, ◌^◌};
ghost use Rattle.irig_law.specs.Clocks.{apart, clock_of, end_slack, slack_of, span_of, strays};
ghost use Rattle.irig_law.specs.Clocks.{strays_most};

use crate::clock::Clock;
use crate::frame::Frame;
use crate::row::micros_between;
use irig_codes::Format;
use irig_track::Lens;

/// How far two numbers are apart.
fn apart(one: u64, other: u64) -> u64
    ensures { result ≡ apart one other }
{
    one.abs_diff(other)
}

/// How long the 99 intervals of a frame last, in microseconds.
pub fn span_of(pulses: &mut Lens<'_>, frame: &Frame) -> u64
    requires { frame.now.marker < 2 ^ 31 }
    ensures span { result ≡ span_of pulses.old.track.pulses frame.now }
    ensures low { result ≤ 2 ^ 40 }
    ensures pulses { pulses.new.track ≡ pulses.old.track }
{
    micros_between(pulses, frame.marker, frame.marker + 99)
}

/// By how many ninety-ninths of a microsecond the 24 intervals from an element on differ from as
/// many of the whole frame, in the mean.
fn strays(pulses: &mut Lens<'_>, frame: &Frame, element: usize) -> u64
    requires { (frame.now.marker < 2 ^ 31) × (element < 100) }
    ensures strays { result ≡ strays pulses.old.track.pulses frame.now element }
    ensures low { result < 2 ^ 47 }
    ensures pulses { pulses.new.track ≡ pulses.old.track }
{
    let from = frame.marker + element;
    let part = micros_between(pulses, from, from + 24);
    let span = span_of(pulses, frame);
    apart(99 * part, 24 * span) / 24
}

/// The most that the clock strays within a frame.
fn strays_most(pulses: &mut Lens<'_>, frame: &Frame) -> u64
    requires { frame.now.marker < 2 ^ 31 }
    ensures strays { result ≡ strays_most pulses.old.track.pulses frame.now }
    ensures low { result < 2 ^ 47 }
    ensures pulses { pulses.new.track ≡ pulses.old.track }
{
    let first = strays(pulses, frame, 0);
    let second = strays(pulses, frame, 24);
    let third = strays(pulses, frame, 48);
    let fourth = strays(pulses, frame, 72);
    first.max(second).max(third.max(fourth))
}

/// How much the clock strays between two frames, in ninety-ninths of a microsecond an interval: as
/// in them, as they differ, or by two parts in a hundred thousand.
pub fn slack_of(pulses: &mut Lens<'_>, from: &Frame, to: &Frame) -> u64
    requires { (from.now.marker < 2 ^ 31) × (to.now.marker < 2 ^ 31) }
    ensures slack { result ≡ slack_of pulses.old.track.pulses from.now to.now }
    ensures low { result < 2 ^ 48 }
    ensures pulses { pulses.new.track ≡ pulses.old.track }
{
    let one = strays_most(pulses, from);
    let other = strays_most(pulses, to);
    let span = span_of(pulses, from);
    let span_too = span_of(pulses, to);
    one.max(other).max(apart(span, span_too)) + span / 50_000 + 1
}

/// The same at an end of the recording, where no second frame shows it: a thousandth.
pub fn end_slack(pulses: &mut Lens<'_>, frame: &Frame) -> u64
    requires { frame.now.marker < 2 ^ 31 }
    ensures slack { result ≡ end_slack pulses.old.track.pulses frame.now }
    ensures pulses { pulses.new.track ≡ pulses.old.track }
{
    span_of(pulses, frame) / 1000 + 1
}

/// The clock of a frame; a rise is at its place to a tenth of an interval.
pub fn clock_of(pulses: &mut Lens<'_>, format: Format, frame: &Frame, slack: u64) -> Clock
    requires { frame.now.marker < 2 ^ 31 }
    ensures clock { result ≡ clock_of format pulses.old.track.pulses frame.now slack }
    ensures low { result.span ≤ 2 ^ 40 }
    ensures pulses { pulses.new.track ≡ pulses.old.track }
{
    Clock {
        span: span_of(pulses, frame),
        slack,
        tenth: 99 * format.interval() / 10,
    }
}

/// The clock of a frame and the next one, as far as it strays between the two.
pub fn clock_between(pulses: &mut Lens<'_>, format: Format, from: &Frame, to: &Frame) -> Clock
    requires { (from.now.marker < 2 ^ 31) × (to.now.marker < 2 ^ 31) }
    ensures clock { result ≡ clock_of format pulses.old.track.pulses from.now
        (slack_of pulses.old.track.pulses from.now to.now) }
    ensures low { result.span ≤ 2 ^ 40 }
    ensures pulses { pulses.new.track ≡ pulses.old.track }
{
    let slack = slack_of(pulses, from, to);
    clock_of(pulses, format, from, slack)
}
