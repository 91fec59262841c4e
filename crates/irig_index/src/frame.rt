//! The verdict on a frame.

ghost use Rattle.std.specs.Prelude.{◌≡◌, ℕ, ◌+◌, ◌-◌, ◌==◌, ◌<◌, ◌≤◌, [], true, false};
ghost use Rattle.std.specs.Prelude.{if◌then◌else◌, slice_get, unwrap_or, Some, MatchOption, List};
ghost use Rattle.std.specs.Prelude.{length};
ghost use Rattle.irig_codes.specs.declared.width.Element.TheVariants.{Position, Zero};
ghost use Rattle.irig_codes.specs.{declared.width.Element.Element, Decoding.decoded, Ones.raised};
ghost use Rattle.irig_codes.specs.{Reading.counts, Width.HasTwentieths, Width.class_in};
ghost use Rattle.irig_track.specs.{Looks.after_looks, Looks.lens_view, Track.IsLongTrack};
ghost use Rattle.irig_index.specs.declared.record.Verdict.TheVariants.{Read};
ghost use Rattle.irig_index.specs.Frames.{frame_at, record_after};
ghost use Rattle.irig_index.specs.Marker.{class_at, is_digit, is_position};
ghost use Rattle.irig_index.specs.{Checked.Checked, Checked.looks_of, Verdict.verdict_of};

use crate::band::{is_digit, is_one, is_position};
use crate::look::add_looks;
use crate::record::{Cause, Verdict};
use irig_codes::{Format, Gathering, decode_ones, step_in};
use irig_track::{Lens, Pulse};

/// Of a frame.
pub const ELEMENTS: usize = 100;

/// The verdict on the frame of the marker `first`, pulse `at` of the track, from 0. Of the pulses
/// that it looks at, 99 at most, only the last can be a marker (`alone`).
pub fn verdict(
    lens: &mut Lens<'_>,
    looks: &mut u64,
    format: Format,
    at: usize,
    first: Pulse,
) -> Verdict
    requires track { IsLongTrack lens.old.track.micros lens.old.track.pulses }
    requires first { slice_get lens.old.track.pulses at ≡ Some first }
    requires position { class_at format first ≡ Some Position }
    ensures verdict { result ≡ verdict_of format (frame_at lens.old.track.pulses at) }
    ensures looked { Checked format lens.old.track.pulses at lens.old lens.new looks.old looks.new }
    ensures alone { (k : ℕ) → at ≤ k → k + 1 < at + looks_of result
        → record_after format lens.old.track.pulses k ≡ [] }
{
    let verdict = check(lens, format, at, first);
    add_looks(looks, looks_of(verdict));
    verdict
}

/// One for each pulse after the marker, up to the one that fails, if that is there.
pub fn looks_of(verdict: Verdict) -> u64
    ensures { result ≡ looks_of verdict }
{
    match verdict {
        Verdict::Broken(k, Cause::Ended) => k.saturating_sub(1) as u64,
        Verdict::Broken(k, Cause::Step | Cause::Class) => k as u64,
        Verdict::Read(..) => ELEMENTS as u64 - 1,
    }
}

/// Each pulse has to be in step (else `Step`) and of a class that may be there (else `Class`); if
/// the track ends first, it is `Ended`.
fn check(lens: &mut Lens<'_>, format: Format, at: usize, first: Pulse) -> Verdict
    requires track { IsLongTrack lens.old.track.micros lens.old.track.pulses }
    requires first { slice_get lens.old.track.pulses at ≡ Some first }
    requires position { class_at format first ≡ Some Position }
    ensures verdict { result ≡ verdict_of format (frame_at lens.old.track.pulses at) }
    ensures looked { lens.new
        ≡ lens_view lens.old.track (after_looks lens.old.looks (looks_of result)) }
    ensures near { looks_of result ≤ 99 }
    ensures alone { (k : ℕ) → at ≤ k → k + 1 < at + looks_of result
        → record_after format lens.old.track.pulses k ≡ [] }
{
    let interval = format.interval();
    let count = (lens.len() - at).min(ELEMENTS);
    let mut ones = Gathering::none().and(false);
    let mut before = first;
    // Elements 1 to 8 are before the next position identifier.
    let mut digits = 8u64;
    for k in 1..count {
        let pulse = lens.pulse(at + k);
        if !step_in(interval, pulse.rise - before.rise) {
            return Verdict::Broken(k as u8, Cause::Step);
        }
        let Some((one, left)) = told(interval, pulse.fall - pulse.rise, digits) else {
            return Verdict::Broken(k as u8, Cause::Class);
        };
        ones = ones.and(one);
        before = pulse;
        digits = left;
    }
    if count < ELEMENTS {
        return Verdict::Broken(count as u8, Cause::Ended);
    }
    read(format, ones)
}

/// A frame in which no pulse fails: `gathered` says of all 100 elements whether they are One.
fn read(format: Format, gathered: Gathering) -> Verdict
    ensures verdict { (frame : List Element) → length frame ≡ 100 → raised frame ≡ gathered
        → result ≡ Read (decoded format frame).0 (decoded format frame).1 }
    ensures looks { looks_of result ≡ 99 }
{
    let (fields, note) = decode_ones(format, gathered.ones());
    Verdict::Read(fields, note)
}

/// Whether an element is One, and how many digits are left after it before the next position
/// identifier, by those left before it. `None` if it is not what it has to be.
#[inline(always)]
fn told(interval: u64, width: u64, digits: u64) -> Option<(bool, u64)>
    requires { HasTwentieths interval }
    ensures { MatchOption result
        ((if digits == 0 then is_position (class_in interval width)
        else is_digit (class_in interval width)) ≡ false)
        (λ told. ((if digits == 0 then is_position (class_in interval width)
        else is_digit (class_in interval width)) ≡ true)
        × (counts (unwrap_or (class_in interval width) Zero) ≡ told.0)
        × (told.1 ≡ (if digits == 0 then 9 else digits - 1))) }
{
    if digits == 0 {
        is_position(interval, width).then_some((false, 9))
    } else if is_digit(interval, width) {
        Some((is_one(interval, width), digits - 1))
    } else {
        None
    }
}
