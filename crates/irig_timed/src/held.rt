//! Which frames of a track are believed, and which are not.

ghost use Rattle.std.specs.Prelude.{◌≡◌, ◌<◌, ◌≤◌, ℕ, IfOk, Some, drop, false, length, slice_get};
ghost use Rattle.irig_index.specs.{Frames.frames, declared.record.Record.Record};
ghost use Rattle.irig_times.specs.FrameLooks.{MarkersRise};
ghost use Rattle.irig_timed.specs.Held.{begins_at, held, held_in};
ghost use Rattle.irig_timed.specs.Reasons.{has_doubtful, is_after, is_before, is_doubtful, with_doubt};

use crate::gap::Gap;
use crate::run::Place;
use irig_codes::Format;
use irig_index::Record;
use irig_law::{Frame, believed_frames};
use irig_times::{FrameLens, Why, timed};
use irig_track::Lens;
use std::alloc::{AllocError, Global};

/// Of each record of a track, whether its frame is believed by the law of time.
pub fn held_frames(
    alloc: Global,
    pulses: &mut Lens<'_>,
    records: &mut FrameLens<'_>,
    format: Format,
    century: u32,
    alone: bool,
) -> Result<Vec<bool>, AllocError>
    requires frames { records.old.records ≡ frames format pulses.old.track.pulses }
    requires century { century ≤ 99 }
    ensures held { IfOk result (λ list.
        list.items ≡ held format alone century pulses.old.track.pulses) }
    ensures each { IfOk result (λ list. length list.items ≡ length records.old.records) }
    ensures pulses { pulses.new.track ≡ pulses.old.track }
    ensures same { records.new.records ≡ records.old.records }
{
    let frames = believed_frames(alloc, pulses, records, format, century, alone)?;
    let list = held_in(alloc, records, &frames)?;
    Ok(list)
}

/// The same by the frames that are believed.
pub fn held_in(
    alloc: Global,
    records: &mut FrameLens<'_>,
    frames: &[Frame],
) -> Result<Vec<bool>, AllocError>
    ensures held { IfOk result (λ list. list.items ≡ held_in frames.now records.old.records) }
    ensures each { IfOk result (λ list. length list.items ≡ length records.old.records) }
    ensures same { records.new.records ≡ records.old.records }
{
    let mut list = Vec::new(alloc);
    let mut next = 0;
    for place in 0..records.len() {
        let marker = records.record(place).marker;
        let held = begins_at(frames, next, marker);
        next = if held { next + 1 } else { next };
        list.push(held)?;
    }
    Ok(list)
}

/// Whether a frame that has a time and is not believed begins between two places.
pub fn has_doubtful(
    records: &mut FrameLens<'_>,
    held: &[bool],
    format: Format,
    from: Option<Place>,
    to: Option<Place>,
) -> bool
    requires order { MarkersRise records.old.records }
    requires held { length held.now ≡ length records.old.records }
    ensures doubt { result ≡ has_doubtful format from to records.old.records held.now }
    ensures same { records.new.records ≡ records.old.records }
{
    for place in first_after(records, from)..records.len() {
        let record = records.record(place);
        if !is_before(to, record.marker) {
            return false;
        }
        if is_doubtful(format, from, to, record, held[place]) {
            return true;
        }
    }
    false
}

/// How many records are not after a place.
fn first_after(records: &mut FrameLens<'_>, from: Option<Place>) -> usize
    requires order { MarkersRise records.old.records }
    ensures parted { (i : ℕ) (r : Record) → slice_get records.old.records i ≡ Some r
        → i < result → is_after from r.marker ≡ false }
    ensures within { result ≤ length records.old.records }
    ensures same { records.new.records ≡ records.old.records }
{
    match from {
        Some(place) => records.find(place.number),
        None => 0,
    }
}

/// Whether the frame of a record is such a one.
fn is_doubtful(
    format: Format,
    from: Option<Place>,
    to: Option<Place>,
    frame: Record,
    held: bool,
) -> bool
    ensures { result ≡ is_doubtful format from to frame held }
{
    !held
        && timed(format, frame.verdict).is_some()
        && is_after(from, frame.marker)
        && is_before(to, frame.marker)
}

/// Whether a pulse is after a place, if there is one.
fn is_after(from: Option<Place>, number: usize) -> bool
    ensures { result ≡ is_after from number }
{
    match from {
        Some(place) => place.number < number,
        None => true,
    }
}

/// Whether it is before a place, if there is one.
fn is_before(to: Option<Place>, number: usize) -> bool
    ensures { result ≡ is_before to number }
{
    match to {
        Some(place) => number < place.number,
        None => true,
    }
}

/// What is between two places, if it is known whether such a frame is there.
pub fn with_doubt(doubt: bool, gap: Gap) -> Gap
    ensures { result ≡ with_doubt doubt gap }
{
    match gap {
        Gap::Line(bound) => Gap::Line(bound),
        Gap::Untimed(why) => {
            if doubt {
                Gap::Untimed(Why::Unbelieved)
            } else {
                Gap::Untimed(why)
            }
        }
    }
}

/// Whether the frame at a place begins with a pulse.
fn begins_at(frames: &[Frame], place: usize, marker: usize) -> bool
    ensures { result ≡ begins_at (drop place frames.now) marker }
{
    place < frames.len() && frames[place].marker == marker
}
