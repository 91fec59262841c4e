//! Starts of frames.

ghost use Rattle.std.specs.Prelude.{◌≡◌, ◌↔◌, ◌<◌, ◌≤◌, ◌+◌, IsTrue, length, slice_get, Some};
ghost use Rattle.irig_codes.specs.Format.{FormatView};
ghost use Rattle.irig_index.specs.{Frames.frames, declared.record.Record.Record};
ghost use Rattle.irig_recording.specs.declared.pulse.Pulse.{Pulse};
ghost use Rattle.irig_times.specs.FrameLooks.{PartedAt};
ghost use Rattle.irig_times.specs.{Starts.AreFrames, Starts.IsFollowed, Starts.IsStartOf};
ghost use Rattle.irig_times.specs.Times.{time_in};

use crate::follows::is_later;
use crate::frame_lens::FrameLens;
use crate::time::{Time, time_in, timed};
use irig_codes::{Fields, Format};
use irig_track::Lens;

/// Where a frame starts that has a time.
#[derive(Clone, Copy)]
pub struct FrameStart {
    /// When its marker rises, in microseconds.
    pub rise: u64,
    pub time: Time,
    /// Whether the next frame begins right after this one, and its time is one period later.
    pub is_followed: bool,
}

/// Where the frame of the record at a place starts; `None` if the frame has no time.
pub fn start_of(
    pulses: &mut Lens<'_>,
    records: &mut FrameLens<'_>,
    format: Format,
    century: u32,
    place: usize,
) -> Option<FrameStart>
    requires frames { records.old.records ≡ frames format pulses.old.track.pulses }
    requires century { century ≤ 99 }
    requires place { place < length records.old.records }
    ensures exact { (r : Record) → slice_get records.old.records place ≡ Some r
        → IsStartOf format century pulses.old.track.pulses r result }
    ensures pulses { pulses.new.track ≡ pulses.old.track }
    ensures same { records.new.records ≡ records.old.records }
{
    // For the proof alone: a bound.
    let _count = records.len();
    let record = records.record(place);
    match timed(format, record.verdict) {
        Some(fields) => Some(started(
            pulses,
            records,
            format,
            century,
            record.marker,
            fields,
            place + 1,
        )),
        None => None,
    }
}

/// `next` is the place after the frame's record.
fn started(
    pulses: &mut Lens<'_>,
    records: &mut FrameLens<'_>,
    format: Format,
    century: u32,
    marker: usize,
    fields: Fields,
    next: usize,
) -> FrameStart
    requires frames { records.old.records ≡ frames format pulses.old.track.pulses }
    requires century { century ≤ 99 }
    requires stands { marker < length pulses.old.track.pulses }
    requires parted { PartedAt records.old.records (marker + 99) next }
    ensures rise { (p : Pulse) → slice_get pulses.old.track.pulses marker ≡ Some p
        → result.rise ≡ p.rise }
    ensures time { result.time ≡ time_in fields 0 }
    ensures follows { IsTrue result.is_followed
        ↔ IsFollowed format century records.old.records (marker + 99) fields }
    ensures pulses { pulses.new.track ≡ pulses.old.track }
    ensures same { records.new.records ≡ records.old.records }
{
    // For the proof alone: a bound.
    let _count = pulses.len();
    FrameStart {
        rise: pulses.pulse(marker).rise,
        time: time_in(&fields, 0),
        is_followed: is_followed(records, format, century, marker + 99, &fields, next),
    }
}

/// `number` is the last pulse of the frame with these fields, `next` the place after its record.
/// `marker - 1` is not below 0: before a marker is another position identifier.
fn is_followed(
    records: &mut FrameLens<'_>,
    format: Format,
    century: u32,
    number: usize,
    fields: &Fields,
    next: usize,
) -> bool
    requires frames { AreFrames format records.old.records }
    requires century { century ≤ 99 }
    requires parted { PartedAt records.old.records number next }
    ensures exact { IsTrue result
        ↔ IsFollowed format century records.old.records number fields.now }
    ensures same { records.new.records ≡ records.old.records }
{
    if next >= records.len() {
        return false;
    }
    let record = records.record(next);
    if record.marker - 1 != number {
        return false;
    }
    match timed(format, record.verdict) {
        Some(later) => is_later(
            century,
            format.frame_period(),
            &time_in(fields, 0),
            &time_in(&later, 0),
        ),
        None => false,
    }
}
