//! The frames that read well and have a time.

ghost use Rattle.std.specs.Prelude.{◌≡◌, ◌<◌, ◌≤◌, ◌^◌, ◌++◌, IfOk, List, OnOk};
ghost use Rattle.irig_index.specs.Frames.{frames};
ghost use Rattle.irig_law.specs.Chains.{fine_at, fine_frames, rise_of, with_fine};
ghost use Rattle.irig_law.specs.declared.fine.Fine.{Fine};
ghost use Rattle.irig_times.specs.Times.{time_in};

use crate::clocks::span_of;
use crate::frame::Frame;
use irig_codes::{Fields, Format};
use irig_recording::Pulse;
use irig_times::{FrameLens, Time, pulse_at, timed};
use irig_track::Lens;
use std::alloc::{AllocError, Global};

/// A frame that reads well: when its marker rises, and how long its 99 intervals last, in
/// microseconds.
#[derive(Clone, Copy)]
pub struct Fine {
    pub frame: Frame,
    pub rise: u64,
    pub span: u64,
}

/// Those of a track, in order.
pub fn fine_frames(
    alloc: Global,
    pulses: &mut Lens<'_>,
    records: &mut FrameLens<'_>,
    format: Format,
) -> Result<Vec<Fine>, AllocError>
    requires frames { records.old.records ≡ frames format pulses.old.track.pulses }
    ensures fine { IfOk result (λ list.
        list.items ≡ fine_frames format pulses.old.track.pulses) }
    ensures pulses { pulses.new.track ≡ pulses.old.track }
    ensures same { records.new.records ≡ records.old.records }
{
    // There are at most 2^26 of them, which only the proof needs.
    let _count = pulses.len();
    let mut list = Vec::new(alloc);
    for place in 0..records.len() {
        let record = records.record(place);
        let fields = timed(format, record.verdict);
        add_fine(&mut list, pulses, record.marker, fields)?;
    }
    Ok(list)
}

/// Adds the frame that begins with a marker to a list, if it has fields.
fn add_fine(
    list: &mut Vec<Fine>,
    pulses: &mut Lens<'_>,
    marker: usize,
    fields: Option<Fields>,
) -> Result<(), AllocError>
    requires { marker < 2 ^ 31 }
    ensures added { OnOk result ((rest : List Fine) → list.new.items ++ rest
        ≡ list.old.items ++ with_fine pulses.old.track.pulses marker fields rest) }
    ensures pulses { pulses.new.track ≡ pulses.old.track }
{
    match fields {
        Some(fields) => {
            let fine = fine_at(pulses, marker, &fields);
            list.push(fine)?;
            Ok(())
        }
        None => Ok(()),
    }
}

/// A frame that begins with a marker and has these fields.
fn fine_at(pulses: &mut Lens<'_>, marker: usize, fields: &Fields) -> Fine
    requires { marker < 2 ^ 31 }
    ensures fine { result ≡ fine_at pulses.old.track.pulses marker fields.now }
    ensures pulses { pulses.new.track ≡ pulses.old.track }
{
    let frame = Frame {
        marker,
        time: time_in(fields),
    };
    let rise = rise_of(pulse_at(pulses, marker));
    let span = span_of(pulses, &frame);
    Fine { frame, rise, span }
}

/// When a pulse rises; 0 if it is not there.
fn rise_of(pulse: Option<Pulse>) -> u64
    ensures { result ≡ rise_of pulse }
{
    match pulse {
        Some(pulse) => pulse.rise,
        None => 0,
    }
}

/// The time that the fields of a frame show.
fn time_in(fields: &Fields) -> Time
    ensures { result ≡ time_in fields.now 0 }
{
    let hundredths = fields.hundredths.unwrap_or(0) as u64;
    Time {
        year: fields.year,
        days: fields.days,
        hours: fields.hours,
        minutes: fields.minutes,
        micros: 10_000 * (100 * fields.seconds as u64 + hundredths),
    }
}
