//! A table of the frames of a track that have a time.

ghost use Rattle.std.specs.Prelude.{◌≡◌, ◌≤◌, ◌<◌, ◌++◌, ℕ, List, Some, slice_get, length, IfOk};
ghost use Rattle.std.specs.Prelude.{IfSome, OnOk, Option};
ghost use Rattle.irig_index.specs.{Frames.frames, declared.record.Record.Record};
ghost use Rattle.irig_times.specs.{Starts.IsStartOf, declared.start.FrameStart.FrameStart};
ghost use Rattle.irig_stamps.specs.TrackSettings.{held_of, with_first_day};
ghost use Rattle.irig_stamps.specs.Tables.{IsTable, Lists, ListsRecording, answer_of, row_of};
ghost use Rattle.irig_stamps.specs.Tables.{row_text};

use crate::fault::RunFault;
use crate::first_day::{count_doubted, first_day, held_at};
use crate::outcome::Standing;
use crate::settings::Settings;
use crate::text::{put_number, put_time_or_hyphen};
use irig_codes::Format;
use irig_index::Index;
use irig_print::put_all;
use irig_recording::LongRecording;
use irig_timed::held_frames;
use irig_times::{FrameLens, FrameStart, start_of};
use irig_track::Lens;
use std::alloc::{AllocError, Global};
use std::io::Write;

/// Prints the table of a recording: a row for each frame that has a time.
pub fn list<W: Write>(
    alloc: Global,
    recording: LongRecording,
    out: &mut W,
    format: Format,
    settings: &Settings<'_>,
) -> Result<Standing, RunFault>
    requires century { settings.now.century ≤ 99 }
    requires year { IfSome settings.now.year (λ y. y ≤ 9998) }
    ensures { ListsRecording format recording.edges settings.now (W.contents out.old)
        (W.contents out.new) result }
{
    list_track(alloc, &mut Lens::of(&recording), out, format, settings)
}

/// Prints the table of the track that a lens shows, with the results and errors of `list`.
fn list_track<W: Write>(
    alloc: Global,
    pulses: &mut Lens<'_>,
    out: &mut W,
    format: Format,
    settings: &Settings<'_>,
) -> Result<Standing, RunFault>
    requires century { settings.now.century ≤ 99 }
    requires year { IfSome settings.now.year (λ y. y ≤ 9998) }
    ensures { Lists format pulses.old.track.pulses
        (with_first_day format pulses.old.track.pulses settings.now)
        (W.contents out.old) (W.contents out.new) result }
{
    let Ok(index) = Index::build(alloc, pulses, format) else {
        return Err(RunFault::OutOfMemory);
    };
    let mut records = FrameLens::new(&index);
    let (century, alone) = (settings.century, settings.alone);
    let Ok(held) = held_frames(alloc, pulses, &mut records, format, century, alone) else {
        return Err(RunFault::OutOfMemory);
    };
    let day = first_day(&mut records, &held, format);
    let doubted = count_doubted(&mut records, &held, format);
    // If no frame is believed it is 0. No day is before day 0, so a row has the settings' year.
    let settings = Settings {
        first_day: day.unwrap_or(0),
        ..*settings
    };
    let Ok(text) = table(alloc, pulses, &mut records, &held, format, &settings) else {
        return Err(RunFault::OutOfMemory);
    };
    match put_all(out, &text) {
        Ok(()) => Ok(Standing {
            timed: day.is_some(),
            doubted,
        }),
        Err(why) => Err(RunFault::PrintFailed(why)),
    }
}

/// The text of the table: a row for each record whose frame has a time, in order.
fn table(
    alloc: Global,
    pulses: &mut Lens<'_>,
    records: &mut FrameLens<'_>,
    held: &[bool],
    format: Format,
    settings: &Settings<'_>,
) -> Result<Vec<u8>, AllocError>
    requires frames { records.old.records ≡ frames format pulses.old.track.pulses }
    requires held { held.now ≡ held_of format pulses.old.track.pulses settings.now }
    requires century { settings.now.century ≤ 99 }
    requires year { IfSome settings.now.year (λ y. y ≤ 9998) }
    ensures { IfOk result (λ text. IsTable format pulses.old.track.pulses settings.now 0
        records.old.records text.items) }
{
    let mut text = Vec::new(alloc);
    for place in 0..records.len() {
        put_frame(&mut text, pulses, records, held, format, settings, place)?;
    }
    Ok(text)
}

/// Adds the row of the record at a place, from 0; nothing if its frame has no time.
fn put_frame(
    text: &mut Vec<u8>,
    pulses: &mut Lens<'_>,
    records: &mut FrameLens<'_>,
    held: &[bool],
    format: Format,
    settings: &Settings<'_>,
    place: usize,
) -> Result<(), AllocError>
    requires frames { records.old.records ≡ frames format pulses.old.track.pulses }
    requires held { held.now ≡ held_of format pulses.old.track.pulses settings.now }
    requires century { settings.now.century ≤ 99 }
    requires year { IfSome settings.now.year (λ y. y ≤ 9998) }
    requires place { place < length records.old.records }
    ensures row { OnOk result ((r : Record) → slice_get records.old.records place ≡ Some r
        → (start : Option FrameStart)
        × IsStartOf format settings.now.century pulses.old.track.pulses r start
        × (text.new.items ≡ text.old.items
        ++ row_of settings.now (slice_get held.now place) start)) }
    ensures pulses { pulses.new.track ≡ pulses.old.track }
    ensures same { records.new.records ≡ records.old.records }
{
    let start = start_of(pulses, records, format, settings.century, place);
    put_start(text, settings, held_at(held, place), start)
}

/// Adds the row of a frame, by its start; nothing if there is no start, since the frame has no
/// time.
fn put_start(
    text: &mut Vec<u8>,
    settings: &Settings<'_>,
    held: Option<bool>,
    start: Option<FrameStart>,
) -> Result<(), AllocError>
    requires century { settings.now.century ≤ 99 }
    requires year { IfSome settings.now.year (λ y. y ≤ 9998) }
    ensures { OnOk result (text.new.items ≡ text.old.items ++ row_of settings.now held start) }
{
    match start {
        Some(start) => put_row(text, settings, held, &start),
        None => Ok(()),
    }
}

/// Adds the row of a frame: the microsecond of the track at which it begins (`rise`), its time, and
/// the word of `answer`.
fn put_row(
    text: &mut Vec<u8>,
    settings: &Settings<'_>,
    held: Option<bool>,
    start: &FrameStart,
) -> Result<(), AllocError>
    requires century { settings.now.century ≤ 99 }
    requires year { IfSome settings.now.year (λ y. y ≤ 9998) }
    ensures { OnOk result
        (text.new.items ≡ text.old.items ++ row_text settings.now held start.now) }
{
    let comma = settings.comma.unwrap_or(b'\t');
    put_number(text, start.rise)?;
    text.extend_from_slice(&[comma])?;
    put_time_or_hyphen(text, settings, Some(start.time))?;
    text.extend_from_slice(&[comma])?;
    text.extend_from_slice(answer(held, start.is_followed))?;
    text.extend_from_slice(b"\n")
}

/// The last word of a row: `yes` if the frame is believed and the next one follows it one period
/// later (`is_followed`), `no` if it is believed and the next one does not, `unsupported` if it is
/// not believed.
fn answer<'a>(held: Option<bool>, is_followed: bool) -> &'a [u8]
    ensures { result.now ≡ answer_of held is_followed }
{
    match held {
        Some(true) if is_followed => b"yes",
        Some(true) => b"no",
        _ => b"unsupported",
    }
}
