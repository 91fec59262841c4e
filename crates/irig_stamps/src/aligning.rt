//! Lines are aligned with a recording of an IRIG time code.

ghost use Rattle.std.specs.Prelude.{◌≡◌, ◌<◌, ℕ, List, Option, IfOk, IfSome};
ghost use Rattle.std.specs.Io.KnownBytes.{Consumes};
ghost use Rattle.irig_stamps.specs.Aligned.{Aligns, AlignsNamed, AlignsNumbered, tally_of};
ghost use Rattle.irig_stamps.specs.Aligned.{standing_of};
ghost use Rattle.irig_stamps.specs.{Ready.IsWithin, Runs.Ends, TrackSettings.with_track};

use crate::fault::RunFault;
use crate::finding::find;
use crate::first_day::{count_doubted, first_day};
use crate::outcome::{Outcome, Standing};
use crate::running::run;
use crate::settings::Settings;
use irig_codes::Format;
use irig_index::Index;
use irig_recording::LongRecording;
use irig_timed::Known;
use irig_times::FrameLens;
use irig_track::Lens;
use std::alloc::Global;
use std::io::{Read, Write};

/// Reads lines to their end and prints each with its stamp before it.
pub fn align<R: Read, W: Write>(
    alloc: Global,
    recording: LongRecording,
    lines: &mut R,
    out: &mut W,
    format: Format,
    settings: &Settings<'_>,
) -> Result<Outcome, RunFault>
    requires limits { IsWithin settings.now }
    requires named { IfSome settings.now.named (λ n. 0 < settings.now.header) }
    ensures { Aligns format recording.micros recording.edges settings.now (R.remaining lines.old)
        (R.remaining lines.new) (W.contents out.old) (W.contents out.new) result }
{
    let Some(name) = settings.named else {
        return align_by_number(alloc, &recording, lines, out, format, settings);
    };
    align_by_name(alloc, &recording, lines, out, format, settings, name)
}

/// Aligns the lines if their column is given by its number (`settings.column`).
fn align_by_number<R: Read, W: Write>(
    alloc: Global,
    recording: &LongRecording,
    lines: &mut R,
    out: &mut W,
    format: Format,
    settings: &Settings<'_>,
) -> Result<Outcome, RunFault>
    requires limits { IsWithin settings.now }
    ensures { AlignsNumbered format recording.now.micros recording.now.edges settings.now
        (R.remaining lines.old) (R.remaining lines.new) (W.contents out.old) (W.contents out.new)
        result }
{
    let mut pulses = Lens::of(recording);
    align_track(alloc, &mut pulses, b"", lines, out, format, settings)
}

/// Aligns the lines if their column is given by its name in the last line of the header.
fn align_by_name<R: Read, W: Write>(
    alloc: Global,
    recording: &LongRecording,
    lines: &mut R,
    out: &mut W,
    format: Format,
    settings: &Settings<'_>,
    name: &[u8],
) -> Result<Outcome, RunFault>
    requires limits { IsWithin settings.now }
    requires named { 0 < settings.now.header }
    ensures { AlignsNamed name.now format recording.now.micros recording.now.edges settings.now
        (R.remaining lines.old) (R.remaining lines.new) (W.contents out.old) (W.contents out.new)
        result }
{
    let found = match find(alloc, lines, settings, name) {
        Ok(found) => found,
        Err(fault) => return Err(fault),
    };
    let mut pulses = Lens::of(recording);
    let settings = Settings {
        column: found.column,
        ..*settings
    };
    let before = found.bytes.as_slice();
    align_track(alloc, &mut pulses, before, lines, out, format, &settings)
}

/// Aligns the lines with the track that a lens shows.
fn align_track<R: Read, W: Write>(
    alloc: Global,
    pulses: &mut Lens<'_>,
    before: &[u8],
    lines: &mut R,
    out: &mut W,
    format: Format,
    settings: &Settings<'_>,
) -> Result<Outcome, RunFault>
    requires limits { IsWithin settings.now }
    ensures ends { (start : Option (List ℕ)) → Consumes start (R.remaining lines.old) before.now
        → Ends format pulses.old.track.pulses
        (with_track format pulses.old.track.micros pulses.old.track.pulses settings.now) start
        (R.remaining lines.new) (W.contents out.old) (W.contents out.new) (tally_of result) }
    ensures stands { IfOk result (λ outcome.
        outcome.standing ≡ standing_of format pulses.old.track.pulses settings.now) }
{
    let micros = pulses.length();
    let Ok(index) = Index::build(alloc, pulses, format) else {
        return Err(RunFault::OutOfMemory);
    };
    let mut records = FrameLens::new(&index);
    let (century, alone) = (settings.century, settings.alone);
    let Ok(known) = Known::of(alloc, pulses, &mut records, format, century, alone) else {
        return Err(RunFault::OutOfMemory);
    };
    let day = first_day(&mut records, &known.held, format);
    let doubted = count_doubted(&mut records, &known.held, format);
    // If no frame is believed, no line has a time, and the day does not count.
    let settings = Settings {
        first_day: day.unwrap_or(0),
        micros,
        ..*settings
    };
    match run(alloc, before, lines, out, pulses, &known, format, &settings) {
        Ok(tally) => Ok(Outcome {
            tally,
            standing: Standing {
                timed: day.is_some(),
                doubted,
            },
        }),
        Err(fault) => Err(fault),
    }
}
