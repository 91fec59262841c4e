//! The stretches of a track without a time are listed.

ghost use Rattle.std.specs.Prelude.{◌≤◌, IfOk};
ghost use Rattle.irig_timed.specs.Reasons.{HasNoTime};
ghost use Rattle.irig_stamps.specs.HoleTexts.{IsText, ListsHoles, ListsHolesRecording};
ghost use Rattle.irig_stamps.specs.Reasons.{IsKnownOf};

use crate::fault::RunFault;
use crate::first_day::{count_doubted, first_day};
use crate::holes::Holes;
use crate::outcome::Standing;
use crate::settings::Settings;
use crate::untimed::walk;
use irig_codes::Format;
use irig_index::Index;
use irig_print::put_all;
use irig_recording::LongRecording;
use irig_timed::Known;
use irig_times::FrameLens;
use irig_track::Lens;
use std::alloc::{AllocError, Global};
use std::io::Write;

/// Prints the stretches of a recording in which no moment has a time, as far as is possible in one
/// with one reason: a row for each, as an object of JSON if that is asked for.
pub fn list_holes<W: Write>(
    alloc: Global,
    recording: LongRecording,
    out: &mut W,
    format: Format,
    settings: &Settings<'_>,
    json: bool,
) -> Result<Holes, RunFault>
    requires century { settings.now.century ≤ 99 }
    ensures { ListsHolesRecording format recording.micros recording.edges settings.now json
        (W.contents out.old) (W.contents out.new) result }
{
    list_track(
        alloc,
        &mut Lens::of(&recording),
        out,
        format,
        settings,
        json,
    )
}

fn list_track<W: Write>(
    alloc: Global,
    pulses: &mut Lens<'_>,
    out: &mut W,
    format: Format,
    settings: &Settings<'_>,
    json: bool,
) -> Result<Holes, RunFault>
    requires century { settings.now.century ≤ 99 }
    ensures { ListsHoles format pulses.old.track.micros pulses.old.track.pulses settings.now json
        (W.contents out.old) (W.contents out.new) result }
{
    let Ok(index) = Index::build(alloc, pulses, format) else {
        return Err(RunFault::OutOfMemory);
    };
    let mut records = FrameLens::new(&index);
    let (century, alone) = (settings.century, settings.alone);
    let Ok(known) = Known::of(alloc, pulses, &mut records, format, century, alone) else {
        return Err(RunFault::OutOfMemory);
    };
    let standing = Standing {
        timed: first_day(&mut records, &known.held, format).is_some(),
        doubted: count_doubted(&mut records, &known.held, format),
    };
    let Ok((text, untimed, count)) = hole_text(alloc, pulses, &known, format, settings, json) else {
        return Err(RunFault::OutOfMemory);
    };
    match put_all(out, &text) {
        Ok(()) => Ok(Holes {
            untimed,
            count,
            standing,
        }),
        Err(why) => Err(RunFault::PrintFailed(why)),
    }
}

/// The rows of the stretches, how many microseconds they have, and how many they are.
fn hole_text(
    alloc: Global,
    pulses: &mut Lens<'_>,
    known: &Known,
    format: Format,
    settings: &Settings<'_>,
    json: bool,
) -> Result<(Vec<u8>, u64, u64), AllocError>
    requires known { IsKnownOf format settings.now pulses.old.track.pulses known.now }
    requires century { settings.now.century ≤ 99 }
    ensures { IfOk result (λ ended. IsText (HasNoTime format settings.now.alone
        settings.now.century pulses.old.track.pulses) json settings.now.comma
        pulses.old.track.micros ended.0.items ended.1 ended.2) }
{
    let pending = walk(alloc, pulses, known, format, settings, json)?;
    pending.finish(json, settings.comma)
}
