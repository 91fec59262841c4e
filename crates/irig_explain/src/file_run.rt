//! The recording in a dump, of up to 2^26 pulses, is explained.

ghost use Rattle.std.specs.Prelude.{◌≡◌};
ghost use Rattle.irig_explain.specs.{Ending.Lists, Ending.Obeys};

use crate::chosen::Chosen;
use crate::ending::Ending;
use irig_files::{Disk, read_long_track};
use irig_happenings::{happenings, is_quiet, text_of};
use irig_print::put_all;
use irig_recording::LongRecording;
use std::alloc::Global;
use std::io::Write;

/// Prints what happened in the recording that is chosen.
pub fn explain_file<'a, D: Disk, W: Write>(
    alloc: Global,
    chosen: &Chosen<'a>,
    disk: &D,
    out: &mut W,
) -> Ending<'a>
    ensures { Obeys (D.held disk.now) (D.unread disk.now) chosen.now (W.contents out.old)
        (W.contents out.new) result }
{
    match read_long_track(alloc, disk, chosen.track, chosen.wire, chosen.window) {
        Ok(recording) => explain_track(alloc, chosen, recording, out),
        Err(fault) => Ending::Unread(chosen.track, fault),
    }
}

/// The text is made before it is printed, so nothing is printed if memory runs out.
fn explain_track<'a, W: Write>(
    alloc: Global,
    chosen: &Chosen<'a>,
    recording: LongRecording,
    out: &mut W,
) -> Ending<'a>
    ensures { Lists chosen.now recording.edges (W.contents out.old) (W.contents out.new) result }
{
    let Ok(parts) = happenings(alloc, chosen.format, !chosen.sure, recording) else {
        return Ending::OutOfMemory;
    };
    let Ok(text) = text_of(alloc, chosen.json, parts.as_slice()) else {
        return Ending::OutOfMemory;
    };
    match put_all(out, text.as_slice()) {
        Ok(()) => Ending::Listed(is_quiet(parts.as_slice())),
        Err(why) => Ending::Unprinted(why),
    }
}
