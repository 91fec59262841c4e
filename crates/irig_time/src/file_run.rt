//! Lines are aligned with the track of a dump, of up to 2^26 pulses, or its frames are listed, or
//! its stretches without a time.

ghost use Rattle.std.specs.Prelude.{◌≡◌};
ghost use Rattle.irig_time.specs.Done.{done_of, ending_of};
ghost use Rattle.irig_time.specs.Chosen.{IsSound};
ghost use Rattle.irig_time.specs.Runs.{AlignsAs, HolesAs, ListsAs, Obeys, RunsAs};

use crate::chosen::Chosen;
use crate::done::Done;
use crate::ending::Ending;
use crate::found::Found;
use crate::task::Task;
use irig_files::{Disk, read_long_track};
use irig_recording::LongRecording;
use irig_stamps::{Outcome, Standing, align, list, list_holes};
use std::alloc::Global;
use std::io::{Read, Write};

/// Aligns lines with the track that is chosen, or prints a list.
pub fn run_file<'a, D: Disk, R: Read, W: Write>(
    alloc: Global,
    chosen: &Chosen<'a>,
    disk: &D,
    lines: &mut R,
    out: &mut W,
) -> Ending<'a>
    requires sound { IsSound chosen.now.settings }
    ensures { Obeys (D.held disk.now) (D.unread disk.now) chosen.now (R.remaining lines.old)
        (R.remaining lines.new) (W.contents out.old) (W.contents out.new) result }
{
    match read_long_track(alloc, disk, chosen.track, chosen.wire, chosen.window) {
        Ok(recording) => run_track(alloc, chosen, recording, lines, out),
        Err(fault) => Ending::Unread(chosen.track, fault),
    }
}

/// Aligns lines with a recording, or prints a list if that is asked for: a row for each frame that
/// has a time, or for each stretch without one.
fn run_track<'a, R: Read, W: Write>(
    alloc: Global,
    chosen: &Chosen<'a>,
    recording: LongRecording,
    lines: &mut R,
    out: &mut W,
) -> Ending<'a>
    requires sound { IsSound chosen.now.settings }
    ensures { RunsAs chosen.now.task chosen.now recording.micros recording.edges
        (R.remaining lines.old) (R.remaining lines.new) (W.contents out.old) (W.contents out.new)
        result }
{
    match chosen.task {
        Task::Lines => align_track(alloc, chosen, recording, lines, out),
        Task::Table => list_track(alloc, chosen, recording, out),
        Task::Holes(json) => list_untimed(alloc, chosen, recording, out, json),
    }
}

fn list_untimed<'a, W: Write>(
    alloc: Global,
    chosen: &Chosen<'a>,
    recording: LongRecording,
    out: &mut W,
    json: bool,
) -> Ending<'a>
    requires sound { IsSound chosen.now.settings }
    ensures { HolesAs json chosen.now recording.micros recording.edges (W.contents out.old)
        (W.contents out.new) result }
{
    let length = recording.length();
    match list_holes(alloc, recording, out, chosen.format, &chosen.settings, json) {
        Ok(holes) => Ending::Holed(Found {
            path: chosen.track,
            holes,
            micros: length,
            quiet: chosen.quiet,
        }),
        Err(fault) => Ending::Broken(fault),
    }
}

fn list_track<'a, W: Write>(
    alloc: Global,
    chosen: &Chosen<'a>,
    recording: LongRecording,
    out: &mut W,
) -> Ending<'a>
    requires sound { IsSound chosen.now.settings }
    ensures { ListsAs chosen.now recording.edges (W.contents out.old) (W.contents out.new) result }
{
    match list(alloc, recording, out, chosen.format, &chosen.settings) {
        Ok(standing) => ending_of(chosen, standing, None),
        Err(fault) => Ending::Broken(fault),
    }
}

fn align_track<'a, R: Read, W: Write>(
    alloc: Global,
    chosen: &Chosen<'a>,
    recording: LongRecording,
    lines: &mut R,
    out: &mut W,
) -> Ending<'a>
    requires sound { IsSound chosen.now.settings }
    ensures { AlignsAs chosen.now recording.micros recording.edges (R.remaining lines.old)
        (R.remaining lines.new) (W.contents out.old) (W.contents out.new) result }
{
    let micros = recording.length();
    match align(
        alloc,
        recording,
        lines,
        out,
        chosen.format,
        &chosen.settings,
    ) {
        Ok(outcome) => {
            let done = done_of(chosen, micros, outcome);
            ending_of(chosen, outcome.standing, Some(done))
        }
        Err(fault) => Ending::Broken(fault),
    }
}

fn done_of(chosen: &Chosen<'_>, micros: u64, outcome: Outcome) -> Done
    ensures { result ≡ done_of chosen.now micros outcome }
{
    Done {
        tally: outcome.tally,
        micros,
        quiet: chosen.quiet,
    }
}

/// How a run ends after which all has come out, by what was found of the track: after lines with
/// what was done with them.
fn ending_of<'a>(chosen: &Chosen<'a>, standing: Standing, done: Option<Done>) -> Ending<'a>
    ensures { result ≡ ending_of chosen.now standing done }
{
    if standing.doubted > 0 {
        return Ending::Doubted(chosen.track, standing.doubted, done);
    }
    if !standing.timed {
        return Ending::Timeless(chosen.track, done);
    }
    match done {
        Some(done) => Ending::Aligned(done),
        None => Ending::Listed,
    }
}
