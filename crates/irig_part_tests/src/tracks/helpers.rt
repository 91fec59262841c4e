//! Tracks and gaps for the tests, and edits that are tried before they are made.

ghost use Rattle.std.specs.Prelude.{◌≡◌, ◌+◌, ◌≤◌, length, []};
ghost use Rattle.irig_track.specs.Splices.{CanSplice};

use crate::edges::have_edges;
use irig_gap::Gap;
use irig_recording::Recording;
use irig_track::{Pulse, Span, Track};
use std::alloc::{AllocError, Global};

pub(crate) fn pulses_of(alloc: Global, track: &Track) -> Result<Gap<Pulse>, AllocError> {
    let mut pulses = Gap::new(alloc);
    for index in 0..track.len() {
        pulses.reserve(1)?;
        pulses.put(track.pulse(index));
    }
    Ok(pulses)
}

/// Also whether track and recording are written as the same text.
pub(crate) fn has_edges(alloc: Global, track: &Track, edges: &[u64]) -> bool {
    match track.recording(alloc) {
        Ok(recording) => is_recording_of(alloc, track, &recording, edges),
        Err(_) => false,
    }
}

fn is_recording_of(alloc: Global, track: &Track, recording: &Recording, edges: &[u64]) -> bool {
    recording.length() == track.length()
        && have_edges(recording.pulses(), edges)
        && have_one_text(alloc, track, recording)
}

fn have_one_text(alloc: Global, track: &Track, recording: &Recording) -> bool {
    match track.text(alloc) {
        Ok(text) => is_text_of(alloc, recording, text.as_slice()),
        Err(_) => false,
    }
}

fn is_text_of(alloc: Global, recording: &Recording, text: &[u8]) -> bool {
    match irig_recording::text(alloc, recording) {
        Ok(written) => written.as_slice() == text,
        Err(_) => false,
    }
}

/// Whether a splice has the span that is wanted, or cannot be made if that is `None`. `can_splice`
/// needs room for the pulses that come, and `splice` room in `taken` for those that go.
pub(crate) fn splices(
    alloc: Global,
    track: &mut Track,
    at: usize,
    count: usize,
    put: &mut Gap<Pulse>,
    want: Option<Span>,
) -> bool {
    if track.reserve(put.len()).is_err() {
        return false;
    }
    if !track.can_splice(at, count, put) {
        return want.is_none();
    }
    let mut taken = Gap::new(alloc);
    taken.reserve(count).is_ok() && exchanges(track, at, count, put, &mut taken, want)
}

/// Whether the span is `want`, and all of `put` is in the track and `count` pulses in `taken`.
/// `spare` is how many more fit in the track; those that go make room, too.
fn exchanges(
    track: &mut Track,
    at: usize,
    count: usize,
    put: &mut Gap<Pulse>,
    taken: &mut Gap<Pulse>,
    want: Option<Span>,
) -> bool
    requires can { CanSplice track.old.micros at count put.old.items track.old.pulses }
    requires spare { length put.old.items ≤ track.old.spare + count }
    requires empty { taken.old.items ≡ [] }
    requires room { count ≤ taken.old.capacity }
{
    let span = track.splice(at, count, put, taken);
    put.len() == 0 && taken.len() == count && want == Some(span)
}

/// From pulse `i` to `j`, both included and from 0; `None` if that cannot be done.
pub(crate) fn shift(track: &mut Track, i: usize, j: usize, by: i64) -> Option<Span> {
    if track.can_shift(i, j, by) {
        Some(track.shift(i, j, by))
    } else {
        None
    }
}

/// It may make one pulse more, so there is room for one.
pub(crate) fn toggle(track: &mut Track, a: u64, b: u64) -> Result<Option<Span>, AllocError> {
    track.reserve(1)?;
    if track.can_toggle(a, b) {
        Ok(Some(track.toggle(a, b)))
    } else {
        Ok(None)
    }
}
