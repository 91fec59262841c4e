//! What a growth that is refused leaves of a track and its index, for `tests/no_memory`.

use super::helpers::positions;
use irig_codes::{Format, Kind};
use irig_index::Index;
use irig_track::Track;
use std::alloc::Global;

/// A refused growth is asked for again, which succeeds, as one is refused in a run.
fn built(alloc: Global, track: &Track) -> Option<Index> {
    let format = Format::new(Kind::G, 2).ok()?;
    match Index::build(alloc, &mut track.lens(), format) {
        Ok(index) => Some(index),
        Err(_) => Index::build(alloc, &mut track.lens(), format).ok(),
    }
}

/// Whether pulse k rises from 100 k microseconds on, before 100 k + 100.
fn has_pulses(track: &Track) -> bool {
    for k in 0..track.len() {
        if track.pulse(k).rise / 100 != k as u64 {
            return false;
        }
    }
    track.len() == 8
}

/// Whether each of the eight pulses but the first is a marker.
fn has_markers(index: &Index) -> bool {
    for k in 0..index.len() {
        if index.record(k).marker != k + 1 {
            return false;
        }
    }
    index.len() == 7
}

/// Whether both have room for 100 more in the end, and an error leaves the room that the index had.
fn both_reserve(track: &mut Track, index: &mut Index) -> bool {
    let room = index.room();
    (track.reserve(100).is_ok() || track.reserve(100).is_ok())
        && (index.reserve(100).is_ok() || index.room() == room && index.reserve(100).is_ok())
}

fn are_kept(alloc: Global, track: &mut Track) -> bool {
    match built(alloc, track) {
        Some(mut index) => {
            both_reserve(track, &mut index) && has_pulses(track) && has_markers(&index)
        }
        None => false,
    }
}

// If memory runs out for the track itself, nothing is tested in that run.
#[test]
fn a_refused_call_leaves_pulses_and_frames(rt: HostRuntime) {
    if let Ok(mut track) = positions(rt.alloc()) {
        assert!(rt; are_kept(rt.alloc(), &mut track));
    }
}
