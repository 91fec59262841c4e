//! Edges, and the pulses and the tracks that have them.

use irig_gap::Gap;
use irig_recording::{Pulse, Recording};
use irig_track::Track;
use std::alloc::{AllocError, Global};

/// Rise, fall, rise and so on, and no more.
pub(crate) fn have_edges(pulses: &Gap<Pulse>, edges: &[u64]) -> bool {
    let mut left = edges;
    for index in 0..pulses.len() {
        let pulse = pulses.get(index);
        match left {
            [rise, fall, rest @ ..] if *rise == pulse.rise && *fall == pulse.fall => left = rest,
            _ => return false,
        }
    }
    left.is_empty()
}

/// The error is also that length and edges are no recording, but no test gives such here.
pub(crate) fn track_of(alloc: Global, length: u64, edges: &[u64]) -> Result<Track, AllocError> {
    match Recording::new(alloc, length, edges)? {
        Some(recording) => Track::new(recording),
        None => Err(AllocError),
    }
}

/// The edges of 2^22 pulses, the most that a track may have: up at each even microsecond from 0 on,
/// and down at the next.
pub(crate) fn most_edges(alloc: Global) -> Result<Vec<u64>, AllocError> {
    let mut edges = Vec::with_capacity(alloc, 1 << 23)?;
    for edge in 0..1u64 << 23 {
        edges.push(edge)?;
    }
    Ok(edges)
}
