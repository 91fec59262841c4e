//! A copy of the track of a session.

ghost use Rattle.std.specs.Prelude.{◌≡◌, IfOk};
ghost use Rattle.irig_track.specs.Edges.{edges_of};

use irig_edit::Session;
use irig_recording::Recording;
use irig_track::Track;
use std::alloc::{AllocError, Global};

/// The copy, with the limits that a session keeps.
pub fn track_of(alloc: Global, session: &Session) -> Result<Track, AllocError>
    ensures { IfOk result (λ track. track.pulses ≡ session.now.state.pulses) }
{
    let recording = recording_of(alloc, session)?;
    let track = Track::new(recording)?;
    Ok(track)
}

fn recording_of(alloc: Global, session: &Session) -> Result<Recording, AllocError>
    ensures { IfOk result (λ recording. recording.edges ≡ edges_of session.now.state.pulses) }
{
    let edges = edges_of(alloc, session)?;
    match Recording::new(alloc, session.length(), edges.as_slice())? {
        Some(recording) => Ok(recording),
        // A session keeps the limits of a recording, so there is one.
        None => Err(AllocError),
    }
}

/// The times of all edges of a session in order, in microseconds.
fn edges_of(alloc: Global, session: &Session) -> Result<Vec<u64>, AllocError>
    ensures { IfOk result (λ edges. edges.items ≡ edges_of session.now.state.pulses) }
{
    let mut edges = Vec::with_capacity(alloc, session.len().saturating_mul(2))?;
    for index in 0..session.len() {
        let pulse = session.pulse(index + 1);
        edges.push(pulse.rise)?;
        edges.push(pulse.fall)?;
    }
    Ok(edges)
}
