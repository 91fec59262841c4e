//! A length and the pulses of a level.

ghost use Rattle.std.specs.Prelude.{◌≡◌, ◌≤◌, ◌↔◌, ◌^◌, IsTrue, IsSome, IfOk, IfSome, OnErr, true};
ghost use Rattle.std.specs.Prelude.{length, ◌≢◌, ◌*◌, ◌+◌, []};
ghost use Rattle.irig_recording.specs.Pulses.{edges_of};
ghost use Rattle.irig_recording.specs.Recording.{IsRecording, RecordingView, RisesFrom, UpTo};
ghost use Rattle.irig_recording.specs.Recording.{is_even_long, recording_view};

use crate::edges::Edges;
use crate::pulse::Pulse;
use irig_gap::Gap;
use std::alloc::{AllocError, Global};
use std::marker::Model;

/// The most microseconds of a recording, about 12.7 days: this project's own limit.
pub const LENGTH_LIMIT: u64 = 1 << 40;

/// The most pulses of a recording: this project's own limit.
pub const PULSES_LIMIT: usize = 1 << 22;

const EDGES_LIMIT: usize = 2 * PULSES_LIMIT;

/// What is kept of one wire, in microseconds. The buffer's place is after all pulses.
#[derive(Drop)]
pub struct Recording {
    micros: u64,
    pulses: Gap<Pulse>,
}

impl Model for Recording {
    ghost Value = { RecordingView };

    ghost view = { λ r. recording_view r.micros (edges_of r.pulses.items) };

    ghost invariant = { λ r. IsRecording r.micros (edges_of r.pulses.items)
        × (r.pulses.place ≡ length r.pulses.items)
        × (r.pulses.capacity ≤ 2 * length r.pulses.items + 1024) };
}

impl Recording {
    /// `None` unless these make a recording (`is_recording`); both are in microseconds.
    pub fn new(alloc: Global, length: u64, edges: &[u64]) -> Result<Option<Recording>, AllocError>
        ensures accepted { IfOk result (λ r. IsSome r ↔ IsRecording length edges.now) }
        ensures view { IfOk result (λ r. IfSome r (λ made.
            made ≡ recording_view length edges.now)) }
        ensures refused { OnErr result (IsRecording length edges.now × (edges.now ≢ [])) }
    {
        if !is_recording(length, edges) {
            return Ok(None);
        }
        let pulses = pulses_of(alloc, edges)?;
        Ok(Some(Recording::from_parts(length, pulses)))
    }

    /// The recording of a length and pulses that make one; no limit is tested here.
    pub fn from_parts(micros: u64, pulses: Gap<Pulse>) -> Recording
        requires lawful { IsRecording micros (edges_of pulses.items) }
        requires place { pulses.place ≡ length pulses.items }
        requires room { pulses.capacity ≤ 2 * length pulses.items + 1024 }
        ensures { result ≡ recording_view micros (edges_of pulses.items) }
    {
        Recording { micros, pulses }
    }

    /// In microseconds.
    pub fn length(&self) -> u64
        ensures exact { result ≡ self.now.micros }
        ensures lawful { IsRecording self.now.micros self.now.edges }
    {
        self.micros
    }

    /// The pulses, in order, which `get_left` gives by their index, from 0.
    pub fn pulses(&self) -> &Gap<Pulse>
        ensures exact { edges_of result.now.items ≡ self.now.edges }
        ensures place { result.now.place ≡ length result.now.items }
        ensures lawful { IsRecording self.now.micros self.now.edges }
    {
        &self.pulses
    }

    /// The pulses, in order, without a copy.
    pub fn into_pulses(self) -> Gap<Pulse>
        ensures exact { edges_of result.items ≡ self.edges }
        ensures place { result.place ≡ length result.items }
        ensures room { result.capacity ≤ 2 * length result.items + 1024 }
        ensures lawful { IsRecording self.micros self.edges }
    {
        self.pulses
    }
}

/// Each two edges are the rise and the fall of a pulse.
fn pulses_of(alloc: Global, edges: &[u64]) -> Result<Gap<Pulse>, AllocError>
    requires few { length edges.now ≤ 2 ^ 23 }
    requires even { is_even_long edges.now ≡ true }
    ensures edges { IfOk result (λ pulses. edges_of pulses.items ≡ edges.now) }
    ensures place { IfOk result (λ pulses. pulses.place ≡ length pulses.items) }
    ensures room { IfOk result (λ pulses. pulses.capacity ≤ 2 * length pulses.items + 1024) }
    ensures refused { OnErr result (edges.now ≢ []) }
{
    let mut kept = Edges::new(alloc);
    for edge in edges {
        kept.push(*edge)?;
    }
    Ok(kept.into_pulses())
}

/// The length is at most 2^40; the edges are even in number, at most 2^23, and each is above the
/// one before it and at most the length.
fn is_recording(length: u64, edges: &[u64]) -> bool
    ensures { IsTrue result ↔ IsRecording length edges.now }
{
    if length > LENGTH_LIMIT {
        return false;
    }
    if edges.len() > EDGES_LIMIT {
        return false;
    }
    if edges.len() % 2 != 0 {
        return false;
    }
    is_rising(length, edges)
}

/// `low` is the least time that the next edge may have: at most the length + 1, which fits.
fn is_rising(length: u64, edges: &[u64]) -> bool
    requires { length ≤ 2 ^ 40 }
    ensures { IsTrue result ↔ (RisesFrom 0 edges.now × UpTo length edges.now) }
{
    let mut low = 0;
    for edge in edges {
        if *edge < low || *edge > length {
            return false;
        }
        low = *edge + 1;
    }
    true
}
