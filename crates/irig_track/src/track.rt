//! A length and pulses in order: a wire as a session edits it.

ghost use Rattle.std.specs.Prelude.{◌≡◌, ◌+◌, ◌-◌, ◌^◌, ◌/◌, ◌<◌, ◌≤◌, length, slice_get, Some};
ghost use Rattle.std.specs.Prelude.{true, max, IfOk, OnOk, OnErr};
ghost use Rattle.irig_recording.specs.FileText.{file_text, begins_high};
ghost use Rattle.irig_recording.specs.Recording.{recording_view};
ghost use Rattle.irig_track.specs.Splices.{risen_by, ended_before};
ghost use Rattle.irig_track.specs.{Edges.edges_of, Edges.is_edge, Track.IsTrack};

use irig_gap::Gap;
use irig_recording::{PULSES_LIMIT, Pulse, Recording};
use irig_text::whole;
use std::alloc::{AllocError, Global};
use std::marker::Model;

/// How many more pulses a new track has room for, at least: some kilobytes.
const NEW_SPARE: usize = 1024;

/// A length and pulses, in microseconds: up to 2^40 microseconds and 2^22 pulses.
#[derive(Drop)]
pub struct Track {
    pub(crate) micros: u64,
    pub(crate) pulses: Gap<Pulse>,
}

impl Model for Track {
    ghost use Rattle.std.specs.Prelude.{◌-◌, length};
    ghost use Rattle.irig_track.specs.Track.{TrackView, track_view, IsTrack};

    ghost Value = { TrackView };

    ghost view = { λ t. track_view t.micros t.pulses.items
        (t.pulses.capacity - length t.pulses.items) };

    ghost invariant = { λ t. IsTrack t.micros t.pulses.items };
}

impl Track {
    /// The track with the recording's length and edges, in the recording's block of memory.
    /// `bounded`, for n pulses: a block has room for at most n + 1024 more; one that grows, by half
    /// from below n + 1024 or to room for 1024, has at most n / 2 + 1536.
    pub fn new(recording: Recording) -> Result<Track, AllocError>
        ensures length { IfOk result (λ t. t.micros ≡ recording.micros) }
        ensures edges { IfOk result (λ t. edges_of t.pulses ≡ recording.edges) }
        ensures spare { IfOk result (λ t. 1024 ≤ t.spare) }
        ensures bounded { IfOk result (λ t. t.spare ≤ length t.pulses + 1536) }
    {
        let micros = recording.length();
        let mut pulses = recording.into_pulses();
        pulses.reserve(NEW_SPARE)?;
        Ok(Track { micros, pulses })
    }

    /// A copy; `unwrap` finds one, as a track keeps the limits of a recording.
    pub fn recording(&self, alloc: Global) -> Result<Recording, AllocError>
        ensures exact { IfOk result (λ r.
            r ≡ recording_view self.now.micros (edges_of self.now.pulses)) }
        ensures refused { OnErr result (0 < length self.now.pulses) }
    {
        let edges = self.edges(alloc)?;
        Ok(Recording::new(alloc, self.micros, edges.as_slice())?.unwrap())
    }

    /// The times of all edges in order, in microseconds.
    fn edges(&self, alloc: Global) -> Result<Vec<u64>, AllocError>
        ensures exact { IfOk result (λ edges. edges.items ≡ edges_of self.now.pulses) }
        ensures refused { OnErr result (0 < length self.now.pulses) }
    {
        let mut edges = Vec::with_capacity(alloc, 2 * self.pulses.len())?;
        for index in 0..self.pulses.len() {
            let pulse = self.pulses.get(index);
            // There is room for two edges of each pulse.
            edges.push_reserved(pulse.rise);
            edges.push_reserved(pulse.fall);
        }
        Ok(edges)
    }

    /// The dump of the track. At first it asks for the longest text: 18 bytes for each of two edges
    /// a pulse, and 140 for the header and the length.
    pub fn text(&self, alloc: Global) -> Result<Vec<u8>, AllocError>
        ensures { IfOk result (λ text. text.items
            ≡ file_text (recording_view self.now.micros (edges_of self.now.pulses))) }
    {
        whole(alloc, 36 * self.pulses.len() + 140, &mut self.text_parts())
    }

    /// Whether the first pulse rises at 0, so that the level is high from the start.
    pub(crate) fn begins_high(&self) -> bool
        ensures high { result ≡ begins_high (edges_of self.now.pulses) }
        ensures track { IsTrack self.now.micros self.now.pulses }
    {
        0 < self.pulses.len() && self.pulses.get(0).rise == 0
    }

    /// Makes room for at least `more` further pulses; the memory grows by half or more.
    pub fn reserve(&mut self, more: usize) -> Result<(), AllocError>
        ensures stays { (self.new.micros ≡ self.old.micros) × (self.new.pulses ≡ self.old.pulses) }
        ensures room { OnOk result (more ≤ self.new.spare) }
        ensures grows { self.old.spare ≤ self.new.spare }
        ensures bounded { OnOk result (self.new.spare
            ≤ max more (self.old.spare + (length self.old.pulses + self.old.spare) / 2)) }
        ensures enough { more ≤ self.old.spare → self.new ≡ self.old }
        ensures unchanged { OnErr result (self.new ≡ self.old) }
        ensures refused { OnErr result (self.old.spare < more) }
    {
        // For its bound.
        let _count = self.pulses.len();
        self.pulses.reserve(more)
    }

    pub fn len(&self) -> usize
        ensures len { result ≡ length self.now.pulses }
        ensures track { IsTrack self.now.micros self.now.pulses }
    {
        self.pulses.len()
    }

    /// In microseconds.
    pub fn length(&self) -> u64
        ensures length { result ≡ self.now.micros }
        ensures track { IsTrack self.now.micros self.now.pulses }
    {
        self.micros
    }

    /// How many more pulses the limit of 2^22 allows.
    pub fn room(&self) -> usize
        ensures { result + length self.now.pulses ≡ 2 ^ 22 }
    {
        PULSES_LIMIT - self.pulses.len()
    }

    /// From 0.
    pub fn pulse(&self, index: usize) -> Pulse
        requires { index < length self.now.pulses }
        ensures value { slice_get self.now.pulses index ≡ Some result }
        ensures order { (result.rise < result.fall) × (result.fall ≤ self.now.micros) }
        ensures track { IsTrack self.now.micros self.now.pulses }
    {
        self.pulses.get(index)
    }

    /// How many pulses rise at or before `time`, in microseconds.
    pub fn find(&self, time: u64) -> usize
        ensures count { result ≡ risen_by time self.now.pulses }
        ensures within { result ≤ length self.now.pulses }
        ensures track { IsTrack self.now.micros self.now.pulses }
    {
        // For its bound.
        let _micros = self.micros;
        self.lens().find(time)
    }

    /// How many pulses fall before `time`: all that have risen by then, but perhaps the last.
    pub(crate) fn first_reaching(&self, time: u64) -> usize
        ensures { result ≡ ended_before time self.now.pulses }
    {
        let risen = self.find(time);
        if risen > 0 && self.pulse(risen - 1).fall >= time {
            risen - 1
        } else {
            risen
        }
    }

    /// Whether a pulse rises or falls at `time`, in microseconds.
    pub(crate) fn is_edge_at(&self, time: u64) -> bool
        ensures { result ≡ is_edge time self.now.pulses }
    {
        let risen = self.find(time);
        if risen == 0 {
            return false;
        }
        let last = self.pulse(risen - 1);
        last.rise == time || last.fall == time
    }
}
