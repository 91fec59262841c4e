//! A track shown through a lens, which counts the looks at its pulses.

ghost use Rattle.std.specs.Prelude.{◌≡◌, ◌-◌, ◌<◌, ◌≤◌, ◌^◌, ℕ, length, slice_get, Some};
ghost use Rattle.irig_track.specs.Looks.{LookedThrough, lens_view, counted};
ghost use Rattle.irig_track.specs.{Edges.edges_of, Splices.risen_by, Track.IsLongTrack};
ghost use Rattle.irig_track.specs.Track.{track_view};

use crate::track::Track;
use irig_gap::Gap;
use irig_recording::{LongRecording, Pulse};
use std::marker::Model;

impl Track {
    /// A lens on the track, which has counted no look.
    pub fn lens(&self) -> Lens<'_>
        ensures { result ≡ lens_view self.now 0 }
    {
        Lens::on(self.micros, &self.pulses)
    }
}

/// Shows a track of up to 2^40 microseconds and 2^26 pulses, and counts how often a pulse was
/// looked at. Only `pulse` and `find` reach the pulses, so the looks bound the work.
#[derive(Drop)]
pub struct Lens<'a> {
    micros: u64,
    pulses: &'a Gap<Pulse>,
    // How many more looks can be counted. To count down to 0 is cheaper than up to 2^64 - 1.
    left: u64,
}

impl<'a> Model for Lens<'a> {
    ghost use Rattle.std.specs.Prelude.{◌-◌, ◌^◌, length};
    ghost use Rattle.irig_track.specs.Looks.{LensView, lens_view};
    ghost use Rattle.irig_track.specs.Track.{IsLongTrack, track_view};

    ghost Value = { LensView };

    ghost view = { λ l. lens_view (track_view l.micros l.pulses.now.items
        (l.pulses.now.capacity - length l.pulses.now.items)) (2 ^ 64 - 1 - l.left) };

    ghost invariant = { λ l. IsLongTrack l.micros l.pulses.now.items };
}

impl<'a> Lens<'a> {
    /// A lens on a recording, of which it copies no pulse.
    pub fn of(recording: &'a LongRecording) -> Lens<'a>
        ensures length { result.track.micros ≡ recording.now.micros }
        ensures edges { edges_of result.track.pulses ≡ recording.now.edges }
        ensures looks { result.looks ≡ 0 }
    {
        Lens::on(recording.length(), recording.pulses())
    }

    /// The caller has both from a track or a recording, so they keep the limits.
    fn on(micros: u64, pulses: &'a Gap<Pulse>) -> Lens<'a>
        requires { IsLongTrack micros pulses.now.items }
        ensures { result ≡ lens_view (track_view micros pulses.now.items
            (pulses.now.capacity - length pulses.now.items)) 0 }
    {
        Lens {
            micros,
            pulses,
            left: u64::MAX,
        }
    }

    /// How many pulses the track has. No look is counted.
    pub fn len(&self) -> usize
        ensures len { result ≡ length self.now.track.pulses }
        ensures track { IsLongTrack self.now.track.micros self.now.track.pulses }
    {
        self.pulses.len()
    }

    /// How long the track is, in microseconds. No look is counted.
    pub fn length(&self) -> u64
        ensures length { result ≡ self.now.track.micros }
        ensures track { IsLongTrack self.now.track.micros self.now.track.pulses }
    {
        self.micros
    }

    /// The pulse at `index`, from 0, counted as a look.
    pub fn pulse(&mut self, index: usize) -> Pulse
        requires { index < length self.old.track.pulses }
        ensures value { slice_get self.old.track.pulses index ≡ Some result }
        ensures order { (result.rise < result.fall) × (result.fall ≤ self.old.track.micros) }
        ensures track { IsLongTrack self.old.track.micros self.old.track.pulses }
        ensures counted { self.new ≡ lens_view self.old.track (counted self.old.looks 1) }
    {
        self.left = self.left.saturating_sub(1);
        self.pulses.get(index)
    }

    /// How many pulses rise by `time`, in microseconds. Inlined, so that `Track::find`, whose looks
    /// nobody reads, does not count them.
    #[inline(always)]
    pub fn find(&mut self, time: u64) -> usize
        ensures count { result ≡ risen_by time self.old.track.pulses }
        ensures within { result ≤ length self.old.track.pulses }
        ensures track { IsLongTrack self.old.track.micros self.old.track.pulses }
        ensures looked { (digits : ℕ) → length self.old.track.pulses < 2 ^ digits →
            LookedThrough self.old self.new digits }
    {
        let mut low = 0;
        let mut high = self.len();
        while low < high {
            let middle = low + (high - low) / 2;
            // Pulses before `low` rise by then; those from `high` on rise later.
            if self.pulse(middle).rise <= time {
                low = middle + 1;
            } else {
                high = middle;
            }
        }
        low
    }

    /// How many looks there were. The count stays at 2^64 - 1 once it is there.
    pub fn looks(&self) -> u64
        ensures { result ≡ self.now.looks }
    {
        u64::MAX - self.left
    }
}
