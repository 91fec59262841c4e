//! A length and the pulses of a level that are only read, so that there may be many.

ghost use Rattle.std.specs.Prelude.{◌≡◌, ◌≤◌, ◌^◌, ◌*◌, ◌+◌, length};
ghost use Rattle.irig_recording.specs.Pulses.{edges_of};
ghost use Rattle.irig_recording.specs.Recording.{IsLongRecording, recording_view};

use crate::pulse::Pulse;
use crate::recording::Recording;
use irig_gap::Gap;
use std::marker::Model;

/// The most pulses of a long recording, 2^26, in 1 GiB: this project's own limit.
pub const LONG_PULSES_LIMIT: usize = 1 << 26;

/// What is kept of one wire, as by a `Recording`, with at most 2^26 pulses instead of 2^22.
#[derive(Drop)]
pub struct LongRecording {
    micros: u64,
    pulses: Gap<Pulse>,
}

impl Model for LongRecording {
    ghost use Rattle.std.specs.Prelude.{◌≡◌, ◌≤◌, ◌*◌, ◌+◌, length};
    ghost use Rattle.irig_recording.specs.Pulses.{edges_of};
    ghost use Rattle.irig_recording.specs.Recording.{IsLongRecording, RecordingView};
    ghost use Rattle.irig_recording.specs.Recording.{recording_view};

    ghost Value = { RecordingView };

    ghost view = { λ r. recording_view r.micros (edges_of r.pulses.items) };

    ghost invariant = { λ r. IsLongRecording r.micros (edges_of r.pulses.items)
        × (r.pulses.place ≡ length r.pulses.items)
        × (r.pulses.capacity ≤ 2 * length r.pulses.items + 1024) };
}

impl LongRecording {
    /// The caller knows that these make a recording: no limit is tested here. The bound of the
    /// block (`room`) is that of `Edges`: so the number of pulses bounds the memory.
    pub fn from_parts(micros: u64, pulses: Gap<Pulse>) -> LongRecording
        requires lawful { IsLongRecording micros (edges_of pulses.items) }
        requires place { pulses.place ≡ length pulses.items }
        requires room { pulses.capacity ≤ 2 * length pulses.items + 1024 }
        ensures { result ≡ recording_view micros (edges_of pulses.items) }
    {
        LongRecording { micros, pulses }
    }

    /// How long the recording is, in microseconds.
    pub fn length(&self) -> u64
        ensures exact { result ≡ self.now.micros }
        ensures lawful { IsLongRecording self.now.micros self.now.edges }
    {
        self.micros
    }

    /// The pulses, in order. `gap_at` is their number.
    pub fn pulses(&self) -> &Gap<Pulse>
        ensures exact { edges_of result.now.items ≡ self.now.edges }
        ensures place { result.now.place ≡ length result.now.items }
        ensures lawful { IsLongRecording self.now.micros self.now.edges }
    {
        &self.pulses
    }

    /// The same recording as a `Recording`, without a copy of the pulses.
    pub fn into_recording(self) -> Recording
        requires few { length self.edges ≤ 2 ^ 23 }
        ensures { result ≡ self }
    {
        Recording::from_parts(self.micros, self.pulses)
    }
}
