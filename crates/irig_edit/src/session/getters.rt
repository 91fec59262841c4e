//! What a session shows of its present state.

ghost use Rattle.std.specs.Prelude.{◌≡◌, ◌≤◌, ◌+◌, ◌-◌, length, Some, IfSome, IfOk, slice_get};
ghost use Rattle.irig_recording.specs.FileText.{file_text};
ghost use Rattle.irig_journal.specs.Journal.{weight_of};
ghost use Rattle.irig_edit.specs.Changes.Delta.{weight_of as weight_of_change};
ghost use Rattle.irig_edit.specs.State.State.{frames_of, recording_of};
ghost use Rattle.irig_track.specs.{Splices.risen_by, Track.IsTrack};

use crate::session::frame::Frame;
use crate::session::session::Session;
use irig_codes::Format;
use irig_text::whole;
use irig_track::{Pulse, TrackText};
use std::alloc::{AllocError, Global};

impl Session {
    /// How long the track is, in microseconds.
    pub fn length(&self) -> u64
        ensures { result ≡ self.now.state.micros }
    {
        self.present.track().length()
    }

    /// How many pulses the track has.
    pub fn len(&self) -> usize
        ensures { result ≡ length self.now.state.pulses }
    {
        self.present.track().len()
    }

    /// The pulse with a number, from 1.
    pub fn pulse(&self, number: usize) -> Pulse
        requires { (1 ≤ number) × (number ≤ length self.now.state.pulses) }
        ensures { slice_get self.now.state.pulses (number - 1) ≡ Some result }
    {
        self.present.pulse(number)
    }

    /// All pulses, the earliest first.
    pub fn pulses(&self, alloc: Global) -> Result<Vec<Pulse>, AllocError>
        ensures all { IfOk result (λ pulses. pulses.items ≡ self.now.state.pulses) }
        ensures lawful { IsTrack self.now.state.micros self.now.state.pulses }
    {
        let track = self.present.track();
        let mut pulses = Vec::with_capacity(alloc, track.len())?;
        for index in 0..track.len() {
            pulses.push(track.pulse(index))?;
        }
        Ok(pulses)
    }

    /// How many pulses rise at or before a time, in microseconds.
    pub fn find(&self, time: u64) -> usize
        ensures { result ≡ risen_by time self.now.state.pulses }
    {
        self.present.find(time)
    }

    /// The format in which frames are read.
    pub fn current_format(&self) -> Format
        ensures { result ≡ self.now.state.format }
    {
        self.present.format()
    }

    /// The time of the mark of a letter, a byte from `a` (97) to `z` (122), in microseconds.
    pub fn mark_time(&self, letter: u8) -> Option<u64>
        requires { (97 ≤ letter) × (letter ≤ 122) }
        ensures { slice_get self.now.state.marks (letter - 97) ≡ Some result }
    {
        self.present.mark((letter - b'a') as usize)
    }

    /// The number of a pulse, from 1, or 0 before the first.
    pub fn cursor(&self) -> usize
        ensures { result ≡ self.now.cursor }
    {
        self.cursor
    }

    /// How many steps can be undone.
    pub fn steps_back(&self) -> usize
        ensures { result ≡ length self.now.past }
    {
        self.journal.steps_back()
    }

    /// How many steps can be redone.
    pub fn steps_forward(&self) -> usize
        ensures { result ≡ length self.now.future }
    {
        self.journal.steps_forward()
    }

    /// How many pulses the steps back hold in memory, and how many the steps forward.
    pub fn held(&self) -> (u128, u128)
        ensures past { result.0 ≡ weight_of weight_of_change self.now.past }
        ensures future { result.1 ≡ weight_of weight_of_change self.now.future }
    {
        self.journal.weights()
    }

    /// Looks of the last accepted edit, undo, redo or abort; 0 before any.
    pub fn last_looks(&self) -> u64
        ensures { result ≡ self.now.last_looks }
    {
        self.last_looks
    }

    /// How many frames the track has, broken ones included.
    pub fn frames(&self) -> usize
        ensures { result ≡ length (frames_of self.now.state) }
    {
        self.present.index().len()
    }

    /// The frame with a number, from 1.
    pub fn frame(&self, number: usize) -> Frame
        requires { (1 ≤ number) × (number ≤ length (frames_of self.now.state)) }
        ensures { IfSome (slice_get (frames_of self.now.state) (number - 1))
            (λ r. (result.marker ≡ r.marker + 1) × (result.verdict ≡ r.verdict)) }
    {
        let record = self.present.index().record(number - 1);
        Frame {
            marker: record.marker + 1,
            verdict: record.verdict,
        }
    }

    /// The dump without a journal.
    pub fn text(&self) -> Result<Vec<u8>, AllocError>
        ensures { IfOk result (λ text.
            text.items ≡ file_text (recording_of self.now.state)) }
    {
        whole(self.alloc, self.present.text_room(), &mut self.text_parts())
    }

    /// The text of `text`, in parts. This takes no memory.
    pub fn text_parts(&self) -> TrackText<'_>
        ensures { result ≡ file_text (recording_of self.now.state) }
    {
        self.present.track().text_parts()
    }
}
