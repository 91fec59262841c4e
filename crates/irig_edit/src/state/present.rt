//! The present state, with its frames.

ghost use Rattle.std.specs.Prelude.{◌≡◌, ◌<◌, ◌≤◌, ◌+◌, ◌-◌, ◌*◌, ◌^◌, length, map, ◌↔◌, IsTrue};
ghost use Rattle.std.specs.Prelude.{IfOk, Some, slice_get};
ghost use Rattle.irig_track.specs.Splices.{risen_by};
ghost use Rattle.irig_edit.specs.State.State.{IsMark, IsState, frames_of, recording_of};
ghost use Rattle.irig_edit.specs.{Edits.Conditions.is_touched, State.Marks.stands};
ghost use Rattle.irig_edit.specs.{Edits.Edits.pulse_of, Session.Machine.NoMarks};

use crate::state::marks::letters_from;
use irig_codes::Format;
use irig_index::Index;
use irig_recording::Recording;
use irig_saved::{Letters, Marks};
use irig_track::{Pulse, Track};
use std::alloc::{AllocError, Global};
use std::marker::Model;

/// A track, a format and the marks a to z, and the frames of the track.
#[derive(Drop)]
pub struct Present {
    pub(crate) track: Track,
    pub(crate) format: Format,
    pub(crate) marks: Marks,
    pub(crate) index: Index,
}

impl Model for Present {
    ghost use Rattle.std.specs.Prelude.{◌≡◌};
    ghost use Rattle.irig_edit.specs.State.State.{IsState, frames_of, state};
    ghost use Rattle.irig_edit.specs.State.Present.{PresentView, present_view};

    ghost Value = { PresentView };

    ghost view = { λ p.
        present_view (state p.track.micros p.track.pulses p.format p.marks) p.track.spare p.index };

    ghost invariant = { λ p. IsState (state p.track.micros p.track.pulses p.format p.marks)
        × (p.index.records ≡ frames_of (state p.track.micros p.track.pulses p.format p.marks)) };
}

impl Present {
    /// The state of a recording; no mark is set.
    pub(crate) fn open(
        alloc: Global,
        recording: Recording,
        format: Format,
    ) -> Result<Present, AllocError>
        ensures { IfOk result (λ p. (recording_of p.state ≡ recording)
            × (p.state.format ≡ format) × NoMarks p.state.marks) }
    {
        let track = Track::new(recording)?;
        let index = Index::build(alloc, &mut track.lens(), format)?;
        Ok(Present {
            track,
            format,
            marks: [None; 26],
            index,
        })
    }

    /// A pulse has two edges, each of at most 18 bytes; 4,096 more, this project's own choice, are
    /// for the header, the length and some lines of a journal.
    pub(crate) fn text_room(&self) -> usize
        ensures { result ≡ 36 * length self.now.state.pulses + 4096 }
    {
        36 * self.track.len() + 4096
    }
}

impl Present {
    pub(crate) fn track(&self) -> &Track
        ensures micros { result.now.micros ≡ self.now.state.micros }
        ensures pulses { result.now.pulses ≡ self.now.state.pulses }
        ensures state { IsState self.now.state }
    {
        &self.track
    }

    /// How many pulses rise at or before a time; the looks of this search are not kept.
    pub(crate) fn find(&self, time: u64) -> usize
        ensures count { result ≡ risen_by time self.now.state.pulses }
        ensures within { result ≤ length self.now.state.pulses }
        ensures state { IsState self.now.state }
    {
        Index::find(&mut self.track.lens(), time)
    }

    /// The pulse with this number, from 1.
    pub(crate) fn pulse(&self, number: usize) -> Pulse
        requires first { 1 ≤ number }
        requires last { number ≤ length self.now.state.pulses }
        ensures there { slice_get self.now.state.pulses (number - 1) ≡ Some result }
        ensures pulse { result ≡ pulse_of number self.now.state }
        ensures short { (result.rise < result.fall) × (result.fall ≤ 2 ^ 40) }
        ensures state { IsState self.now.state }
    {
        let track = self.track();
        track.pulse(number - 1)
    }

    /// Whether a new pulse from `a` to `b` would touch one: only the last that rises by `b` is
    /// tested, as all earlier ones fall before it rises.
    pub(crate) fn is_touched(&self, a: u64, b: u64) -> bool
        requires { a < b }
        ensures { result ≡ is_touched a b self.now.state }
    {
        let risen = self.find(b);
        risen > 0 && self.pulse(risen).fall >= a
    }
}

impl Present {
    pub(crate) fn format(&self) -> Format
        ensures { result ≡ self.now.state.format }
    {
        self.format
    }

    /// The mark of a letter, 0 (a) to 25, in microseconds.
    pub(crate) fn mark(&self, letter: usize) -> Option<u64>
        requires { letter < 26 }
        ensures { slice_get self.now.state.marks letter ≡ Some result }
    {
        let mark = self.marks[letter];
        mark
    }

    pub(crate) fn letters_from(&self, low: u64, high: u64) -> Letters
        ensures { result ≡ map (stands low high) self.now.state.marks }
    {
        letters_from(&self.marks, low, high)
    }

    pub(crate) fn may_mark(&self, time: Option<u64>) -> bool
        ensures { IsTrue result ↔ IsMark self.now.state.micros time }
    {
        match time {
            None => true,
            Some(time) => time <= self.track.length(),
        }
    }

    pub(crate) fn index(&self) -> &Index
        ensures { result.now.records ≡ frames_of self.now.state }
    {
        &self.index
    }

    pub(crate) fn looks(&self) -> u64
        ensures { result ≡ self.now.index.looks }
    {
        self.index.looks()
    }

    pub(crate) fn looks_since(&self, before: u64) -> u64
        ensures { result ≡ self.now.index.looks - before }
    {
        self.index.looks().saturating_sub(before)
    }
}
