//! A recording and its frames; a clause `few`, `order` or `framed` says again what the types
//! promise, for the proofs of callers.

ghost use Rattle.std.specs.Prelude.{◌≡◌, ◌<◌, ◌^◌, IfOk, IfSome, length, slice_get};
ghost use Rattle.irig_comments.specs.Counts.{fine_frames, is_fine};
ghost use Rattle.irig_comments.specs.Framed.{FramesRise, IsFramed, framed, shown_frames};

use crate::shown::Shown;
use irig_codes::{Format, Note};
use irig_index::{Index, Verdict};
use irig_recording::Recording;
use irig_track::Track;
use std::alloc::{AllocError, Global};
use std::marker::Model;

#[derive(Drop)]
pub struct Framed {
    recording: Recording,
    track: Track,
    format: Format,
    index: Index,
}

impl Model for Framed {
    ghost use Rattle.irig_comments.specs.Framed.{FramedView, IsFramed, framed_view};

    ghost Value = { FramedView };

    ghost view = { λ f. framed_view f.recording f.track.pulses f.format f.index.records };

    ghost invariant = { λ f.
        IsFramed (framed_view f.recording f.track.pulses f.format f.index.records) };
}

impl Framed {
    /// A recording and its frames, read in this format. An error means that memory ran out.
    pub fn new(alloc: Global, recording: Recording, format: Format) -> Result<Framed, AllocError>
        ensures { IfOk result (λ x. x ≡ framed format recording) }
    {
        let track = Track::new(recording)?;
        // The track takes the recording, so a copy is kept.
        let recording = track.recording(alloc)?;
        let index = Index::build(alloc, &mut track.lens(), format)?;
        // The proof needs the bound of the track that the call's contract has.
        let _count = track.len();
        Ok(Framed {
            recording,
            track,
            format,
            index,
        })
    }

    pub(crate) fn recording(&self) -> &Recording
        ensures { result.now ≡ self.now.recording }
    {
        &self.recording
    }

    /// How many frames there are. A recording has at most 2^22 pulses, so 2^31 is a generous bound.
    pub(crate) fn len(&self) -> usize
        ensures count { result ≡ length (shown_frames self.now) }
        ensures few { result < 2 ^ 31 }
        ensures order { FramesRise 0 (shown_frames self.now) }
        ensures framed { IsFramed self.now }
    {
        // For the bound, too.
        let _count = self.track.len();
        self.index.len()
    }

    /// The frame at `place` in the list of frames, from 0; its number counts from 1.
    pub(crate) fn shown(&self, place: usize) -> Option<Shown>
        ensures value { result ≡ slice_get (shown_frames self.now) place }
        ensures few { IfSome result (λ s. place < 2 ^ 31) }
        ensures order { FramesRise 0 (shown_frames self.now) }
    {
        if place >= self.len() {
            return None;
        }
        let record = self.index.record(place);
        let rise = self.track.pulse(record.marker).rise;
        Some(Shown {
            number: place + 1,
            rise,
            verdict: record.verdict,
        })
    }

    /// How many frames are fine.
    pub(crate) fn fine(&self) -> usize
        ensures { result ≡ fine_frames self.now }
    {
        let mut count = 0;
        for place in 0..self.index.len() {
            if is_fine(&self.index.record(place).verdict) {
                count += 1;
            }
        }
        count
    }
}

/// Whether a frame is fine: read, and nothing wrong is noted of it.
fn is_fine(verdict: &Verdict) -> bool
    ensures { result ≡ is_fine verdict.now }
{
    matches!(verdict, Verdict::Read(_, Note::Fine))
}
