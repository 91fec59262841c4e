//! The text of a track, in parts.

ghost use Rattle.std.specs.Prelude.{◌≡◌, ◌≤◌, ◌<◌, ◌++◌, drop, length, vec_len, IfOk, IsSome};
ghost use Rattle.irig_recording.specs.{FileText.file_text, Recording.recording_view};
ghost use Rattle.irig_track.specs.Edges.{edges_of};
ghost use Rattle.irig_track.specs.Texts.{coming, lines_after, still_to_come};

use crate::track::Track;
use irig_recording::TextWriter;
use irig_text::Text;
use std::alloc::AllocError;
use std::marker::Model;

impl Track {
    /// The text of the dump of the track, in parts, from its first byte. It takes no memory.
    pub fn text_parts(&self) -> TrackText<'_>
        ensures { result ≡ file_text (recording_view self.now.micros (edges_of self.now.pulses)) }
    {
        TrackText {
            track: self,
            writer: TextWriter::new(),
            next: Next::Header,
        }
    }
}

/// The header, the lines of each pulse, and the line of the length.
#[derive(Drop)]
pub struct TrackText<'t> {
    track: &'t Track,
    writer: TextWriter,
    next: Next,
}

/// What of a text comes next.
#[derive(Clone, Copy)]
enum Next {
    /// The lines before the first pulse.
    Header,
    /// Of the pulse with this number, from 0, or the line of the length after the last.
    Lines(usize),
    Nothing,
}

impl<'t> Model for TrackText<'t> {
    ghost use Rattle.std.specs.Prelude.{ℕ, List};
    ghost use Rattle.irig_track.specs.Texts.{still_to_come};

    ghost Value = { List ℕ };

    ghost view = { λ t. still_to_come t.track.now t.writer.last t.next };
}

impl Text for TrackText<'_> {
    ghost rest = { λ t. t };

    // Returns whether the text has ended.
    fn fill(&mut self, block: &mut Vec<u8>, enough: usize) -> Result<bool, AllocError> {
        match put_next(&mut self.writer, block, self.track, self.next, enough)? {
            Some(first) => {
                self.next = Next::Lines(first);
                Ok(false)
            }
            None => {
                self.next = Next::Nothing;
                Ok(true)
            }
        }
    }
}

/// Adds what comes next until the text has `enough` bytes. Returns the pulse whose lines come next,
/// from 0; `None` if the text has ended. Inlined, to save a call.
#[inline(always)]
fn put_next(
    writer: &mut TextWriter,
    text: &mut Vec<u8>,
    track: &Track,
    next: Next,
    enough: usize,
) -> Result<Option<usize>, AllocError>
    ensures bytes { IfOk result (λ first. text.new.items ++ still_to_come track.now writer.new.last
        (coming first) ≡ text.old.items ++ still_to_come track.now writer.old.last next) }
    ensures full { IfOk result (λ first. IsSome first → enough ≤ vec_len text.new) }
{
    match put_header(writer, text, track, next)? {
        Some(first) => put_lines(writer, text, track, first, enough),
        None => Ok(None),
    }
}

/// Adds the header if that comes next, with the level from time 0 on. Returns the pulse that comes
/// next, which is 0 after the header.
fn put_header(
    writer: &mut TextWriter,
    text: &mut Vec<u8>,
    track: &Track,
    next: Next,
) -> Result<Option<usize>, AllocError>
    ensures { IfOk result (λ first. text.new.items ++ still_to_come track.now writer.new.last
        (coming first) ≡ text.old.items ++ still_to_come track.now writer.old.last next) }
{
    match next {
        Next::Header => {
            writer.begin(text, track.begins_high())?;
            Ok(Some(0))
        }
        Next::Lines(first) => Ok(Some(first)),
        Next::Nothing => Ok(None),
    }
}

/// After the last pulse the line of the length is added in any case, since it is short.
fn put_lines(
    writer: &mut TextWriter,
    text: &mut Vec<u8>,
    track: &Track,
    first: usize,
    enough: usize,
) -> Result<Option<usize>, AllocError>
    ensures bytes { IfOk result (λ next. text.new.items ++ still_to_come track.now writer.new.last
        (coming next) ≡ text.old.items
        ++ lines_after writer.old.last (drop first track.now.pulses) track.now.micros) }
    ensures full { IfOk result (λ next. IsSome next → enough ≤ vec_len text.new) }
{
    let next = put_pulses(writer, text, track, first, enough)?;
    if next < track.len() {
        return Ok(Some(next));
    }
    writer.finish(text, track.length())?;
    Ok(None)
}

/// Returns the number of the pulse after those added.
fn put_pulses(
    writer: &mut TextWriter,
    text: &mut Vec<u8>,
    track: &Track,
    first: usize,
    enough: usize,
) -> Result<usize, AllocError>
    ensures bytes { IfOk result (λ next.
        text.new.items ++ lines_after writer.new.last (drop next track.now.pulses) track.now.micros
        ≡ text.old.items
        ++ lines_after writer.old.last (drop first track.now.pulses) track.now.micros) }
    ensures full { IfOk result
        (λ next. next < length track.now.pulses → enough ≤ vec_len text.new) }
{
    let mut next = first;
    let count = track.len();
    while next < count && text.len() < enough {
        let pulse = track.pulse(next);
        writer.put_pulse(text, pulse.rise, pulse.fall)?;
        next += 1;
    }
    Ok(next)
}
