//! The frames of a session that read well: they are read, and nothing is wrong in them.

ghost use Rattle.std.specs.Prelude.{◌≡◌, ◌≤◌, ◌-◌, ◌++◌, length, map, slice_get, Some, IfOk, IsTrue};
ghost use Rattle.std.specs.Prelude.{OnOk};
ghost use Rattle.irig_index.specs.declared.record.Record.{Record};
ghost use Rattle.irig_edit.specs.State.State.{frames_of};
ghost use Rattle.irig_guarding.specs.Reading.{Lists, fine_frames, seen_at, seen_by, seen_frames};

use irig_codes::Note;
use irig_edit::{Session, Verdict};
use irig_safety::{Shown, frame_at, is_same};
use std::alloc::{AllocError, Global};

/// A frame that reads well: what it shows, and the place of its marker among the pulses, from 0.
#[derive(Clone, Copy)]
pub struct Seen {
    pub shown: Shown,
    pub marker: usize,
}

/// The frames of a session that read well, in rising order, twice: with their markers (`seen`), and
/// what they show alone (`shown`), for functions that need no markers.
#[derive(Drop)]
pub struct Frames {
    pub seen: Vec<Seen>,
    pub shown: Vec<Shown>,
}

/// Lists the frames of a session that read well, in rising order: with their markers, and without.
pub fn list_frames(alloc: Global, session: &Session) -> Result<Frames, AllocError>
    ensures { IfOk result (λ frames. Lists session.now.state frames) }
{
    let seen = seen_frames(alloc, session)?;
    let shown = shown_of(alloc, session, seen.as_slice())?;
    Ok(Frames { seen, shown })
}

/// The frames of a session that read well, in rising order, with their markers.
pub fn seen_frames(alloc: Global, session: &Session) -> Result<Vec<Seen>, AllocError>
    ensures { IfOk result (λ seen. seen.items ≡ seen_frames session.now.state) }
{
    let mut seen = Vec::with_capacity(alloc, session.frames())?;
    for index in 0..session.frames() {
        put_frame(&mut seen, session, index + 1)?;
    }
    Ok(seen)
}

/// What the frames `seen`, all of a session that read well, show without their markers
/// (`shown_among`).
pub fn shown_of(alloc: Global, session: &Session, seen: &[Seen]) -> Result<Vec<Shown>, AllocError>
    requires { seen.now ≡ seen_frames session.now.state }
    ensures { IfOk result (λ shown. shown.items ≡ fine_frames session.now.state) }
{
    let shown = shown_among(alloc, seen)?;
    Ok(shown)
}

/// What some frames show, in their order, without their markers.
fn shown_among(alloc: Global, seen: &[Seen]) -> Result<Vec<Shown>, AllocError>
    ensures { IfOk result (λ shown. shown.items ≡ map (λ y. y.shown) seen.now) }
{
    let mut shown = Vec::with_capacity(alloc, seen.len())?;
    for frame in seen {
        shown.push(frame.shown)?;
    }
    Ok(shown)
}

/// Whether `frame` has the same fields and the same rise as the frame at a place, from 0, of the
/// list `former`, earlier frames (`is_same`). False if the list has none there.
pub fn is_as_before(former: &[Shown], place: usize, frame: &Seen) -> bool
    ensures { IsTrue result → slice_get former.now place ≡ Some frame.now.shown }
{
    match frame_at(former, place) {
        Some(before) => is_same(&before, &frame.shown),
        None => false,
    }
}

/// Adds the frame of a number, from 1, to `seen`, if it reads well (`put_verdict`); else nothing.
fn put_frame(seen: &mut Vec<Seen>, session: &Session, number: usize) -> Result<(), AllocError>
    requires { (1 ≤ number) × (number ≤ length (frames_of session.now.state)) }
    ensures { (r : Record) → slice_get (frames_of session.now.state) (number - 1) ≡ Some r
        → OnOk result (seen.new.items
        ≡ seen.old.items ++ seen_by session.now.state.pulses r) }
{
    let frame = session.frame(number);
    let rise = session.pulse(frame.marker).rise;
    put_verdict(seen, rise, frame.marker - 1, frame.verdict)
}

/// Adds a frame that begins at `rise`, in microseconds, to `seen`, if it reads well: by its
/// `verdict` it is read, and nothing is wrong (`Fine`).
fn put_verdict(
    seen: &mut Vec<Seen>,
    rise: u64,
    marker: usize,
    verdict: Verdict,
) -> Result<(), AllocError>
    ensures { OnOk result (seen.new.items ≡ seen.old.items ++ seen_at rise marker verdict) }
{
    match verdict {
        Verdict::Read(fields, Note::Fine) => {
            seen.push(Seen {
                shown: Shown { rise, fields },
                marker,
            })?;
            Ok(())
        }
        _ => Ok(()),
    }
}
