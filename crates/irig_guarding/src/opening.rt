//! What is known of a recording as it was opened: its frames that read well, with nothing wrong in
//! them, their markers, and its pulses.

ghost use Rattle.std.specs.Prelude.{◌≡◌, IfOk, map};
ghost use Rattle.std.specs.List.Sorted.{IsNonDecreasingBy};
ghost use Rattle.irig_recording.specs.declared.pulse.Pulse.{Pulse as SomePulse};
ghost use Rattle.irig_guarding.specs.Reading.{original_of};

use crate::odd::odd_among;
use crate::reading::fine_frames;
use crate::seen::{Seen, seen_frames};
use irig_edit::{Pulse, Session};
use irig_safety::{Original, Terms, loose_of};
use std::alloc::{AllocError, Global};

/// What is known of a recording by the session that was opened on it, before any repair. That is
/// its frames that read well, their markers, all pulses, the control functions whose pulses are not
/// as wide as others in their frame (`odd_among`), and the pulses that are in step and in none of
/// these frames (`loose_of`).
pub fn original_of(alloc: Global, session: &Session, terms: Terms) -> Result<Original, AllocError>
    ensures { IfOk result (λ opened. opened ≡ original_of terms session.now.state) }
{
    let frames = fine_frames(alloc, session)?;
    let seen = seen_frames(alloc, session)?;
    let markers = markers_of(alloc, seen.as_slice())?;
    let pulses = pulses_of(alloc, session)?;
    let format = session.current_format();
    let odd = odd_among(alloc, format, pulses.as_slice(), seen.as_slice())?;
    let loose = loose_of(
        alloc,
        terms.moved,
        format,
        pulses.as_slice(),
        markers.as_slice(),
    )?;
    Ok(Original::new(frames, markers, pulses, odd, loose, terms))
}

/// The markers of frames, in the order of the frames: the place of the first pulse of each among
/// all pulses, from 0.
fn markers_of(alloc: Global, frames: &[Seen]) -> Result<Vec<usize>, AllocError>
    ensures { IfOk result (λ markers. markers.items ≡ map (λ y. y.marker) frames.now) }
{
    let mut markers = Vec::new(alloc);
    for frame in frames {
        markers.push(frame.marker)?;
    }
    Ok(markers)
}

/// All pulses of a session, in their order.
pub fn pulses_of(alloc: Global, session: &Session) -> Result<Vec<Pulse>, AllocError>
    ensures all { IfOk result (λ pulses. pulses.items ≡ session.now.state.pulses) }
    ensures rising { IfOk result (λ pulses.
        IsNonDecreasingBy (λ (p : SomePulse). p.rise) pulses.items) }
    ensures falling { IfOk result (λ pulses.
        IsNonDecreasingBy (λ (p : SomePulse). p.fall) pulses.items) }
{
    session.pulses(alloc)
}
