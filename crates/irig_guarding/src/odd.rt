//! The control functions of frames whose pulses are odd: not as wide as the others of their class
//! in their frame.

ghost use Rattle.std.specs.Prelude.{◌≡◌, ◌++◌, IfOk, OnOk};
ghost use Rattle.std.specs.List.{flat_map};
ghost use Rattle.irig_guarding.specs.Reading.{even_by, even_frames, even_if, odd_by};

use crate::opening::pulses_of;
use crate::seen::{Seen, seen_frames};
use irig_codes::Format;
use irig_edit::{Pulse, Session};
use irig_safety::{Odd, Shown, odd_of};
use std::alloc::{AllocError, Global};

/// The control functions whose pulses are odd, each with its frame, of all frames `seen`, in their
/// order (`odd_of`).
pub fn odd_among(
    alloc: Global,
    format: Format,
    pulses: &[Pulse],
    seen: &[Seen],
) -> Result<Vec<Odd>, AllocError>
    ensures { IfOk result (λ odd. odd.items ≡ flat_map (odd_by format pulses.now) seen.now) }
{
    let mut all = Vec::new(alloc);
    for frame in seen {
        let odd = odd_of(alloc, format, pulses, frame.marker, &frame.shown)?;
        all.extend_from_slice(odd.as_slice())?;
    }
    Ok(all)
}

/// The even frames of a session, of those that read well, in rising order (`even_among`).
pub fn even_frames(alloc: Global, session: &Session) -> Result<Vec<Shown>, AllocError>
    ensures { IfOk result (λ even. even.items ≡ even_frames session.now.state) }
{
    let seen = seen_frames(alloc, session)?;
    let pulses = pulses_of(alloc, session)?;
    let format = session.current_format();
    even_among(alloc, format, pulses.as_slice(), seen.as_slice())
}

/// The even ones of the frames `seen`, in their order: those in which `odd_of` finds nothing.
fn even_among(
    alloc: Global,
    format: Format,
    pulses: &[Pulse],
    seen: &[Seen],
) -> Result<Vec<Shown>, AllocError>
    ensures { IfOk result (λ even. even.items ≡ flat_map (even_by format pulses.now) seen.now) }
{
    let mut even = Vec::new(alloc);
    for frame in seen {
        let odd = odd_of(alloc, format, pulses, frame.marker, &frame.shown)?;
        put_if_even(&mut even, odd.as_slice().is_empty(), frame.shown)?;
    }
    Ok(even)
}

/// Adds a frame to `even` if it is even, as the caller found (`is_even`).
fn put_if_even(even: &mut Vec<Shown>, is_even: bool, frame: Shown) -> Result<(), AllocError>
    ensures { OnOk result (even.new.items ≡ even.old.items ++ even_if is_even frame) }
{
    if is_even {
        even.push(frame)?;
    }
    Ok(())
}
