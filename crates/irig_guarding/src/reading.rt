//! The frames of a session that read well: they are read, and nothing is wrong in them.

ghost use Rattle.std.specs.Prelude.{◌≡◌, ◌≤◌, ◌-◌, ◌++◌, length, slice_get, Some, IfOk, OnOk};
ghost use Rattle.irig_index.specs.declared.record.Record.{Record};
ghost use Rattle.irig_edit.specs.State.State.{frames_of};
ghost use Rattle.irig_guarding.specs.Reading.{fine_frames, shown_at, shown_by};

use irig_codes::Note;
use irig_edit::{Session, Verdict};
use irig_safety::Shown;
use std::alloc::{AllocError, Global};

/// The frames of a session that read well, in rising order.
pub fn fine_frames(alloc: Global, session: &Session) -> Result<Vec<Shown>, AllocError>
    ensures { IfOk result (λ shown. shown.items ≡ fine_frames session.now.state) }
{
    let mut shown = Vec::with_capacity(alloc, session.frames())?;
    for index in 0..session.frames() {
        put_frame(&mut shown, session, index + 1)?;
    }
    Ok(shown)
}

/// Adds what the frame of a number, from 1, shows to `shown`, if it reads well (`put_verdict`);
/// else nothing.
fn put_frame(shown: &mut Vec<Shown>, session: &Session, number: usize) -> Result<(), AllocError>
    requires { (1 ≤ number) × (number ≤ length (frames_of session.now.state)) }
    ensures { (r : Record) → slice_get (frames_of session.now.state) (number - 1) ≡ Some r
        → OnOk result (shown.new.items
        ≡ shown.old.items ++ shown_by session.now.state.pulses r) }
{
    let frame = session.frame(number);
    let rise = session.pulse(frame.marker).rise;
    put_verdict(shown, rise, frame.verdict)
}

/// Adds what a frame shows that begins at `rise`, in microseconds, to `shown`, if it reads well: by
/// its `verdict` it is read, and nothing is wrong (`Fine`).
fn put_verdict(shown: &mut Vec<Shown>, rise: u64, verdict: Verdict) -> Result<(), AllocError>
    ensures { OnOk result (shown.new.items ≡ shown.old.items ++ shown_at rise verdict) }
{
    match verdict {
        Verdict::Read(fields, Note::Fine) => {
            shown.push(Shown { rise, fields })?;
            Ok(())
        }
        _ => Ok(()),
    }
}
