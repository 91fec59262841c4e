//! Why a repair is not kept, as a comment that is added to `out`.

ghost use Rattle.std.specs.Prelude.{◌≡◌, ◌++◌, ◌∷◌, [], OnOk};
ghost use Rattle.irig_guarding.specs.Reasons.{fault_text, frame_text, reason_line};
ghost use Rattle.irig_guarding.specs.Reasons.{change_text, moment_text, reason_text, refusal_name};

use crate::frame_text::put_frame;
use crate::reason::Reason;
use irig_agreement::{Change, Fault as Disagreement};
use irig_edit::Refusal;
use irig_print::Row;
use irig_safety::{Fault, Shown};
use std::alloc::AllocError;

/// Prints why a repair is not kept, as a line: `# not kept: `, the reason, and a newline.
pub fn put_reason(out: &mut Vec<u8>, reason: Reason) -> Result<(), AllocError>
    ensures { OnOk result (out.new.items ≡ out.old.items ++ (reason_line reason ++ 10 ∷ [])) }
{
    out.extend_from_slice(b"# not kept: ")?;
    put_text(out, reason)?;
    out.push(b'\n')?;
    Ok(())
}

/// Prints the reason itself, without `# not kept: ` and the newline.
fn put_text(out: &mut Vec<u8>, reason: Reason) -> Result<(), AllocError>
    ensures { OnOk result (out.new.items ≡ out.old.items ++ reason_text reason) }
{
    match reason {
        Reason::NoRepair => out.extend_from_slice(b"not a repair"),
        Reason::Refused(why) => put_refusal(out, why),
        Reason::OutOfMemory => out.extend_from_slice(b"memory ran out"),
        Reason::NotSafe(fault) => put_fault(out, fault),
        Reason::Disagrees(fault) => put_moment(out, fault),
    }
}

/// Prints why the frames would not be safe: the frame that is at fault, and what would become of
/// it.
fn put_fault(out: &mut Vec<u8>, fault: Fault) -> Result<(), AllocError>
    ensures { OnOk result (out.new.items ≡ out.old.items ++ fault_text fault) }
{
    match fault {
        Fault::Lost(frame) => put_what(out, &frame, b" would be lost"),
        Fault::Changed(frame) => put_what(out, &frame, b" would change"),
        Fault::Unsupported(frame) => {
            put_what(out, &frame, b" would have a time that is not supported")
        }
        Fault::Unrecorded(frame) => put_what(
            out,
            &frame,
            b" would have control functions that are not supported",
        ),
        Fault::Moved(frame) => put_what(out, &frame, b": its pulses would move"),
        Fault::Misplaced(frame) => put_what(
            out,
            &frame,
            b": its pulses would rise where nothing supports it",
        ),
        Fault::Alone => out.extend_from_slice(b"fine frames would not support each other"),
        Fault::Removed(rise) => put_removed(out, rise),
        Fault::Unjudged => out.extend_from_slice(b"no frame would be fine to go by"),
    }
}

/// Prints a frame by its time and its rise (`put_frame`), and after that the text `what`: what
/// would become of it.
fn put_what(out: &mut Vec<u8>, frame: &Shown, what: &[u8]) -> Result<(), AllocError>
    ensures { OnOk result (out.new.items ≡ out.old.items ++ (frame_text frame.now ++ what.now)) }
{
    put_frame(out, frame)?;
    out.extend_from_slice(what)
}

/// Prints that the recorded pulse that rose at this microsecond is in step, and would be gone.
fn put_removed(out: &mut Vec<u8>, rise: u64) -> Result<(), AllocError>
    ensures { OnOk result (out.new.items ≡ out.old.items ++ fault_text (Fault.Removed rise)) }
{
    let mut row = Row::new();
    row.put(b"the pulse at ");
    row.put_number(rise);
    row.put(b" is in step, and would be gone");
    out.extend_from_slice(row.text())
}

/// Prints how recording and result would not agree.
fn put_moment(out: &mut Vec<u8>, fault: Disagreement) -> Result<(), AllocError>
    ensures { OnOk result (out.new.items ≡ out.old.items ++ moment_text fault) }
{
    let mut row = Row::new();
    row.put(b"the moment ");
    row.put_number(fault.moment);
    row.put(change_text(fault.what));
    out.extend_from_slice(row.text())
}

/// How the time of a moment would not be as it was.
fn change_text(change: Change) -> &'static [u8]
    ensures { result.now ≡ change_text change }
{
    match change {
        Change::Lost => b" would have no time",
        Change::Other => b" would have another time",
        Change::Doubted => b" would have a time, and a pulse next to it is doubted",
    }
}

/// Prints that the editor refuses a line: `refused: `, and the number and the name of its refusal.
fn put_refusal(out: &mut Vec<u8>, why: Refusal) -> Result<(), AllocError>
    ensures { OnOk result (out.new.items ≡ out.old.items ++ reason_text (Reason.Refused why)) }
{
    out.extend_from_slice(b"refused: ")?;
    out.extend_from_slice(refusal_name(why))
}

/// The number and the name of a refusal, as the editor prints them.
fn refusal_name(why: Refusal) -> &'static [u8]
    ensures { result.now ≡ refusal_name why }
{
    match why {
        Refusal::OutOfRange => b"E1 OutOfRange",
        Refusal::NoPulse => b"E2 NoPulse",
        Refusal::Touching => b"E3 Touching",
        Refusal::NotInside => b"E4 NotInside",
        Refusal::TooMany => b"E5 TooMany",
        Refusal::BadExpression => b"E6 BadExpression",
        Refusal::BadTime => b"E7 BadTime",
        Refusal::BadControl => b"E8 BadControl",
        Refusal::NothingToUndo => b"E9 NothingToUndo",
        Refusal::NothingToRedo => b"E10 NothingToRedo",
        Refusal::OutOfMemory => b"E11 OutOfMemory",
        Refusal::GroupOpen => b"E12 GroupOpen",
        Refusal::NoGroup => b"E13 NoGroup",
        Refusal::GroupFloor => b"E14 GroupFloor",
    }
}
