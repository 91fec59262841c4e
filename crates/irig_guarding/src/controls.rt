//! Whether the control functions of the frames are borne out.

ghost use Rattle.std.specs.Prelude.{◌↔◌, ◌+◌, ◌<◌, ◌≤◌, ◌∷◌, List, IsTrue, None, Option, Some};
ghost use Rattle.std.specs.Prelude.{IfErr, IfOk, OnErr, OnOk, length, slice_get};
ghost use Rattle.irig_safety.specs.{Controls.IsFunctionBorne, Functions.function_element};
ghost use Rattle.irig_safety.specs.Original.{with_frames};
ghost use Rattle.irig_safety.specs.declared.fault.Fault.{Fault as SomeFault};
ghost use Rattle.irig_guarding.specs.Controls.{AreBorneFrom, ControlsAt, IsBorne, IsUnborneFrom};
ghost use Rattle.irig_guarding.specs.Controls.{Judges};
ghost use Rattle.irig_guarding.specs.declared.seen.Seen.{Seen as SeenFrame};

use crate::elements::{is_borne_by_recording, pulse_at};
use crate::seen::{Seen, is_as_before};
use irig_edit::Session;
use irig_safety::{
    Fault, Original, Shown, Witnesses, frame_at, function_element, functions, is_same, is_shared,
    near_in,
};

/// Whether each of `frames`, those that read well now, is the former one that begins when it does,
/// or has only control functions that are borne out (`judge_next`).
pub fn check_controls(
    session: &Session,
    opened: &Original,
    former: &[Shown],
    frames: &[Seen],
) -> Result<(), Fault>
    ensures borne { OnOk result (AreBorneFrom (with_frames former.now opened.now) session.now.state
        None None former.now frames.now) }
    ensures unborne { OnErr result (AreBorneFrom (with_frames former.now opened.now)
        session.now.state None None former.now frames.now → ⊥) }
    ensures fault { IfErr result (IsUnborneFrom (with_frames former.now opened.now)
        session.now.state None None former.now frames.now) }
{
    let mut passed = 0;
    for frame in frames {
        if is_as_before(former, passed, frame) {
            passed += 1;
            continue;
        }
        match judge_next(session, opened, former, passed, frame) {
            Ok(place) => passed = place,
            Err(why) => return Err(why),
        }
    }
    Ok(())
}

/// Judges one more frame by the next former one. `Ok` has how many former frames are passed then,
/// `Err` the fault.
fn judge_next(
    session: &Session,
    opened: &Original,
    former: &[Shown],
    passed: usize,
    frame: &Seen,
) -> Result<usize, Fault>
    requires { passed ≤ length former.now }
    ensures within { IfOk result (λ place. place ≤ length former.now) }
    ensures borne { (rest : List SeenFrame) (found : Option SomeFault) → IfOk result (λ place.
        ControlsAt (with_frames former.now opened.now) session.now.state place rest found
        → ControlsAt (with_frames former.now opened.now) session.now.state passed (frame.now ∷ rest)
        found) }
    ensures fault { (rest : List SeenFrame) → IfErr result (λ why.
        ControlsAt (with_frames former.now opened.now) session.now.state passed (frame.now ∷ rest)
        (Some why)) }
{
    let Some(next) = frame_at(former, passed) else {
        let near = near_in(former, passed, passed);
        return judge_functions(session, opened, &near, frame, passed);
    };
    if frame.shown.rise < next.rise {
        let near = near_in(former, passed, passed);
        return judge_functions(session, opened, &near, frame, passed);
    }
    if next.rise < frame.shown.rise {
        return Err(Fault::Lost(next));
    }
    if is_same(&next, &frame.shown) {
        return Ok(passed + 1);
    }
    let around = near_in(former, passed, passed + 1);
    judge_functions(session, opened, &around, frame, passed + 1)
}

/// Judges a frame by its control functions (`are_functions_borne`).
fn judge_functions(
    session: &Session,
    opened: &Original,
    near: &Witnesses,
    frame: &Seen,
    passed: usize,
) -> Result<usize, Fault>
    ensures { Judges opened.now session.now.state near.now frame.now passed result }
{
    if are_functions_borne(session, opened, near, frame) {
        Ok(passed)
    } else {
        Err(Fault::Unrecorded(frame.shown))
    }
}

/// Whether all control functions of a frame are borne out (`is_function_borne`).
fn are_functions_borne(session: &Session, opened: &Original, near: &Witnesses, frame: &Seen) -> bool
    ensures { IsTrue result ↔ IsBorne opened.now session.now.state near.now frame.now }
{
    let format = session.current_format();
    for function in 0..functions(format) {
        if !is_function_borne(session, opened, near, frame, function) {
            return false;
        }
    }
    true
}

/// Whether a control function of a frame, by its number, is borne out. One of three is enough.
fn is_function_borne(
    session: &Session,
    opened: &Original,
    near: &Witnesses,
    frame: &Seen,
    function: u32,
) -> bool
    requires { function < 64 }
    ensures { IsTrue result ↔ IsFunctionBorne session.now.state.format opened.now near.now
        frame.now.shown function (slice_get session.now.state.pulses
        (frame.now.marker + function_element session.now.state.format function)) }
{
    let element = function_element(session.current_format(), function);
    is_shared(near, &frame.shown, function)
        || is_borne_by_recording(session, opened, pulse_at(session, frame.marker, element))
        || opened.is_told(&frame.shown, function)
}
