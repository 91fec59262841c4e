//! Whether the pulses of the frames are where they may be.

ghost use Rattle.std.specs.Prelude.{◌≡◌, ◌↔◌, ◌+◌, ◌<◌, ◌≤◌, ◌∷◌, List, IsTrue, None, Option, Some};
ghost use Rattle.std.specs.Prelude.{IfErr, IfOk, OnErr, OnOk, drop, get_or, length, slice_get};
ghost use Rattle.irig_safety.specs.Original.{with_frames};
ghost use Rattle.irig_safety.specs.Rises.{KeepsRises};
ghost use Rattle.irig_safety.specs.declared.fault.Fault.{Fault as SomeFault};
ghost use Rattle.irig_guarding.specs.Pulses.{Comes, PulsesAt, StandFrom, StandsAs, StrayFrom};
ghost use Rattle.irig_guarding.specs.Standing.{IsRooted, UnrootedFrom};
ghost use Rattle.irig_guarding.specs.Known.{AreKnown};
ghost use Rattle.std.specs.List.{AllByRecursion};
ghost use Rattle.irig_guarding.specs.declared.seen.Seen.{Seen as SeenFrame};

use crate::anchors::{are_placed, is_rooted};
use crate::elements::rise_at;
use crate::known::is_known;
use crate::seen::{Seen, is_as_before};
use irig_edit::Session;
use irig_safety::{Fault, Original, Shown, Witnesses, frame_at, near_in};

/// Whether the pulses of each of `frames`, those that read well now, are where they may be. If a
/// frame begins when a former one does, they have to rise as that one's did.
pub fn check_rises(
    session: &Session,
    opened: &Original,
    known_markers: &[Option<usize>],
    former: &[Shown],
    frames: &[Seen],
) -> Result<(), Fault>
    requires { AreKnown opened.now session.now.state.pulses known_markers.now }
    ensures stand { OnOk result (StandFrom (with_frames former.now opened.now) session.now.state
        opened.now.markers None None former.now frames.now) }
    ensures stray { OnErr result (StandFrom (with_frames former.now opened.now) session.now.state
        opened.now.markers None None former.now frames.now → ⊥) }
    ensures fault { IfErr result (StrayFrom (with_frames former.now opened.now) session.now.state
        opened.now.markers None None former.now frames.now) }
{
    let mut passed = 0;
    for frame in frames {
        if is_unmoved(former, known_markers, passed, frame) {
            passed += 1;
            continue;
        }
        match judge_next(session, opened, known_markers, former, passed, frame) {
            Ok(place) => passed = place,
            Err(why) => return Err(why),
        }
    }
    Ok(())
}

/// Whether a frame has the fields and the rise of the former one at a place, and its pulses are
/// known to rise as those of the former one (`is_known`).
fn is_unmoved(former: &[Shown], known_markers: &[Option<usize>], place: usize, frame: &Seen) -> bool
    ensures same { IsTrue result → slice_get former.now place ≡ Some frame.now.shown }
    ensures known { IsTrue result → get_or known_markers.now place None ≡ Some frame.now.marker }
{
    if !is_as_before(former, place, frame) {
        return false;
    }
    is_known(known_markers, place, frame.marker)
}

/// Judges one more frame by the next former one.
fn judge_next(
    session: &Session,
    opened: &Original,
    known_markers: &[Option<usize>],
    former: &[Shown],
    passed: usize,
    frame: &Seen,
) -> Result<usize, Fault>
    requires within { passed ≤ length former.now }
    requires known { AreKnown opened.now session.now.state.pulses known_markers.now }
    ensures within { IfOk result (λ place. place ≤ length former.now) }
    ensures stand { (rest : List SeenFrame) (found : Option SomeFault) → IfOk result (λ place.
        PulsesAt (with_frames former.now opened.now) session.now.state place rest found
        → PulsesAt (with_frames former.now opened.now) session.now.state passed (frame.now ∷ rest)
        found) }
    ensures fault { (rest : List SeenFrame) → IfErr result (λ why.
        PulsesAt (with_frames former.now opened.now) session.now.state passed (frame.now ∷ rest)
        (Some why)) }
{
    let Some(next) = frame_at(former, passed) else {
        let near = near_in(former, passed, passed);
        return judge_new_frame(session, opened, &near, frame, passed);
    };
    if frame.shown.rise < next.rise {
        let near = near_in(former, passed, passed);
        return judge_new_frame(session, opened, &near, frame, passed);
    }
    if next.rise < frame.shown.rise {
        return Err(Fault::Lost(next));
    }
    if rises_as_former(session, opened, known_markers, passed, frame) {
        Ok(passed + 1)
    } else {
        Err(Fault::Moved(frame.shown))
    }
}

/// Judges a new frame: it begins when no former one does.
fn judge_new_frame(
    session: &Session,
    opened: &Original,
    near: &Witnesses,
    frame: &Seen,
    passed: usize,
) -> Result<usize, Fault>
    ensures { Comes opened.now session.now.state near.now frame.now passed result }
{
    if are_placed(session, opened, near, frame) {
        Ok(passed)
    } else {
        Err(Fault::Misplaced(frame.shown))
    }
}

/// Whether most pulses of each of `frames`, those that read well now, are anchors: 60 or more of
/// its 100 (`is_rooted`).
pub fn check_rooted(session: &Session, opened: &Original, frames: &[Seen]) -> Result<(), Fault>
    ensures rooted { OnOk result
        (AllByRecursion (IsRooted opened.now session.now.state) frames.now) }
    ensures unrooted { OnErr result
        (AllByRecursion (IsRooted opened.now session.now.state) frames.now → ⊥) }
    ensures fault { IfErr result (UnrootedFrom opened.now session.now.state frames.now) }
{
    for frame in frames {
        if !is_rooted(session, opened, frame) {
            return Err(Fault::Misplaced(frame.shown));
        }
    }
    Ok(())
}

/// Whether the pulses of a frame rise as those of the former one at a place did.
fn rises_as_former(
    session: &Session,
    opened: &Original,
    known_markers: &[Option<usize>],
    place: usize,
    frame: &Seen,
) -> bool
    requires { AreKnown opened.now session.now.state.pulses known_markers.now }
    ensures { IsTrue result
        ↔ StandsAs opened.now session.now.state (drop place opened.now.markers) frame.now }
{
    if is_known(known_markers, place, frame.marker) {
        return true;
    }
    keeps_rises(session, opened, opened.marker(place), frame.marker)
}

/// Whether the pulses of a frame rise as those of a former one did: each as long after its frame's
/// marker. The frames are given by their markers.
pub fn keeps_rises(
    session: &Session,
    opened: &Original,
    former_marker: usize,
    marker: usize,
) -> bool
    ensures { IsTrue result
        ↔ KeepsRises opened.now.pulses former_marker session.now.state.pulses marker }
{
    let former_start = opened.rise(former_marker, 0);
    let start = rise_at(session, marker, 0);
    for element in 0..100 {
        let offset = opened
            .rise(former_marker, element)
            .saturating_sub(former_start);
        if offset != rise_at(session, marker, element).saturating_sub(start) {
            return false;
        }
    }
    true
}
