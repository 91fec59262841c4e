//! Whether what a repair leads to may stay.

ghost use Rattle.std.specs.Prelude.{◌≡◌, IfErr, IfOk, OnErr, OnOk, false, true};
ghost use Rattle.irig_safety.specs.Original.{with_frames};
ghost use Rattle.irig_guarding.specs.Known.{AreKnown};
ghost use Rattle.irig_guarding.specs.Stays.{HasFaultAt, MayStay, StaysAt};
ghost use Rattle.irig_guarding.specs.{Drops.Sways, Judged.IsJudged, Judged.IsUnjudged, Judged.is_judged};
ghost use Rattle.irig_guarding.specs.Reading.{Lists, fine_frames, seen_frames};

use crate::fines::check_fines;
use crate::reason::Reason;
use crate::seen::{Frames, Seen, list_frames};
use crate::steps::check_steps;
use irig_edit::Session;
use irig_safety::{Fault, Original, Shown, moved_in};
use std::alloc::Global;

/// Whether the frames that read well now may stay: they are safe by those that did when the
/// recording was opened, and each that did before the repair still does.
pub fn check(
    alloc: Global,
    session: &Session,
    opened: &Original,
    known_markers: &[Option<usize>],
    before: &[Shown],
) -> Result<Frames, Reason>
    requires { AreKnown opened.now session.now.state.pulses known_markers.now }
    ensures lists { IfOk result (λ frames. Lists session.now.state frames) }
    ensures stays { OnOk result (MayStay opened.now before.now session.now.state) }
    ensures sways { IfErr result (Sways opened.now before.now session.now.state) }
{
    let Ok(frames) = list_frames(alloc, session) else {
        return Err(Reason::OutOfMemory);
    };
    match check_listed(alloc, session, opened, known_markers, before, &frames) {
        Ok(()) => Ok(frames),
        Err(reason) => Err(reason),
    }
}

/// Whether these frames, which read well now, may stay: by `check_moved` if frames of the recording
/// may be at other times now, else by `check_unmoved`.
fn check_listed(
    alloc: Global,
    session: &Session,
    opened: &Original,
    known_markers: &[Option<usize>],
    before: &[Shown],
    frames: &Frames,
) -> Result<(), Reason>
    requires known { AreKnown opened.now session.now.state.pulses known_markers.now }
    requires lists { Lists session.now.state frames.now }
    ensures stays { OnOk result (MayStay opened.now before.now session.now.state) }
    ensures sways { IfErr result (Sways opened.now before.now session.now.state) }
{
    let (shown, seen) = (frames.shown.as_slice(), frames.seen.as_slice());
    if opened.is_moved() {
        check_moved(alloc, session, opened, known_markers, before, shown, seen)
    } else {
        check_unmoved(session, opened, known_markers, before, shown, seen)
    }
}

/// Whether the frames that read well now may stay, if none may move. They are judged by the former
/// frames and by those before the repair, where these were (`check_frames`).
fn check_unmoved(
    session: &Session,
    opened: &Original,
    known_markers: &[Option<usize>],
    before: &[Shown],
    shown: &[Shown],
    seen: &[Seen],
) -> Result<(), Reason>
    requires shown { shown.now ≡ fine_frames session.now.state }
    requires seen { seen.now ≡ seen_frames session.now.state }
    requires unmoved { opened.now.terms.moved ≡ false }
    requires known { AreKnown opened.now session.now.state.pulses known_markers.now }
    ensures stays { OnOk result (MayStay opened.now before.now session.now.state) }
    ensures sways { IfErr result (Sways opened.now before.now session.now.state) }
{
    let former = opened.frames();
    match check_frames(session, opened, known_markers, former, before, shown, seen) {
        Ok(()) => Ok(()),
        Err(why) => Err(Reason::NotSafe(why)),
    }
}

/// Whether the frames that read well now may stay, if frames may move. The former frames and those
/// before the repair are first brought to the places where they are now (`moved_in`); by these the
/// frames are judged (`check_frames`).
fn check_moved(
    alloc: Global,
    session: &Session,
    opened: &Original,
    known_markers: &[Option<usize>],
    before: &[Shown],
    shown: &[Shown],
    seen: &[Seen],
) -> Result<(), Reason>
    requires shown { shown.now ≡ fine_frames session.now.state }
    requires seen { seen.now ≡ seen_frames session.now.state }
    requires moved { opened.now.terms.moved ≡ true }
    requires known { AreKnown opened.now session.now.state.pulses known_markers.now }
    ensures stays { OnOk result (MayStay opened.now before.now session.now.state) }
    ensures sways { IfErr result (Sways opened.now before.now session.now.state) }
{
    let Ok(moved_former) = moved_in(alloc, opened.frames(), shown) else {
        return Err(Reason::OutOfMemory);
    };
    let Ok(moved_before) = moved_in(alloc, before, shown) else {
        return Err(Reason::OutOfMemory);
    };
    match check_frames(
        session,
        opened,
        known_markers,
        moved_former.as_slice(),
        moved_before.as_slice(),
        shown,
        seen,
    ) {
        Ok(()) => Ok(()),
        Err(why) => Err(Reason::NotSafe(why)),
    }
}

/// Whether what a repair leads to may stay, by the former frames and those before the repair, both
/// at the places where they are now.
fn check_frames(
    session: &Session,
    opened: &Original,
    known_markers: &[Option<usize>],
    former: &[Shown],
    before: &[Shown],
    shown: &[Shown],
    seen: &[Seen],
) -> Result<(), Fault>
    requires shown { shown.now ≡ fine_frames session.now.state }
    requires seen { seen.now ≡ seen_frames session.now.state }
    requires known { AreKnown opened.now session.now.state.pulses known_markers.now }
    ensures stays { OnOk result (StaysAt (with_frames former.now opened.now) before.now
        session.now.state) }
    ensures unsafe_so { OnErr result (StaysAt (with_frames former.now opened.now) before.now
        session.now.state → ⊥) }
    ensures fault { IfErr result (HasFaultAt (with_frames former.now opened.now) before.now
        session.now.state) }
{
    if let Err(why) = check_fines(session, opened, known_markers, former, before, shown, seen) {
        return Err(why);
    }
    if let Err(why) = check_steps(session, opened) {
        return Err(why);
    }
    check_judged(former, shown)
}

/// Whether there is a frame to go by (`is_judged`).
fn check_judged(former: &[Shown], shown: &[Shown]) -> Result<(), Fault>
    ensures judged { OnOk result (IsJudged former.now shown.now) }
    ensures unjudged_so { OnErr result (IsJudged former.now shown.now → ⊥) }
    ensures fault { IfErr result (IsUnjudged former.now shown.now) }
{
    if is_judged(former, shown) {
        Ok(())
    } else {
        Err(Fault::Unjudged)
    }
}

/// Whether a frame of the recording read well (`former`), or one does now (`shown`).
pub fn is_judged(former: &[Shown], shown: &[Shown]) -> bool
    ensures { result ≡ is_judged former.now shown.now }
{
    !former.is_empty() || !shown.is_empty()
}
