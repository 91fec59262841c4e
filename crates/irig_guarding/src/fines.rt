//! Whether the frames of a state are safe.

ghost use Rattle.std.specs.Prelude.{◌≡◌, IfErr, OnErr, OnOk};
ghost use Rattle.irig_safety.specs.Original.{with_frames};
ghost use Rattle.irig_guarding.specs.Controls.{AreBorneBy, IsUnborneBy};
ghost use Rattle.irig_guarding.specs.Known.{AreKnown};
ghost use Rattle.irig_guarding.specs.Stays.{FinesStayAt, HasFineFaultAt};
ghost use Rattle.irig_guarding.specs.{Standing.StandBy, Standing.StrayBy};
ghost use Rattle.irig_guarding.specs.Reading.{fine_frames, seen_frames};

use crate::controls::check_controls;
use crate::pulses::{check_rises, check_rooted};
use crate::seen::Seen;
use irig_edit::Session;
use irig_safety::{Fault, Original, Shown, check_safe, check_unspoiled};

/// Whether the frames that read well now are safe, by the former ones and those before the repair,
/// both at the places where they are now. There are four checks, in this order: of the times
/// (`check_safe`), of the control functions (`check_borne`), of the pulses (`check_pulses`), and
/// that each frame of `before` still reads well (`check_unspoiled`).
pub fn check_fines(
    session: &Session,
    opened: &Original,
    known_markers: &[Option<usize>],
    former: &[Shown],
    before: &[Shown],
    shown: &[Shown],
    seen: &[Seen],
) -> Result<(), Fault>
    requires shown { shown.now ≡ fine_frames session.now.state }
    requires seen { seen.now ≡ seen_frames session.now.state }
    requires known { AreKnown opened.now session.now.state.pulses known_markers.now }
    ensures stays { OnOk result (FinesStayAt (with_frames former.now opened.now) before.now
        session.now.state) }
    ensures unsafe_so { OnErr result (FinesStayAt (with_frames former.now opened.now) before.now
        session.now.state → ⊥) }
    ensures fault { IfErr result (HasFineFaultAt (with_frames former.now opened.now) before.now
        session.now.state) }
{
    if let Err(why) = check_safe(session.current_format(), opened.others(), former, shown) {
        return Err(why);
    }
    if let Err(why) = check_borne(session, opened, former, seen) {
        return Err(why);
    }
    if let Err(why) = check_pulses(session, opened, known_markers, former, seen) {
        return Err(why);
    }
    check_unspoiled(before, shown)
}

/// Whether the control functions of the frames are borne out: by the frames nearest to each, by the
/// recording, or by most other recordings (`check_controls`).
fn check_borne(
    session: &Session,
    opened: &Original,
    former: &[Shown],
    seen: &[Seen],
) -> Result<(), Fault>
    requires { seen.now ≡ seen_frames session.now.state }
    ensures borne { OnOk result (AreBorneBy former.now (with_frames former.now opened.now)
        session.now.state) }
    ensures unborne { OnErr result (AreBorneBy former.now (with_frames former.now opened.now)
        session.now.state → ⊥) }
    ensures fault { IfErr result (IsUnborneBy former.now (with_frames former.now opened.now)
        session.now.state) }
{
    if former.is_empty() {
        return Ok(());
    }
    check_controls(session, opened, former, seen)
}

/// Whether the pulses of the frames are where they may be: where they were, or where the recording
/// supports them (`check_rises`).
fn check_pulses(
    session: &Session,
    opened: &Original,
    known_markers: &[Option<usize>],
    former: &[Shown],
    seen: &[Seen],
) -> Result<(), Fault>
    requires seen { seen.now ≡ seen_frames session.now.state }
    requires known { AreKnown opened.now session.now.state.pulses known_markers.now }
    ensures stand { OnOk result (StandBy former.now (with_frames former.now opened.now)
        session.now.state) }
    ensures stray { OnErr result (StandBy former.now (with_frames former.now opened.now)
        session.now.state → ⊥) }
    ensures fault { IfErr result (StrayBy former.now (with_frames former.now opened.now)
        session.now.state) }
{
    if former.is_empty() {
        return check_rooted(session, opened, seen);
    }
    check_rises(session, opened, known_markers, former, seen)
}
