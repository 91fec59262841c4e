//! A proposed script, run until what is kept agrees with the recording.

ghost use Rattle.std.specs.Prelude.{◌≡◌, ℕ, [], IfOk, None, OnOk, Some, false, slice_get};
ghost use Rattle.irig_agreement.specs.{Agreement.Agree, Changes.IsFault};
ghost use Rattle.irig_agreement.specs.declared.fault.Fault.{Fault as SomeFault};
ghost use Rattle.irig_guarding.specs.Agreeing.{AgreesAfter, IsRecordedOf};
ghost use Rattle.irig_guarding.specs.Guarded.{IsGuarded, IsSafeAfter, Reaches};
ghost use Rattle.irig_guarding.specs.{Trials.IsTried, Trials.IsTriedBefore, Fillings.Fills};
ghost use Rattle.irig_guarding.specs.{Judged.is_judged_by, Reading.original_of, Repair.texts};

use crate::bars::bar_near;
use crate::copying::track_of;
use crate::guarding::guard_once;
use crate::line::Line;
use crate::lines::lines_of;
use crate::opening::original_of;
use crate::product::Kept;
use crate::undoing::undo_to;
use irig_agreement::{Fault, Recorded, faults_in};
use irig_edit::Session;
use irig_safety::{Original, Terms};
use std::alloc::{AllocError, Global};

/// The century that a year without one is of, as `irig_time` takes it if none is said.
const CENTURY: u32 = 20;

/// In each late round repairs are barred twice as far from a fault as before, so in 42 it is all up
/// to 2^41 microseconds, and no recording is longer than 2^40.
const ROUNDS: usize = 64;

/// Runs a proposed script on a session repair by repair; no group is open in it. A repair that is
/// kept is printed as it is, and so are comments.
pub fn guard(
    alloc: Global,
    session: &mut Session,
    terms: Terms,
    script: &[u8],
) -> Result<(Vec<u8>, Kept), AllocError>
    requires { session.old.floor ≡ None }
    ensures guarded { IfOk result (λ done. IsGuarded terms session.old done.0.items session.new) }
    ensures tried { IfOk result (λ done. IsTried terms session.old script.now done.0.items
        done.1.status session.new) }
    ensures filled { IfOk result (λ done. Fills (original_of terms session.old.state)
        session.new.state done.1.filled) }
    ensures judged { IfOk result (λ done. done.1.judged
        ≡ is_judged_by session.old.state session.new.state) }
    ensures agrees { OnOk result (AgreesAfter terms session.old.state session.new.state) }
{
    let opened = original_of(alloc, session, terms)?;
    let recorded = recorded_of(alloc, session)?;
    let lines = lines_of(alloc, script)?;
    let done = guard_until_agreed(alloc, session, &opened, &recorded, &lines)?;
    Ok(done)
}

/// The recording of a session, for comparisons.
fn recorded_of(alloc: Global, session: &Session) -> Result<Recorded, AllocError>
    ensures { IfOk result (λ recorded. IsRecordedOf session.now.state recorded) }
{
    let track = track_of(alloc, session)?;
    Recorded::of(alloc, track, session.current_format(), CENTURY)
}

/// Runs lines on a session (`guard_once`). If what that leaves does not agree with the recording,
/// repairs that were kept near the faults are barred, all is undone, and the lines are run again.
fn guard_until_agreed(
    alloc: Global,
    session: &mut Session,
    opened: &Original,
    recorded: &Recorded,
    lines: &[Line<'_>],
) -> Result<(Vec<u8>, Kept), AllocError>
    requires closed { session.old.floor ≡ None }
    requires opened { opened.now ≡ original_of opened.now.terms session.old.state }
    requires recorded { IsRecordedOf session.old.state recorded.now }
    ensures reaches { IfOk result (λ done. Reaches session.old done.0.items session.new) }
    ensures closed { OnOk result (session.new.floor ≡ None) }
    ensures safe { OnOk result (IsSafeAfter opened.now.terms session.old.state
        session.new.state) }
    ensures tried { IfOk result (λ done. IsTriedBefore opened.now.terms session.old
        (texts lines.now) [] done.0.items done.1.status session.new) }
    ensures filled { IfOk result (λ done. Fills opened.now session.new.state done.1.filled) }
    ensures judged { IfOk result (λ done. done.1.judged
        ≡ is_judged_by session.old.state session.new.state) }
    ensures agrees { OnOk result (AgreesAfter opened.now.terms session.old.state
        session.new.state) }
{
    let steps = session.steps_back();
    let mut bars = Vec::new(alloc);
    let mut times = 1u64;
    for _round in 0..ROUNDS {
        let mut kept = Vec::new(alloc);
        let done = guard_once(alloc, session, opened, lines, &bars, &mut kept)?;
        let faults = faults_after(alloc, session, opened, recorded)?;
        if faults.is_empty() {
            return Ok(done);
        }
        bar_near(&mut bars, &kept, opened.frames(), &faults, times)?;
        times = times.saturating_mul(2);
        undo_to(session, steps);
    }
    // Repairs that exclude each other can ask for more rounds than this project allows.
    Err(AllocError)
}

/// Why what a run left does not agree with the recording; nothing if frames may move.
fn faults_after(
    alloc: Global,
    session: &Session,
    opened: &Original,
    recorded: &Recorded,
) -> Result<Vec<Fault>, AllocError>
    ensures agree { IfOk result (λ faults. faults.items ≡ [] → opened.now.terms.moved ≡ false
        → Agree recorded.now.format recorded.now.century recorded.now.pulses
        session.now.state.pulses) }
    ensures faults { IfOk result (λ faults. (i : ℕ) (why : SomeFault)
        → slice_get faults.items i ≡ Some why
        → IsFault recorded.now.format recorded.now.century recorded.now.pulses
        session.now.state.pulses why) }
{
    if opened.is_moved() {
        return Ok(Vec::new(alloc));
    }
    let track = track_of(alloc, session)?;
    faults_in(alloc, recorded, &track)
}
