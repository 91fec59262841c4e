//! Edits of a session that make a patch.

ghost use Rattle.std.specs.Prelude.{◌≡◌, ◌+◌, ◌≤◌, ◌^◌, IfErr, OnOk, length};
ghost use Rattle.irig_recording.specs.Recording.{RisesFrom, UpTo};
ghost use Rattle.irig_track.specs.Edges.{edges_of};
ghost use Rattle.irig_difference.specs.Stretches.{stretches_between};
ghost use Rattle.irig_edit.specs.State.State.{recording_of};
ghost use Rattle.irig_edit.specs.declared.session.refusal.Refusal.TheVariants.{OutOfMemory};
ghost use Rattle.irig_patch.specs.Patched.{AreStretches, Patches, StopsPatch, made_of};

use irig_difference::{Differences, Recording};
use irig_edit::{Refusal, Session};

/// Makes the edges of `after` on a session of `before`. After a refusal the steps before it stay.
pub fn patch(session: &mut Session, before: &Recording, after: &Recording) -> Result<(), Refusal>
    requires before { recording_of session.old.state ≡ before.now }
    requires covers { UpTo before.now.micros after.now.edges }
    ensures after { OnOk result
        (recording_of session.new.state ≡ made_of before.now after.now) }
    ensures patches { OnOk result
        (Patches (stretches_between before.now after.now) session.old session.new) }
    ensures refused { IfErr result StopsPatch }
    ensures few { length session.old.state.pulses
        + length (stretches_between before.now after.now) ≤ 2 ^ 22
        → IfErr result (λ e. e ≡ OutOfMemory) }
{
    // For what the type promises: edges rise, and none is later than the end of its recording.
    let _lengths = (before.length(), after.length());
    invert_all(session, &mut Differences::between(before, after))
}

fn invert_all(session: &mut Session, left: &mut Differences<'_>) -> Result<(), Refusal>
    requires track { RisesFrom 0 (edges_of session.old.state.pulses) }
    requires left { AreStretches session.old.state.micros left.old }
    ensures patches { OnOk result (Patches left.old session.old session.new) }
    ensures refused { IfErr result StopsPatch }
    ensures few { length session.old.state.pulses + length left.old ≤ 2 ^ 22
        → IfErr result (λ e. e ≡ OutOfMemory) }
{
    while let Some(stretch) = left.next() {
        session.invert(stretch.rise, stretch.fall)?;
    }
    Ok(())
}
