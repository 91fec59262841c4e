//! Moves pulses in time.

ghost use Rattle.std.specs.Prelude.{◌≡◌, ◌-◌, ◌≤◌, None, Some, IfOk, IfErr, OnOk, length};
ghost use Rattle.irig_track.specs.Shifts.{CanShift};
ghost use Rattle.irig_edit.specs.Edits.Becoming.{Becomes, judgement_of};
ghost use Rattle.irig_edit.specs.Changes.Delta.{Fits, turned};
ghost use Rattle.irig_edit.specs.Session.Session.{LooksAfter, Steps};
ghost use Rattle.irig_edit.specs.{Session.Calls.Call.Make, Session.Calls.Edit.Shift};
ghost use Rattle.irig_edit.specs.{Edits.Conditions.leaves, Edits.Changes.change_by};
ghost use Rattle.irig_saved.specs.declared.change.Change.TheVariants.{One};

use crate::session::refusal::Refusal;
use crate::session::session::Session;
use crate::state::present::Present;
use irig_saved::Single;

/// Whether the pulses `i` to `j`, moved by `by`, would leave the track. Both sides are sums, since
/// a difference could go below 0; none overflows, as a time is at most 2^40.
fn leaves(present: &Present, i: usize, j: usize, by: i64) -> bool
    requires { (1 ≤ i) × (i ≤ j) × (j ≤ length present.now.state.pulses) }
    ensures { result ≡ leaves i j by present.now.state }
{
    let rise = present.pulse(i).rise;
    let fall = present.pulse(j).fall;
    let length = present.track().length();
    if by < 0 {
        let back = by.unsigned_abs();
        rise < back || length + back < fall
    } else {
        length < fall + by.unsigned_abs()
    }
}

/// Whether the pulses can be moved. `can_shift`, which counts them from 0, is false here only if
/// they would touch others.
fn judge(present: &Present, i: usize, j: usize, by: i64) -> Result<(), Refusal>
    ensures refused { IfErr result (λ e. judgement_of (Shift i j by) present.now.state ≡ Some e) }
    ensures allowed { OnOk result (judgement_of (Shift i j by) present.now.state ≡ None) }
    ensures there { OnOk result ((1 ≤ i) × (i ≤ j) × (j ≤ length present.now.state.pulses)) }
    ensures can { OnOk result (
        CanShift present.now.state.micros (i - 1) (j - 1) by present.now.state.pulses) }
{
    if i == 0 || i > j || j > present.track().len() {
        return Err(Refusal::NoPulse);
    }
    if leaves(present, i, j, by) {
        return Err(Refusal::OutOfRange);
    }
    if present.can_shift(i - 1, j - 1, by) {
        Ok(())
    } else {
        Err(Refusal::Touching)
    }
}

/// The change that moves the pulses, and each mark from the rise of the first to the fall of the
/// last. Such a mark stays on the track, between two moved edges, so it needs no test.
fn plan(present: &Present, i: usize, j: usize, by: i64) -> Result<Single, Refusal>
    ensures refused { IfErr result (λ e. judgement_of (Shift i j by) present.now.state ≡ Some e) }
    ensures allowed { OnOk result (judgement_of (Shift i j by) present.now.state ≡ None) }
    ensures there { OnOk result (j ≤ length present.now.state.pulses) }
    ensures fits { IfOk result (λ m.
        Fits present.now.state (One m)) }
    ensures becomes { IfOk result (λ m. Becomes (Shift i j by) present.now.state
        (turned present.now.state (One m)).0 j) }
    ensures change { IfOk result (λ m. One m ≡ change_by (Shift i j by) present.now.state) }
{
    judge(present, i, j, by)?;
    let low = present.pulse(i).rise;
    let high = present.pulse(j).fall;
    let marks = present.letters_from(low, high);
    let (i, j) = (i as u64, j as u64);
    Ok(Single::Shift { i, j, by, marks })
}

impl Session {
    /// Moves the pulses `i` to `j`, both included, by `by` microseconds, and each mark among them;
    /// below 0 is to earlier times. The cursor goes to pulse `j`. E1, E2, E3.
    pub fn shift(&mut self, i: usize, j: usize, by: i64) -> Result<(), Refusal>
        ensures step { Steps (Make (Shift i j by)) self.old result self.new }
        ensures looks { LooksAfter (Make (Shift i j by)) self.old result self.new }
    {
        let shift = plan(&self.present, i, j, by)?;
        self.change(shift, j)
    }
}
