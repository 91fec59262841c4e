//! Joins pulses into one.

ghost use Rattle.std.specs.Prelude.{◌≡◌, ◌+◌, ◌-◌, ◌<◌, [], ◌∷◌, Some, MatchResult, OnOk};
ghost use Rattle.irig_edit.specs.Edits.Becoming.{Plans, judgement_of};
ghost use Rattle.irig_edit.specs.Session.Session.{LooksAfter, Steps};
ghost use Rattle.irig_edit.specs.{Session.Calls.Call.Make, Session.Calls.Edit.Join};

use super::one;
use crate::session::refusal::Refusal;
use crate::session::session::Session;
use crate::state::present::Present;
use irig_track::Pulse;

/// The one pulse that the pulses `i` to `j`, both included, are joined into.
fn plan(present: &Present, i: usize, j: usize) -> Result<Pulse, Refusal>
    ensures plan { MatchResult result
        (λ p. Plans (Join i j) present.now.state i (j + 1 - i) (p ∷ []) i)
        (λ e. judgement_of (Join i j) present.now.state ≡ Some e) }
    ensures order { OnOk result (i < j) }
{
    if i == 0 || i >= j || j > present.track().len() {
        return Err(Refusal::NoPulse);
    }
    let first = present.pulse(i);
    let last = present.pulse(j);
    Ok(Pulse {
        rise: first.rise,
        fall: last.fall,
    })
}

impl Session {
    /// Makes one pulse of the pulses `i` to `j`, both included, to which the cursor goes. E2.
    pub fn join(&mut self, i: usize, j: usize) -> Result<(), Refusal>
        ensures step { Steps (Make (Join i j)) self.old result self.new }
        ensures looks { LooksAfter (Make (Join i j)) self.old result self.new }
    {
        let pulse = plan(&self.present, i, j)?;
        let put = one(self.alloc, pulse)?;
        self.splice(i, j + 1 - i, put, i)
    }
}
