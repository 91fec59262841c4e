//! Removes pulses.

ghost use Rattle.std.specs.Prelude.{◌≡◌, ◌+◌, ◌-◌, ◌≤◌, [], Some, MatchResult, OnOk};
ghost use Rattle.irig_edit.specs.Edits.Becoming.{Plans, judgement_of};
ghost use Rattle.irig_edit.specs.Session.Session.{LooksAfter, Steps};
ghost use Rattle.irig_edit.specs.{Session.Calls.Call.Make, Session.Calls.Edit.Delete};

use crate::session::refusal::Refusal;
use crate::session::session::Session;
use crate::state::present::Present;
use irig_saved::Pulses;

/// The cursor after the pulses `i` to `j` are removed: the pulse after them, or the last one left.
fn plan(present: &Present, i: usize, j: usize) -> Result<usize, Refusal>
    ensures plan { MatchResult result
        (λ cursor. Plans (Delete i j) present.now.state i (j + 1 - i) [] cursor)
        (λ e. judgement_of (Delete i j) present.now.state ≡ Some e) }
    ensures order { OnOk result (i ≤ j) }
{
    let len = present.track().len();
    if i == 0 || i > j || j > len {
        return Err(Refusal::NoPulse);
    }
    let left = len - (j - i + 1);
    Ok(i.min(left))
}

impl Session {
    /// Removes the pulses `i` to `j`, both included. The cursor goes to the pulse after them, or to
    /// the last one that is left. E2.
    pub fn delete(&mut self, i: usize, j: usize) -> Result<(), Refusal>
        ensures step { Steps (Make (Delete i j)) self.old result self.new }
        ensures looks { LooksAfter (Make (Delete i j)) self.old result self.new }
    {
        let cursor = plan(&self.present, i, j)?;
        let put = Pulses::new(self.alloc);
        self.splice(i, j + 1 - i, put, cursor)
    }
}
