//! Inserts a pulse.

ghost use Rattle.std.specs.Prelude.{◌≡◌, [], ◌∷◌, Some, MatchResult};
ghost use Rattle.irig_track.specs.Edges.{pulse};
ghost use Rattle.irig_edit.specs.Edits.Becoming.{Plans, judgement_of};
ghost use Rattle.irig_edit.specs.Session.Session.{LooksAfter, Steps};
ghost use Rattle.irig_edit.specs.{Session.Calls.Call.Make, Session.Calls.Edit.Insert};

use super::one;
use crate::session::refusal::Refusal;
use crate::session::session::Session;
use crate::state::present::Present;
use irig_track::Pulse;

/// The number that a new pulse from time `a` to time `b` gets.
fn plan(present: &Present, a: u64, b: u64) -> Result<usize, Refusal>
    ensures { MatchResult result
        (λ i. Plans (Insert a b) present.now.state i 0 (pulse a b ∷ []) i)
        (λ e. judgement_of (Insert a b) present.now.state ≡ Some e) }
{
    let track = present.track();
    if a >= b || b > track.length() {
        return Err(Refusal::OutOfRange);
    }
    if present.is_touched(a, b) {
        return Err(Refusal::Touching);
    }
    if track.room() == 0 {
        return Err(Refusal::TooMany);
    }
    Ok(present.find(b) + 1)
}

impl Session {
    /// Inserts a pulse that rises at `a` and falls at `b`, to which the cursor goes. E1, E3, E5.
    pub fn insert(&mut self, a: u64, b: u64) -> Result<(), Refusal>
        ensures step { Steps (Make (Insert a b)) self.old result self.new }
        ensures looks { LooksAfter (Make (Insert a b)) self.old result self.new }
    {
        let i = plan(&self.present, a, b)?;
        let put = one(self.alloc, Pulse { rise: a, fall: b })?;
        self.splice(i, 0, put, i)
    }
}
