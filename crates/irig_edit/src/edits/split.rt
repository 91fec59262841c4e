//! Splits a pulse in two.

ghost use Rattle.std.specs.Prelude.{◌≡◌, ◌+◌, [], ◌∷◌, Some, MatchResult};
ghost use Rattle.irig_track.specs.Edges.{pulse};
ghost use Rattle.irig_edit.specs.Edits.Becoming.{Plans, judgement_of};
ghost use Rattle.irig_edit.specs.Session.Session.{LooksAfter, Steps};
ghost use Rattle.irig_edit.specs.{Session.Calls.Call.Make, Session.Calls.Edit.Split};

use super::two;
use crate::session::refusal::Refusal;
use crate::session::session::Session;
use crate::state::present::Present;
use irig_track::Pulse;

/// Pulse `i` as it is, if it can be made low from `a` to `b`.
fn plan(present: &Present, i: usize, a: u64, b: u64) -> Result<Pulse, Refusal>
    ensures { MatchResult result
        (λ p. Plans (Split i a b) present.now.state i 1
        (pulse p.rise a ∷ pulse b p.fall ∷ []) (i + 1))
        (λ e. judgement_of (Split i a b) present.now.state ≡ Some e) }
{
    let track = present.track();
    if a >= b || b > track.length() {
        return Err(Refusal::OutOfRange);
    }
    if i == 0 || i > track.len() {
        return Err(Refusal::NoPulse);
    }
    let pulse = present.pulse(i);
    if pulse.rise >= a || b >= pulse.fall {
        return Err(Refusal::NotInside);
    }
    if track.room() == 0 {
        return Err(Refusal::TooMany);
    }
    Ok(pulse)
}

impl Session {
    /// Makes the level low from `a` to `b` inside of pulse `i`, not at its edges. The cursor goes
    /// to the second of the two pulses. E1, E2, E4, E5.
    pub fn split(&mut self, i: usize, a: u64, b: u64) -> Result<(), Refusal>
        ensures step { Steps (Make (Split i a b)) self.old result self.new }
        ensures looks { LooksAfter (Make (Split i a b)) self.old result self.new }
    {
        let pulse = plan(&self.present, i, a, b)?;
        let first = Pulse {
            rise: pulse.rise,
            fall: a,
        };
        let second = Pulse {
            rise: b,
            fall: pulse.fall,
        };
        let put = two(self.alloc, first, second)?;
        self.splice(i, 1, put, i + 1)
    }
}
