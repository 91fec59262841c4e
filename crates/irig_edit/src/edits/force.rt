//! A pulse gets the width of an element: of a zero, a one or a position identifier.

ghost use Rattle.std.specs.Prelude.{◌≡◌, ◌≤◌, [], ◌∷◌, Some, MatchResult, length};
ghost use Rattle.irig_edit.specs.Edits.Becoming.{Plans, judgement_of};
ghost use Rattle.irig_edit.specs.Session.Session.{LooksAfter, Steps};
ghost use Rattle.irig_edit.specs.Edits.Conditions.{meets_next};
ghost use Rattle.irig_edit.specs.{Session.Calls.Call.Make, Session.Calls.Edit.Force};

use super::one;
use crate::session::refusal::Refusal;
use crate::session::session::Session;
use crate::state::present::Present;
use irig_codes::{Element, nominal};
use irig_track::Pulse;

/// The pulse that replaces pulse `i`. E2 is tested before E1: only a pulse that is there has a new
/// fall.
fn plan(present: &Present, i: usize, element: Element) -> Result<Pulse, Refusal>
    ensures { MatchResult result
        (λ p. Plans (Force i element) present.now.state i 1 (p ∷ []) i)
        (λ e. judgement_of (Force i element) present.now.state ≡ Some e) }
{
    let track = present.track();
    if i == 0 || i > track.len() {
        return Err(Refusal::NoPulse);
    }
    let rise = present.pulse(i).rise;
    let fall = rise + nominal(present.format(), element);
    if fall > track.length() {
        return Err(Refusal::OutOfRange);
    }
    if meets_next(present, i, fall) {
        return Err(Refusal::Touching);
    }
    Ok(Pulse { rise, fall })
}

fn meets_next(present: &Present, i: usize, time: u64) -> bool
    requires { i ≤ length present.now.state.pulses }
    ensures { result ≡ meets_next i time present.now.state }
{
    i < present.track().len() && present.pulse(i + 1).rise <= time
}

impl Session {
    /// Gives pulse `i` the nominal width of `element`: its fall moves. The cursor goes to this
    /// pulse. E1, E2, E3.
    pub fn force(&mut self, i: usize, element: Element) -> Result<(), Refusal>
        ensures step { Steps (Make (Force i element)) self.old result self.new }
        ensures looks { LooksAfter (Make (Force i element)) self.old result self.new }
    {
        let pulse = plan(&self.present, i, element)?;
        let put = one(self.alloc, pulse)?;
        self.splice(i, 1, put, i)
    }
}
