//! Inverts the level between two times.

ghost use Rattle.std.specs.Prelude.{◌≡◌, None, Some, IfErr, OnOk};
ghost use Rattle.irig_track.specs.Toggles.{CanToggle};
ghost use Rattle.irig_edit.specs.Edits.Becoming.{judgement_of};
ghost use Rattle.irig_edit.specs.Session.Session.{LooksAfter, Steps};
ghost use Rattle.irig_edit.specs.{Session.Calls.Call.Make, Session.Calls.Edit.Invert};

use crate::session::refusal::Refusal;
use crate::session::session::Session;
use crate::state::present::Present;
use irig_saved::Single;

/// Whether the level can be inverted. If the times are right, `can_toggle` is false only if there
/// would be too many pulses.
fn plan(present: &Present, a: u64, b: u64) -> Result<(), Refusal>
    ensures refused { IfErr result (λ e. judgement_of (Invert a b) present.now.state ≡ Some e) }
    ensures allowed { OnOk result (judgement_of (Invert a b) present.now.state ≡ None) }
    ensures can { OnOk result (CanToggle present.now.state.micros a b present.now.state.pulses) }
{
    if a >= b || b > present.track().length() {
        return Err(Refusal::OutOfRange);
    }
    if present.can_toggle(a, b) {
        Ok(())
    } else {
        Err(Refusal::TooMany)
    }
}

impl Session {
    /// Inverts the level from `a` to `b`: an edge at one of these times goes, or comes if none was
    /// there. The cursor goes to the last pulse that rises by `b`; it is known only after the
    /// change. E1, E5.
    pub fn invert(&mut self, a: u64, b: u64) -> Result<(), Refusal>
        ensures step { Steps (Make (Invert a b)) self.old result self.new }
        ensures looks { LooksAfter (Make (Invert a b)) self.old result self.new }
    {
        plan(&self.present, a, b)?;
        self.change(Single::Toggle { a, b }, 0)?;
        self.cursor = self.present.find(b);
        Ok(())
    }
}
