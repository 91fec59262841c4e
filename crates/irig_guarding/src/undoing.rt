//! All that a run did, undone.

ghost use Rattle.std.specs.Prelude.{◌≡◌, None, length};
ghost use Rattle.irig_guarding.specs.Undone.{IsUndone, LeadsBackTo};
ghost use Rattle.irig_script.specs.{Obey.Machine.Machine};

use irig_edit::Session;

/// Undoes steps for good until as many lead back as did then (`steps`): they cannot be redone, as
/// the abort of an empty group takes that away.
pub fn undo_to(session: &mut Session, steps: usize)
    requires { session.old.floor ≡ None }
    ensures { (first : Machine) → first.floor ≡ None → steps ≡ length first.past
        → LeadsBackTo first session.old → IsUndone first session.new }
{
    let mut left = session.steps_back().saturating_sub(steps);
    while left > 0 {
        let _ = session.undo();
        left -= 1;
    }
    let _ = session.begin();
    let _ = session.abort();
}
