//! What holds of states that are safe, and of the script that is printed.

ghost use Rattle.irig_guarding.specs.{Guarded.PrintedIsObeyed, Meaning.SafeStatesMean};

use irig_edit::calls_give_back;

/// Does nothing: its contract is a theorem.
pub fn safe_states_are_kept_or_borne_out()
    ensures { SafeStatesMean }
{}

/// Does nothing: its contract is a theorem.
pub fn printed_scripts_are_obeyed()
    ensures { PrintedIsObeyed }
{
    calls_give_back();
}
