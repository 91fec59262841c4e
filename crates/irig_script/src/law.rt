//! What holds of lines and of the runs of scripts: promises, which do nothing.

ghost use Rattle.irig_edit.specs.Opened.GoingOn.{IsShort};
ghost use Rattle.irig_lines.specs.OneCommand.{OneCommand};
ghost use Rattle.irig_script.specs.Obey.OneDumpRun.{OneDumpRun};
ghost use Rattle.irig_script.specs.{Obey.OneRun.OneRun, Obey.SavedRun.RunsOn};

use irig_edit::{Session, calls_give_back, saved_goes_on};

/// A line asks for one command at most.
pub fn lines_ask_for_one_command()
    ensures same { OneCommand }
{}

/// Two runs of one script from one machine, or from the bytes of one dump (`on_dumps`), do the same
/// if memory runs out and writes fail at the same lines.
pub fn scripts_have_one_run()
    ensures same { OneRun }
    ensures on_dumps { OneDumpRun }
{
    calls_give_back();
}

/// A script runs on the saved text of a session as on the session, if no group is open in it, and
/// memory runs out and writes fail at the same lines. The text has at most 2^28 bytes.
pub fn saved_sessions_run_on(session: &Session)
    ensures same { IsShort session.now → RunsOn session.now }
{
    calls_give_back();
    saved_goes_on(session);
}
