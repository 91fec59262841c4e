//! The statuses of the program as a process, and what it says of faults.

ghost use Rattle.std.specs.Process.{exit_status};
ghost use Rattle.irig_explain.specs.Statuses.{Reports};

use crate::ending::Ending;
use crate::help::program;
use std::io::Write;
use std::process::ExitCode;

/// The status of the process for how the program ended.
pub fn report<R: Eprint, H: Write>(rt: &R, ending: &Ending<'_>, help: &mut H) -> ExitCode
    ensures { Reports ending.now (H.contents help.old) (H.contents help.new) (exit_status result) }
{
    let program = program();
    match ending {
        Ending::Usage(fault) => program.explain(rt, fault, help),
        Ending::Unread(path, fault) => program.tell_track(rt, 3, path, fault),
        Ending::Listed(true) => ExitCode::SUCCESS,
        Ending::Listed(false) => ExitCode::from(1),
        Ending::OutOfMemory => program.tell(rt, 4, &"out of memory"),
        Ending::Unprinted(why) => program.tell_unprinted(rt, *why),
    }
}
