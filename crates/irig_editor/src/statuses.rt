//! The statuses of the program as a process, and what it says of faults.

ghost use Rattle.std.specs.Prelude.{◌≡◌};
ghost use Rattle.std.specs.Process.{exit_status};
ghost use Rattle.irig_editor.specs.Statuses.{Reports, status_number, unread_text};

use crate::ending::Ending;
use crate::help::program;
use irig_files::DumpFileFault;
use irig_script::{DumpRunFault, Status};
use std::io::Write;
use std::process::ExitCode;

/// The status of the process for how the program ended. `none_fine`: whether the last frames that
/// were listed have none that is fine.
pub fn report<R: Eprint, H: Write>(
    rt: &R,
    ending: &Ending<'_>,
    none_fine: bool,
    help: &mut H,
) -> ExitCode
    ensures { Reports ending.now (H.contents help.old) (H.contents help.new) (exit_status result) }
{
    match ending {
        Ending::Usage(fault) => program().explain(rt, fault, help),
        Ending::Unread(path, fault) => program().tell_of(rt, 3, path, &unread_text(*fault)),
        Ending::Over => program().tell(rt, 2, &"--out: is TRACK, which a part does not replace"),
        Ending::Unknown => program().tell(rt, 4, &"--out: cannot find out whether it is TRACK"),
        Ending::Saved(path) => program().tell_of(rt, 3, path, &"a saved session opens as a whole"),
        Ending::Ran(path, outcome) => {
            if none_fine {
                tell_none_fine(rt, path);
            }
            tell_ended(rt, path, *outcome)
        }
    }
}

/// Says what can be wrong if no frame is fine, and what to do next.
fn tell_none_fine<R: Eprint>(rt: &R, path: &str) {
    let what = "no frame is fine: format or expression can be wrong";
    let _ = eprintln!(rt; "irig_ed: {path}: {what}; irig_what FILE says more");
}

/// What the program says of a track that it did not read, after the path.
fn unread_text<'a>(fault: DumpFileFault) -> &'a str
    ensures { result.now ≡ unread_text fault }
{
    match fault {
        DumpFileFault::CannotBeRead => "cannot be read",
        DumpFileFault::TooLong => "too long",
        DumpFileFault::OutOfMemory => "V14 OutOfMemory",
    }
}

/// The exit status for how a run on the dump at this path ended.
fn tell_ended<R: Eprint>(rt: &R, path: &str, outcome: Result<Status, DumpRunFault>) -> ExitCode
    ensures { exit_status result ≡ status_number outcome }
{
    match outcome {
        Ok(Status::AllAccepted) => ExitCode::SUCCESS,
        Ok(Status::SomeRefused) => ExitCode::from(1),
        Err(DumpRunFault::Dump(fault)) => program().tell_dump(rt, 3, path, fault),
        Err(DumpRunFault::Run(fault)) => program().tell(rt, 4, &fault),
    }
}
