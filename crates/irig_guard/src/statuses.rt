//! The statuses of the program as a process, and what it says of faults.

ghost use Rattle.std.specs.Prelude.{◌≡◌};
ghost use Rattle.std.specs.Process.{exit_status};
ghost use Rattle.irig_guard.specs.Statuses.{Reports, kept_number, status_number, unread_text};

use crate::chosen::OptionFault;
use crate::ending::Ending;
use crate::help::program;
use crate::other_fault::OtherFault;
use irig_files::DumpFileFault;
use irig_guarding::{GuardFault, Kept};
use irig_script::Status;
use std::io::Write;
use std::process::ExitCode;

/// The status of the process for how the program ended.
pub fn report<R: Eprint, H: Write>(rt: &R, ending: &Ending<'_>, help: &mut H) -> ExitCode
    ensures { Reports ending.now (H.contents help.old) (H.contents help.new) (exit_status result) }
{
    let program = program();
    match ending {
        Ending::Usage(fault) => program.explain(rt, fault, help),
        Ending::Unread(path, fault) => tell_unread(rt, path, *fault),
        Ending::Over => program.tell(rt, 2, &OptionFault::Out),
        Ending::Unknown => program.tell(rt, 4, &"--out: cannot find out whether it is TRACK"),
        Ending::OverOther(path) => tell_over(rt, path),
        Ending::UnusableOther(path, why) => tell_unusable(rt, path, *why),
        Ending::Ran(path, outcome) => tell_ended(rt, path, *outcome),
    }
}

/// Says why the recording at this path was not read.
fn tell_unread<R: Eprint>(rt: &R, path: &str, fault: DumpFileFault) -> ExitCode
    ensures { exit_status result ≡ 3 }
{
    program().tell_of(rt, 3, path, &unread_text(fault))
}

/// Says that the path to write leads to another recording, that at `path`.
fn tell_over<R: Eprint>(rt: &R, path: &str) -> ExitCode
    ensures { exit_status result ≡ 2 }
{
    let _ = eprintln!(rt; "irig_guard: --out: is {path}, which is not written over");
    ExitCode::from(2)
}

/// Says why another recording, that at `path`, cannot be used.
fn tell_unusable<R: Eprint>(rt: &R, path: &str, why: OtherFault) -> ExitCode
    ensures { exit_status result ≡ 3 }
{
    match why {
        OtherFault::File(fault) => tell_unread(rt, path, fault),
        OtherFault::Dump(fault) => program().tell_dump(rt, 3, path, fault),
    }
}

/// What the program says of a file that it did not read.
fn unread_text<'a>(fault: DumpFileFault) -> &'a str
    ensures { result.now ≡ unread_text fault }
{
    match fault {
        DumpFileFault::CannotBeRead => "cannot be read",
        DumpFileFault::TooLong => "too long",
        DumpFileFault::OutOfMemory => "V14 OutOfMemory",
    }
}

/// The exit status for how a run on the dump at this path ended.
fn tell_ended<R: Eprint>(rt: &R, path: &str, outcome: Result<Kept, GuardFault>) -> ExitCode
    ensures { exit_status result ≡ status_number outcome }
{
    match outcome {
        Ok(kept) => tell_kept(rt, path, kept),
        Err(GuardFault::Dump(fault)) => program().tell_dump(rt, 3, path, fault),
        Err(fault) => program().tell(rt, 4, &fault),
    }
}

/// The exit status for a run that came to its end.
fn tell_kept<R: Eprint>(rt: &R, path: &str, kept: Kept) -> ExitCode
    ensures { exit_status result ≡ kept_number kept.judged kept.status }
{
    if !kept.judged {
        let _ = eprintln!(rt;
            "irig_guard: {path}: no frame is fine, so nothing is kept, and nothing is written"
        );
        return ExitCode::from(1);
    }
    tell_filled(rt, path, kept.filled);
    match kept.status {
        Status::AllAccepted => ExitCode::SUCCESS,
        Status::SomeRefused => ExitCode::from(1),
    }
}

/// Says how many frames have control functions that are not in the recording, if some have.
fn tell_filled<R: Eprint>(rt: &R, path: &str, filled: usize) {
    let frames = if filled == 1 { "frame" } else { "frames" };
    if filled > 0 {
        let _ = eprintln!(rt;
            "irig_guard: {path}: control functions of {filled} {frames} are not in the recording"
        );
    }
}
