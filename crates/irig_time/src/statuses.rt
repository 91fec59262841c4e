//! The statuses of the program as a process, and what it says of faults.

ghost use Rattle.std.specs.Prelude.{◌≡◌};
ghost use Rattle.std.specs.Process.{exit_status};
ghost use Rattle.irig_time.specs.Done.{holes_status, is_whole, lines_status};
ghost use Rattle.irig_time.specs.Statuses.{Reports, broken_status};

use crate::done::Done;
use crate::ending::Ending;
use crate::found::Found;
use crate::help::program;
use irig_stamps::{RunFault, Standing, Tally};
use std::io::Write;
use std::process::ExitCode;

pub fn report<R: Eprint, H: Write>(rt: &R, ending: &Ending<'_>, help: &mut H) -> ExitCode
    ensures { Reports ending.now (H.contents help.old) (H.contents help.new) (exit_status result) }
{
    let program = program();
    match ending {
        Ending::Usage(fault) => program.explain(rt, fault, help),
        Ending::Unread(path, fault) => program.tell_track(rt, 3, path, fault),
        Ending::Aligned(done) => tell_aligned(rt, done),
        Ending::Listed => ExitCode::SUCCESS,
        Ending::Holed(found) => tell_holed(rt, found),
        Ending::Timeless(path, done) => tell_timeless(rt, path, done),
        Ending::Doubted(path, count, done) => tell_doubted(rt, path, *count, done),
        Ending::Broken(fault) => tell_broken(rt, fault),
        Ending::OverTrack => program.tell(rt, 2, &"--out: is TRACK, which is not written over"),
        Ending::OverLines => program.tell(rt, 2, &"--out: has the lines, and is not written over"),
        Ending::Unknown => program.tell(rt, 4, &"--out: cannot find out whether it is TRACK"),
        Ending::Unwritten(path) => program.tell_of(rt, 4, path, &"cannot be written"),
    }
}

fn tell_broken<R: Eprint>(rt: &R, fault: &RunFault) -> ExitCode
    ensures { exit_status result ≡ broken_status fault.now }
{
    match fault {
        RunFault::PrintFailed(why) => program().tell_unprinted(rt, *why),
        _ => program().tell(rt, 4, fault),
    }
}

/// Says what was done with the lines, and returns the status: 0 if each has a number and as many
/// columns as the header, and this names no other unit, else 1.
fn tell_aligned<R: Eprint>(rt: &R, done: &Done) -> ExitCode
    ensures { exit_status result ≡ lines_status done.now.tally }
{
    tell_done(rt, done);
    if is_whole(&done.tally) {
        return ExitCode::SUCCESS;
    }
    ExitCode::from(1)
}

fn is_whole(tally: &Tally) -> bool
    ensures { result ≡ is_whole tally.now }
{
    tally.unnumbered == 0 && tally.uneven.is_none() && !tally.other_unit
}

/// Says how much has no time, and returns the status.
fn tell_holed<R: Eprint>(rt: &R, found: &Found<'_>) -> ExitCode
    ensures { exit_status result ≡ holes_status found.now.holes.standing }
{
    let status = tell_standing(rt, found.path, found.holes.standing);
    if !found.quiet {
        let _ = eprintln!(rt; "irig_time: {found}");
    }
    status
}

fn tell_standing<R: Eprint>(rt: &R, path: &str, standing: Standing) -> ExitCode
    ensures { exit_status result ≡ holes_status standing }
{
    if standing.doubted != 0 {
        return tell_doubted(rt, path, standing.doubted, &None);
    }
    if standing.timed {
        return ExitCode::SUCCESS;
    }
    tell_timeless(rt, path, &None)
}

fn tell_timeless<R: Eprint>(rt: &R, path: &str, done: &Option<Done>) -> ExitCode
    ensures { exit_status result ≡ 1 }
{
    let what = "no frame has a time with this format and expression";
    let status = program().tell_of(rt, 1, path, &what);
    if let Some(done) = done {
        tell_done(rt, done);
    }
    status
}

fn tell_doubted<R: Eprint>(rt: &R, path: &str, count: usize, done: &Option<Done>) -> ExitCode
    ensures { exit_status result ≡ 1 }
{
    let what = "frames that read well and are not believed, so they give no line a time";
    let _ = eprintln!(rt; "irig_time: {path}: {what}: {count}");
    if let Some(done) = done {
        tell_done(rt, done);
    }
    ExitCode::from(1)
}

fn tell_done<R: Eprint>(rt: &R, done: &Done) {
    if done.tally.other_unit {
        let what = "the header names another unit of the recorder's time than --unit";
        let _ = eprintln!(rt; "irig_time: {what}");
    }
    if let Some(uneven) = done.tally.uneven {
        let what = "not as many columns as the header";
        let (number, width, header) = (uneven.number, uneven.width, uneven.header);
        let first = "the first such line";
        let _ = eprintln!(rt;
            "irig_time: line {number}: {what}, {width} and not {header}; {first}"
        );
    }
    if !done.quiet {
        let _ = eprintln!(rt; "irig_time: {done}");
    }
}
