//! A guard for repairs of a recorded time track: keeps those that give no frame a time that nothing
//! supports.
#![tactic(auto)]

mod chosen;
mod command_line;
mod ending;
mod file_run;
mod help;
mod journal;
mod options;
mod other_fault;
mod others;
mod raw_values;
mod script_run;
mod statuses;
mod written;

ghost use Rattle.std.specs.Prelude.{map, string_bytes};
ghost use Rattle.std.specs.Process.{exit_status};
ghost use Rattle.irig_guard.specs.Ending.{Serves};
ghost use Rattle.irig_guard.specs.Given.{ends, files};
ghost use Rattle.irig_files.specs.{Puts.writes_on, Taken.IsLocked};

use command_line::command;
use file_run::obey_words;
use help::program;
use irig_files::{FileSystem, Files, system_files};
use statuses::report;
use std::io::{Read, Write};
use std::process::ExitCode;
use std::rt::Runtime;
use std::{env, io};

// Gets the files of the system and the words of the command line, and runs the script on the input
// as `start` does, which gives the status.
fn main(rt: HostRuntime) -> ExitCode {
    let Ok(mut files) = system_files(&rt) else {
        return program().tell(&rt, 2, &io::Error::from(io::ErrorKind::OutOfMemory));
    };
    match arguments(&rt) {
        // One output is for the accepted script, and one for the help.
        Ok(words) => start(
            &rt,
            words.as_slice(),
            &mut files,
            &mut rt.reader(),
            &mut io::writer(&rt),
            &mut io::writer(&rt),
        ),
        // The command is for what `clap` says of a word that is not UTF-8.
        Err(error) => program().tell_no_words(&rt, &error, command(rt.alloc())),
    }
}

/// The words of the command line, the program's name being the first.
fn arguments<R: Runtime + AllocGlobal>(rt: &R) -> io::Result<Vec<String>> {
    let words = env::args(rt)?.collect(rt.alloc())?;
    Ok(words)
}

/// Runs a script of repairs under guard. The answer is the exit status.
fn start<P: Eprint + AllocGlobal, C: FileSystem, R: Read, W: Write, H: Write>(
    rt: &P,
    words: &[String],
    disk: &mut Files<C>,
    script: &mut R,
    out: &mut W,
    help: &mut H,
) -> ExitCode
    ensures { Serves (map string_bytes words.now)
        (files (C.held disk.old.system) (C.unread disk.old.system) C.is_told
        (IsLocked (C.may_write disk.old.system)) (IsLocked (C.may_write disk.new.system))
        (C.disk disk.old.system) (C.disk disk.new.system))
        (ends (W.contents out.old) (writes_on C.is_told (C.disk disk.old.system))
        (R.remaining script.old))
        (ends (W.contents out.new) (writes_on C.is_told (C.disk disk.new.system))
        (R.remaining script.new))
        (H.contents help.old) (H.contents help.new) (exit_status result) }
{
    let ending = obey_words(rt.alloc(), words, disk, script, out);
    report(rt, &ending, help)
}
