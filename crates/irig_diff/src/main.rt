//! What differs between two recorded time tracks, before and after, as a script that makes the one
//! after of the one before: the patch.
#![tactic(auto)]

mod chosen;
mod command_line;
mod comparing;
mod ending;
mod help;
mod options;
mod printing;
mod raw_values;
mod statuses;

ghost use Rattle.std.specs.Prelude.{map, string_bytes};
ghost use Rattle.std.specs.Process.{exit_status};
ghost use Rattle.irig_diff.specs.Statuses.{Serves};

use command_line::ARGUMENTS;
use comparing::compare_words;
use help::program;
use irig_files::{FileSystem, Files};
use irig_words::given;
use statuses::report;
use std::io;
use std::io::Write;
use std::process::ExitCode;

// Compares the tracks as `start` does, which gives the status.
fn main(rt: HostRuntime) -> ExitCode {
    match given(&rt) {
        // One output is for the patch, and one for the help.
        Ok((files, words)) => start(
            &rt,
            words.as_slice(),
            &files,
            &mut io::writer(&rt),
            &mut io::writer(&rt),
        ),
        Err(error) => program().tell_not_given(&rt, &error, ARGUMENTS.as_slice()),
    }
}

/// Compares the tracks that the words name. The answer is the exit status.
fn start<P: Eprint + AllocGlobal, C: FileSystem, W: Write, H: Write>(
    rt: &P,
    words: &[String],
    disk: &Files<C>,
    out: &mut W,
    help: &mut H,
) -> ExitCode
    ensures { Serves (map string_bytes words.now) (C.held disk.now.system)
        (C.unread disk.now.system) (W.contents out.old) (W.contents out.new)
        (H.contents help.old) (H.contents help.new) (exit_status result) }
{
    let ending = compare_words(rt.alloc(), words, disk, out);
    report(rt, &ending, help)
}
