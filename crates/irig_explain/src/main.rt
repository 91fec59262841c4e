//! What happened in a recording of time code: its cheapest explanation, stretch by stretch.
#![tactic(auto)]

mod chosen;
mod command_line;
mod ending;
mod file_run;
mod help;
mod options;
mod raw_values;
mod statuses;
mod words_run;

ghost use Rattle.std.specs.Prelude.{map, string_bytes};
ghost use Rattle.std.specs.Process.{exit_status};
ghost use Rattle.irig_explain.specs.Statuses.{Serves};

use command_line::ARGUMENTS;
use help::{program, version_text};
use irig_files::{FileSystem, Files};
use irig_words::{asks_version, given};
use statuses::report;
use std::io;
use std::io::Write;
use std::process::ExitCode;
use words_run::explain_words;

// Explains the recording as `start` does, which gives the status.
fn main(rt: HostRuntime) -> ExitCode {
    match given(&rt) {
        // One output is for the listing, and one for the help.
        Ok((files, words)) => start(
            &rt,
            words.as_slice(),
            &files,
            &mut io::writer(&rt),
            &mut io::writer(&rt),
        ),
        Err(error) => program().tell_not_given(&rt, &error, ARGUMENTS.as_slice()),
    }
}

/// Explains the recording that the words name, and reports how that ended.
fn start<P: Eprint + AllocGlobal, C: FileSystem, W: Write, H: Write>(
    rt: &P,
    words: &[String],
    disk: &Files<C>,
    out: &mut W,
    help: &mut H,
) -> ExitCode
    // The words were obeyed: just the listing of a cheapest explanation was printed, or a front of
    // it if the output failed, or nothing.
    ensures { Serves (map string_bytes words.now) (C.held disk.now.system)
        (C.unread disk.now.system) (W.contents out.old) (W.contents out.new)
        (H.contents help.old) (H.contents help.new) (exit_status result) }
{
    if asks_version(words) {
        return program().print(rt, version_text(), help);
    }
    let ending = explain_words(rt.alloc(), words, disk, out);
    report(rt, &ending, help)
}
