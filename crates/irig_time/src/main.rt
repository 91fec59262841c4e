//! The time of day of each line that a recorder wrote next to a time track.
#![tactic(auto)]

mod chosen;
mod command_line;
mod done;
mod ending;
mod file_run;
mod found;
mod help;
mod naming;
mod options;
mod raw_values;
mod samples;
mod seconds;
mod statuses;
mod task;
mod to_file;
mod units;
mod values;
mod words_run;

ghost use Rattle.std.specs.Prelude.{◌≡◌, map, string_bytes};
ghost use Rattle.std.specs.Process.{exit_status};
ghost use Rattle.irig_files.specs.Taken.{IsLocked};
ghost use Rattle.irig_time.specs.{Given.files, Statuses.Serves};

use command_line::ARGUMENTS;
use help::{program, version_text};
use irig_files::{FileSystem, Files};
use irig_words::{asks_version, given};
use statuses::report;
use std::io;
use std::io::{Read, Write};
use std::process::ExitCode;
use words_run::align_words;

// Aligns the lines on the input with the track as `start` does, which gives the status.
fn main(rt: HostRuntime) -> ExitCode {
    match given(&rt) {
        // One output is for the lines, and one for the help.
        Ok((mut files, words)) => start(
            &rt,
            words.as_slice(),
            &mut files,
            &mut rt.reader(),
            &mut io::writer(&rt),
            &mut io::writer(&rt),
        ),
        Err(error) => program().tell_not_given(&rt, &error, ARGUMENTS.as_slice()),
    }
}

/// Aligns the lines of an input with the track that the words name, by the files of this system
/// (`disk`), and reports how that ended.
fn start<P: Eprint + AllocGlobal, C: FileSystem, R: Read, W: Write, H: Write>(
    rt: &P,
    words: &[String],
    disk: &mut Files<C>,
    lines: &mut R,
    out: &mut W,
    help: &mut H,
) -> ExitCode
    // The words were obeyed. The output of help has the help or the version, if that was asked for,
    // and else nothing: `rt` prints on the standard error alone, and lines go to `out`.
    ensures { Serves (map string_bytes words.now)
        (files (C.held disk.old.system) (C.unread disk.old.system) C.is_told C.usual_mode
        (IsLocked (C.may_write disk.old.system)) (C.disk disk.old.system) (C.disk disk.new.system)
        (disk.new ≡ disk.old))
        (R.remaining lines.old) (R.remaining lines.new) (W.contents out.old) (W.contents out.new)
        (H.contents help.old) (H.contents help.new) (exit_status result) }
{
    if asks_version(words) {
        return program().print(rt, version_text(), help);
    }
    let ending = align_words(rt.alloc(), words, disk, lines, out);
    report(rt, &ending, help)
}
