//! The words of a command line, obeyed.

ghost use Rattle.std.specs.Prelude.{◌≡◌, IfOk, OnErr, map, string_bytes};
ghost use Rattle.std.specs.Process.{exit_status};
ghost use Rattle.irig_editor.specs.{Ending.Serves, Given.ends, Given.files};
ghost use Rattle.irig_files.specs.{Puts.writes_on, Taken.IsLocked};
ghost use Rattle.irig_words.specs.Telling.{EndsWith};

use crate::file_run::obey_words;
use crate::help::program;
use crate::statuses::report;
use irig_files::{FileSystem, Files};
use irig_script::{Screen, Witness};
use irig_settings::command;
use std::io;
use std::io::{Read, Write};
use std::process::ExitCode;

/// Edits the track that the words name (`start`), or says why there are no words.
pub fn serve<P: Eprint + AllocGlobal, C: FileSystem, R: Read, W: Write, N: Witness, H: Write>(
    rt: &P,
    words: io::Result<Vec<String>>,
    disk: &mut Files<C>,
    script: &mut R,
    screen: &mut Screen<W, N>,
    help: &mut H,
) -> ExitCode
    ensures served { IfOk words (λ given. Serves (map string_bytes given.items)
        (files (C.held disk.old.system) (C.unread disk.old.system) C.is_told
        (IsLocked (C.may_write disk.old.system)) (IsLocked (C.may_write disk.new.system))
        (C.disk disk.old.system) (C.disk disk.new.system))
        (ends screen.old (writes_on C.is_told (C.disk disk.old.system))
        (R.remaining script.old))
        (ends screen.new (writes_on C.is_told (C.disk disk.new.system))
        (R.remaining script.new))
        (H.contents help.old) (H.contents help.new) (exit_status result)) }
    ensures wordless { OnErr words (EndsWith 2 (H.contents help.old) (H.contents help.new)
        (exit_status result)) }
{
    match words {
        Ok(words) => start(rt, words.as_slice(), disk, script, screen, help),
        Err(error) => program().tell_no_words(rt, &error, command(rt.alloc())),
    }
}

/// Edits the track that the words name. The answer is the exit status.
pub fn start<P: Eprint + AllocGlobal, C: FileSystem, R: Read, W: Write, N: Witness, H: Write>(
    rt: &P,
    words: &[String],
    disk: &mut Files<C>,
    script: &mut R,
    screen: &mut Screen<W, N>,
    help: &mut H,
) -> ExitCode
    ensures { Serves (map string_bytes words.now)
        (files (C.held disk.old.system) (C.unread disk.old.system) C.is_told
        (IsLocked (C.may_write disk.old.system)) (IsLocked (C.may_write disk.new.system))
        (C.disk disk.old.system) (C.disk disk.new.system))
        (ends screen.old (writes_on C.is_told (C.disk disk.old.system))
        (R.remaining script.old))
        (ends screen.new (writes_on C.is_told (C.disk disk.new.system))
        (R.remaining script.new))
        (H.contents help.old) (H.contents help.new) (exit_status result) }
{
    let ending = obey_words(rt.alloc(), words, disk, script, screen);
    report(rt, &ending, screen.is_none_fine(), help)
}
