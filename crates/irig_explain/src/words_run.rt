//! The words of a command line are obeyed.

ghost use Rattle.std.specs.Prelude.{◌≡◌, map, string_bytes};
ghost use Rattle.irig_explain.specs.Ending.{EndsBy};

use crate::command_line::chosen;
use crate::ending::Ending;
use crate::file_run::explain_file;
use irig_files::Disk;
use std::alloc::Global;
use std::io::Write;

/// Explains the recording that the words name; the first word is the program's name.
pub fn explain_words<'a, D: Disk, W: Write>(
    alloc: Global,
    words: &'a [String],
    disk: &D,
    out: &mut W,
) -> Ending<'a>
    ensures { EndsBy (map string_bytes words.entry.now) (D.held disk.now) (D.unread disk.now)
        (W.contents out.old) (W.contents out.new) result }
{
    match chosen(alloc, words) {
        Ok(chosen) => explain_file(alloc, &chosen, disk, out),
        Err(fault) => Ending::Usage(fault),
    }
}
