//! The words of a command line are obeyed.

ghost use Rattle.std.specs.Prelude.{◌≡◌, map, string_bytes};
ghost use Rattle.irig_time.specs.{Chosen.IsSound, Ending.EndsBy, Ending.Goes, Given.files};

use crate::chosen::Chosen;
use crate::command_line::chosen;
use crate::ending::Ending;
use crate::file_run::run_file;
use crate::to_file::run_to_file;
use irig_files::Disk;
use std::alloc::Global;
use std::io::{Read, Write};

/// Aligns the lines of an input as the words of a command line ask, the program's name being the
/// first.
pub fn align_words<'a, D: Disk, R: Read, W: Write>(
    alloc: Global,
    words: &'a [String],
    disk: &mut D,
    lines: &mut R,
    out: &mut W,
) -> Ending<'a>
    ensures { EndsBy (map string_bytes words.entry.now) (files (D.held disk.old)
        (D.unread disk.old) D.is_told D.usual_mode (D.is_barred disk.old) (D.disk disk.old)
        (D.disk disk.new) (disk.new ≡ disk.old)) (R.remaining lines.old)
        (R.remaining lines.new) (W.contents out.old) (W.contents out.new) result }
{
    match chosen(alloc, words) {
        Ok(chosen) => run_chosen(alloc, &chosen, disk, lines, out),
        Err(fault) => Ending::Usage(fault),
    }
}

fn run_chosen<'a, D: Disk, R: Read, W: Write>(
    alloc: Global,
    chosen: &Chosen<'a>,
    disk: &mut D,
    lines: &mut R,
    out: &mut W,
) -> Ending<'a>
    requires sound { IsSound chosen.now.settings }
    ensures { Goes chosen.now.out (files (D.held disk.old) (D.unread disk.old) D.is_told
        D.usual_mode (D.is_barred disk.old) (D.disk disk.old) (D.disk disk.new)
        (disk.new ≡ disk.old)) chosen.now
        (R.remaining lines.old) (R.remaining lines.new) (W.contents out.old) (W.contents out.new)
        result }
{
    match chosen.out {
        None => run_file(alloc, chosen, disk, lines, out),
        Some(path) => run_to_file(alloc, chosen, path, disk, lines),
    }
}
