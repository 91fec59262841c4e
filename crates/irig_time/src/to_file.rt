//! All goes to a file, whole or not at all: it is kept in memory until the run has ended.

ghost use Rattle.std.specs.Prelude.{◌≡◌, IsTrue};
ghost use Rattle.irig_files.specs.Apart.{AreApart};
ghost use Rattle.irig_time.specs.{Chosen.IsSound, Given.files};
ghost use Rattle.irig_time.specs.ToFile.{EndsInMemory, Finishes, RanInMemory, WritesTo};
ghost use Rattle.irig_time.specs.ToFile.{fault_in_memory, has_all, in_memory, lines_path};

use crate::chosen::Chosen;
use crate::ending::Ending;
use crate::file_run::run_file;
use irig_files::{Disk, Room};
use irig_stamps::RunFault;
use irig_text::Bytes;
use std::alloc::Global;
use std::io::Read;

/// Runs on the track that is chosen, and writes what comes out to a path that leads neither to the
/// track nor to the file from which the lines come.
pub fn run_to_file<'a, D: Disk, R: Read>(
    alloc: Global,
    chosen: &Chosen<'a>,
    path: &'a str,
    disk: &mut D,
    lines: &mut R,
) -> Ending<'a>
    requires sound { IsSound chosen.now.settings }
    ensures { WritesTo (files (D.held disk.old) (D.unread disk.old) D.is_told D.usual_mode
        (D.is_barred disk.old) (D.disk disk.old) (D.disk disk.new) (disk.new ≡ disk.old))
        chosen.now path.entry
        (R.remaining lines.old) (R.remaining lines.new) result }
{
    match disk.is_same(chosen.track, path) {
        Ok(false) => {}
        Ok(true) => return Ending::OverTrack,
        Err(_) => return Ending::Unknown,
    }
    match disk.is_same(lines_path(), path) {
        Ok(false) => run_apart(alloc, chosen, path, disk, lines),
        Ok(true) => Ending::OverLines,
        Err(_) => Ending::Unknown,
    }
}

fn lines_path<'a>() -> &'a str
    ensures { result.now ≡ lines_path }
{
    "/dev/stdin"
}

fn run_apart<'a, D: Disk, R: Read>(
    alloc: Global,
    chosen: &Chosen<'a>,
    path: &'a str,
    disk: &mut D,
    lines: &mut R,
) -> Ending<'a>
    requires sound { IsSound chosen.now.settings }
    requires track { IsTrue D.is_told → AreApart (D.disk disk.old) chosen.now.track.now path.now }
    requires input { IsTrue D.is_told → AreApart (D.disk disk.old) lines_path path.now }
    ensures { EndsInMemory (files (D.held disk.old) (D.unread disk.old) D.is_told D.usual_mode
        (D.is_barred disk.old) (D.disk disk.old) (D.disk disk.new) (disk.new ≡ disk.old))
        chosen.now path.entry
        (R.remaining lines.old) (R.remaining lines.new) result }
{
    let Ok(mut room) = Room::new(alloc) else {
        return Ending::Broken(RunFault::OutOfMemory);
    };
    run_with_room(alloc, chosen, path, disk, lines, &mut room)
}

/// The room is the memory of the write.
fn run_with_room<'a, D: Disk, R: Read>(
    alloc: Global,
    chosen: &Chosen<'a>,
    path: &'a str,
    disk: &mut D,
    lines: &mut R,
    room: &mut Room,
) -> Ending<'a>
    requires sound { IsSound chosen.now.settings }
    requires track { IsTrue D.is_told → AreApart (D.disk disk.old) chosen.now.track.now path.now }
    requires input { IsTrue D.is_told → AreApart (D.disk disk.old) lines_path path.now }
    ensures { RanInMemory (files (D.held disk.old) (D.unread disk.old) D.is_told D.usual_mode
        (D.is_barred disk.old) (D.disk disk.old) (D.disk disk.new) (disk.new ≡ disk.old))
        chosen.now path.entry
        (R.remaining lines.old) (R.remaining lines.new) result }
{
    let mut text = Vec::new(alloc);
    let ran = run_file(alloc, chosen, disk, lines, &mut text);
    finish(path, disk, text.as_slice(), room, ran)
}

/// Writes what came out in a run, if all did.
fn finish<'a, D: Disk>(
    path: &'a str,
    disk: &mut D,
    text: &[u8],
    room: &mut Room,
    ran: Ending<'a>,
) -> Ending<'a>
    ensures { Finishes (has_all ran.entry) (files (D.held disk.old) (D.unread disk.old) D.is_told
        D.usual_mode (D.is_barred disk.old) (D.disk disk.old) (D.disk disk.new)
        (disk.new ≡ disk.old)) path.entry
        text.now ran.entry result }
{
    if !has_all(&ran) {
        return in_memory(ran);
    }
    match disk.put(path, &mut Bytes::new(text), room) {
        Ok(_) => ran,
        Err(_) => Ending::Unwritten(path),
    }
}

fn has_all(ran: &Ending<'_>) -> bool
    ensures { result ≡ has_all ran.now }
{
    matches!(
        ran,
        Ending::Aligned(_)
            | Ending::Listed
            | Ending::Holed(_)
            | Ending::Timeless(..)
            | Ending::Doubted(..)
    )
}

/// In memory, what fails is memory.
fn in_memory<'a>(ran: Ending<'a>) -> Ending<'a>
    ensures { result ≡ in_memory ran.entry }
{
    match ran {
        Ending::Broken(fault) => Ending::Broken(fault_in_memory(fault)),
        ran => ran,
    }
}

fn fault_in_memory(fault: RunFault) -> RunFault
    ensures { result ≡ fault_in_memory fault }
{
    match fault {
        RunFault::PrintFailed(_) => RunFault::OutOfMemory,
        fault => fault,
    }
}
