//! A run over files in memory whose witness keeps what it sees.

ghost use Rattle.std.specs.Prelude.{◌≡◌, ◌≤◌, ◌^◌, [], List, Some, ℕ, length};
ghost use Rattle.irig_script.specs.Print.Screen.{Sight};
ghost use Rattle.irig_script_tests.specs.Known.{all_known, given, known, texts_in};
ghost use Rattle.irig_script_tests.specs.Watched.{IsWatched};

use crate::sights::Sights;
use irig_codes::Format;
use irig_files::{FileShelf, Files, Room};
use irig_folders::Memory;
use irig_script::{DumpRunFault, Screen, Status, run_on_dump};
use std::alloc::Global;
use std::io::Write;

pub fn new_files(alloc: Global) -> Files<Memory>
    ensures empty { texts_in result.system.calls.items ≡ Some [] }
{
    Files::new(Memory::new(alloc), ())
}

/// Each text that the script writes replaces the file `t` of the folder, so the last one stays. The
/// clause: output, texts and sights from before stay, and after them comes just what the lines that
/// were obeyed print and write, and what was there before each answer; nothing comes if the dump is
/// not opened.
pub fn watch<W: Write>(
    alloc: Global,
    dump: Vec<u8>,
    format: Format,
    script: &mut &[u8],
    screen: &mut Screen<W, Sights>,
    files: &mut Files<Memory>,
    room: &mut Room,
) -> Result<Status, DumpRunFault>
    requires { length dump.items ≤ 2 ^ 28 }
    ensures seen { (out : List ℕ) (texts : List (List ℕ)) (sights : List Sight)
        → known screen.old (texts_in files.old.system.calls.items) ≡ all_known out texts sights
        → IsWatched (given dump.items format script.old.now) out texts sights
        (known screen.new (texts_in files.new.system.calls.items)) result }
{
    let mut shelf = FileShelf::new(files, "t", room);
    run_on_dump(alloc, dump, None, format, script, screen, &mut shelf)
}

/// Runs as `watch` does, from an empty output, a witness that has seen nothing and a new folder on.
pub fn watch_anew(
    alloc: Global,
    dump: Vec<u8>,
    format: Format,
    script: &mut &[u8],
    room: &mut Room,
) -> (
    Screen<Vec<u8>, Sights>,
    Files<Memory>,
    Result<Status, DumpRunFault>,
)
    requires { length dump.items ≤ 2 ^ 28 }
    ensures seen { IsWatched (given dump.items format script.old.now) [] [] []
        (known result.0 (texts_in result.1.system.calls.items)) result.2 }
{
    let mut screen = Screen::new(Vec::new(alloc), Sights::new());
    let mut files = new_files(alloc);
    let ended = watch(alloc, dump, format, script, &mut screen, &mut files, room);
    (screen, files, ended)
}
