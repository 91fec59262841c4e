//! The program over folders in memory, where the standard output is one of the files.

ghost use Rattle.std.specs.Prelude.{◌≡◌, Some, map, string_bytes, true, None};
ghost use Rattle.std.specs.Process.{exit_status};
ghost use Rattle.irig_files.specs.declared.dump_file.DumpFileFault.TheVariants.{CannotBeRead};
ghost use Rattle.irig_files.specs.{Puts.writes_on, Taken.IsLocked};
ghost use Rattle.irig_folders.specs.{Log.holds_in, LogDisk.disk_of};
ghost use Rattle.irig_folders.specs.Tree.{IsWritable, tree_disk};
ghost use Rattle.irig_folders.specs.TreeFiles.{held_at};
ghost use Rattle.irig_editor.specs.{Ending.Serves, Given.ends, Given.files};

use irig_editor::start;
use irig_files::Files;
use irig_folders::{MemoryFault, Tree, TreeDir};
use irig_script::{NoWitness, Screen};
use std::alloc::Global;
use std::process::ExitCode;

/// The contract is that of `start`, with the state of these folders written out.
fn start_in_memory<P: Eprint + AllocGlobal>(
    rt: &P,
    words: &[String],
    disk: &mut Files<Tree>,
    script: &mut &[u8],
    screen: &mut Screen<&mut Vec<u8>, NoWitness>,
    help: &mut Vec<u8>,
) -> ExitCode
    ensures { Serves (map string_bytes words.now)
        (files (held_at disk.old.system.layout disk.old.system.memory.calls.items)
        (λ path fault. fault ≡ CannotBeRead
        → held_at disk.old.system.layout disk.old.system.memory.calls.items path ≡ None) true
        (IsLocked (λ i. IsWritable (holds_in disk.old.system.memory.calls.items i).mode))
        (IsLocked (λ i. IsWritable (holds_in disk.new.system.memory.calls.items i).mode))
        (tree_disk disk.old.system.layout (disk_of disk.old.system.memory.calls.items))
        (tree_disk disk.new.system.layout (disk_of disk.new.system.memory.calls.items)))
        (ends screen.old (writes_on true
        (tree_disk disk.old.system.layout (disk_of disk.old.system.memory.calls.items)))
        (Some script.old.now))
        (ends screen.new (writes_on true
        (tree_disk disk.new.system.layout (disk_of disk.new.system.memory.calls.items)))
        (Some script.new.now))
        (Some help.old.items) (Some help.new.items) (exit_status result) }
{
    start(rt, words, disk, script, screen, help)
}

static DUMP: &[u8] = b"$timescale 1 us $end $var wire 1 ! code $end $enddefinitions $end\n\
    #100 1!\n#120 0!\n#200 1!\n#280 0!\n#1000\n";

/// A run that writes twice: the track, the path of the writes, the exit status, what is printed,
/// and how many calls change the folders. A write to a new regular file is five: make, append, sync
/// the file, rename, sync the folder. If the file is there, the new one also takes its mode.
type Row = (&'static str, &'static str, u8, &'static [u8], usize);

static ROWS: [Row; 9] = [
    // A new file first, and then a file that is there: 5 and 6 calls.
    ("t", "w", 0, b"163\n163\n", 11),
    ("t", "t", 0, b"163\n163\n", 12),
    // A link to the track stays a link; and a file that must not be written stays as it is.
    ("t", "way", 0, b"163\n163\n", 12),
    ("t", "locked", 1, b"? S3 WriteFailed\n? S3 WriteFailed\n", 0),
    // In place: no file is made or renamed.
    ("t", "out", 0, b"163\n163\n", 0),
    ("t", "link", 0, b"163\n163\n", 0),
    ("t", "pipe", 0, b"163\n163\n", 0),
    // No such folder; and a track that cannot be read.
    ("t", "no/w", 1, b"? S3 WriteFailed\n? S3 WriteFailed\n", 0),
    ("none", "w", 3, b"", 0),
];

/// With `--from 0`, a window of the whole dump, which is not written over the track.
static WINDOW_ROWS: [Row; 4] = [
    ("t", "w", 0, b"163\n163\n", 11),
    ("t", "out", 0, b"163\n163\n", 0),
    ("t", "t", 2, b"", 0),
    ("t", "way", 2, b"", 0),
];

/// The dump (`t`), a link to it, a file that must not be written, the standard output, a link to
/// that, and a pipe. The path of the folder is `.`; a path may follow 40 links.
fn folder(alloc: Global) -> Result<Tree, MemoryFault> {
    let mut tree = Tree::new(alloc, 40);
    tree.add_path(".", "/")?;
    tree.add_file("/t", DUMP, 0o640)?;
    tree.add_other("/way", Some(String::from_str(alloc, "t")?))?;
    tree.add_file("/locked", DUMP, 0o440)?;
    tree.add_output("/out")?;
    tree.add_other("/link", Some(String::from_str(alloc, "out")?))?;
    tree.add_other("/pipe", None)?;
    Ok(tree)
}

/// The places 1 and 2 of `all` are those of `--from 0`.
fn words(alloc: Global, window: bool, track: &str, out: &str) -> Option<Vec<String>> {
    let mut words = Vec::new(alloc);
    let all = ["irig_ed", "--from", "0", "--out", out, track];
    for (place, word) in all.iter().enumerate() {
        if window || place != 1 && place != 2 {
            let word = String::from_str(alloc, word).ok()?;
            words.push(word).ok()?;
        }
    }
    Some(words)
}

/// The script is `write`, twice. Only the calls of the run count, not those that made the folders.
fn runs_as_row_says<R: Eprint + AllocGlobal>(rt: &R, tree: Tree, window: bool, row: Row) -> bool {
    let (track, out, status, printed, calls) = row;
    let alloc = rt.alloc();
    let Some(words) = words(alloc, window, track, out) else {
        return false;
    };
    let before = tree.memory.calls().len();
    let dir = TreeDir {
        front: String::new(alloc),
    };
    let mut disk = Files::new(tree, dir);
    let mut script: &[u8] = b"write\nwrite\n";
    let (mut shown, mut help) = (Vec::new(alloc), Vec::new(alloc));
    let mut screen = Screen::new(&mut shown, NoWitness);
    let ended = start_in_memory(rt, &words, &mut disk, &mut script, &mut screen, &mut help);
    ended == ExitCode::from(status)
        && shown.as_slice() == printed
        && help.is_empty()
        && disk.system().memory.calls().len().saturating_sub(before) == calls
}

fn runs_in_folder<R: Eprint + AllocGlobal>(rt: &R, window: bool, row: Row) -> bool {
    match folder(rt.alloc()) {
        Ok(tree) => runs_as_row_says(rt, tree, window, row),
        Err(_) => false,
    }
}

#[test]
fn the_standard_output_is_written_in_place(rt: HostRuntime) {
    for row in ROWS.iter() {
        assert!(rt; runs_in_folder(&rt, false, *row));
    }
}

#[test]
fn a_window_is_not_written_over_its_track(rt: HostRuntime) {
    for row in WINDOW_ROWS.iter() {
        assert!(rt; runs_in_folder(&rt, true, *row));
    }
}
