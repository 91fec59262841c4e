//! A script run on what was read of a dump.

ghost use Rattle.std.specs.Prelude.{◌≡◌, ◌&&◌, ◌≤◌, ◌^◌, ℕ, List, IfSome, IsTrue, None, Ok, false};
ghost use Rattle.std.specs.Prelude.{is_some, length};
ghost use Rattle.irig_vcd.specs.{Answer.Gives, Answer.bytes_of, Window.parts_in};
ghost use Rattle.irig_editor.specs.{Ending.Obeys, Ending.unread_fault, RunsBy.RunsBy};
ghost use Rattle.irig_editor.specs.Given.{IsApart, ends, files};
ghost use Rattle.irig_files.specs.Reads.{HasBytes, most_bytes, parts_of};
ghost use Rattle.irig_files.specs.{Puts.writes_on, Tracks.name_in};

use crate::ending::Ending;
use irig_files::{Disk, FileShelf, Parts, Room};
use irig_recording::Recording;
use irig_script::{DumpRunFault, Screen, Status, Witness, run_on_parts};
use irig_settings::Settings;
use irig_vcd::{VcdFault, Window, read_back_parts};
use std::alloc::Global;
use std::io::{Read, Write};

/// Runs a script on what was read of a dump.
pub fn run_on_read<'a, D: Disk, R: Read, W: Write, N: Witness>(
    alloc: Global,
    chosen: &Settings<'a>,
    read: Result<Parts, VcdFault>,
    room: &mut Room,
    disk: &mut D,
    script: &mut R,
    screen: &mut Screen<W, N>,
) -> Ending<'a>
    requires few { HasBytes (most_bytes chosen.now.window) read }
    requires apart { IsTrue D.is_told → IsApart chosen.now (D.disk disk.old) }
    ensures read { unread_fault result ≡ None }
    ensures obeyed { (source : List ℕ)
        → Gives parts_of read (parts_in chosen.now.window (name_in chosen.now.wire) source)
        → IfSome (D.held disk.old chosen.now.track.now) (λ all. source ≡ all)
        → Obeys (files (D.held disk.old) (D.unread disk.old) D.is_told
        (D.is_barred disk.old) (D.is_barred disk.new) (D.disk disk.old) (D.disk disk.new))
        (ends screen.old (writes_on D.is_told (D.disk disk.old)) (R.remaining script.old))
        (ends screen.new (writes_on D.is_told (D.disk disk.new)) (R.remaining script.new))
        chosen.now result }
{
    let (recording, journal) = match read {
        Ok(parts) => parts,
        Err(fault) => return Ending::Ran(chosen.track, Err(DumpRunFault::Dump(fault))),
    };
    if is_of_session(chosen.window, &journal) {
        return Ending::Saved(chosen.track);
    }
    let result = run_on_recording(
        alloc, chosen, recording, journal, room, disk, script, screen,
    );
    Ending::Ran(chosen.track, result)
}

/// Whether a part of a saved session was read, of which a step can reach over an end of the window.
fn is_of_session(window: Option<Window>, journal: &Option<Vec<u8>>) -> bool
    ensures { result ≡ (is_some window && is_some journal.now) }
{
    window.is_some() && journal.is_some()
}

/// Runs a script on a recording and the text of its journal, by the format of the settings.
fn run_on_recording<D: Disk, R: Read, W: Write, N: Witness>(
    alloc: Global,
    chosen: &Settings<'_>,
    recording: Recording,
    journal: Option<Vec<u8>>,
    room: &mut Room,
    disk: &mut D,
    script: &mut R,
    screen: &mut Screen<W, N>,
) -> Result<Status, DumpRunFault>
    requires few { IfSome journal (λ text. length text.items ≤ 2 ^ 28) }
    requires whole { (is_some chosen.now.window && is_some journal) ≡ false }
    requires apart { IsTrue D.is_told → IsApart chosen.now (D.disk disk.old) }
    ensures { (source : List ℕ)
        → parts_in chosen.now.window (name_in chosen.now.wire) source
        ≡ Ok (recording, bytes_of journal)
        → RunsBy (files (D.held disk.old) (D.unread disk.old) D.is_told
        (D.is_barred disk.old) (D.is_barred disk.new) (D.disk disk.old) (D.disk disk.new))
        chosen.now source
        (ends screen.old (writes_on D.is_told (D.disk disk.old)) (R.remaining script.old))
        (ends screen.new (writes_on D.is_told (D.disk disk.new)) (R.remaining script.new)) result }
{
    // Called for its contract: a dump that is written of a recording says the recording.
    read_back_parts(&recording);
    let mut shelf = FileShelf::new(disk, chosen.out, room);
    run_on_parts(
        alloc,
        recording,
        journal,
        chosen.format,
        script,
        screen,
        &mut shelf,
    )
}
