//! A script run on the file of a dump, as the words of a command line ask.

ghost use Rattle.std.specs.Prelude.{◌≡◌, IfErr, IfOk, IfSome, IsTrue, false, is_some, map};
ghost use Rattle.std.specs.Prelude.{string_bytes, true};
ghost use Rattle.irig_editor.specs.Ending.{EndsBy, Obeys, unread_fault};
ghost use Rattle.irig_editor.specs.Given.{IsApart, ends, files};
ghost use Rattle.irig_files.specs.{Apart.LeadToOneFile, Puts.writes_on, Tracks.IsUnread};

use crate::ending::Ending;
use crate::script_run::run_on_read;
use irig_files::{Disk, DumpFileFault, Room, read_in_window};
use irig_script::{Screen, Witness};
use irig_settings::{Settings, settings};
use irig_text::ShelfFault;
use std::alloc::Global;
use std::io::{Read, Write};

/// Runs a script on the dump that the words name; the first word is the program's name.
pub fn obey_words<'a, D: Disk, R: Read, W: Write, N: Witness>(
    alloc: Global,
    words: &'a [String],
    disk: &mut D,
    script: &mut R,
    screen: &mut Screen<W, N>,
) -> Ending<'a>
    ensures { EndsBy (map string_bytes words.entry.now)
        (files (D.held disk.old) (D.unread disk.old) D.is_told
        (D.is_barred disk.old) (D.is_barred disk.new) (D.disk disk.old) (D.disk disk.new))
        (ends screen.old (writes_on D.is_told (D.disk disk.old)) (R.remaining script.old))
        (ends screen.new (writes_on D.is_told (D.disk disk.new)) (R.remaining script.new)) result }
{
    match settings(alloc, words) {
        Ok(chosen) => run_if_apart(alloc, &chosen, disk, script, screen),
        Err(fault) => Ending::Usage(fault),
    }
}

/// Runs a script on the dump of the settings, if no part of it would replace the whole.
fn run_if_apart<'a, D: Disk, R: Read, W: Write, N: Witness>(
    alloc: Global,
    chosen: &Settings<'a>,
    disk: &mut D,
    script: &mut R,
    screen: &mut Screen<W, N>,
) -> Ending<'a>
    ensures { Obeys (files (D.held disk.old) (D.unread disk.old) D.is_told
        (D.is_barred disk.old) (D.is_barred disk.new) (D.disk disk.old) (D.disk disk.new))
        (ends screen.old (writes_on D.is_told (D.disk disk.old)) (R.remaining script.old))
        (ends screen.new (writes_on D.is_told (D.disk disk.new)) (R.remaining script.new))
        chosen.now result }
{
    match is_over(chosen, disk) {
        Ok(false) => run_on_track(alloc, chosen, disk, script, screen),
        Ok(true) => Ending::Over,
        Err(_) => Ending::Unknown,
    }
}

/// Whether there is a window, and the path to write leads to the dump. Without a window the answer
/// is false, also if the path leads there: the whole may replace the whole.
fn is_over<D: Disk>(chosen: &Settings<'_>, disk: &D) -> Result<bool, ShelfFault>
    ensures apart { IsTrue D.is_told → IfOk result (λ over. over ≡ false
        → IsApart chosen.now (D.disk disk.now)) }
    ensures given { IfOk result (λ over. over ≡ true → is_some chosen.now.window ≡ true) }
    ensures over { IsTrue D.is_told → IfOk result (λ over. over ≡ true
        → LeadToOneFile (D.disk disk.now) chosen.now.track.now chosen.now.out.now) }
    ensures unknown { IfErr result (λ fault. is_some chosen.now.window ≡ true) }
{
    match chosen.window {
        Some(_) => disk.is_same(chosen.track, chosen.out),
        None => Ok(false),
    }
}

/// Takes the memory of all writes before the dump is read.
fn run_on_track<'a, D: Disk, R: Read, W: Write, N: Witness>(
    alloc: Global,
    chosen: &Settings<'a>,
    disk: &mut D,
    script: &mut R,
    screen: &mut Screen<W, N>,
) -> Ending<'a>
    requires { IsTrue D.is_told → IsApart chosen.now (D.disk disk.old) }
    ensures { Obeys (files (D.held disk.old) (D.unread disk.old) D.is_told
        (D.is_barred disk.old) (D.is_barred disk.new) (D.disk disk.old) (D.disk disk.new))
        (ends screen.old (writes_on D.is_told (D.disk disk.old)) (R.remaining script.old))
        (ends screen.new (writes_on D.is_told (D.disk disk.new)) (R.remaining script.new))
        chosen.now result }
{
    let Ok(mut room) = Room::new(alloc) else {
        return Ending::Unread(chosen.track, DumpFileFault::OutOfMemory);
    };
    run_with_room(alloc, chosen, &mut room, disk, script, screen)
}

/// Reads the dump of the settings, and runs a script on it.
fn run_with_room<'a, D: Disk, R: Read, W: Write, N: Witness>(
    alloc: Global,
    chosen: &Settings<'a>,
    room: &mut Room,
    disk: &mut D,
    script: &mut R,
    screen: &mut Screen<W, N>,
) -> Ending<'a>
    requires { IsTrue D.is_told → IsApart chosen.now (D.disk disk.old) }
    ensures obeyed { Obeys (files (D.held disk.old) (D.unread disk.old) D.is_told
        (D.is_barred disk.old) (D.is_barred disk.new) (D.disk disk.old) (D.disk disk.new))
        (ends screen.old (writes_on D.is_told (D.disk disk.old)) (R.remaining script.old))
        (ends screen.new (writes_on D.is_told (D.disk disk.new)) (R.remaining script.new))
        chosen.now result }
    ensures unread { IfSome (unread_fault result) (IsUnread chosen.now.window
        (D.held disk.old chosen.now.track.now) (D.unread disk.old chosen.now.track.now)) }
{
    match read_in_window(alloc, disk, chosen.track, chosen.wire, chosen.window) {
        Ok(read) => run_on_read(alloc, chosen, read, room, disk, script, screen),
        Err(fault) => Ending::Unread(chosen.track, fault),
    }
}
