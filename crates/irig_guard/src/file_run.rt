//! A script run under guard on the file of a dump, as the words of a command line ask.

ghost use Rattle.std.specs.Prelude.{IfSome, map, string_bytes};
ghost use Rattle.irig_guard.specs.Ending.{EndsBy, Obeys, unread_fault};
ghost use Rattle.irig_guard.specs.Given.{AreSpared, ends, files};
ghost use Rattle.irig_files.specs.{Puts.writes_on, Tracks.IsUnread};

use crate::chosen::Settings;
use crate::command_line::settings;
use crate::ending::Ending;
use crate::script_run::run_if_apart;
use irig_files::{Disk, DumpFileFault, Room, read_in_window};
use std::alloc::Global;
use std::io::{Read, Write};

/// Runs a script under guard on the dump that the words name; the first word is the program's name.
pub fn obey_words<'a, D: Disk, R: Read, W: Write>(
    alloc: Global,
    words: &'a [String],
    disk: &mut D,
    script: &mut R,
    out: &mut W,
) -> Ending<'a>
    ensures { EndsBy (map string_bytes words.entry.now)
        (files (D.held disk.old) (D.unread disk.old) D.is_told
        (D.is_barred disk.old) (D.is_barred disk.new) (D.disk disk.old) (D.disk disk.new))
        (ends (W.contents out.old) (writes_on D.is_told (D.disk disk.old)) (R.remaining script.old))
        (ends (W.contents out.new) (writes_on D.is_told (D.disk disk.new)) (R.remaining script.new))
        result }
{
    match settings(alloc, words) {
        Ok(chosen) => run_on_track(alloc, &chosen, disk, script, out),
        Err(fault) => Ending::Usage(fault),
    }
}

/// Takes the memory of all writes before the dump is read.
fn run_on_track<'a, D: Disk, R: Read, W: Write>(
    alloc: Global,
    chosen: &Settings<'a>,
    disk: &mut D,
    script: &mut R,
    out: &mut W,
) -> Ending<'a>
    ensures obeyed { Obeys (files (D.held disk.old) (D.unread disk.old) D.is_told
        (D.is_barred disk.old) (D.is_barred disk.new) (D.disk disk.old) (D.disk disk.new))
        (ends (W.contents out.old) (writes_on D.is_told (D.disk disk.old)) (R.remaining script.old))
        (ends (W.contents out.new) (writes_on D.is_told (D.disk disk.new)) (R.remaining script.new))
        chosen.now result }
    ensures spared { AreSpared D.is_told (D.disk disk.old) (D.disk disk.new) chosen.now }
{
    let Ok(mut room) = Room::new(alloc) else {
        return Ending::Unread(chosen.track, DumpFileFault::OutOfMemory);
    };
    run_with_room(alloc, chosen, &mut room, disk, script, out)
}

/// Reads the dump of the settings, and runs a script under guard on it.
fn run_with_room<'a, D: Disk, R: Read, W: Write>(
    alloc: Global,
    chosen: &Settings<'a>,
    room: &mut Room,
    disk: &mut D,
    script: &mut R,
    out: &mut W,
) -> Ending<'a>
    ensures obeyed { Obeys (files (D.held disk.old) (D.unread disk.old) D.is_told
        (D.is_barred disk.old) (D.is_barred disk.new) (D.disk disk.old) (D.disk disk.new))
        (ends (W.contents out.old) (writes_on D.is_told (D.disk disk.old)) (R.remaining script.old))
        (ends (W.contents out.new) (writes_on D.is_told (D.disk disk.new)) (R.remaining script.new))
        chosen.now result }
    ensures spared { AreSpared D.is_told (D.disk disk.old) (D.disk disk.new) chosen.now }
    ensures unread { IfSome (unread_fault result) (IsUnread chosen.now.window
        (D.held disk.old chosen.now.track.now) (D.unread disk.old chosen.now.track.now)) }
{
    match read_in_window(alloc, disk, chosen.track, chosen.wire, chosen.window) {
        Ok(read) => run_if_apart(alloc, chosen, read, room, disk, script, out),
        Err(fault) => Ending::Unread(chosen.track, fault),
    }
}
