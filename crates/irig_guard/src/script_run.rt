//! A script run under guard on what was read of a dump.

ghost use Rattle.std.specs.Prelude.{◌≡◌, ℕ, IfSome, IsTrue, List, None};
ghost use Rattle.irig_vcd.specs.{Answer.Gives, Window.parts_in};
ghost use Rattle.irig_guard.specs.{Ending.Obeys, Ending.unread_fault, RunsBy.RunsBy};
ghost use Rattle.irig_guard.specs.Given.{AreOthersApart, AreSpared, IsApart, ends, files};
ghost use Rattle.irig_guard.specs.{Others.ShowsAll, Settings.paths};
ghost use Rattle.irig_safety.specs.Terms.{without_others};
ghost use Rattle.irig_files.specs.Reads.{HasBytes, most_bytes, parts_of};
ghost use Rattle.irig_files.specs.{Puts.writes_on, Tracks.name_in};

use crate::chosen::Settings;
use crate::ending::Ending;
use crate::journal::used_journal;
use crate::others::{over_other, terms_of};
use crate::written::{is_over, place_of, product_of};
use irig_files::{Disk, FileShelf, Parts, Room};
use irig_guarding::{GuardFault, Kept, guard_on_parts};
use irig_safety::Terms;
use irig_vcd::{VcdFault, read_back_parts};
use std::alloc::Global;
use std::io::{Read, Write};

/// Runs a script under guard, if the path to write does not lead to the dump.
pub fn run_if_apart<'a, D: Disk, R: Read, W: Write>(
    alloc: Global,
    chosen: &Settings<'a>,
    read: Result<Parts, VcdFault>,
    room: &mut Room,
    disk: &mut D,
    script: &mut R,
    out: &mut W,
) -> Ending<'a>
    requires { HasBytes (most_bytes chosen.now.window) read }
    ensures read { unread_fault result ≡ None }
    ensures obeyed { (source : List ℕ)
        → Gives parts_of read (parts_in chosen.now.window (name_in chosen.now.wire) source)
        → IfSome (D.held disk.old chosen.now.track.now) (λ all. source ≡ all)
        → Obeys (files (D.held disk.old) (D.unread disk.old) D.is_told
        (D.is_barred disk.old) (D.is_barred disk.new) (D.disk disk.old) (D.disk disk.new))
        (ends (W.contents out.old) (writes_on D.is_told (D.disk disk.old)) (R.remaining script.old))
        (ends (W.contents out.new) (writes_on D.is_told (D.disk disk.new)) (R.remaining script.new))
        chosen.now result }
    ensures spared { AreSpared D.is_told (D.disk disk.old) (D.disk disk.new) chosen.now }
{
    match is_over(chosen, disk) {
        Ok(false) => run_with_others(alloc, chosen, read, room, disk, script, out),
        Ok(true) => Ending::Over,
        Err(_) => Ending::Unknown,
    }
}

/// Runs a script under guard, if the path to write leads to no other recording.
fn run_with_others<'a, D: Disk, R: Read, W: Write>(
    alloc: Global,
    chosen: &Settings<'a>,
    read: Result<Parts, VcdFault>,
    room: &mut Room,
    disk: &mut D,
    script: &mut R,
    out: &mut W,
) -> Ending<'a>
    requires few { HasBytes (most_bytes chosen.now.window) read }
    requires apart { IsTrue D.is_told → IsApart chosen.now (D.disk disk.old) }
    ensures read { unread_fault result ≡ None }
    ensures obeyed { (source : List ℕ)
        → Gives parts_of read (parts_in chosen.now.window (name_in chosen.now.wire) source)
        → IfSome (D.held disk.old chosen.now.track.now) (λ all. source ≡ all)
        → Obeys (files (D.held disk.old) (D.unread disk.old) D.is_told
        (D.is_barred disk.old) (D.is_barred disk.new) (D.disk disk.old) (D.disk disk.new))
        (ends (W.contents out.old) (writes_on D.is_told (D.disk disk.old)) (R.remaining script.old))
        (ends (W.contents out.new) (writes_on D.is_told (D.disk disk.new)) (R.remaining script.new))
        chosen.now result }
    ensures spared { AreSpared D.is_told (D.disk disk.old) (D.disk disk.new) chosen.now }
{
    match over_other(chosen, disk) {
        Ok(None) => {}
        Ok(Some(path)) => return Ending::OverOther(path),
        Err(_) => return Ending::Unknown,
    }
    match terms_of(alloc, chosen, disk) {
        Ok(terms) => {
            let result = run_on_read(alloc, chosen, read, terms, room, disk, script, out);
            Ending::Ran(chosen.track, result)
        }
        Err((path, why)) => Ending::UnusableOther(path, why),
    }
}

/// Runs a script under guard on what was read of a dump.
fn run_on_read<D: Disk, R: Read, W: Write>(
    alloc: Global,
    chosen: &Settings<'_>,
    read: Result<Parts, VcdFault>,
    terms: Terms,
    room: &mut Room,
    disk: &mut D,
    script: &mut R,
    out: &mut W,
) -> Result<Kept, GuardFault>
    requires few { HasBytes (most_bytes chosen.now.window) read }
    requires apart { IsTrue D.is_told → IsApart chosen.now (D.disk disk.old) }
    requires others { IsTrue D.is_told → AreOthersApart chosen.now (D.disk disk.old) }
    requires shown { ShowsAll (D.held disk.old) chosen.now.format (paths chosen.now.others.items)
        (without_others chosen.now.moved) terms }
    ensures ran { (source : List ℕ)
        → Gives parts_of read (parts_in chosen.now.window (name_in chosen.now.wire) source)
        → RunsBy (files (D.held disk.old) (D.unread disk.old) D.is_told
        (D.is_barred disk.old) (D.is_barred disk.new) (D.disk disk.old) (D.disk disk.new))
        chosen.now source
        (ends (W.contents out.old) (writes_on D.is_told (D.disk disk.old)) (R.remaining script.old))
        (ends (W.contents out.new) (writes_on D.is_told (D.disk disk.new)) (R.remaining script.new))
        result }
    ensures spared { AreSpared D.is_told (D.disk disk.old) (D.disk disk.new) chosen.now }
{
    let (recording, journal) = match read {
        Ok(parts) => parts,
        Err(fault) => return Err(GuardFault::Dump(fault)),
    };
    // Called for its contract: a dump that is written of a recording says the recording.
    read_back_parts(&recording);
    let journal = used_journal(chosen.window, journal);
    let mut shelf = FileShelf::new(disk, place_of(chosen), room);
    guard_on_parts(
        alloc,
        recording,
        journal,
        chosen.format,
        terms,
        product_of(chosen),
        script,
        out,
        &mut shelf,
    )
}
