//! The other recordings that the settings name.

ghost use Rattle.std.specs.Prelude.{◌≡◌, ◌<◌, ◌^◌, ℕ, List, None, IfErr, IfOk, IfSome, IsTrue, OnOk};
ghost use Rattle.std.specs.Prelude.{false, is_some, true};
ghost use Rattle.irig_files.specs.Apart.{LeadToOneFile};
ghost use Rattle.irig_files.specs.Reads.{HasFewBytes, parts_of};
ghost use Rattle.irig_guard.specs.Given.{AreOthersApart, place_of};
ghost use Rattle.irig_guard.specs.Others.{IsOther, IsUnusable, IsUnusableDump, Shows, ShowsAll};
ghost use Rattle.irig_guard.specs.Settings.{paths};
ghost use Rattle.irig_guarding.specs.Others.{Adds};
ghost use Rattle.irig_safety.specs.Terms.{without_others};
ghost use Rattle.irig_vcd.specs.{Answer.Gives, Parts.dump_parts};

use crate::chosen::Settings;
use crate::other_fault::OtherFault;
use irig_codes::Format;
use irig_files::{Disk, DumpFileFault, Parts};
use irig_guarding::{GuardFault, add_frames};
use irig_safety::Terms;
use irig_text::ShelfFault;
use irig_vcd::VcdFault;
use std::alloc::Global;

/// The first other recording that leads to the file to which the path to write leads.
pub fn over_other<'a, D: Disk>(
    chosen: &Settings<'a>,
    disk: &D,
) -> Result<Option<&'a str>, ShelfFault>
    ensures other { IfOk result (λ found. IfSome found (λ path. IsOther chosen.now path.now
        × (is_some chosen.now.out ≡ true))) }
    ensures over { IsTrue D.is_told → IfOk result (λ found. IfSome found (λ path.
        LeadToOneFile (D.disk disk.now) path.now (place_of chosen.now))) }
    ensures apart { IsTrue D.is_told → IfOk result (λ found. found ≡ None
        → AreOthersApart chosen.now (D.disk disk.now)) }
{
    let Some(out) = chosen.out else {
        return Ok(None);
    };
    let others = chosen.others.as_slice();
    for place in 0..others.len() {
        let path = others[place];
        match disk.is_same(path, out) {
            Ok(true) => return Ok(Some(path)),
            Ok(false) => {}
            Err(fault) => return Err(fault),
        }
    }
    Ok(None)
}

/// Whether frames may move, and the frames of all other recordings, in their order.
pub fn terms_of<'a, D: Disk>(
    alloc: Global,
    chosen: &Settings<'a>,
    disk: &D,
) -> Result<Terms, (&'a str, OtherFault)>
    ensures shown { IfOk result (λ terms. ShowsAll (D.held disk.now) chosen.now.format
        (paths chosen.now.others.items) (without_others chosen.now.moved) terms) }
    ensures unusable { IfErr result (λ e. IsOther chosen.now e.0.now
        × IsUnusable (D.held disk.now e.0.now) (D.unread disk.now e.0.now) e.1) }
{
    let mut terms = Terms::new(alloc, chosen.moved);
    let others = chosen.others.as_slice();
    for place in 0..others.len() {
        let path = others[place];
        match add_frames_of(alloc, path, chosen.format, disk, &mut terms) {
            Ok(()) => {}
            Err(why) => return Err((path, why)),
        }
    }
    Ok(terms)
}

/// Adds the frames of the recording at a path. No wire is named, so its dump has one of one bit.
fn add_frames_of<D: Disk>(
    alloc: Global,
    path: &str,
    format: Format,
    disk: &D,
    terms: &mut Terms,
) -> Result<(), OtherFault>
    ensures added { OnOk result (Shows (D.held disk.now path.now) format terms.old terms.new) }
    ensures unusable { IfErr result (IsUnusable (D.held disk.now path.now)
        (D.unread disk.now path.now)) }
{
    match disk.read(alloc, path, None) {
        Ok(read) => add_read(alloc, read, format, terms),
        Err(fault) => Err(OtherFault::File(fault)),
    }
}

/// Adds the frames of a recording, by what was read of its dump.
fn add_read(
    alloc: Global,
    read: Result<Parts, VcdFault>,
    format: Format,
    terms: &mut Terms,
) -> Result<(), OtherFault>
    requires { HasFewBytes read }
    ensures added { OnOk result ((source : List ℕ)
        → Gives parts_of read (dump_parts None source)
        → Adds None source format terms.old terms.new) }
    ensures unusable { IfErr result (λ why. (source : List ℕ)
        → Gives parts_of read (dump_parts None source) → IsUnusableDump source why) }
{
    let (recording, journal) = match read {
        Ok(parts) => parts,
        Err(fault) => return Err(OtherFault::Dump(fault)),
    };
    match add_frames(alloc, recording, journal, format, terms) {
        Ok(()) => Ok(()),
        Err(GuardFault::Dump(fault)) => Err(OtherFault::Dump(fault)),
        Err(_) => Err(OtherFault::File(DumpFileFault::OutOfMemory)),
    }
}
