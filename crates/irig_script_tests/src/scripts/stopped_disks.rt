//! The writes of a script to a disk in memory, stopped after each call and failed at each.

use crate::scripts::failing_ends::REFUSED;
use crate::scripts::helpers::two_pulses;
use crate::scripts::stops::INVERTED;
use irig_edit::Session;
use irig_files::{FileShelf, Files, Room};
use irig_folders::{Call, Memory, bytes_of, file_at, is_kept};
use irig_script::{NoWitness, RunFault, Screen, Status, run};
use std::alloc::Global;

/// The calls of the first write: those of a new file, as in `in_memory`.
const FIRST: u64 = 5;

/// The calls of both: the second one also gives the new file the mode of the old one.
const BOTH: u64 = 11;

/// The bytes of the two texts: the length shows which text it is.
const TEXTS: [usize; 2] = [179, 163];

/// Both writes are to the name `t`; `room` is their memory.
fn run_on_files(
    session: &mut Session,
    files: &mut Files<Memory>,
    room: &mut Room,
    out: &mut Vec<u8>,
) -> Result<Status, RunFault> {
    let mut script = INVERTED.script;
    let mut shelf = FileShelf::new(files, "t", room);
    run(
        session,
        &mut script,
        &mut Screen::new(out, NoWitness),
        &mut shelf,
    )
}

/// How many bytes a crash after these calls leaves at the name `t`. `None` if no file is there, if
/// what it holds is not kept by a sync, or if memory runs out.
pub fn left(alloc: Global, calls: &[Call]) -> Option<usize> {
    let file = file_at(calls, b"t")?;
    let held = bytes_of(alloc, calls, file).ok()?;
    is_kept(calls, file).then_some(held.len())
}

/// A sync of the folder keeps the names.
fn is_named(calls: &[Call]) -> bool {
    for call in calls {
        if matches!(call, Call::SyncNames(_)) {
            return true;
        }
    }
    false
}

/// Nothing may be there only if no sync of the folder has kept a name yet.
fn is_whole(alloc: Global, calls: &[Call]) -> bool {
    match left(alloc, calls) {
        Some(bytes) => TEXTS.contains(&bytes),
        None => !is_named(calls) && file_at(calls, b"t").is_none(),
    }
}

/// The newest `left_out` calls are left out, from none of them to all.
fn is_whole_at_each_stop(alloc: Global, calls: &[Call]) -> bool {
    for left_out in 0..=calls.len() {
        match calls.get(left_out..) {
            Some(before) if is_whole(alloc, before) => {}
            _ => return false,
        }
    }
    true
}

/// Call number `fails` of the disk fails, counted from 0.
fn is_run(alloc: Global, session: &mut Session, fails: u64, printed: &[u8]) -> bool {
    let Ok(mut room) = Room::new(alloc) else {
        return false;
    };
    let mut memory = Memory::new(alloc);
    memory.fail(fails, fails.saturating_add(1));
    let mut files = Files::new(memory, ());
    let mut out = Vec::new(alloc);
    run_on_files(session, &mut files, &mut room, &mut out).is_ok()
        && out.as_slice() == printed
        && is_whole_at_each_stop(alloc, files.system().calls())
}

fn is_run_once(alloc: Global, fails: u64, printed: &[u8]) -> bool {
    match two_pulses(alloc) {
        Some(mut session) => is_run(alloc, &mut session, fails, printed),
        None => false,
    }
}

/// What is printed if the call of this number, from 0, fails: its write is refused. No call has the
/// number `BOTH`. Only one call fails, so the removal of the new file succeeds.
fn printed_without(fails: u64) -> &'static [u8] {
    match fails {
        0..FIRST => REFUSED[0].1,
        FIRST..BOTH => REFUSED[1].1,
        _ => INVERTED.printed,
    }
}

// In the last run no call fails.
#[test]
fn the_writes_of_a_script_are_whole_at_each_stop(rt: HostRuntime) {
    for fails in 0..=BOTH {
        assert!(rt; is_run_once(rt.alloc(), fails, printed_without(fails)));
    }
}
