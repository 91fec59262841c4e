//! What a refused growth leaves: `tests/no_memory` runs it with each growth refused in turn.

use crate::scripts::helpers::{TWO_PULSES, two_pulses};
use irig_codes::{Format, Kind};
use irig_edit::{Refusal, Session};
use irig_script::{DumpRunFault, MemoryShelf, NoWitness, Screen, Status, run_on_dump};
use irig_vcd::VcdFault;
use std::alloc::Global;

/// If memory runs out pulses and steps have to stay, and the same call has to succeed then.
fn inserts(session: &mut Session) -> bool {
    if session.insert(400, 450) == Err(Refusal::OutOfMemory) {
        session.len() == 2 && session.steps_back() == 0 && session.insert(400, 450) == Ok(())
    } else {
        session.len() == 3 && session.cursor() == 3
    }
}

/// Whichever growth is refused: an undo takes no memory.
fn undoes(session: &mut Session) -> bool {
    session.undo() == Ok(()) && session.len() == 2 && session.steps_forward() == 1
}

/// An insert drops what can be redone. If it runs out of memory, the step of `undoes` can still be
/// redone. Either way two pulses are there then, and one step can be redone.
fn inserts_another(session: &mut Session) -> bool {
    if session.insert(500, 510) == Err(Refusal::OutOfMemory) {
        session.len() == 2 && session.steps_forward() == 1
    } else {
        session.undo() == Ok(())
    }
}

/// A redo takes no memory.
fn redoes(session: &mut Session) -> bool {
    session.redo() == Ok(()) && session.len() == 3 && session.steps_forward() == 0
}

fn is_left(session: &mut Session) -> bool {
    inserts(session) && undoes(session) && inserts_another(session) && redoes(session)
}

// If memory runs out for the session itself, nothing is tested in that run.
#[test]
fn a_refused_call_leaves_the_session(rt: HostRuntime) {
    if let Some(mut session) = two_pulses(rt.alloc()) {
        assert!(rt; is_left(&mut session));
    }
}

/// What the script of `ran` prints, by the growth that is refused. `invert` removes a pulse.
static PRINTED: [&[u8]; 6] = [
    // None of the script.
    b"147\n163\n",
    // The invert, so there is nothing to undo.
    b"? E11 OutOfMemory\n163\n? E9 NothingToUndo\n163\n",
    // The first write, if it needed memory of the session: it needs none, so this does not come.
    b"? E11 OutOfMemory\n163\n",
    // The first write, on the shelf.
    b"? S3 WriteFailed\n163\n",
    // The second write, in the same two ways.
    b"147\n? E11 OutOfMemory\n",
    b"147\n? S3 WriteFailed\n",
];

/// `None` if the bytes of the dump found no room, so that the script did not run.
fn ran(alloc: Global, out: &mut Vec<u8>) -> Option<Result<Status, DumpRunFault>> {
    let format = Format::new(Kind::G, 2).ok()?;
    let dump = Vec::from_slice(alloc, TWO_PULSES).ok()?;
    let mut script = b"invert 100 120\nwrite\nundo\nwrite\n".as_slice();
    let mut shelf = MemoryShelf::new(alloc, None);
    let mut screen = Screen::new(out, NoWitness);
    Some(run_on_dump(
        alloc,
        dump,
        None,
        format,
        &mut script,
        &mut screen,
        &mut shelf,
    ))
}

/// Whether only the line that runs out of memory is refused, or the dump is not opened.
fn is_expected(outcome: Option<Result<Status, DumpRunFault>>, out: &[u8]) -> bool {
    match outcome {
        None => true,
        Some(Err(fault)) => fault == DumpRunFault::Dump(VcdFault::OutOfMemory) && out.is_empty(),
        Some(Ok(_)) => is_printed(out),
    }
}

fn is_printed(out: &[u8]) -> bool {
    for text in PRINTED.iter() {
        if *text == out {
            return true;
        }
    }
    false
}

// If memory runs out for the output, nothing is tested in that run.
#[test]
fn a_refused_line_leaves_the_rest(rt: HostRuntime) {
    // All that is printed has room in 200 bytes, so the output itself takes no memory later.
    let Ok(mut out) = Vec::with_capacity(rt.alloc(), 200) else {
        return;
    };
    let outcome = ran(rt.alloc(), &mut out);
    assert!(rt; is_expected(outcome, out.as_slice()));
}
