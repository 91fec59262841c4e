//! Sessions saved after calls, against the journal's lines that follow from `docs/FORMATS.md`.

use super::helpers::{Call, is_saved, obey, two_pulses};
use irig_edit::Session;
use std::alloc::{AllocError, Global};
use std::process::Abort;

/// Calls, and the lines of the journal after the first. `at` is the cursor before the edit for a
/// step of the past, and the one after it for a step of the future.
type Row = (&'static [Call], &'static [u8]);

fn put_journal(text: &mut Vec<u8>, lines: &[u8]) -> Result<(), AllocError> {
    text.extend_from_slice(b"$comment\nirig-journal-1\n")?;
    text.extend_from_slice(lines)?;
    text.extend_from_slice(b"$end\n")
}

fn dump_with(session: &Session, lines: &[u8]) -> Result<Vec<u8>, AllocError> {
    let mut text = session.text()?;
    put_journal(&mut text, lines)?;
    Ok(text)
}

/// Whether a call is refused is not compared, only what all of them leave.
fn is_saved_after(session: &mut Session, (calls, lines): &Row) -> bool {
    for call in *calls {
        obey(session, *call);
    }
    match dump_with(session, lines) {
        Ok(dump) => is_saved(session, dump.as_slice()),
        Err(_) => false,
    }
}

fn check(rt: &impl Abort, alloc: Global, rows: &[Row]) {
    for row in rows {
        let mut session = two_pulses(alloc).expect(rt, "a session");
        assert!(rt; is_saved_after(&mut session, row));
    }
}

static STEPS: [Row; 4] = [
    // The delete is undone by a splice that inserts 100 to 120 as pulse 1; the mark is redone.
    (
        &[Call::Delete(1, 1), Call::Mark(0, Some(110)), Call::Undo],
        b"format G 2\ncursor 1\npast 1\nat 2\nsplice 1 0 1\n100 120\nfuture 1\nat 1\n\
        setmark a 110\n",
    ),
    // The insert is undone by a splice that removes pulse 3, the invert by itself.
    (
        &[Call::Insert(300, 350), Call::Go(1), Call::Invert(110, 210)],
        b"format G 2\ncursor 3\npast 2\nat 2\nsplice 3 1 0\nat 1\ntoggle 110 210\nfuture 0\n",
    ),
    // The shift takes the mark z, at 110 in pulse 1, along.
    (
        &[
            Call::Mark(25, Some(110)),
            Call::Shift(1, 1, -20),
            Call::Undo,
        ],
        b"format G 2\ncursor 2\nmark z 110\npast 1\nat 2\nsetmark z -\nfuture 1\nat 1\n\
        shift 1 1 -20 z\n",
    ),
    // To undo the split and to redo the join is the same change: pulses 2 and 3 become 200 to 280.
    (
        &[Call::Split(2, 220, 240), Call::Join(2, 3), Call::Undo],
        b"format G 2\ncursor 3\npast 1\nat 2\nsplice 2 2 1\n200 280\nfuture 1\nat 2\nsplice 2 2 1\n\
        200 280\n",
    ),
];

#[test]
fn each_step_is_saved_as_the_change_that_leads_there(rt: HostRuntime) {
    check(&rt, rt.alloc(), &STEPS);
}

static GROUPS: [Row; 3] = [
    // To be undone: the newest change first.
    (
        &[
            Call::Begin,
            Call::Delete(1, 1),
            Call::Insert(300, 350),
            Call::End,
            Call::Go(1),
        ],
        b"format G 2\ncursor 1\npast 1\nat 2\ngroup 2\nsplice 2 1 0\nsplice 1 0 1\n100 120\n\
        future 0\n",
    ),
    (
        &[
            Call::Begin,
            Call::Delete(1, 1),
            Call::Insert(300, 350),
            Call::End,
            Call::Undo,
        ],
        // To be redone: the oldest change first.
        b"format G 2\ncursor 2\npast 0\nfuture 1\nat 2\ngroup 2\nsplice 1 1 0\nsplice 2 0 1\n\
        300 350\n",
    ),
    // The group is open, so its insert is a step of its own.
    (
        &[
            Call::Delete(1, 1),
            Call::Begin,
            Call::Insert(300, 350),
            Call::Undo,
            Call::Redo,
        ],
        b"format G 2\ncursor 2\npast 2\nat 2\nsplice 1 0 1\n100 120\nat 1\nsplice 2 1 0\n\
        future 0\n",
    ),
];

#[test]
fn a_group_is_saved_in_the_order_of_its_turn(rt: HostRuntime) {
    check(&rt, rt.alloc(), &GROUPS);
}
