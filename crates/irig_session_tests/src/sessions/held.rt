//! How many pulses the steps of a session hold, call by call.

use super::helpers::{Call, obey, open};
use irig_codes::Element;
use irig_edit::Session;
use std::alloc::Global;
use std::process::Abort;

/// A call, and how many pulses past and future hold after it.
type Row = (Call, (u128, u128));

fn leaves(session: &mut Session, (call, held): &Row) -> bool {
    obey(session, *call).is_none() && session.held() == *held
}

fn check(rt: &impl Abort, alloc: Global, length: u64, edges: &[u64], rows: &[Row]) {
    let mut session = open(alloc, length, edges).expect(rt, "a session");
    for row in rows {
        assert!(rt; leaves(&mut session, row));
    }
}

static EDITS: [Row; 13] = [
    (Call::Delete(1, 1), (1, 0)),
    (Call::Undo, (0, 0)),
    // A split replaces one pulse by two, a join here two by one.
    (Call::Split(2, 220, 230), (1, 0)),
    (Call::Undo, (0, 2)),
    (Call::Join(1, 2), (2, 0)),
    (Call::Undo, (0, 1)),
    // A new edit drops the future, and what it holds.
    (Call::Shift(1, 1, 20), (0, 0)),
    (Call::Invert(130, 150), (0, 0)),
    (Call::Undo, (0, 0)),
    (Call::Mark(0, Some(5)), (0, 0)),
    (Call::Go(1), (0, 0)),
    (Call::Insert(400, 450), (0, 0)),
    (Call::Undo, (0, 1)),
];

#[test]
fn a_step_holds_what_its_edit_took_or_put(rt: HostRuntime) {
    check(&rt, rt.alloc(), 1_000, &[100, 120, 200, 280], &EDITS);
}

static FRAMES: [Row; 6] = [
    // Two frames of 100 pulses, where none was.
    (Call::Regen(0, 2), (0, 0)),
    (Call::Undo, (0, 200)),
    (Call::Redo, (0, 0)),
    (Call::Force(100, Element::One), (1, 0)),
    (Call::Undo, (0, 1)),
    // The pulses of the first frame are replaced.
    (Call::Regen(0, 1), (100, 0)),
];

#[test]
fn frames_that_are_taken_back_are_held(rt: HostRuntime) {
    check(&rt, rt.alloc(), 20_000, &[], &FRAMES);
}
