//! How many looks at pulses calls take, and the frames that they leave, call by call.

use super::helpers::{Call, obey, open};
use irig_codes::{Element, Kind};
use irig_edit::{Session, generated_frames_read_back};
use std::alloc::Global;
use std::process::Abort;

/// A call; how many frames there are after it, and the numbers of the markers of the first and the
/// last; and how many looks the last change took at most.
type Row = (Call, [usize; 3], u64);

fn frames(session: &Session) -> [usize; 3] {
    let count = session.frames();
    if count == 0 {
        [0, 0, 0]
    } else {
        [count, session.frame(1).marker, session.frame(count).marker]
    }
}

fn leaves(session: &mut Session, (call, left, most): &Row) -> bool {
    let accepted = obey(session, *call).is_none();
    accepted && session.last_looks() <= *most && frames(session) == *left
}

fn check(rt: &impl Abort, alloc: Global, length: u64, rows: &[Row]) {
    let mut session = open(alloc, length, &[]).expect(rt, "a session");
    for row in rows {
        assert!(rt; leaves(&mut session, row));
    }
}

/// The first generated frame is none: no pulse is before its marker.
static MILLION: [Row; 5] = [
    // 3 * (1,000,000 + 200) looks.
    (Call::Regen(0, 10_000), [9_999, 101, 999_901], 3_000_600),
    // Pulse 500,000 ends a frame. Without its position identifier the next pulse is no marker. One
    // new pulse comes: 3 * (1 + 200) looks.
    (
        Call::Force(500_000, Element::One),
        [9_998, 101, 999_901],
        603,
    ),
    (Call::Undo, [9_999, 101, 999_901], 603),
    // No pulse comes, and each pulse after the first has a number lower by one.
    (Call::Delete(1, 1), [9_999, 100, 999_900], 600),
    (Call::Mark(0, Some(5)), [9_999, 100, 999_900], 0),
];

#[test]
fn an_edit_of_a_million_pulses_looks_in_its_window(rt: HostRuntime) {
    check(&rt, rt.alloc(), 100_000_000, &MILLION);
}

/// An edit of each kind. `Go` is no change, so the looks of the undo before it stay. A new format
/// reads all frames again, for which 100 looks a pulse are more than enough.
static EACH_KIND: [Row; 8] = [
    (Call::Regen(0, 10), [9, 101, 901], 3_600),
    // Two pulses come: they move by one microsecond, which changes no frame.
    (Call::Shift(3, 4, 1), [9, 101, 901], 606),
    // The marker at 30,000 is cut in two, so one frame goes. The bound is that of three new pulses.
    (Call::Invert(30_050, 30_060), [8, 101, 902], 609),
    (Call::Undo, [9, 101, 901], 606),
    (Call::Go(7), [9, 101, 901], 606),
    (Call::Mark(0, Some(5)), [9, 101, 901], 0),
    (Call::Format(Kind::E, 5), [0, 0, 0], 100_000),
    (Call::Undo, [9, 101, 901], 100_000),
];

// The call at the end is the law that generated frames are read as they were made.
#[test]
fn each_kind_of_edit_looks_in_its_window(rt: HostRuntime) {
    check(&rt, rt.alloc(), 100_000, &EACH_KIND);
    generated_frames_read_back();
}
