//! Saved journals as `docs/FORMATS.md` has them: a worked one read and written, and wrong ones.

ghost use Rattle.std.specs.Prelude.{◌<◌, ◌^◌, length};

use irig_codes::{Format, Kind};
use irig_saved::{
    Change, Fault, Letter, Pulses, Saved, SavedStep, Single, SingleLines, parse, put_future,
    put_head, put_step,
};
use irig_track::Pulse;
use std::alloc::{AllocError, Global};
use std::process::Abort;

/// Of two pulses the first was deleted, and a mark was set and undone.
const WORKED: &[u8] =
    b"irig-journal-1\nformat G 2\ncursor 1\npast 1\nat 2\nsplice 1 0 1\n100 120\nfuture 1\nat 1\n\
    setmark a 110\n";

const DELETED: Pulse = Pulse {
    rise: 100,
    fall: 120,
};

/// 0 if no line is wrong; if memory runs out 1000, which no row has.
fn fault(alloc: Global, text: &[u8]) -> usize
    requires { length text.now < 2 ^ 63 }
{
    match parse(alloc, text) {
        Ok(_) => 0,
        Err(Fault::Line(line)) => line,
        Err(Fault::Memory) => 1000,
    }
}

fn check(rt: &impl Abort, alloc: Global, rows: &[(&[u8], usize)]) {
    for (text, line) in rows {
        assert!(rt; text.len() < 1 << 20 && fault(alloc, text) == *line);
    }
}

static HEADS: [(&[u8], usize); 11] = [
    (b"", 1),
    // A line without its end, a space or a return before it.
    (b"irig-journal-1", 1),
    (b"irig-journal-1 \n", 1),
    (b"irig-journal-1\r\n", 1),
    // No kind C, a 0 before a number, no expression 8, a sign, 2^64, marks out of order or twice.
    (b"irig-journal-1\nformat C 2\n", 2),
    (b"irig-journal-1\nformat G 02\n", 2),
    (b"irig-journal-1\nformat G 8\n", 2),
    (b"irig-journal-1\nformat G 2\ncursor +1\n", 3),
    (
        b"irig-journal-1\nformat G 2\ncursor 18446744073709551616\n",
        3,
    ),
    (
        b"irig-journal-1\nformat G 2\ncursor 1\nmark b 1\nmark a 1\npast 0\nfuture 0\n",
        5,
    ),
    (
        b"irig-journal-1\nformat G 2\ncursor 1\nmark b 1\nmark b 1\npast 0\nfuture 0\n",
        5,
    ),
];

#[test]
fn the_first_line_at_fault_at_the_head_is_told(rt: HostRuntime) {
    check(&rt, rt.alloc(), &HEADS);
}

/// A line that is missing is at fault, not the count before it. Letters of a shift are in order. A
/// group holds no group.
static STEPS: [(&[u8], usize); 11] = [
    (
        b"irig-journal-1\nformat G 2\ncursor 1\npast 18446744073709551615\n",
        5,
    ),
    (
        b"irig-journal-1\nformat G 2\ncursor 1\npast 1\nat 0\nshift 1 1 -0 -\n",
        6,
    ),
    (
        b"irig-journal-1\nformat G 2\ncursor 1\npast 1\nat 0\n\
        shift 1 1 9223372036854775808 -\n",
        6,
    ),
    (
        b"irig-journal-1\nformat G 2\ncursor 1\npast 1\nat 0\nshift 1 1 1 ba\n",
        6,
    ),
    (
        b"irig-journal-1\nformat G 2\ncursor 1\npast 1\nat 0\ngroup 1\ngroup 0\n",
        7,
    ),
    (
        b"irig-journal-1\nformat G 2\ncursor 1\npast 1\nat 2\nsplice 1 0 1\n100 120\n\
        future 1\nat 1\nsetmark a 0110\n",
        10,
    ),
    (
        b"irig-journal-1\nformat G 2\ncursor 1\npast 1\nat 2\nsplice 1 0 1\n100 120\n\
        future 2\nat 1\nsetmark a 110\n",
        11,
    ),
    (b"irig-journal-1\nformat G 2\ncursor 1\npast 0\nfuture 0", 5),
    (
        b"irig-journal-1\nformat G 2\ncursor 1\npast 0\nfuture 0\n\n",
        6,
    ),
    (
        b"irig-journal-1\nformat G 2\ncursor 1\npast 0\nfuture 0\n  ",
        6,
    ),
    (
        b"irig-journal-1\nformat A 7\ncursor 0\nmark a 0\nmark z 5\npast 2\nat 0\ngroup 0\n\
        at 5\ngroup 2\nshift 1 2 -20 az\nsetmark c -\nfuture 1\nat 0\nshift 0 0 0 -\n",
        0,
    ),
];

#[test]
fn the_first_line_at_fault_in_a_step_is_told(rt: HostRuntime) {
    check(&rt, rt.alloc(), &STEPS);
}

fn is_splice(step: &SavedStep) -> bool {
    let Change::One(Single::Splice { at, count, put }) = &step.change else {
        return false;
    };
    step.cursor == 2 && *at == 1 && *count == 0 && put.len() == 1 && put.get(0) == DELETED
}

/// The letter a is place 0.
fn is_mark(step: &SavedStep) -> bool {
    let Change::One(Single::SetMark { letter, time }) = &step.change else {
        return false;
    };
    step.cursor == 1 && letter.place() == 0 && *time == Some(110)
}

fn has_head(saved: &Saved) -> bool {
    saved.kind == Kind::G && saved.expression == 2 && saved.cursor == 1 && saved.marks == [None; 26]
}

fn has_steps(saved: &Saved) -> bool {
    let (past, future) = (saved.past.as_slice(), saved.future.as_slice());
    past.len() == 1 && is_splice(&past[0]) && future.len() == 1 && is_mark(&future[0])
}

fn is_worked_read(alloc: Global) -> bool {
    match parse(alloc, WORKED) {
        Ok(saved) => has_head(&saved) && has_steps(&saved),
        Err(_) => false,
    }
}

#[test]
fn the_worked_journal_is_read(rt: HostRuntime) {
    assert!(rt; is_worked_read(rt.alloc()));
}

/// `usize::MAX` bytes are never enough, so none is left for later.
fn put_lines(text: &mut Vec<u8>, single: Single) -> bool {
    SingleLines::of(&single).fill(text, usize::MAX).is_ok()
}

fn deleted(alloc: Global) -> Result<Pulses, AllocError> {
    let mut put = Pulses::new(alloc);
    put.push(DELETED)?;
    Ok(put)
}

fn put_splice(text: &mut Vec<u8>) -> bool {
    let (at, count) = (1, 0);
    match deleted(*text.allocator()) {
        Ok(put) => put_lines(text, Single::Splice { at, count, put }),
        Err(_) => false,
    }
}

/// `put_step` gets the cursor, whether the step is a group, and how many changes it has.
fn put_forward(text: &mut Vec<u8>) -> bool {
    let (letter, time) = (Letter::new(0), Some(110));
    put_future(text, 1).is_ok()
        && put_step(text, 1, false, 1).is_ok()
        && put_lines(text, Single::SetMark { letter, time })
}

/// The letters a and z.
const MARKS: [bool; 26] = [
    true, false, false, false, false, false, false, false, false, false, false, false, false,
    false, false, false, false, false, false, false, false, false, false, false, false, true,
];

/// A group of changes of other kinds, a step that leads to cursor 4.
fn put_changes(text: &mut Vec<u8>) -> bool {
    let (i, j, by, marks) = (1, 2, -20, MARKS);
    let (kind, expression) = (Kind::E, 1);
    put_step(text, 4, true, 3).is_ok()
        && put_lines(text, Single::Shift { i, j, by, marks })
        && put_lines(text, Single::Toggle { a: 5, b: 6 })
        && put_lines(text, Single::SetFormat { kind, expression })
}

/// `put_head` gets the cursor, the marks and how many steps back there are.
fn is_worked_put(text: &mut Vec<u8>, format: Format) -> bool {
    put_head(text, format, 1, &[None; 26], 1).is_ok()
        && put_step(text, 2, false, 1).is_ok()
        && put_splice(text)
        && put_forward(text)
        && text.as_slice() == WORKED
}

const GROUP: &[u8] = b"at 4\ngroup 3\nshift 1 2 -20 az\ntoggle 5 6\nsetformat E 1\n";

fn is_group_put(text: &mut Vec<u8>) -> bool {
    put_changes(text) && text.as_slice() == GROUP
}

fn are_put(text: &mut Vec<u8>) -> bool {
    let Ok(format) = Format::new(Kind::G, 2) else {
        return false;
    };
    let worked = is_worked_put(text, format);
    text.clear();
    worked && is_group_put(text)
}

#[test]
fn the_lines_are_written(rt: HostRuntime) {
    let mut text = Vec::new(rt.alloc());
    assert!(rt; are_put(&mut text));
}
