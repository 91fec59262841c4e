//! Dumps with a journal: each is opened, or the number of its wrong line is found.

use super::helpers::is_saved;
use irig_codes::{Format, Kind};
use irig_edit::Session;
use irig_vcd::VcdFault;
use std::alloc::{AllocError, Global};
use std::process::Abort;

/// The lines of a journal from line 2 on, and the number of the wrong line; `None` if none is
/// wrong.
type Row = (&'static [u8], Option<usize>);

/// A pulse from 200 to 280 in a track of 1,000 microseconds, and the begin of its journal.
const BEGIN: &[u8] =
    b"$timescale 1 us $end\n$scope module irig $end\n$var wire 1 ! code $end\n$upscope $end\n\
    $enddefinitions $end\n#0\n$dumpvars\n0!\n$end\n#200\n1!\n#280\n0!\n#1000\n$comment\n\
    irig-journal-1\n";

fn dump(alloc: Global, lines: &[u8]) -> Result<Vec<u8>, AllocError> {
    let mut text = Vec::new(alloc);
    text.extend_from_slice(BEGIN)?;
    text.extend_from_slice(lines)?;
    text.extend_from_slice(b"$end\n")?;
    Ok(text)
}

fn opened(alloc: Global, lines: &[u8]) -> Result<Session, VcdFault> {
    let text = dump(alloc, lines)?;
    // The journal's format is taken, not this one. The bound is for the contract of `open_dump`.
    match Format::new(Kind::B, 0) {
        Ok(format) if text.len() <= 1_000 => Session::open_dump(alloc, text, None, format),
        _ => Err(VcdFault::OutOfMemory),
    }
}

fn is_saved_with(alloc: Global, session: &Session, lines: &[u8]) -> bool {
    match dump(alloc, lines) {
        Ok(same) => is_saved(session, same.as_slice()),
        Err(_) => false,
    }
}

/// A journal that is opened has to be saved again as the same lines.
fn has_fault(alloc: Global, lines: &[u8], line: Option<usize>) -> bool {
    match opened(alloc, lines) {
        Ok(session) => line.is_none() && is_saved_with(alloc, &session, lines),
        Err(VcdFault::BadJournal(told)) => line == Some(told),
        Err(_) => false,
    }
}

fn check(rt: &impl Abort, alloc: Global, rows: &[Row]) {
    for (lines, line) in rows {
        assert!(rt; has_fault(alloc, lines, *line));
    }
}

/// Line 2 is `format`, 3 `cursor`, without marks 4 `past`. A step is at fault at its line `at`.
static ROWS: [Row; 12] = [
    (
        b"format G 2\ncursor 1\npast 1\nat 2\nsplice 1 0 1\n100 120\nfuture 1\nat 1\n\
        setmark a 110\n",
        None,
    ),
    // Line 3: the track has no pulse 2 for the cursor.
    (
        b"format G 2\ncursor 2\npast 1\nat 2\nsplice 1 0 1\n100 120\nfuture 1\nat 1\n\
        setmark a 110\n",
        Some(3),
    ),
    // The pulse to be inserted would touch the one from 200 on: line 5 is `at 2`.
    (
        b"format G 2\ncursor 1\npast 1\nat 2\nsplice 1 0 1\n100 220\nfuture 1\nat 1\n\
        setmark a 110\n",
        Some(5),
    ),
    // Line 9, `at 9`: the track has fewer pulses.
    (
        b"format G 2\ncursor 1\npast 1\nat 2\nsplice 1 0 1\n100 120\nfuture 1\nat 9\n\
        setmark a 110\n",
        Some(9),
    ),
    // Line 10: a number with a leading zero.
    (
        b"format G 2\ncursor 1\npast 1\nat 2\nsplice 1 0 1\n100 120\nfuture 1\nat 1\n\
        setmark a 0110\n",
        Some(10),
    ),
    // A second step of the future is missing, so line 11, `$end`, is wrong.
    (
        b"format G 2\ncursor 1\npast 1\nat 2\nsplice 1 0 1\n100 120\nfuture 2\nat 1\n\
        setmark a 110\n",
        Some(11),
    ),
    // E does not permit expression 4; the cursor is wrong too, but later.
    (b"format E 4\ncursor 9\npast 0\nfuture 0\n", Some(2)),
    // A mark may be at the length, 1,000, but not after it.
    (
        b"format G 2\ncursor 1\nmark a 1000\nmark b 1001\npast 0\nfuture 0\n",
        Some(5),
    ),
    // A group may have no change, or one.
    (
        b"format G 2\ncursor 1\npast 1\nat 0\ngroup 0\nfuture 1\nat 0\ngroup 1\nsplice 1 1 0\n",
        None,
    ),
    // The second change of the group removes a pulse that is no longer there: line 6 is its `at`.
    (
        b"format G 2\ncursor 1\npast 0\nfuture 1\nat 0\ngroup 2\nsplice 1 1 0\nsplice 1 1 0\n",
        Some(6),
    ),
    // The newest step of the past is last in the lines, and is tried first: it removes the pulse.
    (
        b"format G 2\ncursor 1\npast 2\nat 0\nsplice 1 0 1\n100 120\nat 0\nsplice 1 1 0\n\
        future 0\n",
        None,
    ),
    // The newest step, from line 7 on, removes the only pulse, so its cursor can be 0 alone.
    (
        b"format G 2\ncursor 1\npast 2\nat 0\nsplice 1 1 0\nat 2\nsplice 1 1 0\nfuture 0\n",
        Some(7),
    ),
];

// The order of lines is that of `docs/FORMATS.md`, "The line at fault".
#[test]
fn a_journal_opens_or_its_line_at_fault_is_told(rt: HostRuntime) {
    check(&rt, rt.alloc(), &ROWS);
}
