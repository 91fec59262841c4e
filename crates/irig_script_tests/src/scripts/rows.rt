//! Scripts over memory: what each prints, and how it ends; those of the whole language are in
//! `tests/rows`.

use crate::scripts::helpers::TWO_PULSES;
use crate::scripts::row::Row;
use irig_codes::{Format, Kind};
use irig_script::{MemoryShelf, NoWitness, Screen, Status, run_on_dump};
use std::alloc::{AllocError, Global};
use std::process::Abort;

/// The script is run on a dump of two pulses, in format G 2.
fn is_right(alloc: Global, row: &Row<'_>, shelf: &mut MemoryShelf) -> bool {
    let Ok(format) = Format::new(Kind::G, 2) else {
        return false;
    };
    let Ok(dump) = Vec::from_slice(alloc, TWO_PULSES) else {
        return false;
    };
    let mut script = row.script;
    let mut out = Vec::new(alloc);
    let mut screen = Screen::new(&mut out, NoWitness);
    let outcome = run_on_dump(alloc, dump, None, format, &mut script, &mut screen, shelf);
    outcome == Ok(row.status) && out.as_slice() == row.printed
}

fn check(rt: &impl Abort, alloc: Global, row: &Row<'_>) {
    let mut shelf = MemoryShelf::new(alloc, None);
    assert!(rt; is_right(alloc, row, &mut shelf));
}

#[test]
fn a_last_line_is_obeyed(rt: HostRuntime) {
    let row = Row {
        script: b"1 delete\nwrite",
        printed: b"147\n",
        status: Status::AllAccepted,
    };
    check(&rt, rt.alloc(), &row);
}

/// A line of 1,000 bytes, `write` and spaces, and one of 1,001, all `#`. The newline of the first
/// is at place 1,000, so the second begins at 1,001 and ends before 2,002.
fn long_lines(alloc: Global) -> Result<Vec<u8>, AllocError> {
    let mut script = Vec::from_slice(alloc, b"write")?;
    script.resize(1000, b' ')?;
    script.push(b'\n')?;
    script.resize(2002, b'#')?;
    Ok(script)
}

// The line of 1,001 bytes is too long, even if it is a comment.
#[test]
fn long_lines_are_refused(rt: HostRuntime) -> Result<(), AllocError> {
    let script = long_lines(rt.alloc())?;
    let row = Row {
        script: script.as_slice(),
        printed: b"163\n? S2 LineTooLong\n",
        status: Status::SomeRefused,
    };
    check(&rt, rt.alloc(), &row);
    Ok(())
}

// The shelf is set to fail at write 1, so one text is on it.
#[test]
fn a_failed_put_is_refused(rt: HostRuntime) {
    let row = Row {
        script: b"write\nwrite\n",
        printed: b"? S3 WriteFailed\n163\n",
        status: Status::SomeRefused,
    };
    let mut shelf = MemoryShelf::new(rt.alloc(), Some(1));
    assert!(rt; is_right(rt.alloc(), &row, &mut shelf) && shelf.texts().len() == 1);
}
