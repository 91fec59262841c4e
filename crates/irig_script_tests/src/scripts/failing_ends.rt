//! Runs whose script cannot be read, or whose output or texts cannot be written, from each byte and
//! each write on.

use crate::scripts::helpers::two_pulses;
use crate::scripts::stops::{
    DELETED, INVERTED, Stop, Worked, first_printing, front, last_read, stands,
};
use irig_edit::Session;
use irig_script::{MemoryShelf, NoWitness, RunFault, Screen, Status, run};
use std::alloc::Global;
use std::io::{self, ErrorKind, Read, Write};
use std::process::Abort;

/// Gives a text at most `step` bytes at a time, and fails at its end with an error of the kind.
#[derive(Drop)]
struct Broken<'a> {
    text: &'a [u8],
    step: usize,
    kind: ErrorKind,
}

impl<'a> Read for Broken<'a> {
    fn read(&mut self, buf: &mut [u8]) -> io::Result<usize> {
        if self.text.is_empty() {
            return Err(io::Error::from(self.kind));
        }
        let count = self.step.min(self.text.len()).min(buf.len());
        let (front, rest) = self.text.split_at(count);
        buf[..count].copy_from_slice(front);
        self.text = rest;
        Ok(count)
    }
}

/// Takes `room` bytes, and then fails if `fails`, or else takes none.
#[derive(Drop)]
struct Full {
    taken: Vec<u8>,
    room: usize,
    fails: bool,
}

impl Write for Full {
    // The error is `Interrupted`: the program has to end the run also then, not to try again.
    fn write(&mut self, buf: &[u8]) -> io::Result<usize> {
        let count = self.room.min(buf.len());
        if count == 0 && self.fails {
            return Err(io::Error::from(ErrorKind::Interrupted));
        }
        self.taken.extend_from_slice(&buf[..count])?;
        self.room -= count;
        Ok(count)
    }

    fn flush(&mut self) -> io::Result<()> {
        Ok(())
    }
}

/// Whether only the whole lines of a script are obeyed and answered, if its reads fail after this
/// many bytes. A read gives three bytes at most, so that it can end within a line.
fn is_read(
    alloc: Global,
    session: &mut Session,
    worked: Worked<'_>,
    bytes: usize,
    kind: ErrorKind,
) -> bool {
    let Some(stop) = last_read(worked.stops, bytes) else {
        return false;
    };
    let text = front(worked.script, bytes);
    let mut script = Broken {
        text,
        step: 3,
        kind,
    };
    let mut out = Vec::new(alloc);
    let mut shelf = MemoryShelf::new(alloc, None);
    let mut screen = Screen::new(&mut out, NoWitness);
    run(session, &mut script, &mut screen, &mut shelf) == Err(RunFault::ReadFailed)
        && out.as_slice() == front(worked.printed, stop.printed)
        && stands(stop, session, &shelf)
}

fn is_read_once(alloc: Global, worked: Worked<'_>, bytes: usize, kind: ErrorKind) -> bool {
    match two_pulses(alloc) {
        Some(mut session) => is_read(alloc, &mut session, worked, bytes, kind),
        None => false,
    }
}

/// What cannot be read is each byte of the script in turn, and what comes after the last.
fn check_reads(rt: &impl Abort, alloc: Global, worked: Worked<'_>, kind: ErrorKind) {
    for bytes in 0..=worked.script.len() {
        assert!(rt; is_read_once(alloc, worked, bytes, kind));
    }
}

// An interrupted read ends the run as each other error does.
#[test]
fn a_failed_read_ends_the_run(rt: HostRuntime) {
    check_reads(&rt, rt.alloc(), INVERTED, ErrorKind::Other);
    check_reads(&rt, rt.alloc(), DELETED, ErrorKind::Interrupted);
}

/// Whether an output gets the bytes that it has room for, and the line whose answer was not printed
/// whole is the last one obeyed. `fails`: a full output returns an error; else it takes no byte.
fn is_printed(
    alloc: Global,
    session: &mut Session,
    worked: Worked<'_>,
    room: usize,
    fails: bool,
) -> bool {
    let Some(stop) = first_printing(worked.stops, room) else {
        return false;
    };
    let mut script = worked.script;
    let taken = Vec::new(alloc);
    let mut out = Full { taken, room, fails };
    let mut shelf = MemoryShelf::new(alloc, None);
    let mut screen = Screen::new(&mut out, NoWitness);
    run(session, &mut script, &mut screen, &mut shelf) == Err(RunFault::PrintFailed)
        && out.taken.as_slice() == front(worked.printed, room)
        && stands(stop, session, &shelf)
}

fn is_printed_once(alloc: Global, worked: Worked<'_>, room: usize, fails: bool) -> bool {
    match two_pulses(alloc) {
        Some(mut session) => is_printed(alloc, &mut session, worked, room, fails),
        None => false,
    }
}

fn check_writes(rt: &impl Abort, alloc: Global, worked: Worked<'_>, fails: bool) {
    for room in 0..worked.printed.len() {
        assert!(rt; is_printed_once(alloc, worked, room, fails));
    }
}

#[test]
fn a_failed_write_ends_the_run(rt: HostRuntime) {
    check_writes(&rt, rt.alloc(), INVERTED, true);
    check_writes(&rt, rt.alloc(), INVERTED, false);
    check_writes(&rt, rt.alloc(), DELETED, true);
}

/// What `INVERTED` prints, by the write that fails, from 1: `S3` instead of the count of its bytes.
pub static REFUSED: [(u64, &[u8]); 2] = [
    (
        1,
        b"1 100 110 zero\n2 120 200 position\n3 250 280 zero\n? S3 WriteFailed\n1 100 120 zero\n\
        2 200 280 position\n163\n",
    ),
    (
        2,
        b"1 100 110 zero\n2 120 200 position\n3 250 280 zero\n179\n1 100 120 zero\n\
        2 200 280 position\n? S3 WriteFailed\n",
    ),
];

/// The text of the write that does not fail. `stands` tests neither `read` nor `printed`.
const REFUSED_STOP: Stop = Stop {
    read: 44,
    printed: 91,
    pulses: 2,
    past: 0,
    texts: 1,
};

/// Whether only the line whose write fails is refused; `fails` is its number, from 1.
fn is_put(alloc: Global, session: &mut Session, fails: u64, printed: &[u8]) -> bool {
    let mut script = INVERTED.script;
    let mut out = Vec::new(alloc);
    let mut shelf = MemoryShelf::new(alloc, Some(fails));
    let mut screen = Screen::new(&mut out, NoWitness);
    run(session, &mut script, &mut screen, &mut shelf) == Ok(Status::SomeRefused)
        && out.as_slice() == printed
        && stands(REFUSED_STOP, session, &shelf)
}

fn is_put_once(alloc: Global, fails: u64, printed: &[u8]) -> bool {
    match two_pulses(alloc) {
        Some(mut session) => is_put(alloc, &mut session, fails, printed),
        None => false,
    }
}

#[test]
fn a_failed_put_refuses_its_line(rt: HostRuntime) {
    for (fails, printed) in REFUSED.iter() {
        assert!(rt; is_put_once(rt.alloc(), *fails, printed));
    }
}

fn has_text(alloc: Global, fault: RunFault, text: &str) -> bool {
    match format!(in alloc; "{fault}") {
        Ok(told) => told.as_str() == text,
        Err(_) => false,
    }
}

// No test runs the 2^32 reads that the fault is for: only its text is tested, by `docs/SCRIPT.md`.
#[test]
fn many_reads_have_their_text(rt: HostRuntime) {
    assert!(rt; has_text(rt.alloc(), RunFault::TooManyReads, "S5 TooManyReads"));
}
