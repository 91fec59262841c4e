//! A run whose output takes one byte of each write.

use crate::scripts::helpers::two_pulses;
use crate::scripts::stops::INVERTED;
use irig_edit::Session;
use irig_script::{MemoryShelf, NoWitness, Screen, Status, run};
use std::alloc::Global;
use std::io::{self, Write};

#[derive(Drop)]
struct Slow {
    taken: Vec<u8>,
}

impl Write for Slow {
    fn write(&mut self, buf: &[u8]) -> io::Result<usize> {
        let count = buf.len().min(1);
        self.taken.extend_from_slice(&buf[..count])?;
        Ok(count)
    }

    fn flush(&mut self) -> io::Result<()> {
        Ok(())
    }
}

fn is_printed(alloc: Global, session: &mut Session) -> bool {
    let mut script = INVERTED.script;
    let taken = Vec::new(alloc);
    let mut out = Slow { taken };
    let mut shelf = MemoryShelf::new(alloc, None);
    let mut screen = Screen::new(&mut out, NoWitness);
    run(session, &mut script, &mut screen, &mut shelf) == Ok(Status::AllAccepted)
        && out.taken.as_slice() == INVERTED.printed
}

fn is_printed_once(alloc: Global) -> bool {
    match two_pulses(alloc) {
        Some(mut session) => is_printed(alloc, &mut session),
        None => false,
    }
}

// An output may take a part of a write: the rest is written next.
#[test]
fn an_output_that_takes_a_byte_at_a_time_gets_all(rt: HostRuntime) {
    assert!(rt; is_printed_once(rt.alloc()));
}
