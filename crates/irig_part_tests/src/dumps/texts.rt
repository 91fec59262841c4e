//! What is written of recordings.

use crate::edges::most_edges;
use irig_recording::{Recording, text};
use irig_vcd::{VcdFault, read};
use std::alloc::{AllocError, Global};

/// The error is that memory ran out: no test has edges that are no recording.
fn lines_of(alloc: Global, length: u64, edges: &[u64]) -> Result<Vec<u8>, AllocError> {
    match Recording::new(alloc, length, edges)? {
        Some(recording) => text(alloc, &recording),
        None => Err(AllocError),
    }
}

/// A recording of length 0 without a pulse.
const EMPTY: &[u8] = b"$timescale 1 us $end
$scope module irig $end
$var wire 1 ! code $end
$upscope $end
$enddefinitions $end
#0
$dumpvars
0!
$end
";

/// A length and edges, and their text, by hand from the format of dumps, from a byte on: byte 104
/// is after the declarations, byte 125 after the values at time 0 too.
static TEXTS: [(u64, &[u64], usize, &[u8]); 3] = [
    (0, &[], 0, EMPTY),
    (
        // A rise at 0 is a value at time 0. The last fall is at the length, which has no own line.
        70,
        &[0, 5, 9, 70],
        104,
        b"#0\n$dumpvars\n1!\n$end\n#5\n0!\n#9\n1!\n#70\n0!\n",
    ),
    // The length has a line without a value.
    (1000, &[100, 120], 125, b"#100\n1!\n#120\n0!\n#1000\n"),
];

fn is_text(alloc: Global, length: u64, edges: &[u64], from: usize, text: &[u8]) -> bool {
    match lines_of(alloc, length, edges) {
        Ok(lines) => lines.as_slice().get(from..) == Some(text),
        Err(_) => false,
    }
}

#[test]
fn lines_are_written(rt: HostRuntime) {
    for (length, edges, from, text) in TEXTS.iter() {
        assert!(rt; is_text(rt.alloc(), *length, edges, *from, text));
    }
}

/// The dump of 2^22 pulses, of 1 microsecond each and 1 apart, with the length 8,388,608.
fn full_dump(alloc: Global) -> Result<Vec<u8>, AllocError> {
    let edges = most_edges(alloc)?;
    lines_of(alloc, 1 << 23, edges.as_slice())
}

/// Whether a dump is read as that many pulses, or with that fault; `read` takes at most 2^28 bytes.
fn has_count(alloc: Global, dump: &[u8], want: Result<usize, VcdFault>) -> bool {
    if dump.len() > 1 << 28 {
        return false;
    }
    match read(alloc, dump, None) {
        Ok(recording) => want == Ok(recording.pulses().len()),
        Err(fault) => want == Err(fault),
    }
}

/// One more pulse, which rises at the last time of a full dump.
const MORE: &[u8] = b"1!\n#8388609\n0!\n";

fn takes_no_more(alloc: Global, dump: &mut Vec<u8>) -> bool {
    has_count(alloc, dump.as_slice(), Ok(1 << 22))
        && dump.extend_from_slice(MORE).is_ok()
        && has_count(alloc, dump.as_slice(), Err(VcdFault::TooManyPulses))
}

#[test]
fn a_pulse_above_the_limit_is_told(rt: HostRuntime) {
    let mut dump = full_dump(rt.alloc()).expect(&rt, "a dump");
    assert!(rt; takes_no_more(rt.alloc(), &mut dump));
}
