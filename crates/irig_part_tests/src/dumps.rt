//! Dumps and what they say, texts and what is read of them.

ghost use Rattle.std.specs.Prelude.{◌≤◌, ◌^◌, length};

mod journals;
mod pieces;
mod texts;
mod units;
mod whole;

use crate::edges::have_edges;
use irig_recording::Recording;
use irig_vcd::{VcdFault, read, read_parts};
use std::alloc::Global;
use std::process::Abort;

/// The declarations of one wire, 63 bytes.
const HEADER: &str = "$timescale 1 us $end $var wire 1 ! c $end $enddefinitions $end ";

/// What a dump has to be read as: a length and edges, or a fault.
#[derive(Clone, Copy)]
enum Wanted {
    Edges(u64, &'static [u64]),
    Fault(VcdFault),
}

/// Changes after `HEADER`, which counts in the offset of a fault, and what they are read as.
type Row = (&'static str, Wanted);

fn is_recording(recording: &Recording, want: &Wanted) -> bool {
    match want {
        Wanted::Edges(length, edges) => {
            recording.length() == *length && have_edges(recording.pulses(), edges)
        }
        Wanted::Fault(_) => false,
    }
}

fn is_fault(told: VcdFault, want: &Wanted) -> bool {
    match want {
        Wanted::Edges(_, _) => false,
        Wanted::Fault(fault) => told == *fault,
    }
}

/// Reads by `read`; `wire` is the name or the code of the wire, `None` the one wire of one bit.
fn is_read(alloc: Global, dump: &[u8], wire: Option<&[u8]>, want: &Wanted) -> bool
    requires { length dump.now ≤ 2 ^ 28 }
{
    match read(alloc, dump, wire) {
        Ok(recording) => is_recording(&recording, want),
        Err(fault) => is_fault(fault, want),
    }
}

/// Reads by `read_parts`, and there is to be no journal.
fn is_read_alone(alloc: Global, dump: &[u8], wire: Option<&[u8]>, want: &Wanted) -> bool
    requires { length dump.now ≤ 2 ^ 28 }
{
    match read_parts(alloc, dump, wire) {
        Ok((recording, journal)) => journal.is_none() && is_recording(&recording, want),
        Err(fault) => is_fault(fault, want),
    }
}

/// Reads in both ways, which take at most 2^28 bytes.
fn is_right(alloc: Global, dump: &[u8], wire: Option<&[u8]>, want: &Wanted) -> bool {
    dump.len() <= 1 << 28
        && is_read(alloc, dump, wire, want)
        && is_read_alone(alloc, dump, wire, want)
}

fn put_texts(dump: &mut Vec<u8>, texts: &[&str]) -> bool {
    for text in texts {
        if dump.extend_from_slice(text.as_bytes()).is_err() {
            return false;
        }
    }
    true
}

/// The dump of these texts, one after another, has one wire, so none is named.
fn are_right(alloc: Global, texts: &[&str], want: &Wanted) -> bool {
    let mut dump = Vec::new(alloc);
    put_texts(&mut dump, texts) && is_right(alloc, dump.as_slice(), None, want)
}

fn check_rows(rt: &impl Abort, alloc: Global, rows: &[Row]) {
    for (changes, want) in rows {
        assert!(rt; are_right(alloc, &[HEADER, changes], want));
    }
}
