//! Recordings, tokens and faults by themselves.

use crate::edges::have_edges;
use irig_recording::Recording;
use irig_vcd::{Kind, Tokens, VcdFault};
use std::alloc::Global;

/// A length and edges, and whether they make a recording.
type Row = (u64, &'static [u64], bool);

/// A recording, and edges past the length, touching (a rise at the last fall), a rise alone;
/// lengths of 2^40 and above.
static EDGES: [Row; 6] = [
    (9, &[1, 2, 3, 9], true),
    (8, &[1, 2, 3, 9], false),
    (9, &[1, 2, 2, 9], false),
    (9, &[1, 2, 3], false),
    (1099511627776, &[], true),
    (1099511627777, &[], false),
];

/// Both in the pulses that `pulses` lends and in those that `into_pulses` gives away.
fn gives(recording: Recording, length: u64, edges: &[u64]) -> bool {
    recording.length() == length
        && have_edges(recording.pulses(), edges)
        && have_edges(&recording.into_pulses(), edges)
}

fn is_answered(alloc: Global, (length, edges, accepted): &Row) -> bool {
    match Recording::new(alloc, *length, edges) {
        Ok(Some(recording)) => *accepted && gives(recording, *length, edges),
        Ok(None) => !*accepted,
        Err(_) => false,
    }
}

#[test]
fn edges_that_make_no_recording_give_none(rt: HostRuntime) {
    for row in EDGES.iter() {
        assert!(rt; is_answered(rt.alloc(), row));
    }
}

/// The tokens of the text in the test below, with their places in bytes from 0.
static TOKENS: [(Kind, &[u8], usize); 7] = [
    (Kind::Dollar, b"$var", 1),
    (Kind::Hash, b"#5", 6),
    (Kind::Scalar, b"1!", 10),
    (Kind::Vector, b"b01", 13),
    (Kind::Real, b"r1", 17),
    (Kind::Text, b"sH", 20),
    (Kind::Other, b"U", 24),
];

fn is_next(tokens: &mut Tokens<'_>, (kind, slice, offset): &(Kind, &[u8], usize)) -> bool {
    match tokens.next() {
        Some(token) => token.kind == *kind && token.slice == *slice && token.offset == *offset,
        None => false,
    }
}

fn is_end(tokens: &mut Tokens<'_>) -> bool {
    tokens.next().is_none()
}

#[test]
fn tokens_with_their_places(rt: HostRuntime) {
    // A space, a tab, a line end of two bytes and a vertical tab are all white space.
    let mut tokens = Tokens::new(b" $var\t#5\r\n1! b01 r1 sH \x0bU");
    for row in TOKENS.iter() {
        assert!(rt; is_next(&mut tokens, row));
    }
    assert!(rt; is_end(&mut tokens));
}

/// Faults, and their texts in `docs/FORMATS.md`, without the line of a journal.
static FAULTS: [(VcdFault, &str); 14] = [
    (VcdFault::Unclosed, "V1 Unclosed"),
    (VcdFault::NoTimescale, "V2 NoTimescale"),
    (VcdFault::BadTimescale, "V3 BadTimescale"),
    (VcdFault::BadVar, "V4 BadVar"),
    (VcdFault::NoSuchWire, "V5 NoSuchWire"),
    (VcdFault::ManyWires, "V6 ManyWires"),
    (VcdFault::NotOneBit, "V7 NotOneBit"),
    (VcdFault::NoEndDefinitions, "V8 NoEndDefinitions"),
    (VcdFault::BadToken(63), "V9 BadToken at 63"),
    (VcdFault::Backward(7), "V10 Backward at 7"),
    (VcdFault::TimeTooLarge(0), "V11 TimeTooLarge at 0"),
    (VcdFault::TooManyPulses, "V12 TooManyPulses"),
    (VcdFault::BadJournal(1), "V13 BadJournal"),
    (VcdFault::OutOfMemory, "V14 OutOfMemory"),
];

fn has_text(alloc: Global, fault: VcdFault, text: &str) -> bool {
    match format!(in alloc; "{fault}") {
        Ok(told) => told.as_str() == text,
        Err(_) => false,
    }
}

#[test]
fn faults_have_their_texts(rt: HostRuntime) {
    for (fault, text) in FAULTS.iter() {
        assert!(rt; has_text(rt.alloc(), *fault, text));
    }
}
