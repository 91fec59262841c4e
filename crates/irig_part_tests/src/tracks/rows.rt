//! Rows of a track of two pulses, worked by hand, and a full track.

use super::helpers::{has_edges, pulses_of, shift, splices, toggle};
use crate::edges::{most_edges, track_of};
use irig_gap::Gap;
use irig_track::{Lens, Pulse, Span, Track};
use std::alloc::{AllocError, Global};
use std::process::Abort;

type Place = (usize, usize, usize);

/// A call with its answer; for an edit that is its place, or None if it cannot be made. `Splice`:
/// from which pulse on how many go, and the rise and the fall of the one that comes. `Shift`: which
/// pulses move, first and last, and how far. `Toggle`: from when to when the level is inverted.
#[derive(Clone, Copy)]
enum Call {
    Len(usize),
    Length(u64),
    Room(usize),
    Find(u64, usize),
    Pulse(usize, u64, u64),
    Splice(usize, usize, u64, u64, Option<Place>),
    Shift(usize, usize, i64, Option<Place>),
    Toggle(u64, u64, Option<Place>),
}

/// A call on a new track of two pulses, and the edges that it then has.
type Row = (Call, &'static [u64]);

fn span_of(place: Option<Place>) -> Option<Span> {
    match place {
        Some((at, old, new)) => Some(Span { at, old, new }),
        None => None,
    }
}

fn two_pulses(alloc: Global) -> Result<Track, AllocError> {
    track_of(alloc, 1000, START)
}

fn one_pulse(alloc: Global, rise: u64, fall: u64) -> Result<Gap<Pulse>, AllocError> {
    let mut put = Gap::new(alloc);
    put.reserve(1)?;
    put.put(Pulse { rise, fall });
    Ok(put)
}

fn has_pulse(track: &Track, index: usize, rise: u64, fall: u64) -> bool {
    index < track.len() && track.pulse(index) == Pulse { rise, fall }
}

/// One pulse replaces `count` from `at` on, from 0.
fn splices_one(
    alloc: Global,
    track: &mut Track,
    at: usize,
    count: usize,
    rise: u64,
    fall: u64,
    place: Option<Place>,
) -> bool {
    match one_pulse(alloc, rise, fall) {
        Ok(mut put) => splices(alloc, track, at, count, &mut put, span_of(place)),
        Err(_) => false,
    }
}

fn toggles(track: &mut Track, a: u64, b: u64, place: Option<Place>) -> bool {
    match toggle(track, a, b) {
        Ok(answer) => answer == span_of(place),
        Err(_) => false,
    }
}

fn answers(alloc: Global, track: &mut Track, call: Call) -> bool {
    match call {
        Call::Len(len) => track.len() == len,
        Call::Length(length) => track.length() == length,
        Call::Room(room) => track.room() == room,
        Call::Find(time, count) => track.find(time) == count,
        Call::Pulse(index, rise, fall) => has_pulse(track, index, rise, fall),
        Call::Splice(at, count, rise, fall, place) => {
            splices_one(alloc, track, at, count, rise, fall, place)
        }
        Call::Shift(i, j, by, place) => shift(track, i, j, by) == span_of(place),
        Call::Toggle(a, b, place) => toggles(track, a, b, place),
    }
}

fn is_right(alloc: Global, (call, edges): &Row) -> bool {
    match two_pulses(alloc) {
        Ok(mut track) => { answers(alloc, &mut track, *call) && has_edges(alloc, &track, edges) }
        Err(_) => false,
    }
}

fn check(rt: &impl Abort, alloc: Global, rows: &[Row]) {
    for row in rows {
        assert!(rt; is_right(alloc, row));
    }
}

const START: &[u64] = &[100, 120, 200, 280];

/// A track has at most 2^22 = 4,194,304 pulses; `Find` counts the rises at or before a time.
static PULSES: [Row; 7] = [
    (Call::Len(2), START),
    (Call::Length(1000), START),
    (Call::Room(4_194_302), START),
    (Call::Pulse(1, 200, 280), START),
    (Call::Find(99, 0), START),
    (Call::Find(100, 1), START),
    (Call::Find(u64::MAX, 2), START),
];

#[test]
fn a_track_tells_its_pulses(rt: HostRuntime) {
    check(&rt, rt.alloc(), &PULSES);
}

/// Not made: the pulse touches another, has no width or ends too late; or none are there to go.
static SPLICES: [Row; 8] = [
    (Call::Splice(1, 0, 130, 200, None), START),
    (
        Call::Splice(1, 0, 130, 199, Some((1, 0, 1))),
        &[100, 120, 130, 199, 200, 280],
    ),
    (Call::Splice(0, 2, 0, 1000, Some((0, 2, 1))), &[0, 1000]),
    (Call::Splice(2, 0, 300, 300, None), START),
    (Call::Splice(2, 0, 300, 1001, None), START),
    (Call::Splice(2, 0, 300, u64::MAX, None), START),
    (Call::Splice(3, 0, 300, 400, None), START),
    (Call::Splice(1, usize::MAX, 300, 400, None), START),
];

#[test]
fn a_splice_says_where_it_took_place(rt: HostRuntime) {
    check(&rt, rt.alloc(), &SPLICES);
}

/// Not made: times that are not in order, or after the length.
static TOGGLES: [Row; 7] = [
    (
        Call::Toggle(110, 250, Some((0, 2, 3))),
        &[100, 110, 120, 200, 250, 280],
    ),
    (Call::Toggle(100, 120, Some((0, 1, 0))), &[200, 280]),
    (Call::Toggle(120, 200, Some((0, 2, 1))), &[100, 280]),
    (
        Call::Toggle(130, 150, Some((1, 0, 1))),
        &[100, 120, 130, 150, 200, 280],
    ),
    (Call::Toggle(250, 110, None), START),
    (Call::Toggle(110, 110, None), START),
    (Call::Toggle(110, 1001, None), START),
];

#[test]
fn a_toggle_says_where_it_took_place(rt: HostRuntime) {
    check(&rt, rt.alloc(), &TOGGLES);
}

/// Not made: a pulse would touch another, leave 0 to 1,000, is not there, or `i` is above `j`.
static SHIFTS: [Row; 10] = [
    (Call::Shift(0, 0, 80, None), START),
    (
        Call::Shift(0, 0, 79, Some((0, 1, 1))),
        &[179, 199, 200, 280],
    ),
    (
        Call::Shift(0, 1, 720, Some((0, 2, 2))),
        &[820, 840, 920, 1000],
    ),
    (Call::Shift(0, 1, 721, None), START),
    (Call::Shift(0, 1, -100, Some((0, 2, 2))), &[0, 20, 100, 180]),
    (Call::Shift(0, 1, -101, None), START),
    (Call::Shift(1, 0, 0, None), START),
    (Call::Shift(0, 2, 0, None), START),
    (Call::Shift(0, 1, i64::MIN, None), START),
    (Call::Shift(0, 1, i64::MAX, None), START),
];

#[test]
fn a_shift_says_where_it_took_place(rt: HostRuntime) {
    check(&rt, rt.alloc(), &SHIFTS);
}

/// With time for more in its length.
fn full_track(alloc: Global) -> Result<Track, AllocError> {
    let edges = most_edges(alloc)?;
    track_of(alloc, 8_388_618, edges.as_slice())
}

/// An inversion is possible only if it adds no pulse: from 0 on, it removes a rise. Pulse k, from
/// 0, is from 2k to 2k + 1 microseconds.
fn takes_no_further(track: &Track, put: &Gap<Pulse>) -> bool {
    track.room() == 0
        && !track.can_splice(4_194_304, 0, put)
        && track.can_splice(4_194_303, 1, put)
        && !track.can_toggle(8_388_610, 8_388_611)
        && track.can_toggle(0, 1)
        && track.can_toggle(0, 8_388_610)
}

#[test]
fn a_full_track_takes_no_further_pulse(rt: HostRuntime) {
    let track = full_track(rt.alloc()).expect(&rt, "a track");
    let put = one_pulse(rt.alloc(), 8_388_610, 8_388_611).expect(&rt, "a pulse");
    assert!(rt; takes_no_further(&track, &put));
}

fn shows(lens: &mut Lens<'_>, track: &Track, index: usize) -> bool {
    index < lens.len() && index < track.len() && lens.pulse(index) == track.pulse(index)
}

fn counts_looks(track: &Track) -> bool {
    let mut lens = track.lens();
    lens.len() == 2
        && lens.length() == 1000
        && lens.looks() == 0
        && shows(&mut lens, track, 0)
        && shows(&mut lens, track, 1)
        && lens.looks() == 2
}

fn shows_two(alloc: Global, track: &Track) -> bool {
    match pulses_of(alloc, track) {
        Ok(pulses) => pulses.len() == 2 && counts_looks(track),
        Err(_) => false,
    }
}

#[test]
fn a_lens_counts_its_looks(rt: HostRuntime) {
    let track = two_pulses(rt.alloc()).expect(&rt, "a track");
    assert!(rt; shows_two(rt.alloc(), &track));
}
