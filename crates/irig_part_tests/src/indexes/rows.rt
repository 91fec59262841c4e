//! Tracks with the frames that they have, worked out by hand.

ghost use Rattle.std.specs.Prelude.{◌≡◌, IsTrue};
ghost use Rattle.irig_index.specs.Frames.{frames};

use super::helpers::{Edit, back, format_g, holds, rebuilds, repairs, sound};
use irig_codes::{Fields, Format, Note};
use irig_index::{
    Cause, Index, Record, Verdict, frames_are_the_markers, verdicts_are_first_faults,
};
use irig_track::{Lens, Track};
use std::alloc::Global;

const SECOND: Verdict = Verdict::Read(
    Fields {
        hundredths: Some(1),
        seconds: 0,
        minutes: 0,
        hours: 0,
        days: 1,
        year: None,
        sbs: None,
        control: None,
    },
    Note::Fine,
);

/// Its marker is pulse 100, after pulse 99. The first frame has no P0 before it, so no record.
static SOUND: [Record; 1] = [Record {
    marker: 100,
    verdict: SECOND,
}];

/// One index is repaired near the edit, another (`other`) rebuilt from the whole track.
fn both_hold(
    alloc: Global,
    track: &mut Track,
    index: &mut Index,
    other: &mut Index,
    edit: Edit,
    records: &[Record],
    format: Format,
) -> bool
    requires { index.old.records ≡ frames format track.old.pulses }
    ensures { IsTrue result → index.new.records ≡ frames format track.new.pulses }
{
    repairs(alloc, track, index, format, edit)
        && rebuilds(other, track, format)
        && holds(index, records)
        && holds(other, records)
}

/// Whether there is the record of the second frame, and just the looks that this takes are counted.
fn is_read(index: &Index, lens: &Lens<'_>) -> bool {
    // After a pulse that is no identifier the pass looks at the one two places later: at 1, 3, 5, 7
    // and 10, 12 .. 98 of the first frame, 49 looks. At 9 and 100 it meets one, and looks at the
    // pulse before it too: 4 looks. The frame of the marker, 100, takes 99 more. The pass continues
    // at that frame's last pulse, 199, an identifier: 2 looks.
    let looks = 49 + 4 + 99 + 2;
    let room = index.room() + index.len() >= 1;
    room && holds(index, &SOUND) && index.looks() == looks && lens.looks() == looks
}

fn is_built(alloc: Global, track: &Track, format: Format) -> bool {
    let mut lens = track.lens();
    match Index::build(alloc, &mut lens, format) {
        Ok(index) => is_read(&index, &lens),
        Err(_) => false,
    }
}

// The two calls at the end are laws of an index, and do nothing as they run.
#[test]
fn a_sound_track_is_read_with_few_looks(rt: HostRuntime) {
    let track = sound(rt.alloc(), 200).expect(&rt, "memory");
    assert!(rt; is_built(rt.alloc(), &track, format_g(&rt)));
    verdicts_are_first_faults();
    frames_are_the_markers();
}

/// An edit of a sound track of two frames, and the records after it.
type Row = (Edit, &'static [Record]);

static ROWS: [Row; 8] = [
    // P0, 9,900 to 9,980, becomes a One, so that no marker is left.
    (Edit::Invert(9_950, 9_980), &[]),
    // P0 out of step with Pr: 120 microseconds apart.
    (Edit::Move(99, -20), &[]),
    (
        // The last element, from 19,900 to 19,980, becomes a Zero.
        Edit::Invert(19_920, 19_980),
        &[Record {
            marker: 100,
            verdict: Verdict::Broken(99, Cause::Class),
        }],
    ),
    (
        // The last pulse goes: the track ends before element 99.
        Edit::Invert(19_900, 19_980),
        &[Record {
            marker: 100,
            verdict: Verdict::Broken(99, Cause::Ended),
        }],
    ),
    // Element 1 becomes a position identifier. Three of them in a row are two markers. For the
    // frame of the second one the next identifier is at 8 instead of 9.
    (
        Edit::Invert(10_120, 10_180),
        &[
            Record {
                marker: 100,
                verdict: Verdict::Broken(1, Cause::Class),
            },
            Record {
                marker: 101,
                verdict: Verdict::Broken(8, Cause::Class),
            },
        ],
    ),
    // A pulse more before the second frame, and one less: its marker has a new number.
    (
        Edit::Invert(8_130, 8_150),
        &[Record {
            marker: 101,
            verdict: SECOND,
        }],
    ),
    (
        Edit::Invert(8_100, 8_120),
        &[Record {
            marker: 99,
            verdict: SECOND,
        }],
    ),
    (
        // Element 40 of the second frame rises 120 microseconds after the one before it.
        Edit::Move(140, 20),
        &[Record {
            marker: 100,
            verdict: Verdict::Broken(40, Cause::Step),
        }],
    ),
];

/// After each row its edit is undone, which gives the records of the sound track.
fn rows_hold(
    alloc: Global,
    track: &mut Track,
    index: &mut Index,
    other: &mut Index,
    format: Format,
) -> bool
    requires { index.old.records ≡ frames format track.old.pulses }
{
    for (edit, records) in ROWS.iter() {
        if !both_hold(alloc, track, index, other, *edit, records, format)
            || !both_hold(alloc, track, index, other, back(*edit), &SOUND, format)
        {
            return false;
        }
    }
    true
}

fn is_repaired(alloc: Global, track: &mut Track, other: &mut Index, format: Format) -> bool {
    match Index::build(alloc, &mut track.lens(), format) {
        Ok(mut index) => rows_hold(alloc, track, &mut index, other, format),
        Err(_) => false,
    }
}

fn are_read(alloc: Global, track: &mut Track, format: Format) -> bool {
    match Index::build(alloc, &mut track.lens(), format) {
        Ok(mut other) => is_repaired(alloc, track, &mut other, format),
        Err(_) => false,
    }
}

#[test]
fn frames_are_read_or_broken_where_they_are(rt: HostRuntime) {
    let mut track = sound(rt.alloc(), 200).expect(&rt, "memory");
    assert!(rt; are_read(rt.alloc(), &mut track, format_g(&rt)));
}

/// A time in microseconds, and how many of 200 pulses rise at or before it.
static RISES: [(u64, usize); 6] = [
    (0, 1),
    (99, 1),
    (100, 2),
    (9_999, 100),
    (19_900, 200),
    (u64::MAX, 200),
];

fn is_found(track: &Track, time: u64, count: usize, looks: u64) -> bool {
    let mut lens = track.lens();
    Index::find(&mut lens, time) == count && lens.looks() <= looks
}

#[test]
fn a_time_is_found_among_the_rises(rt: HostRuntime) {
    let track = sound(rt.alloc(), 200).expect(&rt, "memory");
    for (time, count) in RISES.iter() {
        // 200 has eight binary digits: a search makes at most as many looks.
        assert!(rt; is_found(&track, *time, *count, 8));
    }
}

#[test]
fn a_time_is_found_among_a_million_rises(rt: HostRuntime) {
    let track = sound(rt.alloc(), 1_000_000).expect(&rt, "memory");
    // 1,000,000 has twenty. Pulse 500,000, from 0, rises at 50,000,000.
    assert!(rt; is_found(&track, 50_000_000, 500_001, 20));
}
