//! Tracks of format G, expression 2, their edits, and indexes that are kept next to them.

ghost use Rattle.std.specs.Prelude.{◌≡◌, ◌<◌, ◌≤◌, IfOk, OnOk, MatchOption, IsTrue};
ghost use Rattle.irig_index.specs.Frames.{frames};
ghost use Rattle.irig_track.specs.Splices.{IsSpan};

use crate::edges::track_of;
use irig_codes::{Format, Kind};
use irig_gap::Gap;
use irig_index::{Index, Record};
use irig_track::{Lens, Span, Track};
use std::alloc::{AllocError, Global};
use std::process::Abort;

#[derive(Clone, Copy)]
pub(crate) enum Edit {
    /// From the first time to the second.
    Invert(u64, u64),
    /// One pulse, and how far it moves.
    Move(usize, i64),
    /// The first pulse, and how many go.
    Cut(usize, usize),
}

pub(crate) fn format_g(rt: &impl Abort) -> Format {
    Format::new(Kind::G, 2)
        .ok()
        .expect(rt, "G permits expression 2")
}

/// In a frame of day 1, 00:00:00.01 if `hundredths` is 1, else 00:00:00.00. The units of the day
/// are elements 30 to 33, those of the hundredths 50 to 53.
fn width(hundredths: u64, element: u64) -> u64
    ensures { result < 100 }
{
    if element == 0 || element % 10 == 9 {
        80
    } else if element == 30 || element == 50 && hundredths == 1 {
        50
    } else {
        20
    }
}

/// Pulses 100 apart, the interval of G: of sound frames, or all position identifiers.
fn pulses(alloc: Global, count: u64, are_sound: bool) -> Result<Track, AllocError>
    requires { count ≤ 1000000 }
{
    let mut edges = Vec::new(alloc);
    for place in 0..count {
        let sound = width(place / 100, place % 100);
        edges.push(100 * place)?;
        edges.push(100 * place + if are_sound { sound } else { 80 })?;
    }
    track_of(alloc, 100 * count, edges.as_slice())
}

/// Element e of frame k rises at (100 k + e) * 100.
pub(crate) fn sound(alloc: Global, count: u64) -> Result<Track, AllocError>
    requires { count ≤ 1000000 }
{
    pulses(alloc, count, true)
}

/// Eight in step: all but the first are markers, as each has one before it.
pub(crate) fn positions(alloc: Global) -> Result<Track, AllocError> {
    pulses(alloc, 8, false)
}

/// An error also leaves the track as it was.
fn cut(
    alloc: Global,
    track: &mut Track,
    at: usize,
    count: usize,
) -> Result<Option<Span>, AllocError>
    ensures micros { OnOk result (track.new.micros ≡ track.old.micros) }
    ensures span { IfOk result (λ made. MatchOption made (track.new.pulses ≡ track.old.pulses)
        (λ span. IsSpan span.at span.old span.new track.old.pulses track.new.pulses)) }
{
    let mut put = Gap::new(alloc);
    let mut taken = Gap::new(alloc);
    taken.reserve(count)?;
    if !track.can_splice(at, count, &put) {
        return Ok(None);
    }
    Ok(Some(track.splice(at, count, &mut put, &mut taken)))
}

/// An inversion can make one pulse more, so there is room for one.
fn make(alloc: Global, track: &mut Track, edit: Edit) -> Result<Option<Span>, AllocError>
    ensures micros { OnOk result (track.new.micros ≡ track.old.micros) }
    ensures span { IfOk result (λ made. MatchOption made (track.new.pulses ≡ track.old.pulses)
        (λ span. IsSpan span.at span.old span.new track.old.pulses track.new.pulses)) }
{
    track.reserve(1)?;
    match edit {
        Edit::Invert(from, to) if track.can_toggle(from, to) => Ok(Some(track.toggle(from, to))),
        Edit::Move(pulse, by) if track.can_shift(pulse, pulse, by) => {
            Ok(Some(track.shift(pulse, pulse, by)))
        }
        Edit::Cut(at, count) => cut(alloc, track, at, count),
        _ => Ok(None),
    }
}

/// The edit that reverses an edit; a removal is given back as it is. `wrapping_sub` saves a proof
/// that a move is not by -2^63.
pub(crate) fn back(edit: Edit) -> Edit {
    match edit {
        Edit::Move(pulse, by) => Edit::Move(pulse, 0i64.wrapping_sub(by)),
        other => other,
    }
}

/// Whether an index with room for all frames that there are now is repaired with few looks after an
/// edit (`took_few`); true also if the edit cannot be made.
pub(crate) fn repairs(
    alloc: Global,
    track: &mut Track,
    index: &mut Index,
    format: Format,
    edit: Edit,
) -> bool
    requires { index.old.records ≡ frames format track.old.pulses }
    ensures { IsTrue result → index.new.records ≡ frames format track.new.pulses }
{
    // The count is not used: the contract of the call bounds the pulses.
    let _before = track.len();
    let Ok(made) = make(alloc, track, edit) else {
        return false;
    };
    let Some(span) = made else {
        return true;
    };
    let _after = track.len();
    let before = index.looks();
    let count = Index::count(&mut track.lens(), format);
    if index.reserve(count.saturating_sub(index.len())).is_err() {
        return false;
    }
    let mut lens = track.lens();
    index.repair(&mut lens, format, span);
    took_few(&lens, index, before, span.new)
}

/// Whether the index counted each look, at most three for each pulse that came and for each of 200
/// around them: a frame that an edit touches is within a hundred pulses before and after it. The
/// saturating and wrapping calls only save a proof.
fn took_few(lens: &Lens<'_>, index: &Index, before: u64, came: usize) -> bool {
    let most = (came as u64).saturating_add(200).saturating_mul(3);
    lens.looks() <= most && index.looks().wrapping_sub(before) == lens.looks()
}

/// If memory runs out the index stays as it was.
pub(crate) fn rebuilds(index: &mut Index, track: &Track, format: Format) -> bool {
    let mut lens = track.lens();
    let count = Index::count(&mut lens, format);
    if index.reserve(count).is_err() {
        return false;
    }
    index.rebuild(&mut lens, format);
    true
}

pub(crate) fn holds(index: &Index, records: &[Record]) -> bool {
    if index.len() != records.len() {
        return false;
    }
    for k in 0..records.len() {
        if index.record(k) != records[k] {
            return false;
        }
    }
    true
}
