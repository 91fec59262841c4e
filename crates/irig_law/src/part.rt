//! Which element each pulse of a recording is, part by part, and which of them are known at all.
//! `century` is that of years of two digits: 20 for 2000 to 2099. `Lens` shows the pulses of a
//! track.

ghost use Rattle.std.specs.Prelude.{◌≡◌, ◌↔◌, ◌<◌, ◌≤◌, ◌+◌, ◌-◌, ◌^◌, ℕ, IfOk, Some, length};
ghost use Rattle.std.specs.Prelude.{slice_get};
ghost use Rattle.irig_codes.specs.declared.fields.Fields.{Fields};
ghost use Rattle.irig_law.specs.Points.{AreJoined, ArePoints, AreSaid, Knows, points_end, part_begin};
ghost use Rattle.irig_law.specs.Points.{AreFrames, IsPoint};
ghost use Rattle.irig_law.specs.Printed.{printed, true_time};
ghost use Rattle.irig_law.specs.Theorem.{Story};

use crate::ends::{begin_points, end_points};
use crate::frame::Frame;
use crate::point::{Point, said_by_both};
use crate::points::Points;
use crate::stretch::stretch_points;
use irig_codes::Format;
use irig_track::Lens;
use std::alloc::{AllocError, Global};

/// The number of the pulse that a part begins with: the marker of the frame before it. After the
/// last part are `all` pulses.
pub fn part_begin(frames: &[Frame], part: usize, all: usize) -> usize
    ensures { result ≡ part_begin all frames.now part }
{
    if part == 0 {
        return 0;
    }
    if part <= frames.len() {
        frame_at(frames, part - 1).marker
    } else {
        all
    }
}

/// Which element each pulse of a part of a recording is by the law of time, if it is known.
/// `frames` are the frames that are believed, in order. Parts come one after another, and `before`
/// are the points of the part before. Fails only if memory runs out.
///
/// If what happened to the recording is one of the stories (`Story`), the time of each is the true
/// one.
pub fn part_points(
    alloc: Global,
    pulses: &mut Lens<'_>,
    frames: &[Frame],
    format: Format,
    century: u32,
    part: usize,
    before: &Points,
) -> Result<Points, AllocError>
    requires century { century ≤ 99 }
    requires frames { AreFrames pulses.old.track.pulses frames.now }
    requires part { part ≤ length frames.now }
    requires before { (n : ℕ) → part ≡ n + 1
        → AreSaid format century pulses.old.track.pulses frames.now n before.now }
    ensures said { IfOk result (λ p. part < length frames.now
        → AreSaid format century pulses.old.track.pulses frames.now part p) }
    ensures points { IfOk result (λ p.
        ArePoints format century pulses.old.track.pulses frames.now part p) }
    ensures true_times { IfOk result (λ p. (name : ℕ → ℕ) (sent : ℕ → Fields)
        → Story format century pulses.old.track.pulses frames.now name sent
        → (k : ℕ) (x : Point) → part_begin (length pulses.old.track.pulses) frames.now part ≤ k
        → k < part_begin (length pulses.old.track.pulses) frames.now (part + 1)
        → Knows p k x → printed format x ≡ true_time format sent (name k)) }
    ensures pulses { pulses.new.track ≡ pulses.old.track }
{
    // For the proof alone: the call promises how many pulses there can be.
    let _count = pulses.len();
    if frames.is_empty() {
        return Ok(Points::none(alloc));
    }
    if part == 0 {
        return first_points(alloc, pulses, frames, format);
    }
    if part < frames.len() {
        middle_points(alloc, pulses, frames, format, century, part, before)
    } else {
        last_points(alloc, pulses, frames, format, before)
    }
}

/// The points of the part before the first frame.
fn first_points(
    alloc: Global,
    pulses: &mut Lens<'_>,
    frames: &[Frame],
    format: Format,
) -> Result<Points, AllocError>
    requires frames { AreFrames pulses.old.track.pulses frames.now }
    requires some { 0 < length frames.now }
    requires few { length pulses.old.track.pulses ≤ 2 ^ 26 }
    ensures said { IfOk result (λ p. (century : ℕ)
        → AreSaid format century pulses.old.track.pulses frames.now 0 p) }
    ensures pulses { pulses.new.track ≡ pulses.old.track }
{
    let first = frame_at(frames, 0);
    let points = begin_points(alloc, pulses, format, &first)?;
    Ok(points)
}

/// The points of a part between two frames.
fn middle_points(
    alloc: Global,
    pulses: &mut Lens<'_>,
    frames: &[Frame],
    format: Format,
    century: u32,
    part: usize,
    before: &Points,
) -> Result<Points, AllocError>
    requires century { century ≤ 99 }
    requires frames { AreFrames pulses.old.track.pulses frames.now }
    requires part { (0 < part) × (part < length frames.now) }
    requires few { length pulses.old.track.pulses ≤ 2 ^ 26 }
    requires before { AreSaid format century pulses.old.track.pulses frames.now (part - 1)
        before.now }
    ensures said { IfOk result (λ p.
        AreSaid format century pulses.old.track.pulses frames.now part p) }
    ensures pulses { pulses.new.track ≡ pulses.old.track }
{
    let from = frame_at(frames, part - 1);
    let to = frame_at(frames, part);
    let list = stretch_points(alloc, pulses, format, century, &from, &to)?;
    Ok(joined(list, from.marker, before))
}

/// The points of the part after the last frame.
fn last_points(
    alloc: Global,
    pulses: &mut Lens<'_>,
    frames: &[Frame],
    format: Format,
    before: &Points,
) -> Result<Points, AllocError>
    requires frames { AreFrames pulses.old.track.pulses frames.now }
    requires some { 0 < length frames.now }
    requires few { length pulses.old.track.pulses ≤ 2 ^ 26 }
    requires before { (century : ℕ) × AreSaid format century pulses.old.track.pulses frames.now
        (length frames.now - 1) before.now }
    ensures points { IfOk result (λ p. (century : ℕ)
        → AreSaid format century pulses.old.track.pulses frames.now (length frames.now - 1)
        before.now
        → ArePoints format century pulses.old.track.pulses frames.now (length frames.now) p) }
    ensures pulses { pulses.new.track ≡ pulses.old.track }
{
    let last = frame_at(frames, frames.len() - 1);
    let list = end_points(alloc, pulses, format, &last)?;
    Ok(joined(list, last.marker, before))
}

/// The points of a stretch, which begins with the pulse `from`, joined with those of the stretches
/// before it.
fn joined(mut list: Vec<Option<Point>>, from: usize, before: &Points) -> Points
    requires from { (before.now.from ≤ from) × (from ≤ points_end before.now) }
    requires long { points_end before.now ≤ from + length list.items }
    requires small { points_end before.now < 2 ^ 64 }
    ensures from { result.from ≡ from }
    ensures joined { AreJoined before.now from list.items result.list.items
        (points_end before.now - from) }
{
    for place in 0..before.end() - from {
        let said = before.at(from + place);
        let known = known_at(&list, place);
        list[place] = said_by_both(known, said);
    }
    Points { from, list }
}

/// What is known at a place of a list.
fn known_at(list: &[Option<Point>], place: usize) -> Option<Point>
    requires { place < length list.now }
    ensures { slice_get list.now place ≡ Some result }
{
    list[place]
}

/// The frame at a place.
fn frame_at(frames: &[Frame], place: usize) -> Frame
    requires { place < length frames.now }
    ensures { slice_get frames.now place ≡ Some result }
{
    frames[place]
}
