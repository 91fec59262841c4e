//! Which elements pulses are before the first believed frame and after the last one. `after` is
//! what is seen of the pulses from the last frame's marker on, and `before` of those back from the
//! first one's. `Lens` shows the pulses of a track. Bounds in `requires`, as 2 ^ 26, only keep sums
//! in their types.

ghost use Rattle.std.specs.Prelude.{◌≡◌, ◌↔◌, ◌<◌, ◌≤◌, ◌+◌, ◌-◌, ◌^◌, ℕ, IfOk, IsTrue, Some, length};
ghost use Rattle.std.specs.Prelude.{Option, false, if◌then◌else◌, is_some, min, slice_get};
ghost use Rattle.irig_law.specs.{Denials.denies_named, Seens.begin_of, Seens.end_of};
ghost use Rattle.irig_law.specs.Ends.{IsAfterLast, IsBeforeFirst, IsSure, seen_at_end};
ghost use Rattle.irig_law.specs.{Points.points_end, Rows.place_in};
ghost use Rattle.irig_times.specs.TimedElements.{time_elements};

use crate::clocks::{clock_of, end_slack};
use crate::denials::denies_named;
use crate::frame::Frame;
use crate::names::{Seen, Walk, judged_at, moved};
use crate::point::{Point, element_after, element_before, element_in};
use crate::points::Points;
use crate::row::{Row, half_in, place_in, runs_in};
use crate::seens::{in_step, seen_after, seen_before};
use irig_codes::Format;
use irig_times::time_elements;
use irig_track::Lens;
use std::alloc::{AllocError, Global};

/// Whether an end is sure up to some pulse: the frame of the code next to the believed one is in
/// the same hour, and no pulse denies its name.
fn is_sure(pulses: &mut Lens<'_>, format: Format, frame: &Frame, row: &Row, many: usize) -> bool
    requires frame { (frame.now.marker < 2 ^ 26) × (frame.now.time.micros < 61000000) }
    requires row { (row.now.marker < 2 ^ 26) × (many ≤ 2 ^ 26) }
    ensures sure { IsTrue result
        ↔ IsSure format pulses.old.track.pulses frame.now row.now many }
    ensures pulses { pulses.new.track ≡ pulses.old.track }
{
    let hour = is_known(element_in(format, frame, row.is_back, 100));
    let none = none_denies(pulses, format, frame, row, many);
    hour && none
}

/// Whether an element is known.
fn is_known(point: Option<Point>) -> bool
    ensures { result ≡ is_some point }
{
    match point {
        Some(_) => true,
        None => false,
    }
}

/// Whether no pulse of a row denies its name, up to some pulse.
fn none_denies(pulses: &mut Lens<'_>, format: Format, frame: &Frame, row: &Row, many: usize) -> bool
    requires frame { (frame.now.marker < 2 ^ 26) × (frame.now.time.micros < 61000000) }
    requires row { (row.now.marker < 2 ^ 26) × (many ≤ 2 ^ 26) }
    ensures none { IsTrue result ↔ ((k : ℕ) → 0 < k → k < many
        → denies_named format frame.now row.now.is_back
        (slice_get pulses.old.track.pulses (place_in row.now k))
        (seen_at_end format pulses.old.track.pulses frame.now row.now k) ≡ false) }
    ensures pulses { pulses.new.track ≡ pulses.old.track }
{
    let slack = end_slack(pulses, frame);
    let clock = clock_of(pulses, format, frame, slack);
    let mut walk = Walk {
        last: 0,
        element: 0,
    };
    let mut kept = None;
    for place in 1..many {
        let judged = judged_at(pulses, row, &clock, walk, place);
        let half = half_in(pulses, format, row, place);
        let number = place_in(row, place);
        let seen = only_if(half, judged);
        if denies_named(pulses, format, frame, row.is_back, number, seen, &mut kept) {
            return false;
        }
        let runs = runs_in(pulses, format, row, place);
        let firm = only_if(runs, judged);
        walk = moved(walk, place, firm);
    }
    true
}

/// What is seen of a pulse, if it passes a test.
fn only_if(test: bool, seen: Seen) -> Seen
    ensures { result ≡ if test then seen else Seen.Unknown }
{
    if test { seen } else { Seen::Unknown }
}

/// What the last frame says of a pulse, if the end is sure (`none`), and that many are in step.
fn end_point(
    format: Format,
    frame: &Frame,
    none: bool,
    steps: usize,
    number: usize,
) -> Option<Point>
    requires minute { frame.now.time.micros < 61000000 }
    requires place { (frame.now.marker ≤ number) × (number < 2 ^ 32) }
    ensures { result ≡ end_of format frame.now none steps number }
{
    let place = number - frame.marker;
    if number == frame.marker
        || none && number < frame.marker + 200 && (number < frame.marker + 100 || place < steps)
    {
        element_after(format, frame, place as u64)
    } else {
        None
    }
}

/// What the first frame says of a pulse, if the end is sure (`none`), and that many are in step.
fn begin_point(
    format: Format,
    frame: &Frame,
    none: bool,
    steps: usize,
    number: usize,
) -> Option<Point>
    requires minute { frame.now.time.micros < 61000000 }
    requires small { (frame.now.marker < 2 ^ 32) × (number < 2 ^ 32) }
    ensures { result ≡ begin_of format frame.now none steps number }
{
    if !none || number + 100 < frame.marker {
        return None;
    }
    if frame.marker <= number {
        return element_after(format, frame, (number - frame.marker) as u64);
    }
    let back = frame.marker - number;
    if back < steps {
        element_before(format, frame, back as u64)
    } else {
        None
    }
}

/// What the last frame says of all pulses from its marker on: a list of `many`.
fn end_list(
    alloc: Global,
    format: Format,
    frame: &Frame,
    none: bool,
    steps: usize,
    many: usize,
) -> Result<Vec<Option<Point>>, AllocError>
    requires minute { frame.now.time.micros < 61000000 }
    requires small { (frame.now.marker < 2 ^ 26) × (many ≤ 2 ^ 26) }
    ensures each { IfOk result (λ list. length list.items ≡ many) }
    ensures points { IfOk result (λ list. (i : ℕ) (y : Option Point)
        → slice_get list.items i ≡ Some y
        → y ≡ end_of format frame.now none steps (frame.now.marker + i)) }
{
    let mut list = Vec::new(alloc);
    for place in 0..many {
        list.push(end_point(format, frame, none, steps, frame.marker + place))?;
    }
    Ok(list)
}

/// What the first frame says of the pulses from one up to another one.
fn begin_list(
    alloc: Global,
    format: Format,
    frame: &Frame,
    none: bool,
    steps: usize,
    from: usize,
    to: usize,
) -> Result<Vec<Option<Point>>, AllocError>
    requires minute { frame.now.time.micros < 61000000 }
    requires small { (frame.now.marker < 2 ^ 26) × (from ≤ to) × (to < 2 ^ 27) }
    ensures each { IfOk result (λ list. from + length list.items ≡ to) }
    ensures points { IfOk result (λ list. (i : ℕ) (y : Option Point)
        → slice_get list.items i ≡ Some y → y ≡ begin_of format frame.now none steps (from + i)) }
{
    let mut list = Vec::new(alloc);
    for number in from..to {
        list.push(begin_point(format, frame, none, steps, number))?;
    }
    Ok(list)
}

/// The elements of up to two hundred pulses from the last frame's marker on. Fails only if memory
/// runs out.
pub fn end_points(
    alloc: Global,
    pulses: &mut Lens<'_>,
    format: Format,
    frame: &Frame,
) -> Result<Vec<Option<Point>>, AllocError>
    requires minute { frame.now.time.micros < 61000000 }
    requires inside { frame.now.marker < length pulses.old.track.pulses }
    ensures each { IfOk result (λ list.
        length list.items ≡ min (length pulses.old.track.pulses - frame.now.marker) 200) }
    ensures points { IfOk result (λ list. (i : ℕ) (x : Point)
        → (slice_get list.items i ≡ Some (Some x))
        ↔ IsAfterLast format pulses.old.track.pulses frame.now (frame.now.marker + i) x) }
    ensures pulses { pulses.new.track ≡ pulses.old.track }
{
    let all = pulses.len() - frame.marker;
    let many = all.min(200);
    let slack = end_slack(pulses, frame);
    let after = seen_after(alloc, pulses, format, frame, slack, many)?;
    let row = Row {
        marker: frame.marker,
        is_back: false,
    };
    let none = is_sure(pulses, format, frame, &row, all - 1);
    let steps = in_step(&after);
    let list = end_list(alloc, format, frame, none, steps, many)?;
    Ok(list)
}

/// The elements of up to a hundred pulses before the first frame's marker, and of those from it on
/// that carry its time. Fails only if memory runs out.
pub fn begin_points(
    alloc: Global,
    pulses: &mut Lens<'_>,
    format: Format,
    frame: &Frame,
) -> Result<Points, AllocError>
    requires minute { frame.now.time.micros < 61000000 }
    requires inside { frame.now.marker < 2 ^ 26 }
    ensures from { IfOk result (λ p. p.from ≡ frame.now.marker - 100) }
    ensures each { IfOk result (λ p. points_end p ≡ frame.now.marker + time_elements format.kind) }
    ensures points { IfOk result (λ p. (i : ℕ) (x : Point)
        → (slice_get p.list.items i ≡ Some (Some x))
        ↔ IsBeforeFirst format pulses.old.track.pulses frame.now (p.from + i) x) }
    ensures pulses { pulses.new.track ≡ pulses.old.track }
{
    let from = frame.marker.saturating_sub(100);
    let many = frame.marker + 1;
    let slack = end_slack(pulses, frame);
    let before = seen_before(alloc, pulses, format, frame, slack, many - from)?;
    let row = Row {
        marker: frame.marker,
        is_back: true,
    };
    let none = is_sure(pulses, format, frame, &row, many);
    let steps = in_step(&before);
    let end = frame.marker + time_elements(format);
    let list = begin_list(alloc, format, frame, none, steps, from, end)?;
    Ok(Points { from, list })
}
