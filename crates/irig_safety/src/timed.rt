//! Whether a frame is in time, to half an interval, by a clock of the frames next to it.

ghost use Rattle.std.specs.Prelude.{◌≡◌, Some};
ghost use Rattle.irig_safety.specs.Witnesses.{is_by_clock_after, is_by_clock_before};
ghost use Rattle.irig_safety.specs.Witnesses.{is_by_near_clock_after, is_by_near_clock_before};
ghost use Rattle.irig_safety.specs.Witnesses.{is_timed};

use crate::clocks::{is_by_clock, is_by_near_clock};
use crate::shown::Shown;
use crate::witnesses::Witnesses;
use irig_codes::Format;

fn is_by_clock_before(format: Format, before2: Option<Shown>, before: &Shown, frame: &Shown) -> bool
    ensures { result ≡ is_by_clock_before format before2 before.now frame.now }
{
    match before2 {
        Some(before2) => is_by_clock(format, &before2, before, before, frame),
        None => false,
    }
}

fn is_by_clock_after(format: Format, frame: &Shown, after: &Shown, after2: Option<Shown>) -> bool
    ensures { result ≡ is_by_clock_after format frame.now after.now after2 }
{
    match after2 {
        Some(after2) => is_by_clock(format, after, &after2, frame, after),
        None => false,
    }
}

/// Close to the two before: they are one period apart, and it is at most two after `before`.
fn is_by_near_clock_before(
    format: Format,
    before2: Option<Shown>,
    before: &Shown,
    frame: &Shown,
) -> bool
    ensures { result ≡ is_by_near_clock_before format before2 before.now frame.now }
{
    match before2 {
        Some(before2) => is_by_near_clock(format, &before2, before, before, frame),
        None => false,
    }
}

/// Close to the two after: they are one period apart, and it is at most two before `after`.
fn is_by_near_clock_after(
    format: Format,
    frame: &Shown,
    after: &Shown,
    after2: Option<Shown>,
) -> bool
    ensures { result ≡ is_by_near_clock_after format frame.now after.now after2 }
{
    match after2 {
        Some(after2) => is_by_near_clock(format, after, &after2, frame, after),
        None => false,
    }
}

/// By the clock of `before` and `after`, or, close to them, of the two before or of the two after.
fn is_timed_between(
    format: Format,
    near: &Witnesses,
    before: &Shown,
    after: &Shown,
    frame: &Shown,
) -> bool
    ensures { result ≡ is_timed format near.now.before2 (Some before.now) (Some after.now)
        near.now.after2 frame.now }
{
    is_by_clock(format, before, after, before, frame)
        || is_by_near_clock_before(format, near.before2, before, frame)
        || is_by_near_clock_after(format, frame, after, near.after2)
}

/// Whether a frame is in time: on one side alone by the clock of the two there, at any distance.
pub fn is_timed(format: Format, near: &Witnesses, frame: &Shown) -> bool
    ensures { result ≡ is_timed format near.now.before2 near.now.before near.now.after
        near.now.after2 frame.now }
{
    match (near.before, near.after) {
        (Some(before), Some(after)) => is_timed_between(format, near, &before, &after, frame),
        (Some(before), None) => is_by_clock_before(format, near.before2, &before, frame),
        (None, Some(after)) => is_by_clock_after(format, frame, &after, near.after2),
        (None, None) => false,
    }
}
