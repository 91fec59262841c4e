//! Whether a frame that read well (`former`), and is another one now (`frame`), is mended by that.

ghost use Rattle.std.specs.Prelude.{◌≡◌, ◌↔◌, IsTrue};
ghost use Rattle.irig_safety.specs.Mended.{Mends, contradicts_from, contradicts_to};
ghost use Rattle.irig_safety.specs.Mended.{is_mended_at_end, is_mended_between, is_refuted};
ghost use Rattle.irig_safety.specs.Mended.{is_time_mended};

use crate::bearing::allows;
use crate::mended_functions::is_control_mended;
use crate::others::is_among;
use crate::shown::Shown;
use crate::terms::Others;
use crate::witnesses::{Witnesses, is_borne};
use irig_codes::Format;

/// Whether the time was wrong and now is right, or only control functions changed, and now are
/// right. Other recordings are asked about the time of the first or the last frame, and about
/// functions that its neighbours do not both have.
pub fn mends(
    format: Format,
    others: &Others,
    near: &Witnesses,
    former: &Shown,
    frame: &Shown,
) -> bool
    ensures { IsTrue result ↔ Mends format others.now near.now.before2 near.now.before former.now
        near.now.after near.now.after2 frame.now }
{
    is_time_mended(format, others, near, former, frame)
        || is_control_mended(format, others, near, former, frame)
}

/// Between two others the frames next to it decide; else another recording has to confirm it.
fn is_time_mended(
    format: Format,
    others: &Others,
    near: &Witnesses,
    former: &Shown,
    frame: &Shown,
) -> bool
    ensures { result ≡ is_time_mended format others.now near.now.before2 near.now.before former.now
        near.now.after near.now.after2 frame.now }
{
    is_mended_between(format, near, former, frame)
        || is_mended_at_end(format, others, near, former, frame)
}

/// Whether the nearest on each side contradict the former time, and the frames bear out the new
/// one.
fn is_mended_between(format: Format, near: &Witnesses, former: &Shown, frame: &Shown) -> bool
    ensures { result ≡ is_mended_between format near.now.before2 near.now.before former.now
        near.now.after near.now.after2 frame.now }
{
    match (near.before, near.after) {
        (Some(before), Some(after)) => {
            !allows(format, &before, former)
                && !allows(format, former, &after)
                && is_borne(format, near, frame)
        }
        _ => false,
    }
}

/// Whether the two next to the first or the last frame contradict the former time and bear out the
/// new one. As a clock that was set would look the same, another recording has to have the new
/// time, and none the former one.
fn is_mended_at_end(
    format: Format,
    others: &Others,
    near: &Witnesses,
    former: &Shown,
    frame: &Shown,
) -> bool
    ensures { result ≡ is_mended_at_end format others.now near.now.before2 near.now.before
        former.now near.now.after near.now.after2 frame.now }
{
    is_refuted(format, near, former)
        && is_borne(format, near, frame)
        && is_among(others.frames.as_slice(), frame)
        && !is_among(others.frames.as_slice(), former)
}

/// Whether one side of a frame is empty, and the two nearest on the other side contradict it.
fn is_refuted(format: Format, near: &Witnesses, former: &Shown) -> bool
    ensures { result ≡ is_refuted format near.now.before2 near.now.before former.now near.now.after
        near.now.after2 }
{
    match (near.before, near.after) {
        (Some(_), None) => {
            contradicts_from(format, near.before2, former)
                && contradicts_from(format, near.before, former)
        }
        (None, Some(_)) => {
            contradicts_to(format, former, near.after)
                && contradicts_to(format, former, near.after2)
        }
        _ => false,
    }
}

fn contradicts_from(format: Format, before: Option<Shown>, frame: &Shown) -> bool
    ensures { result ≡ contradicts_from format before frame.now }
{
    match before {
        Some(before) => !allows(format, &before, frame),
        None => false,
    }
}

fn contradicts_to(format: Format, frame: &Shown, after: Option<Shown>) -> bool
    ensures { result ≡ contradicts_to format frame.now after }
{
    match after {
        Some(after) => !allows(format, frame, &after),
        None => false,
    }
}
