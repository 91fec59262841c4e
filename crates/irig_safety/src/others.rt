//! What other recordings of the same code say of a frame.

ghost use Rattle.std.specs.Prelude.{◌≡◌, ◌<◌, IfOk};
ghost use Rattle.irig_safety.specs.Others.{backed, is_among, is_backed, is_backed_from};
ghost use Rattle.irig_safety.specs.Others.{is_backed_to, is_of_time, is_told, is_vote, votes};

use crate::bearing::agrees;
use crate::controls::function_of;
use crate::near::{frame_at, frame_before};
use crate::shown::Shown;
use irig_codes::{Fields, Format};
use std::alloc::{AllocError, Global};

/// Whether of the frames with the time of `frame` more have a control function as it has it than
/// otherwise.
pub fn is_told(others: &[Shown], frame: &Shown, function: u32) -> bool
    requires { function < 64 }
    ensures { result ≡ is_told function others.now frame.now }
{
    votes(others, frame, function, false) < votes(others, frame, function, true)
}

/// How many have the time of `frame`, and a function as it has it, or if not `same_value`,
/// otherwise.
fn votes(others: &[Shown], frame: &Shown, function: u32, same_value: bool) -> usize
    requires { function < 64 }
    ensures { result ≡ votes same_value function others.now frame.now }
{
    let mut many = 0;
    for other in others {
        if is_vote(other, frame, function, same_value) {
            many += 1;
        }
    }
    many
}

fn is_vote(other: &Shown, frame: &Shown, function: u32, same_value: bool) -> bool
    requires { function < 64 }
    ensures { result ≡ is_vote same_value function other.now frame.now }
{
    if !is_of_time(&other.fields, &frame.fields) {
        return false;
    }
    let same = function_of(other, function) == function_of(frame, function);
    if same_value { same } else { !same }
}

/// Whether one of `others` has the time of `frame`; where it begins does not matter.
pub fn is_among(others: &[Shown], frame: &Shown) -> bool
    ensures { result ≡ is_among others.now frame.now }
{
    for other in others {
        if is_of_time(&other.fields, &frame.fields) {
            return true;
        }
    }
    false
}

/// Whether two frames have the same time of day, day and year. Hundredths that are not there count
/// as 0; a year that is not there as 100, which no year of two digits is.
pub fn is_of_time(one: &Fields, other: &Fields) -> bool
    ensures { result ≡ is_of_time one.now other.now }
{
    one.days == other.days
        && one.hours == other.hours
        && one.minutes == other.minutes
        && one.seconds == other.seconds
        && one.hundredths.unwrap_or(0) == other.hundredths.unwrap_or(0)
        && one.year.unwrap_or(100) == other.year.unwrap_or(100)
}

/// The frames with which the one before or after agrees, in order: one that damage made alone is
/// left out.
pub fn backed(alloc: Global, format: Format, frames: &[Shown]) -> Result<Vec<Shown>, AllocError>
    ensures { IfOk result (λ kept. kept.items ≡ backed format frames.now) }
{
    let mut kept = Vec::new(alloc);
    for place in 0..frames.len() {
        let frame = frames[place];
        if is_backed(
            format,
            frame_before(frames, place),
            &frame,
            frame_at(frames, place + 1),
        ) {
            kept.push(frame)?;
        }
    }
    Ok(kept)
}

fn is_backed(format: Format, before: Option<Shown>, frame: &Shown, after: Option<Shown>) -> bool
    ensures { result ≡ is_backed format before frame.now after }
{
    is_backed_from(format, before, frame) || is_backed_to(format, frame, after)
}

fn is_backed_from(format: Format, before: Option<Shown>, frame: &Shown) -> bool
    ensures { result ≡ is_backed_from format before frame.now }
{
    match before {
        Some(before) => agrees(format, &before, frame),
        None => false,
    }
}

fn is_backed_to(format: Format, frame: &Shown, after: Option<Shown>) -> bool
    ensures { result ≡ is_backed_to format frame.now after }
{
    match after {
        Some(after) => agrees(format, frame, &after),
        None => false,
    }
}
