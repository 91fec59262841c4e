//! The intervals of the clock, measured.

ghost use Rattle.std.specs.Prelude.{◌≡◌, ◌*◌, ◌^◌, ◌<◌, ◌≤◌, All, IfOk, length, map};
ghost use Rattle.irig_explaining.specs.Clocks.{interval_of, is_hardly_off, mean, middle_at};
ghost use Rattle.irig_explaining.specs.Folds.{IsFar};

use crate::distance::Distance;
use crate::median::nearest;
use crate::table::HALF;
use std::alloc::{AllocError, Global};

fn is_hardly_off(at: u64, spread: u64, distance: Distance) -> bool
    requires far { IsFar distance }
    requires spread { spread < 2 ^ 32 }
    ensures { result ≡ is_hardly_off at spread distance }
{
    distance.single().abs_diff(at) <= 3 * spread
}

/// The mean of those that are.
fn mean(at: u64, spread: u64, distances: &[Distance]) -> u64
    requires far { All IsFar distances.now }
    requires few { length distances.now ≤ 31 }
    requires spread { spread < 2 ^ 32 }
    ensures { result ≡ mean at spread distances.now }
{
    let mut far = 0;
    let mut count = 0;
    for distance in distances {
        if is_hardly_off(at, spread, *distance) {
            far += distance.far;
            count += distance.count;
        }
    }
    if count == 0 {
        return at;
    }
    far / count
}

/// The middle one at a place; the interval of the format if there is none.
fn middle_at(nominal: u64, middles: &[u64], place: usize) -> u64
    ensures { result ≡ middle_at nominal middles.now place }
{
    if middles.is_empty() {
        return nominal;
    }
    middles[place.min(middles.len() - 1)]
}

fn interval_of(
    nominal: u64,
    spread: u64,
    distances: &[Distance],
    middles: &[u64],
    place: usize,
) -> u64
    requires some { 0 < nominal }
    requires nominal { nominal ≤ 2 ^ 25 }
    requires spread { spread < 2 ^ 32 }
    requires far { All IsFar distances.now }
    ensures exact { result ≡ interval_of nominal spread distances.now middles.now place }
    ensures some { 0 < result }
    ensures short { result ≤ 2 * nominal }
{
    let at = middle_at(nominal, middles, place);
    let mean = mean(at, spread, nearest(distances, HALF, place));
    mean.max(1).min(2 * nominal)
}

pub(crate) fn intervals(
    alloc: Global,
    nominal: u64,
    spread: u64,
    distances: &[Distance],
    middles: &[u64],
    places: &[usize],
) -> Result<Vec<u32>, AllocError>
    requires some { 0 < nominal }
    requires nominal { nominal ≤ 2 ^ 25 }
    requires spread { spread < 2 ^ 32 }
    requires far { All IsFar distances.now }
    ensures exact { IfOk result (λ found. found.items
        ≡ map (interval_of nominal spread distances.now middles.now) places.now) }
    ensures steady { IfOk result (λ found. All (λ i. (0 < i) × (i ≤ 2 * nominal)) found.items) }
{
    let mut intervals = Vec::new(alloc);
    for place in places {
        intervals.push(interval_of(nominal, spread, distances, middles, *place) as u32)?;
    }
    Ok(intervals)
}
