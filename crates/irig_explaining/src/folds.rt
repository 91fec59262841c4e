//! The distances of neighbouring rises that are of whole intervals.

ghost use Rattle.std.specs.Prelude.{◌≡◌, ◌++◌, ◌^◌, ◌<◌, ◌≤◌, All, IfOk, IfSome, length, map, true};
ghost use Rattle.std.specs.Option.{option_to_list};
ghost use Rattle.irig_explaining.specs.Folds.{first_rise, folded, intervals_in, is_near, places, single};
ghost use Rattle.irig_explaining.specs.Folds.{whole};
ghost use Rattle.irig_explaining.specs.Looks.{IsTimely};
ghost use Rattle.irig_explaining.specs.Folds.{IsFar};

use crate::distance::Distance;
use crate::pulse::Pulse;
use crate::table::PART;
use std::alloc::{AllocError, Global};

/// Whether a distance is of that many intervals, one to three, give or take an eighth.
fn is_near(nominal: u64, far: u64, count: u64) -> bool
    requires nominal { nominal ≤ 2 ^ 25 }
    requires far { far ≤ 2 ^ 48 }
    ensures exact { result ≡ is_near nominal far count }
    ensures few { result ≡ true → (0 < count) × (count < 4) }
{
    if count == 0 || 4 <= count {
        return false;
    }
    8 * far.abs_diff(count * nominal) <= count * nominal
}

/// A distance, if it is of whole intervals.
fn whole(nominal: u64, far: u64) -> Option<Distance>
    requires some { 0 < nominal }
    requires nominal { nominal ≤ 2 ^ 25 }
    requires far { far ≤ 2 ^ 48 }
    ensures exact { result ≡ whole nominal far }
    ensures far { IfSome result IsFar }
{
    let count = (2 * far + nominal) / (2 * nominal);
    if is_near(nominal, far, count) {
        Some(Distance { far, count })
    } else {
        None
    }
}

fn first_rise(pulses: &[Pulse]) -> u64
    requires { All IsTimely pulses.now }
    ensures exact { result ≡ first_rise pulses.now }
    ensures early { result ≤ 2 ^ 40 }
{
    match pulses {
        [pulse, ..] => pulse.rise,
        [] => 0,
    }
}

/// Adds a distance to others, if it is of whole intervals.
fn push_whole(distances: &mut Vec<Distance>, nominal: u64, far: u64) -> Result<(), AllocError>
    requires some { 0 < nominal }
    requires nominal { nominal ≤ 2 ^ 25 }
    requires far { far ≤ 2 ^ 48 }
    requires others { All IsFar distances.old.items }
    ensures exact { IfOk result (λ _. distances.new.items
        ≡ distances.old.items ++ option_to_list (whole nominal far)) }
    ensures far { IfOk result (λ _. All IsFar distances.new.items) }
{
    if let Some(distance) = whole(nominal, far) {
        distances.push(distance)?;
    }
    Ok(())
}

fn whole_count(nominal: u64, far: u64) -> usize
    requires some { 0 < nominal }
    requires nominal { nominal ≤ 2 ^ 25 }
    requires far { far ≤ 2 ^ 48 }
    ensures exact { result ≡ length (option_to_list (whole nominal far)) }
    ensures few { result ≤ 1 }
{
    match whole(nominal, far) {
        Some(_) => 1,
        None => 0,
    }
}

/// Those of neighbouring rises.
pub(crate) fn folded(
    alloc: Global,
    nominal: u64,
    pulses: &[Pulse],
) -> Result<Vec<Distance>, AllocError>
    requires some { 0 < nominal }
    requires nominal { nominal ≤ 2 ^ 25 }
    requires timely { All IsTimely pulses.now }
    ensures exact { IfOk result (λ distances. distances.items ≡ folded nominal pulses.now) }
    ensures far { IfOk result (λ distances. All IsFar distances.items) }
{
    let mut distances = Vec::new(alloc);
    let mut before = first_rise(pulses);
    for pulse in pulses {
        let far = PART * pulse.rise.saturating_sub(before);
        push_whole(&mut distances, nominal, far)?;
        before = pulse.rise;
    }
    Ok(distances)
}

/// For each rise how many of these distances come before it.
pub(crate) fn places(
    alloc: Global,
    nominal: u64,
    pulses: &[Pulse],
) -> Result<Vec<usize>, AllocError>
    requires some { 0 < nominal }
    requires nominal { nominal ≤ 2 ^ 25 }
    requires timely { All IsTimely pulses.now }
    ensures { IfOk result (λ found. found.items ≡ places nominal pulses.now) }
{
    let mut places = Vec::new(alloc);
    let mut before = first_rise(pulses);
    let mut place = 0;
    for pulse in pulses {
        place += whole_count(nominal, PART * pulse.rise.saturating_sub(before));
        places.push(place)?;
        before = pulse.rise;
    }
    Ok(places)
}

pub(crate) fn singles(alloc: Global, distances: &[Distance]) -> Result<Vec<u64>, AllocError>
    requires { All IsFar distances.now }
    ensures { IfOk result (λ found. found.items ≡ map single distances.now) }
{
    let mut singles = Vec::new(alloc);
    for distance in distances {
        singles.push(distance.single())?;
    }
    Ok(singles)
}
