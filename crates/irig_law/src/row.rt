//! The pulses after a frame's marker, or before it. `Lens` shows the pulses of a track, which is at
//! most 2^40 microseconds long, and counts from 0. Bounds in `requires`, as 2 ^ 31, only keep sums
//! in their types.

ghost use Rattle.std.specs.Prelude.{◌≡◌, ◌<◌, ◌≤◌, ◌+◌, ◌^◌, slice_get};
ghost use Rattle.irig_times.specs.Steps.{micros_between};
ghost use Rattle.irig_law.specs.Rows.{half_in, is_clean, is_half_clean, is_joined, place_in};
ghost use Rattle.irig_law.specs.Rows.{rise_in, runs_in};

use irig_codes::Format;
use irig_times::{is_in_step_at, pulse_at};
use irig_track::Lens;

/// The pulses from a frame's marker on, which is number 0 of them, or back from it.
#[derive(Clone, Copy)]
pub struct Row {
    /// The number of the marker in the track.
    pub marker: usize,
    pub is_back: bool,
}

/// How long after one pulse another one rises, in microseconds; 0 if one of them is not there.
pub fn micros_between(pulses: &mut Lens<'_>, one: usize, other: usize) -> u64
    ensures micros { result ≡ micros_between pulses.old.track.pulses one other }
    ensures low { result ≤ 2 ^ 40 }
    ensures pulses { pulses.new.track ≡ pulses.old.track }
{
    let from = pulse_at(pulses, one);
    let to = pulse_at(pulses, other);
    match (from, to) {
        (Some(from), Some(to)) => to.rise.saturating_sub(from.rise),
        (Some(_), None) => 0,
        (None, Some(_)) => 0,
        (None, None) => 0,
    }
}

/// The number in the track of a pulse of a row.
pub fn place_in(row: &Row, place: usize) -> usize
    requires { (row.now.marker < 2 ^ 31) × (place < 2 ^ 31) }
    ensures is { result ≡ place_in row.now place }
    ensures low { result < 2 ^ 32 }
{
    if row.is_back {
        row.marker.saturating_sub(place)
    } else {
        row.marker + place
    }
}

/// How long after the marker a pulse of a row rises, or before it.
pub fn rise_in(pulses: &mut Lens<'_>, row: &Row, place: usize) -> u64
    requires { (row.now.marker < 2 ^ 31) × (place < 2 ^ 31) }
    ensures rise { result ≡ rise_in pulses.old.track.pulses row.now place }
    ensures low { result ≤ 2 ^ 40 }
    ensures pulses { pulses.new.track ≡ pulses.old.track }
{
    let number = place_in(row, place);
    if row.is_back {
        micros_between(pulses, number, row.marker)
    } else {
        micros_between(pulses, row.marker, number)
    }
}

/// Whether a pulse is in step with the one before it, or one of them is not there.
fn is_joined(pulses: &mut Lens<'_>, format: Format, number: usize) -> bool
    requires { number < 2 ^ 33 }
    ensures joined { result ≡ is_joined format pulses.old.track.pulses number }
    ensures pulses { pulses.new.track ≡ pulses.old.track }
{
    number == 0 || pulses.len() <= number || is_in_step_at(pulses, format, number)
}

/// Whether the two pulses before one and the two after it are in step with it, as far as they are
/// there. So it is no noise.
pub fn is_clean(pulses: &mut Lens<'_>, format: Format, number: usize) -> bool
    requires { number < 2 ^ 32 }
    ensures clean { result ≡ is_clean format pulses.old.track.pulses number }
    ensures pulses { pulses.new.track ≡ pulses.old.track }
{
    number < pulses.len()
        && is_joined(pulses, format, number.saturating_sub(1))
        && is_joined(pulses, format, number)
        && is_joined(pulses, format, number + 1)
        && is_joined(pulses, format, number + 2)
}

/// Whether the two pulses before one, or the two after it, are in step with it.
fn is_half_clean(pulses: &mut Lens<'_>, format: Format, number: usize) -> bool
    requires { number < 2 ^ 32 }
    ensures clean { result ≡ is_half_clean format pulses.old.track.pulses number }
    ensures pulses { pulses.new.track ≡ pulses.old.track }
{
    number < pulses.len()
        && (is_joined(pulses, format, number.saturating_sub(1)) && is_joined(pulses, format, number)
            || is_joined(pulses, format, number + 1) && is_joined(pulses, format, number + 2))
}

/// Whether a pulse of a row is no noise.
pub fn runs_in(pulses: &mut Lens<'_>, format: Format, row: &Row, place: usize) -> bool
    requires { (row.now.marker < 2 ^ 31) × (place < 2 ^ 31) }
    ensures runs { result ≡ runs_in format pulses.old.track.pulses row.now place }
    ensures pulses { pulses.new.track ≡ pulses.old.track }
{
    is_clean(pulses, format, place_in(row, place))
}

/// Whether two pulses on one side of a pulse of a row are in step with it.
pub fn half_in(pulses: &mut Lens<'_>, format: Format, row: &Row, place: usize) -> bool
    requires { (row.now.marker < 2 ^ 31) × (place < 2 ^ 31) }
    ensures half { result ≡ half_in format pulses.old.track.pulses row.now place }
    ensures pulses { pulses.new.track ≡ pulses.old.track }
{
    is_half_clean(pulses, format, place_in(row, place))
}
