//! Pulses that follow one another in step.

ghost use Rattle.std.specs.Prelude.{◌≡◌, ◌<◌, ◌≤◌, ◌+◌, ◌^◌, IfSome, length, option_map, slice_get};
ghost use Rattle.irig_recording.specs.declared.pulse.Pulse.{Pulse};
ghost use Rattle.irig_times.specs.Steps.{follows_at, is_regular};
ghost use Rattle.irig_times.specs.Steps.{is_as_long, is_even_at, is_in_step_at, step_at};

use irig_codes::{Format, in_step};
use irig_recording::Pulse;
use irig_track::Lens;

/// Pulse `number` of the track, from 0; `None` if there is no such pulse.
pub fn pulse_at(pulses: &mut Lens<'_>, number: usize) -> Option<Pulse>
    ensures pulse { result ≡ slice_get pulses.old.track.pulses number }
    ensures low { IfSome result (λ p. p.rise ≤ 2 ^ 40) }
    ensures pulses { pulses.new.track ≡ pulses.old.track }
{
    if number < pulses.len() {
        Some(pulses.pulse(number))
    } else {
        None
    }
}

/// Whether the step to pulse `number` is regular, and as long as those next to it. By the first
/// test alone a rise could be late by two tenths if the clock is a tenth fast.
pub fn is_in_step_at(pulses: &mut Lens<'_>, format: Format, number: usize) -> bool
    requires { number < 2 ^ 33 }
    ensures step { result ≡ is_in_step_at format pulses.old.track.pulses number }
    ensures pulses { pulses.new.track ≡ pulses.old.track }
{
    follows_at(pulses, format, number) && is_even_at(pulses, format, number)
}

/// Whether the step to pulse `number` is regular: one interval long, to a tenth.
fn follows_at(pulses: &mut Lens<'_>, format: Format, number: usize) -> bool
    ensures step { result ≡ follows_at format pulses.old.track.pulses number }
    ensures pulses { pulses.new.track ≡ pulses.old.track }
{
    if number == 0 {
        return false;
    }
    let before = pulse_at(pulses, number - 1);
    let here = pulse_at(pulses, number);
    is_regular(format, before, here)
}

fn is_regular(format: Format, before: Option<Pulse>, here: Option<Pulse>) -> bool
    ensures { result ≡ is_regular format before here }
{
    match (before, here) {
        (Some(before), Some(here)) => in_step(format, here.rise.saturating_sub(before.rise)),
        (Some(_), None) => false,
        (None, Some(_)) => false,
        (None, None) => false,
    }
}

/// The step to pulse `number`; 0, which is not regular, if one of its pulses is not there.
fn step_at(pulses: &mut Lens<'_>, number: usize) -> u64
    ensures step { result ≡ step_at pulses.old.track.pulses number }
    ensures low { result ≤ 2 ^ 40 }
    ensures pulses { pulses.new.track ≡ pulses.old.track }
{
    if number == 0 {
        return 0;
    }
    let before = pulse_at(pulses, number - 1);
    let here = pulse_at(pulses, number);
    match (before, here) {
        (Some(before), Some(here)) => here.rise.saturating_sub(before.rise),
        (Some(_), None) => 0,
        (None, Some(_)) => 0,
        (None, None) => 0,
    }
}

/// Also true if `other` is not regular: then it shows nothing of how fast the clock is.
fn is_as_long(format: Format, step: u64, other: u64) -> bool
    requires { (step ≤ 2 ^ 40) × (other ≤ 2 ^ 40) }
    ensures { result ≡ is_as_long format step other }
{
    if in_step(format, other) {
        10 * step.abs_diff(other) <= other
    } else {
        true
    }
}

/// For pulse 0 the step before it is taken as its own, which is 0.
fn is_even_at(pulses: &mut Lens<'_>, format: Format, number: usize) -> bool
    requires { number < 2 ^ 33 }
    ensures even { result ≡ is_even_at format pulses.old.track.pulses number }
    ensures pulses { pulses.new.track ≡ pulses.old.track }
{
    let before = step_at(pulses, number.saturating_sub(1));
    let step = step_at(pulses, number);
    let after = step_at(pulses, number + 1);
    is_as_long(format, step, before) && is_as_long(format, step, after)
}
