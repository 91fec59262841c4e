//! Which recorded pulses are in step with those next to them, and what is in the place of one.

ghost use Rattle.std.specs.Prelude.{◌≡◌, ◌≤◌, ◌-◌, ◌+◌, ◌++◌, IfOk, OnOk, length, min};
ghost use Rattle.irig_safety.specs.InStep.{go_on, is_in_place, is_in_step, is_step, loose_of};
ghost use Rattle.irig_safety.specs.InStep.{rise_at, step_if, steps_among};

use irig_codes::Format;
use irig_recording::Pulse;
use std::alloc::{AllocError, Global};

/// The rises of the loose pulses: in step, and in no frame that read well (`markers`). None if
/// frames may move, since what is at another time then is no loss.
pub fn loose_of(
    alloc: Global,
    moved: bool,
    format: Format,
    pulses: &[Pulse],
    markers: &[usize],
) -> Result<Vec<u64>, AllocError>
    ensures { IfOk result (λ loose. loose.items ≡ loose_of moved format pulses.now markers.now) }
{
    let mut loose = Vec::new(alloc);
    if moved {
        return Ok(loose);
    }
    let mut from = 0;
    for marker in markers {
        add_steps(format, pulses, from, *marker, &mut loose)?;
        from = after_frame(*marker, pulses.len());
    }
    add_steps(format, pulses, from, pulses.len(), &mut loose)?;
    Ok(loose)
}

fn after_frame(marker: usize, count: usize) -> usize
    ensures { result ≡ min (marker + 100) count }
{
    if marker < count && count - marker > 100 {
        marker + 100
    } else {
        count
    }
}

fn add_steps(
    format: Format,
    pulses: &[Pulse],
    from: usize,
    to: usize,
    steps: &mut Vec<u64>,
) -> Result<(), AllocError>
    ensures { OnOk result (steps.new.items
        ≡ steps.old.items ++ steps_among format pulses.now from (to - from)) }
{
    for place in from..to {
        let so = is_in_step(format, pulses, place);
        add_if(steps, so, rise_at(pulses, place))?;
    }
    Ok(())
}

fn add_if(steps: &mut Vec<u64>, so: bool, rise: u64) -> Result<(), AllocError>
    ensures { OnOk result (steps.new.items ≡ steps.old.items ++ step_if so rise) }
{
    if so {
        steps.push(rise)?;
    }
    Ok(())
}

/// False for the first two and the last two.
fn is_in_step(format: Format, pulses: &[Pulse], place: usize) -> bool
    ensures { result ≡ is_in_step format pulses.now place }
{
    1 < place
        && place < pulses.len()
        && 2 < pulses.len() - place
        && go_on(format, pulses, place - 2)
        && go_on(format, pulses, place)
}

fn go_on(format: Format, pulses: &[Pulse], place: usize) -> bool
    requires { place + 2 ≤ length pulses.now }
    ensures { result ≡ go_on format pulses.now place }
{
    is_step(format, rise_at(pulses, place), rise_at(pulses, place + 1))
        && is_step(
            format,
            rise_at(pulses, place + 1),
            rise_at(pulses, place + 2),
        )
}

/// When the pulse at a place rises; 0 if there is none.
fn rise_at(pulses: &[Pulse], place: usize) -> u64
    ensures { result ≡ rise_at pulses.now place }
{
    if place < pulses.len() {
        pulses[place].rise
    } else {
        0
    }
}

/// Whether `other` is an interval after `one`, to a tenth of it.
fn is_step(format: Format, one: u64, other: u64) -> bool
    ensures { result ≡ is_step format one other }
{
    let interval = u128::from(format.interval());
    let distance = 10 * u128::from(other.saturating_sub(one));
    9 * interval <= distance && distance <= 11 * interval
}

/// Whether a pulse rises when a recorded one did, to a tenth of an interval, or falls then, as it
/// does if the recording was turned over there.
pub fn is_in_place(format: Format, pulse: Pulse, time: u64) -> bool
    ensures { result ≡ is_in_place format pulse time }
{
    let interval = u128::from(format.interval());
    let (rise, due) = (10 * u128::from(pulse.rise), 10 * u128::from(time));
    rise <= due + interval && due <= rise + interval || pulse.fall == time
}
