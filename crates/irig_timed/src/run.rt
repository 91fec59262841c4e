//! Pulses that follow one another, as elements of one frame of the code.

ghost use Rattle.std.specs.Prelude.{◌≡◌, ◌↔◌, ◌<◌, ◌≤◌, ◌+◌, ◌^◌, ℕ, IfSome, IsTrue, List, OnOk};
ghost use Rattle.std.specs.Prelude.{length};
ghost use Rattle.irig_codes.specs.Format.{FormatView};
ghost use Rattle.irig_recording.specs.declared.pulse.Pulse.{Pulse};
ghost use Rattle.irig_timed.specs.Elements.{AreWith, GoesOn, IsNext, IsWith, kept, longer};
ghost use Rattle.irig_timed.specs.Runs.{AreRunsTo, RunsBy};

use crate::line::is_in_hour;
use irig_codes::{Format, in_step};
use irig_law::{Point, Points, micros_between};
use irig_times::Time;
use irig_track::Lens;
use std::alloc::AllocError;

#[derive(Clone, Copy)]
pub struct Run {
    /// Of its first pulse, from 0.
    pub number: usize,
    /// Of that pulse in its frame, from 0.
    pub element: usize,
    pub count: usize,
    /// Of the frame, at the rise of its marker.
    pub frame: Time,
}

/// A pulse that has a time.
#[derive(Clone, Copy)]
pub struct Place {
    /// From 0.
    pub number: usize,
    pub point: Point,
}

/// How many runs begin before a pulse.
pub fn runs_before(runs: &[Run], number: usize) -> usize
    requires { (f : FormatView) × (ps : List Pulse) × (n : ℕ) × AreRunsTo f ps n runs.now }
    ensures parted { RunsBy runs.now number result }
    ensures within { result ≤ length runs.now }
{
    let mut low = 0;
    let mut high = runs.len();
    while low < high {
        let middle = low + (high - low) / 2;
        if runs[middle].number < number {
            low = middle + 1;
        } else {
            high = middle;
        }
    }
    low
}

/// Adds what points say of the pulses from one up to another one, as far as it is not past the end
/// of the hour. If memory runs out, a part of it is added.
pub fn add_points(
    list: &mut Vec<Run>,
    pulses: &mut Lens<'_>,
    format: Format,
    points: &Points,
    from: usize,
    to: usize,
) -> Result<(), AllocError>
    requires runs { AreRunsTo format pulses.old.track.pulses from list.old.items }
    requires order { from ≤ to }
    requires few { to < 2 ^ 63 }
    ensures with { OnOk result (AreWith format pulses.old.track.pulses list.old.items list.new.items
        points.now from to) }
    ensures pulses { pulses.new.track ≡ pulses.old.track }
{
    for number in from..to {
        let known = kept(format, points.at(number));
        add(list, pulses, format, number, known)?;
    }
    Ok(())
}

/// What is known of a pulse, if it is not past the end of its hour.
fn kept(format: Format, known: Option<Point>) -> Option<Point>
    ensures kept { result ≡ kept format known }
    ensures low { IfSome result (λ x. (x.element < 100) × (x.frame.micros < 61000000)) }
{
    match known {
        Some(point) => {
            if is_in_hour(format, &point) {
                Some(point)
            } else {
                None
            }
        }
        None => None,
    }
}

/// Adds what is known of the next pulse.
fn add(
    list: &mut Vec<Run>,
    pulses: &mut Lens<'_>,
    format: Format,
    number: usize,
    known: Option<Point>,
) -> Result<(), AllocError>
    requires runs { AreRunsTo format pulses.old.track.pulses number list.old.items }
    requires few { number < 2 ^ 63 }
    requires low { IfSome known (λ x. (x.element < 100) × (x.frame.micros < 61000000)) }
    ensures with { OnOk result (IsWith format pulses.old.track.pulses list.old.items list.new.items
        number known) }
    ensures pulses { pulses.new.track ≡ pulses.old.track }
{
    let Some(point) = known else {
        return Ok(());
    };
    if goes_on(list, pulses, format, number, &point) {
        let last = list.len() - 1;
        let more = longer(&list[last]);
        list[last] = more;
        Ok(())
    } else {
        list.push(Run {
            number,
            element: point.element,
            count: 1,
            frame: point.frame,
        })?;
        Ok(())
    }
}

/// Whether a pulse is the next element of the last run, in step.
fn goes_on(
    list: &[Run],
    pulses: &mut Lens<'_>,
    format: Format,
    number: usize,
    point: &Point,
) -> bool
    requires runs { AreRunsTo format pulses.old.track.pulses number list.now }
    requires few { number < 2 ^ 63 }
    ensures on { IsTrue result
        ↔ GoesOn format pulses.old.track.pulses list.now number point.now }
    ensures pulses { pulses.new.track ≡ pulses.old.track }
{
    if list.is_empty() || number == 0 {
        return false;
    }
    let run = list[list.len() - 1];
    let step = micros_between(pulses, number - 1, number);
    in_step(format, step) && is_next(&run, number, point)
}

/// Whether a pulse is the next element of a run.
fn is_next(run: &Run, number: usize, point: &Point) -> bool
    requires { (run.now.number + run.now.count ≤ 2 ^ 63) × (run.now.element + run.now.count ≤ 100) }
    ensures { IsTrue result ↔ IsNext run.now number point.now }
{
    run.number + run.count == number
        && run.element + run.count == point.element
        && run.frame == point.frame
}

/// A run with one pulse more.
fn longer(run: &Run) -> Run
    requires { run.now.count < 2 ^ 63 }
    ensures { result ≡ longer run.now }
{
    Run {
        count: run.count + 1,
        ..*run
    }
}
