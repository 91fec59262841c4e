//! The control functions of frames whose pulses are odd: not as wide as others.

ghost use Rattle.std.specs.Prelude.{◌≡◌, ◌++◌, ◌<◌, IfOk, OnOk};
ghost use Rattle.irig_safety.specs.OddFunctions.{has_odd, is_odd_of, odd_if, odd_of};

use crate::controls::{function_element, functions};
use crate::others::is_of_time;
use crate::shown::Shown;
use crate::widths::is_odd;
use irig_codes::Format;
use irig_recording::Pulse;
use std::alloc::{AllocError, Global};

/// A frame, and a control function of it whose pulse is odd.
#[derive(Clone, Copy)]
pub struct Odd {
    pub frame: Shown,
    pub function: u32,
}

/// The control functions of a frame whose pulses are odd, by the pulses from its `marker` on.
pub fn odd_of(
    alloc: Global,
    format: Format,
    pulses: &[Pulse],
    marker: usize,
    frame: &Shown,
) -> Result<Vec<Odd>, AllocError>
    ensures { IfOk result (λ odd. odd.items ≡ odd_of format pulses.now marker frame.now) }
{
    let mut odd = Vec::new(alloc);
    for function in 0..functions(format) {
        let element = function_element(format, function);
        let is_odd_pulse = is_odd(format, pulses, marker, element);
        add_if(&mut odd, is_odd_pulse, frame, function)?;
    }
    Ok(odd)
}

fn add_if(
    odd: &mut Vec<Odd>,
    is_odd_pulse: bool,
    frame: &Shown,
    function: u32,
) -> Result<(), AllocError>
    ensures { OnOk result
        (odd.new.items ≡ odd.old.items ++ odd_if is_odd_pulse frame.now function) }
{
    if is_odd_pulse {
        odd.push(Odd {
            frame: *frame,
            function,
        })?;
    }
    Ok(())
}

/// Whether `odd` has this control function of a frame with the rise and the time of `frame`.
pub fn has_odd(odd: &[Odd], frame: &Shown, function: u32) -> bool
    ensures { result ≡ has_odd odd.now frame.now function }
{
    for one in odd {
        if is_odd_of(one, frame, function) {
            return true;
        }
    }
    false
}

/// The rise alone is not enough: if frames may move, another frame can begin when this one did.
fn is_odd_of(odd: &Odd, frame: &Shown, function: u32) -> bool
    ensures { result ≡ is_odd_of odd.now frame.now function }
{
    odd.frame.rise == frame.rise
        && is_of_time(&odd.frame.fields, &frame.fields)
        && odd.function == function
}
