//! The control functions of a frame, which its time does not decide: each is one bit, in one
//! element.

ghost use Rattle.std.specs.Prelude.{◌≡◌, ◌<◌, ◌≤◌};
ghost use Rattle.irig_codes.specs.Format.{control_count_of, has_year};
ghost use Rattle.irig_safety.specs.Controls.{is_shared};
ghost use Rattle.irig_safety.specs.Functions.{first_function, function_element, function_of};
ghost use Rattle.irig_safety.specs.Functions.{shares};

use crate::shown::Shown;
use crate::witnesses::Witnesses;
use irig_codes::{Format, Kind, control_count};

/// How many control functions a frame has; 0 if its format carries none.
pub fn functions(format: Format) -> u32
    ensures value { result ≡ control_count_of format }
    ensures few { result ≤ 45 }
{
    control_count(format)
}

/// Its element, by the standard's layout: after the digits of the time, elements 0 to 49. In G the
/// hundredths take ten elements more; so does the year in each format, if it has one.
fn first_function(format: Format) -> usize
    ensures value { result ≡ first_function format.kind (has_year format.expression) }
    ensures few { result ≤ 70 }
{
    match (format.kind(), format.has_year()) {
        (Kind::A | Kind::B | Kind::E, false) => 50,
        (Kind::A | Kind::B | Kind::E, true) => 60,
        (Kind::G, false) => 60,
        (Kind::G, true) => 70,
    }
}

/// Functions are in groups of nine elements, and a position identifier follows each group.
pub fn function_element(format: Format, function: u32) -> usize
    ensures { result ≡ function_element format function }
{
    let function = function as usize;
    first_function(format) + function + function / 9
}

/// 1 or 0; 0 if the frame has no control functions.
pub fn function_of(frame: &Shown, function: u32) -> u64
    requires { function < 64 }
    ensures { result ≡ function_of function frame.now }
{
    (frame.fields.control.unwrap_or(0) >> function) % 2
}

/// Whether `other` is there, and has a control function as `frame` has it.
pub fn shares(other: Option<Shown>, frame: &Shown, function: u32) -> bool
    requires { function < 64 }
    ensures { result ≡ shares function other frame.now }
{
    match other {
        Some(other) => function_of(&other, function) == function_of(frame, function),
        None => false,
    }
}

/// Whether the two former frames nearest to `frame` have a control function as it has it: one on
/// each side, or two on one side if the other has none.
pub fn is_shared(near: &Witnesses, frame: &Shown, function: u32) -> bool
    requires { function < 64 }
    ensures { result ≡ is_shared function near.now frame.now }
{
    let (one, other) = match (near.before, near.after) {
        (_, None) => (near.before2, near.before),
        (None, Some(_)) => (near.after, near.after2),
        (Some(_), Some(_)) => (near.before, near.after),
    };
    shares(one, frame, function) && shares(other, frame, function)
}
