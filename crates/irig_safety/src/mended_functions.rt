//! Whether control functions of a frame that read well, which are others now, are mended by that.

ghost use Rattle.std.specs.Prelude.{◌≡◌, ◌↔◌, ◌<◌, ◌⊎◌, IsTrue};
ghost use Rattle.irig_safety.specs.MendedFunctions.{AreFunctionsMended, HasControlOfBoth};
ghost use Rattle.irig_safety.specs.MendedFunctions.{HasControlOfMost, is_by_parity};
ghost use Rattle.irig_safety.specs.MendedFunctions.{is_function_mended, with_control};
ghost use Rattle.irig_safety.specs.OddFunctions.{is_by_width};

use crate::controls::{function_of, functions, shares};
use crate::odd::has_odd;
use crate::others::is_told;
use crate::parity::is_parity_mended;
use crate::shown::{Shown, is_same};
use crate::terms::Others;
use crate::witnesses::{Witnesses, allows_from, allows_to};
use irig_codes::{Fields, Format};

/// Whether only control functions changed, and both frames next to it have just these, or each one
/// that changed is mended for itself.
pub fn is_control_mended(
    format: Format,
    others: &Others,
    near: &Witnesses,
    former: &Shown,
    frame: &Shown,
) -> bool
    ensures { IsTrue result ↔ (HasControlOfBoth near.now.before former.now near.now.after frame.now
        ⊎ HasControlOfMost format others.now near.now.before former.now near.now.after frame.now) }
{
    has_control_of_both(near, former, frame)
        || has_control_of_most(format, others, near, former, frame)
}

/// Whether only control functions changed, and both frames next to it have just these.
fn has_control_of_both(near: &Witnesses, former: &Shown, frame: &Shown) -> bool
    ensures { IsTrue result
        ↔ HasControlOfBoth near.now.before former.now near.now.after frame.now }
{
    match (near.before, near.after) {
        (Some(before), Some(after)) => {
            is_same(&with_control(former, frame.fields.control), frame)
                && both_have(&before, &after, frame.fields.control)
        }
        _ => false,
    }
}

/// `None` is no control functions at all.
fn both_have(one: &Shown, other: &Shown, control: Option<u64>) -> bool
    ensures { IsTrue result
        ↔ (one.now.fields.control ≡ control) × (other.now.fields.control ≡ control) }
{
    one.fields.control == control && other.fields.control == control
}

/// Whether only control functions changed, and other recordings and something here confirm each
/// one.
fn has_control_of_most(
    format: Format,
    others: &Others,
    near: &Witnesses,
    former: &Shown,
    frame: &Shown,
) -> bool
    ensures { IsTrue result ↔ HasControlOfMost format others.now near.now.before former.now
        near.now.after frame.now }
{
    is_same(&with_control(former, frame.fields.control), frame)
        && are_functions_mended(format, others, near, former, frame)
}

fn are_functions_mended(
    format: Format,
    others: &Others,
    near: &Witnesses,
    former: &Shown,
    frame: &Shown,
) -> bool
    ensures { IsTrue result ↔ AreFunctionsMended format others.now near.now.before former.now
        near.now.after frame.now }
{
    for function in 0..functions(format) {
        if !is_function_mended(format, others, near, former, frame, function) {
            return false;
        }
    }
    true
}

/// Whether a control function is as it was or mended: more frames of other recordings have it so
/// than otherwise, and both neighbours have it so, or the parity or the odd pulse says so.
fn is_function_mended(
    format: Format,
    others: &Others,
    near: &Witnesses,
    former: &Shown,
    frame: &Shown,
    function: u32,
) -> bool
    requires { function < 64 }
    ensures { result ≡ is_function_mended format others.now near.now.before former.now
        near.now.after frame.now function }
{
    function_of(former, function) == function_of(frame, function)
        || is_told(others.frames.as_slice(), frame, function)
            && (shares(near.before, frame, function) && shares(near.after, frame, function)
                || is_by_parity(format, others, near, former, frame)
                || is_by_width(others, former, frame, function))
}

/// Whether just one function changed, which gave the frame the parity of other recordings' frames,
/// and no neighbour contradicts its time.
fn is_by_parity(
    format: Format,
    others: &Others,
    near: &Witnesses,
    former: &Shown,
    frame: &Shown,
) -> bool
    ensures { result ≡ is_by_parity format others.now.frames near.now.before former.now
        near.now.after frame.now }
{
    allows_from(format, near.before, frame)
        && allows_to(format, frame, near.after)
        && is_parity_mended(format, others.frames.as_slice(), former, frame)
}

/// Whether the former pulse of a function was odd, and of the frames of other recordings without
/// odd pulses (`even`) more have the function as `frame` has it than otherwise.
fn is_by_width(others: &Others, former: &Shown, frame: &Shown, function: u32) -> bool
    requires { function < 64 }
    ensures { result ≡ is_by_width others.now former.now frame.now function }
{
    has_odd(others.odd.as_slice(), former, function)
        && is_told(others.even.as_slice(), frame, function)
}

fn with_control(frame: &Shown, control: Option<u64>) -> Shown
    ensures { result ≡ with_control control frame.now }
{
    Shown {
        rise: frame.rise,
        fields: Fields {
            control,
            ..frame.fields
        },
    }
}
