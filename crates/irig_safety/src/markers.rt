//! The markers of the frames next to a frame, as anchors for its elements.

ghost use Rattle.std.specs.Prelude.{◌≡◌, ◌≤◌, ◌<◌, ◌+◌, ◌*◌, ◌^◌, IfSome, IsTrue};
ghost use Rattle.irig_safety.specs.Calendar.{periods};
ghost use Rattle.irig_safety.specs.Lines.{is_counted, marker_after, marker_before};

use crate::bearing::agrees;
use crate::calendar::periods;
use crate::lines::Anchor;
use crate::own_clock::is_on_own_clock;
use crate::shown::Shown;
use crate::witnesses::Witnesses;
use irig_codes::Format;

fn elements(frames: u128) -> u128
    requires { frames < 2 ^ 64 }
    ensures { result ≡ 100 * frames }
{
    100 * frames
}

/// Whether the distance of `one` and `other`, which are `frame` and one next to it, says how many
/// elements it is: at most 500 periods, and they agree or `frame` is on the recording's own clock.
fn is_counted(format: Format, near: &Witnesses, frame: &Shown, one: &Shown, other: &Shown) -> bool
    ensures value { result ≡ is_counted format near.now frame.now one.now other.now }
    ensures few { IsTrue result → periods format one.now other.now ≤ 500 }
{
    (agrees(format, one, other) || is_on_own_clock(format, near, frame))
        && periods(format, one, other) <= 500
}

/// The marker of the frame before `frame`, as an anchor for an element of it, from 0. `None` if
/// none is before, or its distance does not say how many elements it is.
pub fn marker_before(
    format: Format,
    near: &Witnesses,
    frame: &Shown,
    element: usize,
) -> Option<Anchor>
    requires { element ≤ 100 }
    ensures value { result ≡ marker_before format near.now frame.now element }
    ensures few { IfSome result (λ a. a.steps ≤ 2 ^ 16 + element) }
{
    let Some(before) = near.before else {
        return None;
    };
    if is_counted(format, near, frame, &before, frame) {
        let many = periods(format, &before, frame);
        Some(Anchor {
            steps: elements(many) + element as u128,
            rise: before.rise,
        })
    } else {
        None
    }
}

/// The marker of the frame after `frame`, in the same way.
pub fn marker_after(
    format: Format,
    near: &Witnesses,
    frame: &Shown,
    element: usize,
) -> Option<Anchor>
    ensures value { result ≡ marker_after format near.now frame.now element }
    ensures few { IfSome result (λ a. a.steps ≤ 2 ^ 16) }
{
    let Some(after) = near.after else {
        return None;
    };
    if is_counted(format, near, frame, frame, &after) {
        let many = periods(format, frame, &after);
        Some(Anchor {
            steps: elements(many).saturating_sub(element as u128),
            rise: after.rise,
        })
    } else {
        None
    }
}
