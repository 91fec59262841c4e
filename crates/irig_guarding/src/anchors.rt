//! Whether the pulses of a frame, one for each of its 100 elements, are where the recording
//! (`opened`) has them.

ghost use Rattle.std.specs.Prelude.{◌≡◌, ◌↔◌, ◌-◌, ◌≤◌, ◌<◌, IfSome, IsTrue, Some};
ghost use Rattle.irig_safety.specs.Anchors.{is_anchored, next_anchor};
ghost use Rattle.irig_guarding.specs.{Standing.IsRooted, Pulses.Stands};

use crate::elements::pulse_at;
use crate::holding::{is_held, near_markers_of};
use crate::seen::Seen;
use irig_edit::Session;
use irig_safety::{Original, Witnesses};

/// Whether each of the 100 pulses of a frame is an anchor, or where the nearest anchors have it
/// (`is_held`).
pub fn are_placed(session: &Session, opened: &Original, near: &Witnesses, frame: &Seen) -> bool
    ensures { IsTrue result ↔ Stands opened.now session.now.state near.now frame.now }
{
    let near_markers = near_markers_of(session, near, frame);
    let mut hint = 0;
    let mut last = None;
    let mut next = next_anchor(session, opened, frame.marker, 0, &mut hint);
    for element in 0..100 {
        if is_at(next, element) {
            last = Some(element);
            next = next_anchor(session, opened, frame.marker, element + 1, &mut hint);
        } else if !is_held(session, near, &near_markers, frame, element, last, next) {
            return false;
        }
    }
    true
}

/// Whether most pulses of a frame are anchors: 60 of its 100 or more (`is_most`).
pub fn is_rooted(session: &Session, opened: &Original, frame: &Seen) -> bool
    ensures { IsTrue result ↔ IsRooted opened.now session.now.state frame.now }
{
    let mut hint = 0;
    let mut many: usize = 0;
    for element in 0..100 {
        if is_anchored(session, opened, frame.marker, element, &mut hint) {
            many += 1;
        }
    }
    is_most(many)
}

/// Whether that many of 100 pulses are most of them: 60 or more, this project's own choice.
fn is_most(many: usize) -> bool
    ensures { IsTrue result ↔ (60 ≤ many) }
{
    many >= 60
}

/// Whether the frame with this marker has a pulse for an element, and that pulse is an anchor
/// (`Original::holds`, which moves `hint` on).
fn is_anchored(
    session: &Session,
    opened: &Original,
    marker: usize,
    element: usize,
    hint: &mut usize,
) -> bool
    ensures { result ≡ is_anchored opened.now.pulses session.now.state.pulses marker element }
{
    opened.holds(pulse_at(session, marker, element), hint)
}

/// Whether `anchor`, the element of an anchor if there is one, is this element.
fn is_at(anchor: Option<usize>, element: usize) -> bool
    ensures { IsTrue result ↔ (anchor ≡ Some element) }
{
    anchor == Some(element)
}

/// The element of the first anchor of the frame with this marker, from the element `from` on;
/// `None` if there is none.
fn next_anchor(
    session: &Session,
    opened: &Original,
    marker: usize,
    from: usize,
    hint: &mut usize,
) -> Option<usize>
    requires { from ≤ 100 }
    ensures value { result
        ≡ next_anchor opened.now.pulses session.now.state.pulses marker (100 - from) from }
    ensures few { IfSome result (λ k. k < 100) }
{
    for element in from..100 {
        if is_anchored(session, opened, marker, element, hint) {
            return Some(element);
        }
    }
    None
}
