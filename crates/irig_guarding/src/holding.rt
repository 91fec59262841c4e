//! Where anchors have the pulse of an element of a frame.

ghost use Rattle.std.specs.Prelude.{◌≡◌, ◌≤◌, ◌<◌, ◌^◌, IfSome};
ghost use Rattle.irig_safety.specs.Placed.{held_after, held_before, is_held};
ghost use Rattle.irig_safety.specs.Lines.{marker_after, marker_before};
ghost use Rattle.irig_safety.specs.declared.shown.Shown.{Shown as ShownFrame};
ghost use Rattle.irig_safety.specs.declared.witnesses.Witnesses.{Witnesses as SomeWitnesses};
ghost use Rattle.irig_codes.specs.Format.{FormatView};

use crate::elements::rise_at;
use crate::seen::Seen;
use irig_edit::Session;
use irig_safety::{Anchor, Witnesses, is_on_line, marker_after, marker_before};

/// The markers of the two frames of the recording next to a frame, as seen from its own marker,
/// which is its element 0. `None` if there is no such frame, or its distance is over 500 frames or
/// does not say how many elements it is.
#[derive(Clone, Copy)]
pub struct NearMarkers {
    pub before: Option<Anchor>,
    pub after: Option<Anchor>,
}

/// The markers of the two frames next to a frame.
pub fn near_markers_of(session: &Session, near: &Witnesses, frame: &Seen) -> NearMarkers
    ensures before { result.before
        ≡ marker_before session.now.state.format near.now frame.now.shown 0 }
    ensures after { result.after
        ≡ marker_after session.now.state.format near.now frame.now.shown 0 }
    ensures few_before { IfSome result.before (λ a. a.steps ≤ 2 ^ 16) }
    ensures few_after { IfSome result.after (λ a. a.steps ≤ 2 ^ 16) }
{
    let format = session.current_format();
    NearMarkers {
        before: marker_before(format, near, &frame.shown, 0),
        after: marker_after(format, near, &frame.shown, 0),
    }
}

/// Whether the pulse of an element rises where what holds it has it (`is_on_line`). If it is held
/// from before and from after (`held_before`, `held_after`): on the line or curve between the two.
pub fn is_held(
    session: &Session,
    near: &Witnesses,
    near_markers: &NearMarkers,
    frame: &Seen,
    element: usize,
    last: Option<usize>,
    next: Option<usize>,
) -> bool
    requires before { near_markers.now.before
        ≡ marker_before session.now.state.format near.now frame.now.shown 0 }
    requires after { near_markers.now.after
        ≡ marker_after session.now.state.format near.now frame.now.shown 0 }
    requires few_before { IfSome near_markers.now.before (λ a. a.steps ≤ 2 ^ 16) }
    requires few_after { IfSome near_markers.now.after (λ a. a.steps ≤ 2 ^ 16) }
    requires element { element < 100 }
    requires next { IfSome next (λ k. k < 100) }
    ensures { result ≡ is_held session.now.state.format session.now.state.pulses frame.now.marker
        near.now frame.now.shown element last next }
{
    is_on_line(
        session.current_format(),
        near,
        held_before(session, near, near_markers.before, frame, element, last),
        rise_at(session, frame.marker, element),
        held_after(session, near, near_markers.after, frame, element, next),
    )
}

/// What holds an element from before: the anchor `last` of its frame, or without one the marker of
/// the frame before (`marker_before_from`); `before` is that marker as the frame's own sees it.
fn held_before(
    session: &Session,
    near: &Witnesses,
    before: Option<Anchor>,
    frame: &Seen,
    element: usize,
    last: Option<usize>,
) -> Option<Anchor>
    requires before { before
        ≡ marker_before session.now.state.format near.now frame.now.shown 0 }
    requires few { IfSome before (λ a. a.steps ≤ 2 ^ 16) }
    requires element { element < 100 }
    ensures value { result ≡ held_before session.now.state.format session.now.state.pulses
        frame.now.marker near.now frame.now.shown element last }
    ensures few { IfSome result (λ a. a.steps ≤ 2 ^ 17) }
{
    match last {
        Some(anchor) => Some(Anchor {
            steps: element.saturating_sub(anchor) as u128,
            rise: rise_at(session, frame.marker, anchor),
        }),
        None => marker_before_from(before, element),
    }
}

/// What holds an element from after: the anchor `next` of its frame, or without one the marker of
/// the frame after (`marker_after_from`); `after` is that marker as the frame's own sees it.
fn held_after(
    session: &Session,
    near: &Witnesses,
    after: Option<Anchor>,
    frame: &Seen,
    element: usize,
    next: Option<usize>,
) -> Option<Anchor>
    requires after { after ≡ marker_after session.now.state.format near.now frame.now.shown 0 }
    requires few { IfSome after (λ a. a.steps ≤ 2 ^ 16) }
    requires next { IfSome next (λ k. k < 100) }
    ensures value { result ≡ held_after session.now.state.format session.now.state.pulses
        frame.now.marker near.now frame.now.shown element next }
    ensures few { IfSome result (λ a. a.steps ≤ 2 ^ 17) }
{
    match next {
        Some(anchor) => Some(Anchor {
            steps: anchor.saturating_sub(element) as u128,
            rise: rise_at(session, frame.marker, anchor),
        }),
        None => marker_after_from(after, element),
    }
}

/// The marker of the frame before, as seen from an element of this frame: `element` steps farther
/// than from this frame's own marker, as `before` has it.
fn marker_before_from(before: Option<Anchor>, element: usize) -> Option<Anchor>
    requires { IfSome before (λ a. a.steps ≤ 2 ^ 16) × (element < 100) }
    ensures value { (f : FormatView) (w : SomeWitnesses) (y : ShownFrame)
        → before ≡ marker_before f w y 0 → result ≡ marker_before f w y element }
    ensures few { IfSome result (λ a. a.steps ≤ 2 ^ 17) }
{
    match before {
        Some(anchor) => Some(Anchor {
            steps: anchor.steps + element as u128,
            rise: anchor.rise,
        }),
        None => None,
    }
}

/// The marker of the frame after, as seen from an element of this frame: `element` steps nearer
/// than from this frame's own marker, as `after` has it.
fn marker_after_from(after: Option<Anchor>, element: usize) -> Option<Anchor>
    requires { IfSome after (λ a. a.steps ≤ 2 ^ 16) }
    ensures value { (f : FormatView) (w : SomeWitnesses) (y : ShownFrame)
        → after ≡ marker_after f w y 0 → result ≡ marker_after f w y element }
    ensures few { IfSome result (λ a. a.steps ≤ 2 ^ 17) }
{
    match after {
        Some(anchor) => Some(Anchor {
            steps: anchor.steps.saturating_sub(element as u128),
            rise: anchor.rise,
        }),
        None => None,
    }
}
