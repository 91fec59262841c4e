//! The former frames whose pulses are known to rise as they did, so that they are not compared
//! again after each repair.

ghost use Rattle.std.specs.Prelude.{◌≡◌, List, None, IfOk, IfSome, IsTrue, Some, get_or, length};
ghost use Rattle.irig_guarding.specs.Known.{AreKnown, Became, Follows};
ghost use Rattle.irig_recording.specs.declared.pulse.Pulse.{Pulse as SomePulse};
ghost use Rattle.irig_safety.specs.Original.{OriginalView};

use crate::place::Place;
use crate::pulses::keeps_rises;
use crate::seen::Seen;
use irig_edit::Session;
use irig_safety::{Original, Shown};
use std::alloc::{AllocError, Global};

/// The known markers if nothing is known yet: a list of `count` times `None`, one for each former
/// frame.
pub fn nothing_known(alloc: Global, count: usize) -> Result<Vec<Option<usize>>, AllocError>
    ensures { (o : OriginalView) (ps : List SomePulse)
        → IfOk result (λ known. AreKnown o ps known.items) }
{
    let mut known_markers = Vec::with_capacity(alloc, count)?;
    for _index in 0..count {
        known_markers.push(None)?;
    }
    Ok(known_markers)
}

/// Whether it is known that the pulses of the former frame at a place, from 0, rise as they did, in
/// the frame of now with this marker.
pub fn is_known(known_markers: &[Option<usize>], place: usize, marker: usize) -> bool
    ensures { IsTrue result → get_or known_markers.now place None ≡ Some marker }
{
    if place < known_markers.len() {
        is_marker(known_markers[place], marker)
    } else {
        false
    }
}

/// Whether a marker is known, and is this one.
fn is_marker(known: Option<usize>, marker: usize) -> bool
    ensures { IsTrue result → known ≡ Some marker }
{
    match known {
        Some(at) => at == marker,
        None => false,
    }
}

/// Fills in markers that are not known yet. Each of `frames`, those that read well now, is compared
/// with the first former frame that does not begin before it (`place_from`), if no marker is known
/// for that one (`learn_marker`).
pub fn learn_markers(
    session: &Session,
    opened: &Original,
    frames: &[Seen],
    known_markers: &mut Vec<Option<usize>>,
)
    requires { AreKnown opened.now session.now.state.pulses known_markers.old.items }
    ensures { AreKnown opened.now session.now.state.pulses known_markers.new.items }
{
    let mut place = 0;
    for frame in frames {
        place = place_from(opened.frames(), place, frame.shown.rise);
        learn_marker(session, opened, frame, place, known_markers);
    }
}

/// The place, from 0, of the first of the frames `former`, from the place `from` on, that does not
/// begin before `rise`, in microseconds. If all of them begin before it, the length of the list.
fn place_from(former: &[Shown], from: usize, rise: u64) -> usize {
    for place in from..former.len() {
        if rise <= former[place].rise {
            return place;
        }
    }
    former.len()
}

/// Compares the pulses of a frame with those of the former one at a place, if no marker is known
/// for the former one. If each pulse rises as long after the frame's marker as in the former frame
/// after that one's (`keeps_rises`), the frame's marker is known from now on.
fn learn_marker(
    session: &Session,
    opened: &Original,
    frame: &Seen,
    place: usize,
    known_markers: &mut Vec<Option<usize>>,
)
    requires { AreKnown opened.now session.now.state.pulses known_markers.old.items }
    ensures { AreKnown opened.now session.now.state.pulses known_markers.new.items }
{
    if place < known_markers.len()
        && known_markers[place].is_none()
        && keeps_rises(session, opened, opened.marker(place), frame.marker)
    {
        known_markers[place] = Some(frame.marker);
    }
}

/// Replaces each marker by what is still known of it after an edit (`still_known`). `changed` is
/// where the edit changed pulses: how many are before these (`at`), and how many came instead
/// (`come`).
pub fn follow_edit(
    known_markers: &mut Vec<Option<usize>>,
    changed: Option<Place>,
    count_before: usize,
    count_after: usize,
)
    ensures { (o : OriginalView) (ps qs : List SomePulse)
        → IfSome changed (λ p. Became p.at p.come ps qs)
        → length ps ≡ count_before → length qs ≡ count_after
        → AreKnown o ps known_markers.old.items → AreKnown o qs known_markers.new.items }
{
    for index in 0..known_markers.len() {
        known_markers[index] = still_known(
            known_markers[index],
            changed,
            count_before,
            count_after,
        );
    }
}

/// What is known after an edit that changed the pulses at `changed`, if the marker `known` was
/// known before it.
fn still_known(
    known: Option<usize>,
    changed: Option<Place>,
    count_before: usize,
    count_after: usize,
) -> Option<usize>
    ensures none { changed ≡ None → result ≡ None }
    ensures some { IfSome changed (λ p. Follows p.at p.come count_before count_after known result) }
{
    match (known, changed) {
        (Some(marker), Some(changed)) => {
            marker_still_known(marker, &changed, count_before, count_after)
        }
        _ => None,
    }
}

/// The marker of a frame after an edit, if its pulses did not change.
fn marker_still_known(
    marker: usize,
    changed: &Place,
    count_before: usize,
    count_after: usize,
) -> Option<usize>
    ensures { Follows changed.now.at changed.now.come count_before count_after (Some marker)
        result }
{
    if changed.at >= 100 && marker <= changed.at - 100 {
        return Some(marker);
    }
    if changed.come > u128::from(u64::MAX) {
        return None;
    }
    let (marker, before, after) = (marker as u128, count_before as u128, count_after as u128);
    if changed.at as u128 + before + changed.come <= marker + after {
        as_place(marker + after - before)
    } else {
        None
    }
}

/// The value as the place of a pulse; `None` if it is too large for a `usize`.
fn as_place(value: u128) -> Option<usize>
    ensures { IfSome result (λ n. n ≡ value) }
{
    match usize::try_from(value) {
        Ok(place) => Some(place),
        Err(_) => None,
    }
}
