//! Where the frames of a recording are after an edit that moves them.

ghost use Rattle.std.specs.Prelude.{◌≡◌, ◌≤◌, IfOk, drop, length};
ghost use Rattle.irig_safety.specs.Moved.{from_time, moved_in, moved_to, rest_of};

use crate::calendar::clock;
use crate::near::frame_at;
use crate::shown::Shown;
use std::alloc::{AllocError, Global};

/// The former frames (`old`), each at the rise of the first frame of `new` after the last one found
/// that has its time; one that is not found stays where it was.
pub fn moved_in(alloc: Global, old: &[Shown], new: &[Shown]) -> Result<Vec<Shown>, AllocError>
    ensures { IfOk result (λ moved. moved.items ≡ moved_in old.now new.now) }
{
    let mut moved = Vec::new(alloc);
    let mut from = 0;
    for frame in old {
        let place = place_of(frame, new, from);
        moved.push(moved_to(frame, frame_at(new, place)))?;
        from = search_from(new, place, from);
    }
    Ok(moved)
}

/// The place of the first frame from `from` on that has the time of `frame`; else the length.
fn place_of(frame: &Shown, new: &[Shown], from: usize) -> usize
    requires { from ≤ length new.now }
    ensures within { result ≤ length new.now }
    ensures first { drop result new.now ≡ from_time frame.now (drop from new.now) }
{
    for place in from..new.len() {
        if clock(&frame.fields) == clock(&new[place].fields) {
            return place;
        }
    }
    new.len()
}

fn moved_to(frame: &Shown, at: Option<Shown>) -> Shown
    ensures { result ≡ moved_to frame.now at }
{
    match at {
        Some(at) => Shown {
            rise: at.rise,
            fields: frame.fields,
        },
        None => *frame,
    }
}

/// After the frame that was found at `place`; at `from` again if none was.
fn search_from(new: &[Shown], place: usize, from: usize) -> usize
    requires { (place ≤ length new.now) × (from ≤ length new.now) }
    ensures within { result ≤ length new.now }
    ensures rest { drop result new.now ≡ rest_of (drop place new.now) (drop from new.now) }
{
    if place < new.len() { place + 1 } else { from }
}
