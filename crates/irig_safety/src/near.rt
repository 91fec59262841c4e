//! The frames next to a place in a list of frames, which is in the order of their rises.

ghost use Rattle.std.specs.Prelude.{◌≡◌, ◌-◌, ◌≤◌, ◌+◌, length, slice_get};
ghost use Rattle.irig_safety.specs.Safety.{behind};
ghost use Rattle.irig_safety.specs.Original.{near_in};

use crate::shown::Shown;
use crate::witnesses::Witnesses;

pub fn frame_at(frames: &[Shown], place: usize) -> Option<Shown>
    ensures { result ≡ slice_get frames.now place }
{
    frames.get(place).copied()
}

pub fn frame_before(frames: &[Shown], place: usize) -> Option<Shown>
    requires { place ≤ length frames.now }
    ensures { result ≡ behind place frames.now }
{
    if place == 0 {
        None
    } else {
        Some(frames[place - 1])
    }
}

/// The frames next to one that begins after the first `place` of `old`.
pub fn near_between(old: &[Shown], place: usize) -> Witnesses
    requires { place ≤ length old.now }
    ensures before2 { result.before2 ≡ behind (place - 1) old.now }
    ensures before { result.before ≡ behind place old.now }
    ensures after { result.after ≡ slice_get old.now place }
    ensures after2 { result.after2 ≡ slice_get old.now (place + 1) }
{
    Witnesses {
        before2: frame_before(old, place.saturating_sub(1)),
        before: frame_before(old, place),
        after: frame_at(old, place),
        after2: frame_at(old, place + 1),
    }
}

/// The two before `place`, and the two from `next` on: `place`, or `place` + 1 for a frame that
/// replaces the one at `place`.
pub fn near_in(frames: &[Shown], place: usize, next: usize) -> Witnesses
    requires { (place ≤ length frames.now) × (next ≤ length frames.now) }
    ensures { result ≡ near_in frames.now place next }
{
    Witnesses {
        before2: frame_before(frames, place.saturating_sub(1)),
        before: frame_before(frames, place),
        after: frame_at(frames, next),
        after2: frame_at(frames, next + 1),
    }
}
