//! The two believed frames around a pulse.

ghost use Rattle.std.specs.Prelude.{◌≡◌, ◌<◌, ◌≤◌, ◌^◌, IfSome, length, slice_get};
ghost use Rattle.irig_timed.specs.Stretches.{AreFramesOf, FramesUpTo, both, frame_before, last_by};
ghost use Rattle.irig_timed.specs.Stretches.{next_by, stretch_at};

use irig_law::Frame;

/// The two frames next to each other of which a pulse is from the first on and before the second.
pub fn stretch_at(frames: &[Frame], number: usize) -> Option<(Frame, Frame)>
    requires frames { AreFramesOf frames.now }
    ensures stretch { result ≡ stretch_at frames.now number }
    ensures low { IfSome result (λ s. (s.0.marker < 2 ^ 26) × (s.1.marker < 2 ^ 26)) }
{
    let around = frames_around(frames, number);
    both(around.0, around.1)
}

/// Two frames, if both are there.
fn both(last: Option<Frame>, next: Option<Frame>) -> Option<(Frame, Frame)>
    requires last { IfSome last (λ a. a.marker < 2 ^ 26) }
    requires next { IfSome next (λ a. a.marker < 2 ^ 26) }
    ensures both { result ≡ both last next }
    ensures low { IfSome result (λ s. (s.0.marker < 2 ^ 26) × (s.1.marker < 2 ^ 26)) }
{
    match (last, next) {
        (Some(last), Some(next)) => Some((last, next)),
        (Some(_), None) => None,
        (None, Some(_)) => None,
        (None, None) => None,
    }
}

/// The last frame that begins with a pulse or before it, and the first one after that.
pub fn frames_around(frames: &[Frame], number: usize) -> (Option<Frame>, Option<Frame>)
    requires frames { AreFramesOf frames.now }
    ensures last { result.0 ≡ last_by frames.now number }
    ensures next { result.1 ≡ next_by frames.now number }
    ensures low { IfSome result.0 (λ a. a.marker < 2 ^ 26) }
    ensures low_too { IfSome result.1 (λ a. a.marker < 2 ^ 26) }
{
    let many = frames_up_to(frames, number);
    (frame_before(frames, many), frame_at(frames, many))
}

fn frame_before(frames: &[Frame], many: usize) -> Option<Frame>
    requires frames { AreFramesOf frames.now }
    ensures frame { result ≡ frame_before frames.now many }
    ensures low { IfSome result (λ a. a.marker < 2 ^ 26) }
{
    if many == 0 {
        return None;
    }
    frame_at(frames, many - 1)
}

fn frame_at(frames: &[Frame], place: usize) -> Option<Frame>
    requires frames { AreFramesOf frames.now }
    ensures frame { result ≡ slice_get frames.now place }
    ensures low { IfSome result (λ a. a.marker < 2 ^ 26) }
{
    if place < frames.len() {
        Some(frames[place])
    } else {
        None
    }
}

/// How many frames begin with a pulse or before it.
fn frames_up_to(frames: &[Frame], number: usize) -> usize
    requires frames { AreFramesOf frames.now }
    ensures parted { FramesUpTo frames.now number result }
    ensures within { result ≤ length frames.now }
{
    let mut low = 0;
    let mut high = frames.len();
    while low < high {
        let middle = low + (high - low) / 2;
        if frames[middle].marker <= number {
            low = middle + 1;
        } else {
            high = middle;
        }
    }
    low
}
