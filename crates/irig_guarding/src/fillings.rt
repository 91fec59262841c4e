//! How many frames have control functions that are not in the recording: it has no pulse of the
//! same width class within a tenth of an interval of theirs.

ghost use Rattle.std.specs.Prelude.{◌≡◌, ◌↔◌, IsTrue};
ghost use Rattle.irig_guarding.specs.Fillings.{AreFilled, Fills, IsWhole};
ghost use Rattle.irig_guarding.specs.Reading.{seen_frames};

use crate::elements::is_recorded_at;
use crate::seen::Seen;
use irig_edit::Session;
use irig_safety::{Original, functions};

/// How many frames of a session have a control function that is not in the recording; `frames` are
/// those that read well. 0 if frames may move, since each that moved would be counted. 0 also if
/// none of the recording reads well, since control functions are not judged then.
pub fn count_filled(session: &Session, opened: &Original, frames: &[Seen]) -> usize
    requires { frames.now ≡ seen_frames session.now.state }
    ensures { Fills opened.now session.now.state result }
{
    if opened.is_moved() {
        return 0;
    }
    if opened.frames().is_empty() {
        return 0;
    }
    count_filled_among(session, opened, frames)
}

/// How many of some frames have a control function that is not in the recording
/// (`has_all_recorded`).
fn count_filled_among(session: &Session, opened: &Original, frames: &[Seen]) -> usize
    ensures { AreFilled opened.now session.now.state frames.now result }
{
    let mut many = 0;
    for frame in frames {
        if !has_all_recorded(session, opened, frame) {
            many += 1;
        }
    }
    many
}

/// Whether the recording has all control functions of a frame, each at its place
/// (`is_recorded_at`).
fn has_all_recorded(session: &Session, opened: &Original, frame: &Seen) -> bool
    ensures { IsTrue result ↔ IsWhole opened.now session.now.state frame.now }
{
    for function in 0..functions(session.current_format()) {
        if !is_recorded_at(session, opened, frame.marker, function) {
            return false;
        }
    }
    true
}
