//! Whether pulses fit between two times.

ghost use Rattle.std.specs.Prelude.{◌≡◌, ◌+◌, ◌<◌, ◌≤◌, ◌++◌, ◌∷◌, [], IsTrue, ◌↔◌};
ghost use Rattle.irig_recording.specs.Recording.{RisesFrom};
ghost use Rattle.irig_track.specs.Edges.{edges_of};

use irig_gap::Gap;
use irig_recording::Pulse;

/// From `start` up to `high`, which is not included, in microseconds.
pub(crate) fn stands(put: &Gap<Pulse>, start: u64, high: u64) -> bool
    ensures { IsTrue result ↔ RisesFrom start (edges_of put.now.items ++ high ∷ []) }
{
    let mut low = start;
    let mut index = 0;
    while index < put.len() {
        let pulse = put.get(index);
        if pulse.rise < low || pulse.fall <= pulse.rise || pulse.fall >= high {
            return false;
        }
        low = pulse.fall + 1;
        index += 1;
    }
    low <= high
}
