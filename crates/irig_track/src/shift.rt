//! Moves pulses in time.

ghost use Rattle.std.specs.Prelude.{◌≡◌, ◌+◌, ◌-◌, ◌^◌, ◌<◌, ◌≤◌, length, map};
ghost use Rattle.irig_gap.specs.Items.{gap_view};
ghost use Rattle.irig_recording.specs.Recording.{UpTo};
ghost use Rattle.irig_track.specs.Shifts.{moved_pulse, ahead, back};
ghost use Rattle.irig_track.specs.{Edges.edges_of, Splices.spliced, Splices.piece};

use irig_gap::Gap;
use irig_recording::Pulse;

/// To later times, in microseconds; 0 if it goes back.
pub(crate) fn ahead_of(by: i64) -> u64
    ensures distance { result ≡ ahead by }
    ensures within { result < 2 ^ 63 }
{
    if by < 0 { 0 } else { by.unsigned_abs() }
}

/// To earlier times, in microseconds; 0 if it goes on.
pub(crate) fn back_of(by: i64) -> u64
    ensures distance { result ≡ back by }
    ensures within { result ≤ 2 ^ 63 }
{
    if by < 0 { by.unsigned_abs() } else { 0 }
}

/// Moves `count` pulses from `at` on, from 0, by `on` microseconds later and then by `off` earlier;
/// one is 0. The caller has tested that no time comes before 0.
pub(crate) fn move_pulses(pulses: &mut Gap<Pulse>, at: usize, count: usize, on: u64, off: u64)
    requires there { at + count ≤ length pulses.old.items }
    requires short { UpTo (2 ^ 40) (edges_of pulses.old.items) }
    requires within { on < 2 ^ 63 }
    ensures { pulses.new ≡
        gap_view
        (spliced at count (map (moved_pulse on off) (piece at count pulses.old.items))
        pulses.old.items)
        pulses.old.place pulses.old.capacity }
{
    // For its bound.
    let _count = pulses.len();
    let mut moved = 0;
    while moved < count {
        let pulse = pulses.get(at + moved);
        let rise = (pulse.rise + on).saturating_sub(off);
        let fall = (pulse.fall + on).saturating_sub(off);
        pulses.set(at + moved, Pulse { rise, fall });
        moved += 1;
    }
}
