//! The pulses on both sides of a gap.

ghost use Rattle.std.specs.Prelude.{◌≡◌, ◌+◌, ◌<◌, ◌≤◌, ◌++◌, ◌∷◌, [], length, slice_get, Some};
ghost use Rattle.std.specs.Prelude.{IsSome};
ghost use Rattle.irig_track.specs.{Sides.right_of, Sides.Took, Sides.Wrote, Edges.pulse};
ghost use Rattle.irig_recording.specs.declared.pulse.Pulse.{Pulse};

use irig_gap::Gap;
use irig_recording::Pulse;

/// The first pulse right of the gap; it stays there.
pub(crate) fn next(pulses: &Gap<Pulse>) -> Option<Pulse>
    ensures next { result ≡ slice_get (right_of pulses.now) 0 }
    ensures inside { IsSome result → pulses.now.place < length pulses.now.items }
    ensures within { (pulses.now.place ≤ length pulses.now.items)
        × (length pulses.now.items ≤ pulses.now.capacity) }
{
    let at = pulses.gap_at();
    if at < pulses.len() {
        Some(pulses.get(at))
    } else {
        None
    }
}

/// Removes the first pulse right of the gap.
pub(crate) fn take_next(pulses: &mut Gap<Pulse>)
    requires { pulses.old.place < length pulses.old.items }
    ensures took { (p : Pulse) →
        slice_get (right_of pulses.old) 0 ≡ Some p → Took p pulses.old pulses.new }
    ensures count { length pulses.new.items + 1 ≡ length pulses.old.items }
    ensures rest { (pulses.new.place ≡ pulses.old.place)
        × (pulses.new.capacity ≡ pulses.old.capacity) }
{
    pulses.take_right();
}

/// Adds a pulse just left of the gap, by its times in microseconds.
pub(crate) fn put_last(pulses: &mut Gap<Pulse>, rise: u64, fall: u64)
    requires { length pulses.old.items < pulses.old.capacity }
    ensures wrote { Wrote (pulse rise fall) pulses.old pulses.new }
    ensures count { length pulses.new.items ≡ length pulses.old.items + 1 }
    ensures rest { (pulses.new.place ≡ pulses.old.place + 1)
        × (pulses.new.capacity ≡ pulses.old.capacity) }
{
    // For its bound.
    let _place = pulses.gap_at();
    pulses.put(Pulse { rise, fall });
}
