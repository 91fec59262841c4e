//! Replaces pulses of a gap buffer by those of another.

ghost use Rattle.std.specs.Prelude.{◌≡◌, ◌+◌, ◌<◌, ◌≤◌, ◌++◌, [], length};
ghost use Rattle.irig_gap.specs.Items.{gap_view};
ghost use Rattle.irig_track.specs.Splices.{spliced, piece};

use irig_gap::Gap;
use irig_recording::Pulse;

/// Replaces the `count` pulses from `at` on, from 0, by all those of `put`. If as many come as go,
/// no other pulse is moved in memory.
pub(crate) fn replace(
    pulses: &mut Gap<Pulse>,
    at: usize,
    count: usize,
    put: &mut Gap<Pulse>,
    taken: &mut Gap<Pulse>,
)
    requires there { at + count ≤ length pulses.old.items }
    requires spare { length pulses.old.items + length put.old.items ≤ pulses.old.capacity + count }
    requires empty { taken.old.items ≡ [] }
    requires room { count ≤ taken.old.capacity }
    ensures pulses { pulses.new.items ≡ spliced at count put.old.items pulses.old.items }
    ensures taken { taken.new.items ≡ piece at count pulses.old.items }
    ensures place { taken.new.place ≡ count }
    ensures put { put.new.items ≡ [] }
    ensures capacities { (pulses.new.capacity ≡ pulses.old.capacity)
        × (put.new.capacity ≡ put.old.capacity) × (taken.new.capacity ≡ taken.old.capacity) }
{
    let come = put.len();
    // So all pulses of `put` are right of its gap, from which they are taken in order.
    put.move_to(0);
    // `taken` is empty, so nothing moves: the proof has from this call that its place is 0.
    taken.move_to(0);
    if count == come {
        exchange(pulses, at, count, put, taken);
    } else {
        // For its bound.
        let _count = pulses.len();
        pulses.move_to(at);
        carry(pulses, count, taken);
        carry(put, come, pulses);
    }
}

/// As many come as go, so each is written over, and the gap stays where it is.
fn exchange(
    pulses: &mut Gap<Pulse>,
    at: usize,
    count: usize,
    put: &mut Gap<Pulse>,
    taken: &mut Gap<Pulse>,
)
    requires there { at + count ≤ length pulses.old.items }
    requires put { (put.old.place ≡ 0) × (length put.old.items ≡ count) }
    requires taken { (taken.old.place ≡ 0) × (taken.old.items ≡ []) }
    requires room { count ≤ taken.old.capacity }
    ensures pulses { pulses.new ≡
        gap_view (spliced at count put.old.items pulses.old.items)
        pulses.old.place pulses.old.capacity }
    ensures taken { taken.new ≡
        gap_view (piece at count pulses.old.items) count taken.old.capacity }
    ensures put { put.new ≡ gap_view [] 0 put.old.capacity }
{
    // For its bound.
    let _len = pulses.len();
    let mut moved = 0;
    while moved < count {
        match put.take_right() {
            Some(pulse) => {
                taken.put(pulses.get(at + moved));
                pulses.set(at + moved, pulse);
            }
            None => unreachable!(),
        }
        moved += 1;
    }
}

/// Moves the first `count` pulses right of one gap to just left of the other, in the same order.
fn carry(from: &mut Gap<Pulse>, count: usize, to: &mut Gap<Pulse>)
    requires there { from.old.place + count ≤ length from.old.items }
    requires room { length to.old.items + count ≤ to.old.capacity }
    ensures from { from.new ≡
        gap_view (spliced from.old.place count [] from.old.items)
        from.old.place from.old.capacity }
    ensures to { to.new ≡
        gap_view
        (spliced to.old.place 0 (piece from.old.place count from.old.items) to.old.items)
        (to.old.place + count) to.old.capacity }
{
    let mut moved = 0;
    // For its bound.
    let _place = to.gap_at();
    while moved < count {
        match from.take_right() {
            Some(item) => to.put(item),
            None => unreachable!(),
        }
        moved += 1;
    }
}
