//! Toggles two times among the pulses right of a gap.

ghost use Rattle.std.specs.Prelude.{◌≡◌, ◌+◌, ◌-◌, ◌<◌, ◌≤◌, ◌++◌, ◌∷◌, [], length};
ghost use Rattle.irig_recording.specs.Recording.{RisesFrom};
ghost use Rattle.irig_track.specs.Sides.{left_of, right_of, waiting, ReachesFrom, Stays, Begun};
ghost use Rattle.irig_track.specs.Sides.{Finished};
ghost use Rattle.irig_track.specs.{Edges.edges_of, Edges.Under, Toggles.toggled};

use crate::sides::{next, put_last, take_next};
use irig_gap::Gap;
use irig_recording::Pulse;

/// Toggles `a`, and returns the rise that waits for its fall: `a` itself, if the next pulse rises
/// after it; the other edge of that pulse, if one is at `a`; else its fall, as `a` is inside of it.
fn begin(pulses: &mut Gap<Pulse>, a: u64) -> u64
    requires rises { RisesFrom 0 (edges_of pulses.old.items) }
    requires left { Under a (edges_of (left_of pulses.old)) }
    requires right { ReachesFrom a (right_of pulses.old) }
    requires room { length pulses.old.items < pulses.old.capacity }
    ensures begun { Begun a result pulses.old pulses.new }
    ensures room { length pulses.new.items ≤ length pulses.old.items }
{
    match next(pulses) {
        Some(first) if first.rise <= a => {
            take_next(pulses);
            if first.rise == a {
                first.fall
            } else if first.fall == a {
                first.rise
            } else {
                put_last(pulses, first.rise, a);
                first.fall
            }
        }
        _ => a,
    }
}

/// Goes on over all pulses that rise before `b`. The number of edges before them is odd, so each
/// rise becomes a fall and each fall a rise.
fn go_on(pulses: &mut Gap<Pulse>, start: u64, b: u64) -> u64
    requires rises { RisesFrom 0 (waiting pulses.old start) }
    requires left { Under b (edges_of (left_of pulses.old)) }
    ensures edges { waiting pulses.new result ≡ waiting pulses.old start }
    ensures left { Under b (edges_of (left_of pulses.new)) }
    ensures right { RisesFrom b (edges_of (right_of pulses.new)) }
    ensures stays { Stays b pulses.old pulses.new }
    ensures room { length pulses.new.items ≡ length pulses.old.items }
{
    let mut rise = start;
    while let Some(first) = next(pulses) {
        if first.rise >= b {
            break;
        }
        take_next(pulses);
        put_last(pulses, rise, first.rise);
        rise = first.fall;
    }
    rise
}

/// Toggles `b`. If the next pulse rises at `b`, it now rises at `rise`; else a pulse between `rise`
/// and `b`, in their order, is added, or none if they are the same time.
fn finish(pulses: &mut Gap<Pulse>, rise: u64, b: u64)
    requires rises { RisesFrom 0 (waiting pulses.old rise) }
    requires left { Under b (edges_of (left_of pulses.old)) }
    requires right { RisesFrom b (edges_of (right_of pulses.old)) }
    requires room { length pulses.old.items < pulses.old.capacity }
    ensures { Finished b rise pulses.old pulses.new }
{
    match next(pulses) {
        Some(last) if last.rise == b => {
            take_next(pulses);
            put_last(pulses, rise, last.fall);
        }
        _ => {
            if rise < b {
                put_last(pulses, rise, b);
            } else if b < rise {
                put_last(pulses, b, rise);
            }
        }
    }
}

/// Toggles `a` and the later `b`. Before the call the pulses that fall at `a` or later are right of
/// the gap, after it those that rise after `b`.
pub(crate) fn toggle_right(pulses: &mut Gap<Pulse>, a: u64, b: u64)
    requires order { a < b }
    requires rises { RisesFrom 0 (edges_of pulses.old.items) }
    requires left { Under a (edges_of (left_of pulses.old)) }
    requires right { ReachesFrom a (right_of pulses.old) }
    requires room { length pulses.old.items < pulses.old.capacity }
    ensures edges { edges_of pulses.new.items ≡ toggled a b (edges_of pulses.old.items) }
    ensures right { RisesFrom (b + 1) (edges_of (right_of pulses.new)) }
    ensures stays { Stays b pulses.old pulses.new }
{
    let start = begin(pulses, a);
    let rise = go_on(pulses, start, b);
    finish(pulses, rise, b);
}
