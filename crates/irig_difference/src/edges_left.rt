//! The edges of pulses, one after the other: a rise, the fall of that pulse, the next rise.

ghost use Rattle.std.specs.Prelude.{◌≡◌, ◌+◌, ◌^◌, ◌<◌, ◌≤◌, length, slice_get, drop, take, true};
ghost use Rattle.irig_track.specs.Edges.{edges_of};
ghost use Rattle.irig_difference.specs.EdgesLeft.{PassCommon};

use irig_gap::Gap;
use irig_recording::Pulse;
use std::marker::Model;

/// The edges of pulses that are still to come, in microseconds.
#[derive(Drop)]
pub struct EdgesLeft<'a> {
    pulses: &'a Gap<Pulse>,
    // How many pulses are past.
    past: usize,
    // Whether the rise of the next one is past, too.
    is_high: bool,
}

impl<'a> Model for EdgesLeft<'a> {
    ghost use Rattle.std.specs.Prelude.{ℕ, List, ◌≡◌, ◌≤◌, drop, length};
    ghost use Rattle.irig_difference.specs.EdgesLeft.{edges_left};

    ghost Value = { List ℕ };

    ghost view = { λ e. edges_left (drop e.past e.pulses.now.items) e.is_high };

    ghost invariant = { λ e. (e.pulses.now.place ≡ length e.pulses.now.items)
        × (e.past ≤ length e.pulses.now.items) };
}

impl<'a> EdgesLeft<'a> {
    pub fn new(pulses: &'a Gap<Pulse>) -> EdgesLeft<'a>
        requires { pulses.now.place ≡ length pulses.now.items }
        ensures { result ≡ edges_of pulses.now.items }
    {
        EdgesLeft {
            pulses,
            past: 0,
            is_high: false,
        }
    }

    /// The next edge; it stays the next.
    #[inline(always)]
    pub fn first(&self) -> Option<u64>
        ensures { result ≡ slice_get self.now 0 }
    {
        if self.past == self.pulses.gap_at() {
            return None;
        }
        let next = self.pulses.get_left(self.past);
        Some(if self.is_high { next.fall } else { next.rise })
    }

    /// Goes past the next edge, which has to be there.
    #[inline(always)]
    pub fn pass(&mut self)
        requires { 0 < length self.old }
        ensures { self.new ≡ drop 1 self.old }
    {
        // The proof needs the bound of the count that the call's contract has.
        let _count = self.pulses.gap_at();
        if self.is_high {
            self.past += 1;
            self.is_high = false;
        } else {
            self.is_high = true;
        }
    }

    /// Goes past the pulses that both begin with, if the next edge of both is a rise. Both may
    /// still begin with the same rise, if its pulses fall at other times.
    pub fn pass_common(&mut self, other: &mut EdgesLeft<'_>)
        ensures { PassCommon self.old self.new other.old other.new }
    {
        if self.is_high || other.is_high {
            return;
        }
        let count = count_common(self.pulses, self.past, other.pulses, other.past);
        self.past += count;
        other.past += count;
    }
}

/// How many pulses of two buffers are the same, after the first `past` and the first `other`.
fn count_common(before: &Gap<Pulse>, past: usize, after: &Gap<Pulse>, other: usize) -> usize
    requires before { past ≤ before.now.place }
    requires after { other ≤ after.now.place }
    ensures before { past + result ≤ before.now.place }
    ensures after { other + result ≤ after.now.place }
    ensures fits { (past + result < 2 ^ 64) × (other + result < 2 ^ 64) }
    ensures same { take result (drop past before.now.items)
        ≡ take result (drop other after.now.items) }
{
    let most = (before.gap_at() - past).min(after.gap_at() - other);
    let mut count = 0;
    while count < most && is_same(before.get_left(past + count), after.get_left(other + count)) {
        count += 1;
    }
    count
}

#[inline(always)]
fn is_same(one: Pulse, other: Pulse) -> bool
    ensures { result ≡ true → one ≡ other }
{
    one.rise == other.rise && one.fall == other.fall
}
