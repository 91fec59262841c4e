//! What is passed over between two rises.

ghost use Rattle.std.specs.Prelude.{ℕ, ◌≡◌, ◌+◌, ◌*◌, ◌^◌, ◌<◌, ◌≤◌, length, true};
ghost use Rattle.irig_explaining.specs.Distances.{gone, rise_at};
ghost use Rattle.irig_explaining.specs.Wires.{wire};
ghost use Rattle.irig_explaining.specs.declared.role.Role.{Role};
ghost use Rattle.irig_explaining.specs.declared.table.TheConstants.{FAR, NOTHING};

use crate::prices::Prices;
use crate::table::{NOTHING, PART};

impl<'a> Prices<'a> {
    /// What is passed over between two rises costs at least, as the clock counts it.
    pub(crate) fn passing(&self, rise: usize, later: usize) -> u64
        requires order { rise < later }
        requires later { later < length self.now.pulses.now }
        ensures least { (role : Role) → result
            ≤ wire self.now role rise later (gone self.now rise later) }
        ensures small { result < 2 ^ 58 }
    {
        let gone = self.gone(rise, later);
        if gone == 1 {
            return 0;
        }
        self.between(rise, later, gone)
    }

    /// The same, or less if that is enough.
    pub(crate) fn passing_up_to(&self, rise: usize, later: usize, enough: u64) -> u64
        requires order { rise < later }
        requires later { later < length self.now.pulses.now }
        ensures { (role : Role) → result
            ≤ wire self.now role rise later (gone self.now rise later) }
    {
        let count = enough / NOTHING + 1;
        if self.is_far(rise, later, count) {
            return count * NOTHING;
        }
        self.passing(rise, later)
    }

    /// How many rises come before a moment.
    fn count_before(&self, moment: u64) -> usize
        ensures few { result ≤ length self.now.pulses.now }
        ensures before { (r : ℕ) → r < result → rise_at self.now r < moment }
        ensures after { (r : ℕ) → result ≤ r → r < length self.now.pulses.now
            → moment ≤ rise_at self.now r }
    {
        self.pulses.partition_point(|pulse| pulse.rise < moment)
    }

    /// Before which rise all are six elements before another one, with five rises between. By the
    /// longest interval all are if one is.
    pub(crate) fn far_before(&self, later: usize) -> usize
        requires some { 5 ≤ later }
        requires later { later < length self.now.pulses.now }
        ensures { (r : ℕ) (role : Role) → r < result → (r < later)
            × (FAR ≤ wire self.now role r later (gone self.now r later)) }
    {
        let longest = self.clock.longest / PART + 1;
        let apart = self.rise_at(later).saturating_sub(6 * longest);
        let noise = self.rise_at(later - 5).saturating_sub(longest);
        self.count_before(apart.min(noise))
    }

    /// From which rise on all are as far after another one.
    pub(crate) fn far_after(&self, rise: usize) -> usize
        requires { rise < length self.now.pulses.now }
        ensures { (q : ℕ) (role : Role) → result ≤ q → q < length self.now.pulses.now → (rise < q)
            × (FAR ≤ wire self.now role rise q (gone self.now rise q)) }
    {
        let longest = self.clock.longest / PART + 1;
        let begin = self.rise_at(rise);
        let noise = self.count_before(begin + longest) + 5;
        self.count_before(begin + 6 * longest).max(noise)
    }

    /// Whether two rises are more than some elements apart by the clock, with that many rises
    /// between them. Each of these elements looks like nothing at most.
    fn is_far(&self, rise: usize, later: usize, count: u64) -> bool
        requires some { 0 < count }
        requires order { rise < later }
        requires later { later < length self.now.pulses.now }
        ensures least { result ≡ true → (role : Role) → count * NOTHING
            ≤ wire self.now role rise later (gone self.now rise later) }
        ensures few { result ≡ true → count ≤ 2 ^ 31 }
    {
        if self.passed(rise, later) < count {
            return false;
        }
        (count + 1) * self.interval(rise, later) <= self.apart(rise, later)
    }
}
