//! How far rises are apart, and how many elements that is.

ghost use Rattle.std.specs.Prelude.{ℕ, ◌≡◌, ◌+◌, ◌*◌, ◌^◌, ◌<◌, ◌≤◌, ◌⊎◌, false, length, true};
ghost use Rattle.irig_explaining.specs.Distances.{apart, gone, interval, interval_at, rise_at};
ghost use Rattle.irig_explaining.specs.Distances.{far, is_off, late};
ghost use Rattle.irig_explaining.specs.Priced.{least, on, tremble};

use crate::division::quotient;
use crate::prices::Prices;
use crate::role::Role;
use crate::table::{CANNOT, OFF_LINE, PART, TREMBLE};

impl<'a> Prices<'a> {
    /// A rise, in microseconds.
    pub(crate) fn rise_at(&self, rise: usize) -> u64
        requires { rise < length self.now.pulses.now }
        ensures exact { result ≡ rise_at self.now rise }
        ensures early { result ≤ 2 ^ 40 }
    {
        self.pulses[rise].rise
    }

    /// The interval at a rise, in parts of a microsecond.
    pub(crate) fn interval_at(&self, rise: usize) -> u64
        requires { rise < length self.now.pulses.now }
        ensures exact { result ≡ interval_at self.now rise }
        ensures some { 0 < result }
        ensures short { result < 2 ^ 27 }
    {
        u64::from(self.clock.intervals[rise])
    }

    /// The distance of two rises, in parts of a microsecond.
    pub(crate) fn apart(&self, rise: usize, later: usize) -> u64
        requires rise { rise < length self.now.pulses.now }
        requires later { later < length self.now.pulses.now }
        ensures exact { result ≡ apart self.now rise later }
        ensures small { result ≤ 2 ^ 48 }
    {
        PART * self.rise_at(later).saturating_sub(self.rise_at(rise))
    }

    pub(crate) fn interval(&self, rise: usize, later: usize) -> u64
        requires rise { rise < length self.now.pulses.now }
        requires later { later < length self.now.pulses.now }
        ensures exact { result ≡ interval self.now rise later }
        ensures some { 0 < result }
        ensures short { result < 2 ^ 27 }
    {
        (self.interval_at(rise) + self.interval_at(later)) / 2
    }

    /// How many elements the clock says lie between two rises. Most often it is one or two, and a
    /// division takes long.
    pub fn gone(&self, rise: usize, later: usize) -> u64
        requires rise { rise < length self.now.pulses.now }
        requires later { later < length self.now.pulses.now }
        ensures exact { result ≡ gone self.now rise later }
        ensures some { 0 < result }
        ensures few { result ≤ 2 ^ 49 }
        ensures near { result ≤ apart self.now rise later + 1 }
    {
        let interval = self.interval(rise, later);
        let apart = self.apart(rise, later);
        if 2 * apart < 3 * interval {
            return 1;
        }
        if 2 * apart < 5 * interval {
            return 2;
        }
        ((2 * apart + interval) / (2 * interval)).max(1)
    }

    /// How far a rise is off its place that many elements after another one, in parts of a
    /// microsecond.
    fn far(&self, rise: usize, later: usize, count: u64) -> u64
        requires rise { rise < length self.now.pulses.now }
        requires later { later < length self.now.pulses.now }
        requires few { count ≤ gone self.now rise later + 5 }
        ensures { result ≡ far self.now rise later count }
    {
        let interval = self.interval(rise, later);
        self.apart(rise, later).abs_diff(count * interval)
    }

    /// What that costs, by the spread of that many elements.
    fn late(&self, off: u64, count: u64) -> u64
        requires { off < 2 ^ 29 }
        ensures { result ≡ late self.now off count }
    {
        let spread = self.clock.spread;
        let count = count.min(1_048_576);
        let square = quotient(32 * off * off, spread * spread);
        quotient(square, 4 + count * count)
    }

    /// Whether a rise is not that many elements after another one.
    fn is_off(&self, interval: u64, off: u64, count: u64) -> bool
        requires { interval < 2 ^ 27 }
        ensures exact { result ≡ is_off self.now interval off count }
        ensures near { result ≡ false → off ≤ 4 * interval }
    {
        if 4 * interval < off {
            return true;
        }
        9 * interval < 20 * off && 72 < self.late(off, count)
    }

    /// How many elements more, or fewer, than the clock says can lie between two rises.
    pub(crate) fn spare(&self, rise: usize, later: usize, said: u64) -> u64
        requires rise { rise < length self.now.pulses.now }
        requires later { later < length self.now.pulses.now }
        requires said { said ≡ gone self.now rise later }
        requires few { said ≤ 2 ^ 49 }
        ensures few { result ≤ 5 }
        ensures near { (n : ℕ) → 0 < n → (n ≡ said → ⊥) → n ≤ said + 5 → (result ≡ 5)
            ⊎ (is_off self.now (interval self.now rise later) (far self.now rise later n) n
            ≡ true) }
    {
        if 72 < self.late(self.interval(rise, later) / 2, said + 5) {
            return 0;
        }
        5
    }

    /// What a late rise costs after a step in time or a jump.
    fn tremble(&self, interval: u64, off: u64, count: u64) -> u64
        requires { interval < 2 ^ 27 }
        ensures exact { result ≡ tremble self.now interval off count }
        ensures small { result ≤ 48 }
    {
        if 4 * interval < off {
            return TREMBLE;
        }
        self.late(off, count).min(TREMBLE)
    }

    /// What any step costs at least: the wire as the clock counts it, and a little for a late rise.
    pub(crate) fn least(&self, role: Role, rise: usize, later: usize) -> u64
        requires order { rise < later }
        requires later { later < length self.now.pulses.now }
        ensures exact { result ≡ least self.now role rise later }
        ensures small { result < 2 ^ 59 + 48 }
        ensures few { gone self.now rise later ≤ 2 ^ 49 }
    {
        let gone = self.gone(rise, later);
        let off = self.far(rise, later, gone);
        let tremble = self.tremble(self.interval(rise, later), off, gone);
        self.wire(role, rise, later, gone) + tremble
    }

    /// What a step over that many elements costs; the clock can say another number.
    pub(crate) fn on(&self, role: Role, rise: usize, later: usize, count: u64, said: u64) -> u64
        requires order { rise < later }
        requires later { later < length self.now.pulses.now }
        requires said { said ≡ gone self.now rise later }
        requires small { said ≤ 2 ^ 49 }
        requires some { 0 < count }
        requires few { count ≤ gone self.now rise later + 5 }
        ensures exact { result ≡ on self.now role rise later count }
        ensures small { result < 2 ^ 60 }
    {
        let off = self.far(rise, later, count);
        if self.is_off(self.interval(rise, later), off, count) {
            return CANNOT;
        }
        let late = self.late(off, count).min(OFF_LINE);
        let cost = self.wire(role, rise, later, count) + late;
        if count == said {
            return cost;
        }
        cost.max(self.least(role, rise, later))
    }
}
