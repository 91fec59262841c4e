//! What the wire between two rises costs.

ghost use Rattle.std.specs.Prelude.{ℕ, ◌≡◌, ◌+◌, ◌^◌, ◌<◌, ◌≤◌, All, length, nat_le};
ghost use Rattle.std.specs.List.{count_by};
ghost use Rattle.std.specs.List.Sorted.{IsNonDecreasingBy};
ghost use Rattle.irig_explaining.specs.Looks.{Fits, IsTimely};
ghost use Rattle.irig_explaining.specs.Distances.{gone, rise_at};
ghost use Rattle.irig_explaining.specs.{Priced.role_at, Wires.as_pulse, Wires.between, Wires.element};
ghost use Rattle.irig_explaining.specs.{Wires.near, Wires.passed};
ghost use Rattle.irig_explaining.specs.Wires.{stretch, wire, wire_end};

use crate::looks::{count_inside, extra, high_inside};
use crate::missing::missing;
use crate::prices::Prices;
use crate::pulse::Pulse;
use crate::role::Role;
use crate::stretch::Stretch;
use crate::table::{NOTHING, PART, SKIP};

/// How many of some pulses, in their order, rise at a moment or after it.
fn count_after(moment: u64, pulses: &[Pulse]) -> u64
    requires { IsNonDecreasingBy (λ p. p.rise) pulses.now }
    ensures exact { result ≡ count_by (λ p. nat_le moment p.rise) pulses.now }
    ensures few { result ≤ length pulses.now }
{
    for index in 0..pulses.len() {
        if moment <= pulses[index].rise {
            return (pulses.len() - index) as u64;
        }
    }
    0
}

impl<'a> Prices<'a> {
    pub(crate) fn role_at(&self, element: usize) -> Role
        ensures { result ≡ role_at self.now element }
    {
        if element < self.roles.len() {
            self.roles[element]
        } else {
            Role::Unused
        }
    }

    /// The pulses from a rise on that an element can have: with twelve it looks like nothing.
    fn near(&self, rise: usize) -> &[Pulse]
        requires { rise < length self.now.pulses.now }
        ensures exact { result.now ≡ near self.now rise }
        ensures few { length result.now ≤ 12 }
        ensures timely { All IsTimely result.now }
    {
        &self.pulses[rise..(rise + 12).min(self.pulses.len())]
    }

    /// Where the wire of an element ends if the next claim is not about the element after it.
    pub fn wire_end(&self, rise: usize) -> u64
        requires { rise < length self.now.pulses.now }
        ensures exact { result ≡ wire_end self.now rise }
        ensures early { result ≤ 2 ^ 41 }
    {
        self.rise_at(rise) + 15 * self.interval_at(rise) / (16 * PART)
    }

    /// The wire from a rise to a moment.
    fn stretch(&self, rise: usize, end: u64) -> Stretch
        requires rise { rise < length self.now.pulses.now }
        requires end { end ≤ 2 ^ 41 }
        ensures exact { result ≡ stretch self.now rise end }
        ensures fits { Fits result }
    {
        let near = self.near(rise);
        Stretch {
            begin: self.rise_at(rise),
            end,
            interval: self.interval_at(rise),
            width_spread: self.clock.width_spread,
            extra: extra(count_inside(end, near)),
            high: high_inside(end, near),
        }
    }

    /// What the wire from a rise to a moment costs as a pulse of some tenths of an interval.
    pub fn as_pulse(&self, tenths: u64, rise: usize, end: u64) -> u64
        requires tenths { tenths ≤ 10 }
        requires rise { rise < length self.now.pulses.now }
        requires end { end ≤ 2 ^ 41 }
        ensures exact { result ≡ as_pulse self.now tenths rise end }
        ensures small { result ≤ 112 }
    {
        self.stretch(rise, end).look(tenths, self.near(rise))
    }

    /// What the wire from a rise to a moment costs as an element of a role.
    fn element(&self, role: Role, rise: usize, end: u64) -> u64
        requires rise { rise < length self.now.pulses.now }
        requires end { end ≤ 2 ^ 41 }
        ensures exact { result ≡ element self.now role rise end }
        ensures small { result ≤ 128 }
    {
        self.stretch(rise, end).role_look(role, self.near(rise))
    }

    /// How many rises are passed over between the wire of an element and the next claimed rise.
    pub(crate) fn passed(&self, rise: usize, later: usize) -> u64
        requires order { rise < later }
        requires later { later < length self.now.pulses.now }
        ensures exact { result ≡ passed self.now rise later }
        ensures few { result ≤ 2 ^ 31 }
    {
        count_after(self.wire_end(rise), &self.pulses[rise + 1..later])
    }

    pub(crate) fn between(&self, rise: usize, later: usize, count: u64) -> u64
        requires order { rise < later }
        requires later { later < length self.now.pulses.now }
        requires some { 0 < count }
        requires few { count ≤ 2 ^ 49 + 5 }
        ensures exact { result ≡ between self.now rise later count }
        ensures small { result < 2 ^ 58 }
    {
        let passed = u64::from(SKIP) * self.passed(rise, later);
        let holes = missing(count - 1);
        (holes + passed).min(NOTHING * (count - 1).max(1))
    }

    /// What the wire between two rises costs as an element of a role, and others without a rise.
    pub(crate) fn wire(&self, role: Role, rise: usize, later: usize, count: u64) -> u64
        requires order { rise < later }
        requires later { later < length self.now.pulses.now }
        requires some { 0 < count }
        requires few { count ≤ 2 ^ 49 + 5 }
        ensures exact { result ≡ wire self.now role rise later count }
        ensures small { result < 2 ^ 59 }
    {
        if count == 1 {
            return self.element(role, rise, self.rise_at(later));
        }
        self.element(role, rise, self.wire_end(rise)) + self.between(rise, later, count)
    }

    /// How much more the wire from a rise to a moment costs in one role than in another.
    fn dearer_to(&self, rise: usize, this: Role, other: Role, end: u64) -> u64
        requires rise { rise < length self.now.pulses.now }
        requires end { end ≤ 2 ^ 41 }
        ensures exact { element self.now this rise end ≤ element self.now other rise end + result }
        ensures small { result ≤ 128 }
    {
        let own = self.element(this, rise, end);
        if own == 0 {
            return 0;
        }
        own.saturating_sub(self.element(other, rise, end))
    }

    /// How much more an element costs in one role than in another, at most, whatever comes after.
    pub(crate) fn dearer(&self, rise: usize, this: Role, other: Role) -> u64
        requires rise { rise < length self.now.pulses.now }
        ensures exact { (q : ℕ) → rise < q → q < length self.now.pulses.now
            → wire self.now this rise q (gone self.now rise q)
            ≤ wire self.now other rise q (gone self.now rise q) + result }
        ensures small { result ≤ 128 }
    {
        let mut most = self.dearer_to(rise, this, other, self.wire_end(rise));
        for later in rise + 1..self.pulses.len() {
            if 3 * self.clock.longest <= 2 * self.apart(rise, later) {
                return most;
            }
            most = most.max(self.dearer_at(rise, later, this, other));
        }
        most
    }

    /// The same up to a later rise, if that is the next element by the clock.
    fn dearer_at(&self, rise: usize, later: usize, this: Role, other: Role) -> u64
        requires rise { rise < length self.now.pulses.now }
        requires later { later < length self.now.pulses.now }
        ensures exact { gone self.now rise later ≡ 1
            → element self.now this rise (rise_at self.now later)
            ≤ element self.now other rise (rise_at self.now later) + result }
        ensures small { result ≤ 128 }
    {
        if self.gone(rise, later) != 1 {
            return 0;
        }
        self.dearer_to(rise, this, other, self.rise_at(later))
    }
}
