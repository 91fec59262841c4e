//! What all cheap choices say.

ghost use Rattle.std.specs.Prelude.{ℕ, ◌≡◌, ◌+◌, ◌^◌, ◌<◌, ◌≤◌, IfOk, List, MatchOption};
ghost use Rattle.irig_dating.specs.Choices.{IsChoice, cost};
ghost use Rattle.irig_dating.specs.Sure.{AreOthers, AreTables, Has, IsOther, IsWith, lesser_of};

use crate::choice::{Choice, cheapest};
use crate::costs::Costs;
use crate::rows::{least_at, rows};
use crate::turned::Turned;
use std::alloc::{AllocError, Global};

/// For each candidate of a bit what comes before it costs at least, and what comes after it.
#[derive(Drop)]
pub struct Tables<'a, C> {
    pub(crate) costs: &'a C,
    pub(crate) bits: usize,
    pub(crate) before: Vec<Vec<u64>>,
    pub(crate) after: Vec<Vec<u64>>,
}

impl<'a, C: Costs> Tables<'a, C> {
    pub fn build(alloc: Global, costs: &'a C, bits: usize) -> Result<Self, AllocError>
        requires { bits ≤ 2 ^ 30 }
        ensures of { IfOk result (λ t. (t.costs.now ≡ costs.now) × (t.bits ≡ bits)) }
        ensures full { IfOk result (λ t. AreTables (C.prices t.costs.now) t.bits
            t.before.items t.after.items) }
    {
        let turned = Turned { costs, bits };
        let before = rows(alloc, &turned, bits)?;
        let after = rows(alloc, costs, bits)?;
        Ok(Tables {
            costs,
            bits,
            before,
            after,
        })
    }

    /// The cheapest choice.
    pub fn cheapest(&self, alloc: Global) -> Result<Choice, AllocError>
        requires few { self.now.bits ≤ 2 ^ 30 }
        requires full { AreTables (C.prices self.now.costs.now) self.now.bits
            self.now.before.items self.now.after.items }
        // It has a candidate for each bit.
        ensures possible { IfOk result (λ x. IsChoice (C.prices self.now.costs.now)
            self.now.bits x.candidates.items) }
        // It costs what it says.
        ensures exact { IfOk result (λ x. cost (C.prices self.now.costs.now)
            x.candidates.items ≡ x.cost) }
        // None is cheaper.
        ensures least { IfOk result (λ x. (others : List ℕ)
            → IsChoice (C.prices self.now.costs.now) self.now.bits others
            → x.cost ≤ cost (C.prices self.now.costs.now) others) }
    {
        cheapest(alloc, self.costs, self.bits, self.after.as_slice())
    }

    /// What the cheapest choice costs that has a candidate for a bit.
    pub fn cheapest_with(&self, bit: usize, candidate: usize) -> u64
        requires few { self.now.bits ≤ 2 ^ 30 }
        requires full { AreTables (C.prices self.now.costs.now) self.now.bits
            self.now.before.items self.now.after.items }
        requires there { bit < self.now.bits }
        requires candidate { candidate ≤ (C.prices self.now.costs.now).last bit }
        // None with it is cheaper.
        ensures least { (x : List ℕ) → IsChoice (C.prices self.now.costs.now) self.now.bits x
            → Has bit candidate x → result ≤ cost (C.prices self.now.costs.now) x }
        // One with it costs just that.
        ensures exact { IsWith (C.prices self.now.costs.now) self.now.bits bit candidate
            result }
    {
        let before = self.before.as_slice()[bit].as_slice();
        let after = self.after.as_slice()[self.bits - 1 - bit].as_slice();
        let pay = u64::from(self.costs.pay(bit, candidate));
        least_at(before, candidate) + pay + least_at(after, candidate)
    }

    /// The cost below which all choices have a candidate for a bit; `None` if it is the only one.
    pub fn sure_below(&self, bit: usize, candidate: usize) -> Option<u64>
        requires few { self.now.bits ≤ 2 ^ 30 }
        requires full { AreTables (C.prices self.now.costs.now) self.now.bits
            self.now.before.items self.now.after.items }
        requires there { bit < self.now.bits }
        // All that are cheaper have it.
        ensures sure { (x : List ℕ) → IsChoice (C.prices self.now.costs.now) self.now.bits x
            → MatchOption result (Has bit candidate x)
            (λ b. cost (C.prices self.now.costs.now) x < b → Has bit candidate x) }
        // One that costs just that has another one.
        ensures exact { MatchOption result (Unit {0})
            (λ b. IsOther (C.prices self.now.costs.now)
            self.now.bits bit candidate b) }
    {
        let mut least = None;
        for other in 0..self.costs.last(bit) as usize + 1 {
            least = self.with_other(bit, candidate, other, least);
        }
        least
    }

    /// The least of a cost, if there is one, and what the cheapest choice with another one costs.
    fn with_other(
        &self,
        bit: usize,
        candidate: usize,
        other: usize,
        least: Option<u64>,
    ) -> Option<u64>
        requires few { self.now.bits ≤ 2 ^ 30 }
        requires full { AreTables (C.prices self.now.costs.now) self.now.bits
            self.now.before.items self.now.after.items }
        requires there { bit < self.now.bits }
        requires candidate { other ≤ (C.prices self.now.costs.now).last bit }
        requires so_far { AreOthers (C.prices self.now.costs.now) self.now.bits bit candidate
            other least }
        ensures { AreOthers (C.prices self.now.costs.now) self.now.bits bit candidate
            (other + 1) result }
    {
        if other == candidate {
            return least;
        }
        lesser(least, self.cheapest_with(bit, other))
    }
}

/// The lesser of a cost, if there is one, and another.
fn lesser(first: Option<u64>, second: u64) -> Option<u64>
    ensures { result ≡ lesser_of first second }
{
    match first {
        None => Some(second),
        Some(known) => Some(known.min(second)),
    }
}
