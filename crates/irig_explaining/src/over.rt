//! The least costs of explanations with a step over an interval that gives it another place.

ghost use Rattle.std.specs.Prelude.{◌≡◌, ◌+◌, ◌-◌, ◌^◌, ◌<◌, ◌≤◌, ◌⊎◌, Contains};
ghost use Rattle.irig_explaining.specs.Bounds.{Elsewhere};
ghost use Rattle.irig_explaining.specs.{Nodes.IsCost, Turned.AreTables, Turned.turned, Ways.OtherWay};
ghost use Rattle.irig_explaining.specs.declared.nodes.Node.{Node};

use crate::asked::Asked;
use crate::bounds::with_step;
use crate::claim::{Claim, Kind};
use crate::costs::{Costs, Places};
use crate::node_steps::with_steps_of_nodes;
use crate::tables::Tables;

impl<'a, C: Costs + Places> Tables<'a, C> {
    /// The least of a cost, and those with a step over the interval that gives it another place.
    /// The nearest rises come first: steps between them cost the least, and the others are left out
    /// if they cannot cost less.
    pub(crate) fn with_steps(&self, asked: Asked, best: u64) -> u64
        requires few { self.now.rises.count ≤ 2 ^ 30 }
        requires full { AreTables (C.price self.now.costs.now) self.now.rises
            self.now.before.items self.now.after.items }
        requires there { asked.interval < self.now.rises.count }
        ensures kept { result ≤ best }
        ensures least { Elsewhere (C.price self.now.costs.now) (C.place self.now.costs.now)
            self.now.rises self.now.before.items self.now.after.items asked
            (λ r e q f. Unit {0}) result }
        ensures origin { (result ≡ best)
            ⊎ OtherWay (C.price self.now.costs.now) (C.place self.now.costs.now)
            self.now.rises self.now.before.items self.now.after.items asked result }
    {
        let far = (asked.interval + 1).saturating_add(self.rises.window);
        let mut least = best;
        for rise in asked.interval + 1..self.rises.count.min(far) {
            least = self.with_steps_to_rise(rise, asked, least);
        }
        least
    }

    /// The same for the steps to a rise.
    fn with_steps_to_rise(&self, later: usize, asked: Asked, best: u64) -> u64
        requires few { self.now.rises.count ≤ 2 ^ 30 }
        requires full { AreTables (C.price self.now.costs.now) self.now.rises
            self.now.before.items self.now.after.items }
        requires late { asked.interval < later }
        requires there { later < self.now.rises.count }
        ensures kept { result ≤ best }
        ensures least { Elsewhere (C.price self.now.costs.now) (C.place self.now.costs.now)
            self.now.rises self.now.before.items self.now.after.items asked
            (λ r e q f. q ≡ later) result }
        ensures origin { (result ≡ best)
            ⊎ OtherWay (C.price self.now.costs.now) (C.place self.now.costs.now)
            self.now.rises self.now.before.items self.now.after.items asked result }
    {
        let rest = self.lowest_after(later);
        let first = later.saturating_sub(self.rises.window);
        let count = (asked.interval + 1).saturating_sub(first);
        let mut least = best;
        for back in 0..count {
            least = self.with_steps_between(asked.interval - back, later, rest, asked, least);
        }
        least
    }

    /// The same for the steps between two rises. What comes after the second costs at least `rest`.
    /// If no jump gives the asked place, steps between nodes are enough: no other one is cheaper
    /// than a jump.
    fn with_steps_between(
        &self,
        rise: usize,
        later: usize,
        rest: u64,
        asked: Asked,
        best: u64,
    ) -> u64
        requires few { self.now.rises.count ≤ 2 ^ 30 }
        requires full { AreTables (C.price self.now.costs.now) self.now.rises
            self.now.before.items self.now.after.items }
        requires early { rise < asked.interval + 1 }
        requires late { asked.interval < later }
        requires there { later < self.now.rises.count }
        requires near { later ≤ rise + self.now.rises.window }
        requires rest { (n : Node) → Contains self.now.after.items n
            → n.rise ≡ self.now.rises.count - 1 - later → rest ≤ n.cost }
        requires little { rest < 2 ^ 62 }
        ensures kept { result ≤ best }
        ensures least { Elsewhere (C.price self.now.costs.now) (C.place self.now.costs.now)
            self.now.rises self.now.before.items self.now.after.items asked
            (λ r e q f. (r ≡ rise) × (q ≡ later)) result }
        ensures origin { (result ≡ best)
            ⊎ OtherWay (C.price self.now.costs.now) (C.place self.now.costs.now)
            self.now.rises self.now.before.items self.now.after.items asked result }
    {
        let start = self.lowest_before(rise);
        let low = start + rest;
        let step = self.costs.least(rise, later, best.saturating_sub(low));
        if best <= low + u64::from(step) {
            return best;
        }
        if !self.costs.no_jump_gives(asked.place) {
            return self.with_steps_of_claims(rise, later, start, asked, best);
        }
        let (before, after) = (self.before.as_slice(), self.after.as_slice());
        with_steps_of_nodes(
            self.costs, self.rises, before, after, rise, later, asked, best,
        )
    }

    /// The same for all claims of both. No claim of the first rise costs less than `start`.
    fn with_steps_of_claims(
        &self,
        rise: usize,
        later: usize,
        start: u64,
        asked: Asked,
        best: u64,
    ) -> u64
        requires few { self.now.rises.count ≤ 2 ^ 30 }
        requires full { AreTables (C.price self.now.costs.now) self.now.rises
            self.now.before.items self.now.after.items }
        requires early { rise < asked.interval + 1 }
        requires late { asked.interval < later }
        requires there { later < self.now.rises.count }
        requires near { later ≤ rise + self.now.rises.window }
        requires start { (n : Node) → Contains self.now.before.items n → n.rise ≡ rise
            → start ≤ n.cost }
        requires little { start < 2 ^ 62 }
        ensures kept { result ≤ best }
        ensures least { Elsewhere (C.price self.now.costs.now) (C.place self.now.costs.now)
            self.now.rises self.now.before.items self.now.after.items asked
            (λ r e q f. (r ≡ rise) × (q ≡ later)) result }
        ensures origin { (result ≡ best)
            ⊎ OtherWay (C.price self.now.costs.now) (C.place self.now.costs.now)
            self.now.rises self.now.before.items self.now.after.items asked result }
    {
        let mut least = best;
        for element in 0..self.rises.states {
            let to = Claim {
                rise: later as u32,
                element,
                kind: Kind::Next,
            };
            least = self.with_steps_from_rise(rise, to, start, asked, least);
        }
        least
    }

    /// The same for the steps from a rise to a claim. No claim of the rise costs less than `start`.
    fn with_steps_from_rise(
        &self,
        rise: usize,
        to: Claim,
        start: u64,
        asked: Asked,
        best: u64,
    ) -> u64
        requires few { self.now.rises.count ≤ 2 ^ 30 }
        requires full { AreTables (C.price self.now.costs.now) self.now.rises
            self.now.before.items self.now.after.items }
        requires early { rise < asked.interval + 1 }
        requires late { asked.interval < to.rise }
        requires there { to.rise < self.now.rises.count }
        requires near { to.rise ≤ rise + self.now.rises.window }
        requires element { to.element < self.now.rises.states }
        requires start { (n : Node) → Contains self.now.before.items n → n.rise ≡ rise
            → start ≤ n.cost }
        requires little { start < 2 ^ 62 }
        ensures kept { result ≤ best }
        ensures least { Elsewhere (C.price self.now.costs.now) (C.place self.now.costs.now)
            self.now.rises self.now.before.items self.now.after.items asked
            (λ r e q f. (r ≡ rise) × (q ≡ to.rise) × (f ≡ to.element)) result }
        ensures origin { (result ≡ best)
            ⊎ OtherWay (C.price self.now.costs.now) (C.place self.now.costs.now)
            self.now.rises self.now.before.items self.now.after.items asked result }
    {
        let rest = self.cost_after(to);
        if best <= start + rest {
            return best;
        }
        let mut least = best;
        for element in 0..self.rises.states {
            let from = Claim {
                rise: rise as u32,
                element,
                kind: Kind::Next,
            };
            least = self.with_steps_from(from, to, start, rest, asked, least);
        }
        least
    }

    /// The same for the steps between two claims. What comes after the second costs `rest`.
    fn with_steps_from(
        &self,
        from: Claim,
        to: Claim,
        start: u64,
        rest: u64,
        asked: Asked,
        best: u64,
    ) -> u64
        requires few { self.now.rises.count ≤ 2 ^ 30 }
        requires full { AreTables (C.price self.now.costs.now) self.now.rises
            self.now.before.items self.now.after.items }
        requires early { from.rise < asked.interval + 1 }
        requires late { asked.interval < to.rise }
        requires there { to.rise < self.now.rises.count }
        requires near { to.rise ≤ from.rise + self.now.rises.window }
        requires elements { (from.element < self.now.rises.states)
            × (to.element < self.now.rises.states) }
        requires start { (n : Node) → Contains self.now.before.items n → n.rise ≡ from.rise
            → start ≤ n.cost }
        requires little { start < 2 ^ 62 }
        requires rest { IsCost (turned (C.price self.now.costs.now) self.now.rises.count)
            self.now.rises self.now.after.items (self.now.rises.count - 1 - to.rise) to.element
            rest }
        requires small { rest < 2 ^ 62 }
        ensures kept { result ≤ best }
        ensures least { Elsewhere (C.price self.now.costs.now) (C.place self.now.costs.now)
            self.now.rises self.now.before.items self.now.after.items asked
            (λ r e q f. (r ≡ from.rise) × (e ≡ from.element) × (q ≡ to.rise)
            × (f ≡ to.element)) result }
        ensures origin { (result ≡ best)
            ⊎ OtherWay (C.price self.now.costs.now) (C.place self.now.costs.now)
            self.now.rises self.now.before.items self.now.after.items asked result }
    {
        if best <= with_step(self.costs, start + rest, from, to, asked, best) {
            return best;
        }
        let spent = self.cost_before(from) + rest;
        with_step(self.costs, spent, from, to, asked, best)
    }
}
