//! What all cheap explanations say.

ghost use Rattle.std.specs.Prelude.{◌≡◌, ◌^◌, ◌<◌, ◌≤◌, IfOk, List};
ghost use Rattle.irig_explaining.specs.Explanation.{IsExplanation, cost};
ghost use Rattle.irig_explaining.specs.Sure.{Gives, IsOther};
ghost use Rattle.irig_explaining.specs.Turned.{AreTables};
ghost use Rattle.irig_explaining.specs.declared.claim.Claim.{Claim};

use crate::asked::Asked;
use crate::bounds::without_step;
use crate::costs::{Costs, Places};
use crate::explanation::{Explanation, cheapest_of};
use crate::nodes::{Node, nodes};
use crate::rises::Rises;
use crate::turned::Turned;
use std::alloc::{AllocError, Global};

/// For each claim what comes before it costs at least, and what comes after it.
#[derive(Drop)]
pub struct Tables<'a, C> {
    pub(crate) costs: &'a C,
    pub(crate) rises: Rises,
    pub(crate) before: Vec<Node>,
    pub(crate) after: Vec<Node>,
}

impl<'a, C: Costs + Places> Tables<'a, C> {
    /// The tables of some rises.
    pub fn build(alloc: Global, costs: &'a C, rises: Rises) -> Result<Self, AllocError>
        requires { rises.count ≤ 2 ^ 30 }
        ensures of { IfOk result (λ t. (t.costs.now ≡ costs.now) × (t.rises ≡ rises)) }
        ensures full { IfOk result (λ t. AreTables (C.price t.costs.now) t.rises
            t.before.items t.after.items) }
    {
        let before = nodes(alloc, costs, rises)?;
        let turned = Turned {
            costs,
            count: rises.count,
        };
        let after = nodes(alloc, &turned, rises)?;
        Ok(Tables {
            costs,
            rises,
            before,
            after,
        })
    }

    /// The cheapest explanation. It is one, it costs what it says, and none is cheaper.
    pub fn explain(&self, alloc: Global) -> Result<Explanation, AllocError>
        requires few { self.now.rises.count ≤ 2 ^ 30 }
        requires full { AreTables (C.price self.now.costs.now) self.now.rises
            self.now.before.items self.now.after.items }
        ensures possible { IfOk result (λ x. IsExplanation self.now.rises x.claims.items) }
        ensures exact { IfOk result (λ x. cost (C.price self.now.costs.now) self.now.rises
            x.claims.items ≡ x.cost) }
        ensures least { IfOk result (λ x. (others : List Claim)
            → IsExplanation self.now.rises others
            → x.cost ≤ cost (C.price self.now.costs.now) self.now.rises others) }
    {
        cheapest_of(alloc, self.costs, self.rises, self.before.as_slice())
    }

    /// The cost below which all explanations give an interval a place.
    pub fn sure_below(&self, asked: Asked) -> u64
        requires few { self.now.rises.count ≤ 2 ^ 30 }
        requires full { AreTables (C.price self.now.costs.now) self.now.rises
            self.now.before.items self.now.after.items }
        requires there { asked.interval < self.now.rises.count }
        // All that are cheaper give it the place.
        ensures sure { (x : List Claim) → IsExplanation self.now.rises x
            → cost (C.price self.now.costs.now) self.now.rises x < result
            → Gives (C.place self.now.costs.now) asked x }
        // One that costs just that does not.
        ensures exact { IsOther (C.price self.now.costs.now) (C.place self.now.costs.now)
            self.now.rises asked result }
    {
        let none = self.rises.skipped(self.rises.count);
        let best = self.with_steps(asked, none);
        let (before, after) = (self.before.as_slice(), self.after.as_slice());
        without_step(self.rises, before, after, asked, best)
    }
}
