//! The cheapest explanation.

ghost use Rattle.std.specs.Prelude.{◌≡◌, ◌^◌, ◌≤◌, IfOk, List};
ghost use Rattle.irig_explaining.specs.Explanation.{IsExplanation, cost};
ghost use Rattle.irig_explaining.specs.Nodes.{AreNodes};
ghost use Rattle.irig_explaining.specs.declared.claim.Claim.{Claim};

use crate::claim::Claim;
use crate::costs::Costs;
use crate::ends::cheapest_end;
use crate::nodes::{Node, nodes};
use crate::read_back::read_back;
use crate::rises::Rises;
use std::alloc::{AllocError, Global};

/// What rises are, and what that costs.
#[derive(Drop)]
pub struct Explanation {
    /// The claims, in the order of their rises.
    pub claims: Vec<Claim>,
    /// What all of it costs.
    pub cost: u64,
}

/// The cheapest explanation of some rises. [`Tables`](crate::Tables) have it too.
pub fn explain<C: Costs>(alloc: Global, costs: &C, rises: Rises) -> Result<Explanation, AllocError>
    requires { rises.count ≤ 2 ^ 31 }
    // It is one.
    ensures possible { IfOk result (λ x. IsExplanation rises x.claims.items) }
    // It costs what it says.
    ensures exact { IfOk result (λ x. cost (C.price costs.now) rises x.claims.items ≡ x.cost) }
    // None is cheaper.
    ensures least { IfOk result (λ x. (others : List Claim) → IsExplanation rises others
        → x.cost ≤ cost (C.price costs.now) rises others) }
{
    let nodes = nodes(alloc, costs, rises)?;
    cheapest_of(alloc, costs, rises, nodes.as_slice())
}

/// The cheapest explanation that a table of nodes has.
pub(crate) fn cheapest_of<C: Costs>(
    alloc: Global,
    costs: &C,
    rises: Rises,
    nodes: &[Node],
) -> Result<Explanation, AllocError>
    requires table { AreNodes (C.price costs.now) rises rises.count nodes.now }
    requires few { rises.count ≤ 2 ^ 31 }
    ensures possible { IfOk result (λ x. IsExplanation rises x.claims.items) }
    ensures exact { IfOk result (λ x. cost (C.price costs.now) rises x.claims.items ≡ x.cost) }
    ensures least { IfOk result (λ x. (others : List Claim) → IsExplanation rises others
        → x.cost ≤ cost (C.price costs.now) rises others) }
{
    let end = cheapest_end(rises, nodes);
    let claims = read_back(alloc, costs, rises, nodes, end)?;
    Ok(Explanation {
        claims,
        cost: end.cost,
    })
}
