//! The claims of an explanation, read back from its end.

ghost use Rattle.std.specs.Prelude.{◌≡◌, ◌^◌, ◌≤◌, IfOk};
ghost use Rattle.irig_explaining.specs.Ends.{IsEnd};
ghost use Rattle.irig_explaining.specs.Explanation.{IsExplanation, cost};
ghost use Rattle.irig_explaining.specs.Nodes.{AreNodes};

use crate::claim::{Claim, Kind};
use crate::costs::Costs;
use crate::ends::End;
use crate::near::nodes_near;
use crate::nodes::Node;
use crate::rises::Rises;
use crate::ways::cheapest;
use std::alloc::{AllocError, Global};

/// The claims up to an end, from node to node before it, in the order of their rises. Nodes do not
/// keep where they come from, so the cheapest way to each is looked for again.
pub fn read_back<C: Costs>(
    alloc: Global,
    costs: &C,
    rises: Rises,
    nodes: &[Node],
    end: End,
) -> Result<Vec<Claim>, AllocError>
    requires table { AreNodes (C.price costs.now) rises rises.count nodes.now }
    requires few { rises.count ≤ 2 ^ 31 }
    requires end { IsEnd rises nodes.now end }
    ensures possible { IfOk result (λ claims. IsExplanation rises claims.items) }
    ensures cost { IfOk result (λ claims. cost (C.price costs.now) rises claims.items ≡ end.cost) }
{
    let mut claims = Vec::new(alloc);
    let mut at = end.last;
    'back: while let Some(number) = at {
        let to = nodes[number].claim(Kind::Next);
        let near = nodes_near(rises.window, nodes, to.rise as usize);
        let way = cheapest(costs, rises, nodes, near, to, nodes[number].cost);
        claims.push(nodes[number].claim(way.kind))?;
        at = way.from;
    }
    claims.as_mut_slice().reverse();
    Ok(claims)
}
