//! The least costs of steps between nodes that give an interval another place.

ghost use Rattle.std.specs.Prelude.{ℕ, ◌≡◌, ◌+◌, ◌^◌, ◌<◌, ◌≤◌, ◌⊎◌, All, Contains};
ghost use Rattle.std.specs.List.Sorted.{IsNonDecreasingBy};
ghost use Rattle.irig_explaining.specs.Bounds.{Elsewhere, ElsewhereBetween};
ghost use Rattle.irig_explaining.specs.{Turned.AreTables, Ways.OtherFrom, Ways.OtherWay};
ghost use Rattle.irig_explaining.specs.declared.nodes.Node.{Node};
ghost use Rattle.irig_explaining.specs.declared.claim.Kind.TheVariants.{Jump};

use crate::asked::Asked;
use crate::bounds::with_step;
use crate::claim::{Claim, Kind};
use crate::costs::{Costs, Places};
use crate::near::nodes_near;
use crate::nodes::Node;
use crate::rises::Rises;

/// The least of a cost, and those with a step between two rises that gives the interval another
/// place. Only nodes of both are looked at.
pub fn with_steps_of_nodes<C: Costs + Places>(
    costs: &C,
    rises: Rises,
    before: &[Node],
    after: &[Node],
    rise: usize,
    later: usize,
    asked: Asked,
    best: u64,
) -> u64
    requires few { rises.count ≤ 2 ^ 30 }
    requires full { AreTables (C.price costs.now) rises before.now after.now }
    requires jumps { (r e q f : ℕ) → C.place costs.now r e q f Jump ≡ asked.place → ⊥ }
    requires early { rise < asked.interval + 1 }
    requires late { asked.interval < later }
    requires there { later < rises.count }
    requires near { later ≤ rise + rises.window }
    ensures kept { result ≤ best }
    ensures least { Elsewhere (C.price costs.now) (C.place costs.now) rises before.now after.now
        asked (λ r e q f. (r ≡ rise) × (q ≡ later)) result }
    ensures origin { (result ≡ best) ⊎ OtherWay (C.price costs.now) (C.place costs.now) rises
        before.now after.now asked result }
{
    let near = nodes_near(1, after, rises.count - later);
    let mut least = best;
    for number in near.start..near.end {
        let node = after[number];
        let to = Claim {
            rise: later as u32,
            element: node.element,
            kind: Kind::Next,
        };
        least = with_steps_to(costs, before, node.cost, rise, to, asked, least);
    }
    least
}

/// The same for the steps from nodes of a rise to a claim. What comes after that costs `rest`.
fn with_steps_to<C: Costs + Places>(
    costs: &C,
    nodes: &[Node],
    rest: u64,
    rise: usize,
    to: Claim,
    asked: Asked,
    best: u64,
) -> u64
    requires sorted { IsNonDecreasingBy (λ n. n.rise) nodes.now }
    requires small { All (λ n. n.cost < 2 ^ 62) nodes.now }
    requires rest { rest < 2 ^ 62 }
    requires rise { rise < 2 ^ 31 }
    ensures kept { result ≤ best }
    ensures least { (n : Node) → Contains nodes.now n → n.rise ≡ rise
        → ElsewhereBetween (C.price costs.now) (C.place costs.now) asked (n.cost + rest)
        rise n.element to.rise to.element result }
    ensures origin { (result ≡ best) ⊎ OtherFrom (C.price costs.now) (C.place costs.now)
        nodes.now asked rise rest to.rise to.element result }
{
    let near = nodes_near(1, nodes, rise + 1);
    let mut least = best;
    for number in near.start..near.end {
        let from = Claim {
            rise: rise as u32,
            element: nodes[number].element,
            kind: Kind::Next,
        };
        least = with_step(costs, nodes[number].cost + rest, from, to, asked, least);
    }
    least
}
