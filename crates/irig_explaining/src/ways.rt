//! The cheapest way to a claim.

ghost use Rattle.std.specs.Prelude.{◌≡◌, ◌+◌, ◌*◌, ◌^◌, ◌<◌, ◌≤◌, ◌⊎◌, All, None};
ghost use Rattle.irig_explaining.specs.Near.{IsNear};
ghost use Rattle.irig_explaining.specs.Nodes.{AreNodes, IsCost, IsLeast, going};
ghost use Rattle.irig_explaining.specs.Offers.{IsLed, Offered};

use crate::claim::{Claim, Kind};
use crate::costs::Costs;
use crate::near::Near;
use crate::nodes::Node;
use crate::opening::{first_open, least_from};
use crate::rises::Rises;

/// A way to a claim.
#[derive(Clone, Copy)]
pub struct Way {
    /// What the claim and all before it cost, with the rises before the first.
    pub cost: u64,
    /// The number of the node before; `None` if this claim is the first.
    pub from: Option<usize>,
    /// The kind of the step from there.
    pub kind: Kind,
}

impl Way {
    /// The claim is the first one.
    pub(crate) fn first(rises: Rises, rise: usize) -> Way
        requires { rise < 2 ^ 31 }
        ensures cost { result.cost ≡ rises.skip * rise }
        ensures from { result.from ≡ None }
    {
        Way {
            cost: rises.skipped(rise),
            from: None,
            kind: Kind::Next,
        }
    }
}

/// The cheapest way to a claim, if it costs no more than the top. It is the first one, or a step
/// leads to it from a node near it.
pub fn cheapest<C: Costs>(
    costs: &C,
    rises: Rises,
    nodes: &[Node],
    near: Near,
    to: Claim,
    top: u64,
) -> Way
    requires few { to.rise < 2 ^ 31 }
    requires small { All (λ n. n.cost < 2 ^ 63) nodes.now }
    requires near { IsNear rises.window nodes.now to.rise near }
    requires top { IsLed (C.price costs.now) rises nodes.now near to.rise to.element top }
    ensures { IsLeast (C.price costs.now) rises nodes.now to.rise to.element result }
{
    let mut best = Way::first(rises, to.rise as usize);
    for from in first_open(costs, nodes, near, to.rise as usize, top)..near.end {
        best = offer(costs, nodes[from], from, to, top, best);
    }
    best
}

/// What it costs at most: a jump from the last node.
fn top_to<C: Costs>(costs: &C, rises: Rises, nodes: &[Node], near: Near, to: Claim) -> u64
    requires few { to.rise < 2 ^ 31 }
    requires small { All (λ n. n.cost < 2 ^ 63) nodes.now }
    requires near { IsNear rises.window nodes.now to.rise near }
    ensures { IsLed (C.price costs.now) rises nodes.now near to.rise to.element result }
{
    if near.end <= near.start {
        return rises.skipped(to.rise as usize);
    }
    let from = near.end - 1;
    come(costs, nodes[from], from, to, Kind::Jump).cost
}

/// What the cheapest way to a claim costs, when the whole table is known.
pub fn cost_of<C: Costs>(costs: &C, rises: Rises, nodes: &[Node], near: Near, to: Claim) -> u64
    requires few { rises.count ≤ 2 ^ 30 }
    requires table { AreNodes (C.price costs.now) rises rises.count nodes.now }
    requires there { to.rise < rises.count }
    requires near { IsNear rises.window nodes.now to.rise near }
    ensures cost { IsCost (C.price costs.now) rises nodes.now to.rise to.element result }
    ensures small { result < 2 ^ 62 }
{
    let top = top_to(costs, rises, nodes, near, to);
    cheapest(costs, rises, nodes, near, to, top).cost
}

/// The cheapest of a way to a claim and those from one node, of each kind, up to the top.
fn offer<C: Costs>(costs: &C, node: Node, from: usize, to: Claim, top: u64, best: Way) -> Way
    requires { node.cost < 2 ^ 63 }
    ensures { Offered (C.price costs.now) node from to top best result }
{
    if top < least_from(costs, node, to.rise as usize, top) {
        return best;
    }
    let next = come(costs, node, from, to, Kind::Next);
    let step = come(costs, node, from, to, Kind::Step);
    let jump = come(costs, node, from, to, Kind::Jump);
    cheaper(cheaper(cheaper(best, next), step), jump)
}

/// The way to a claim from one node.
pub(crate) fn come<C: Costs>(costs: &C, node: Node, from: usize, to: Claim, kind: Kind) -> Way
    requires { node.cost < 2 ^ 63 }
    ensures cost { result.cost ≡ going (C.price costs.now) node to.rise to.element kind }
    ensures from { result.from ≡ Some from }
    ensures kind { result.kind ≡ kind }
{
    let to = Claim {
        rise: to.rise,
        element: to.element,
        kind,
    };
    let price = costs.price(node.claim(Kind::Next), to);
    Way {
        cost: node.cost + u64::from(price),
        from: Some(from),
        kind,
    }
}

/// The cheaper of two ways; the first if both cost the same.
pub(crate) fn cheaper(first: Way, second: Way) -> Way
    ensures either { (result ≡ first) ⊎ (result ≡ second) }
    ensures first { result.cost ≤ first.cost }
    ensures second { result.cost ≤ second.cost }
{
    if second.cost < first.cost {
        second
    } else {
        first
    }
}
