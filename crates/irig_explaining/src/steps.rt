//! The cheapest ways by a jump from the open nodes.

ghost use Rattle.std.specs.Prelude.{ℕ, ◌≡◌, ◌^◌, ◌<◌, ◌≤◌, ◌⊎◌, All, IfOk, length, slice_index_or};
ghost use Rattle.irig_explaining.specs.{Nodes.going};
ghost use Rattle.irig_explaining.specs.Opened.{IsBy, IsJump, IsOpen, no_way};
ghost use Rattle.irig_explaining.specs.declared.claim.Kind.TheVariants.{Jump};

use crate::claim::Kind;
use crate::costs::Costs;
use crate::nodes::Node;
use crate::opened::Open;
use crate::rises::Rises;
use crate::ways::{Way, cheaper};
use std::alloc::{AllocError, Global};

/// For each class of elements the cheapest way by a jump.
pub fn jump_ways<C: Costs>(
    alloc: Global,
    costs: &C,
    rises: Rises,
    nodes: &[Node],
    opens: &[Open],
    rise: usize,
) -> Result<Vec<Way>, AllocError>
    requires few { rise < 2 ^ 31 }
    requires small { All (λ n. n.cost < 2 ^ 63) nodes.now }
    requires opens { All (IsOpen (C.price costs.now) rises nodes.now rise) opens.now }
    ensures { IfOk result (λ ways. (f : ℕ) → f < rises.states
        → (C.to_class costs.now f < length ways.items)
        × IsJump (C.price costs.now) rises nodes.now opens.now rise f
        (slice_index_or ways.items (C.to_class costs.now f) no_way)) }
{
    let mut ways = Vec::new(alloc);
    for class in 0..costs.to_classes(rises.states) {
        ways.push(cheapest_jump(costs, rises, nodes, opens, rise, class))?;
    }
    Ok(ways)
}

/// The cheapest way by a jump to the elements of a class. Jumps from late nodes are the cheapest,
/// mostly.
fn cheapest_jump<C: Costs>(
    costs: &C,
    rises: Rises,
    nodes: &[Node],
    opens: &[Open],
    rise: usize,
    class: usize,
) -> Way
    requires few { rise < 2 ^ 31 }
    requires small { All (λ n. n.cost < 2 ^ 63) nodes.now }
    requires opens { All (IsOpen (C.price costs.now) rises nodes.now rise) opens.now }
    ensures { (f : ℕ) → C.to_class costs.now f ≡ class
        → IsJump (C.price costs.now) rises nodes.now opens.now rise f result }
{
    let mut best = Way::first(rises, rise);
    for done in 0..opens.len() {
        let from = opens[opens.len() - 1 - done].from;
        best = cheaper_jump(costs, nodes[from], from, rise, class, best);
    }
    best
}

/// The cheaper of a way and that by a jump from a node. It is not priced if it cannot be cheaper.
fn cheaper_jump<C: Costs>(
    costs: &C,
    node: Node,
    from: usize,
    rise: usize,
    class: usize,
    best: Way,
) -> Way
    requires { node.cost < 2 ^ 63 }
    ensures kept { result.cost ≤ best.cost }
    ensures least { (f : ℕ) → C.to_class costs.now f ≡ class
        → result.cost ≤ going (C.price costs.now) node rise f Jump }
    ensures origin { (result ≡ best) ⊎ IsBy (C.price costs.now) (C.to_class costs.now) node from
        rise class result }
{
    if best.cost <= node.cost + u64::from(costs.least_by(node.rise as usize, rise, Kind::Jump)) {
        return best;
    }
    cheaper(best, jump(costs, node, from, rise, class))
}

/// The way by a jump from a node.
fn jump<C: Costs>(costs: &C, node: Node, from: usize, rise: usize, class: usize) -> Way
    requires { node.cost < 2 ^ 63 }
    ensures cost { (f : ℕ) → C.to_class costs.now f ≡ class
        → result.cost ≡ going (C.price costs.now) node rise f Jump }
    ensures from { result.from ≡ Some from }
    ensures kind { result.kind ≡ Jump }
{
    let price = costs.jump_to(node.claim(Kind::Next), rise, class);
    Way {
        cost: node.cost + u64::from(price),
        from: Some(from),
        kind: Kind::Jump,
    }
}
