//! The nodes from which a step to a rise can be the cheapest way.

ghost use Rattle.std.specs.Prelude.{ℕ, ◌≡◌, ◌+◌, ◌^◌, ◌<◌, ◌≤◌, All, IfOk, Some, false, length, min, slice_get};
ghost use Rattle.irig_explaining.specs.Near.{IsNear};
ghost use Rattle.irig_explaining.specs.{Offers.IsTop, Opened.AreOpen};
ghost use Rattle.irig_explaining.specs.{Nodes.going, Reached.IsReach, Reached.reaches};
ghost use Rattle.irig_explaining.specs.declared.{claim.Kind.Kind, nodes.Node.Node};
ghost use Rattle.irig_explaining.specs.declared.claim.Kind.TheVariants.{Jump};

use crate::claim::Kind;
use crate::costs::Costs;
use crate::near::Near;
use crate::nodes::Node;
use crate::opened::Open;
use crate::remote::Remote;
use crate::rises::Rises;
use std::alloc::{AllocError, Global};

/// What the cheapest way to any claim of a rise costs at most: a jump from the last node near it.
pub fn top_of<C: Costs>(costs: &C, rises: Rises, nodes: &[Node], near: Near, rise: usize) -> u64
    requires few { rise < 2 ^ 31 }
    requires small { All (λ n. n.cost < 2 ^ 63) nodes.now }
    requires near { IsNear rises.window nodes.now rise near }
    ensures { (f : ℕ) → f < rises.states
        → IsTop (C.price costs.now) rises nodes.now near rise f result }
{
    if near.end <= near.start {
        return rises.skipped(rise);
    }
    let last = nodes[near.end - 1];
    last.cost + u64::from(dearest_jump(costs, rises.states, last, rise))
}

/// What a jump from a node to a rise costs at most.
fn dearest_jump<C: Costs>(costs: &C, states: u32, node: Node, rise: usize) -> u32
    ensures { (f : ℕ) → f < states
        → C.price costs.now node.rise node.element rise f Jump ≤ result }
{
    let mut most: u32 = 0;
    for class in 0..costs.to_classes(states) {
        most = most.max(costs.jump_to(node.claim(Kind::Next), rise, class));
    }
    most
}

/// The nodes near a rise from which a step to it can cost no more than the top.
pub fn open_nodes<C: Costs>(
    alloc: Global,
    costs: &C,
    rises: Rises,
    nodes: &[Node],
    near: Near,
    rise: usize,
    top: u64,
) -> Result<Vec<Open>, AllocError>
    requires small { All (λ n. n.cost < 2 ^ 63) nodes.now }
    requires near { IsNear rises.window nodes.now rise near }
    ensures { IfOk result (λ opens. AreOpen (C.price costs.now) rises nodes.now rise near.start
        near.end top opens.items) }
{
    let mut opens = Vec::new(alloc);
    for from in first_open(costs, nodes, near, rise, top)..near.end {
        let least = least_from(costs, nodes[from], rise, top);
        if least <= top {
            opens.push(opened(costs, nodes[from], from, rise, least))?;
        }
    }
    Ok(opens)
}

/// The number of a node near a rise: from those before it a step to the rise costs more than the
/// top, since they are of remote rises.
pub(crate) fn first_open<C: Costs>(
    costs: &C,
    nodes: &[Node],
    near: Near,
    rise: usize,
    top: u64,
) -> usize
    requires small { All (λ n. n.cost < 2 ^ 63) nodes.now }
    requires near { near.end ≤ length nodes.now }
    ensures start { min near.start near.end ≤ result }
    ensures others { (u f : ℕ) (m : Node) (k : Kind) → slice_get nodes.now u ≡ Some m
        → near.start ≤ u → u < result → top < going (C.price costs.now) m rise f k }
{
    let remote = costs.remote_from(rise);
    for from in near.start..near.end {
        if can_be_open(nodes[from], remote, top) {
            return from;
        }
    }
    near.end
}

/// Whether a node is of no remote rise, or a step from it may cost no more than the top.
fn can_be_open(node: Node, remote: Remote, top: u64) -> bool
    requires { node.cost < 2 ^ 63 }
    ensures { result ≡ false → (node.rise < remote.rise) × (top < node.cost + remote.least) }
{
    remote.rise <= node.rise as usize || node.cost + u64::from(remote.least) <= top
}

/// What a node and a step from it to a rise cost at least. The least above a top is enough.
pub(crate) fn least_from<C: Costs>(costs: &C, node: Node, rise: usize, top: u64) -> u64
    requires { node.cost < 2 ^ 63 }
    ensures { (f : ℕ) (k : Kind) → result ≤ going (C.price costs.now) node rise f k }
{
    if top < node.cost {
        return node.cost;
    }
    let enough = (top - node.cost).saturating_add(1);
    node.cost + u64::from(costs.least(node.rise as usize, rise, enough))
}

/// A node, with what a step from it to a rise reaches, and costs at least.
fn opened<C: Costs>(costs: &C, node: Node, from: usize, rise: usize, least: u64) -> Open
    requires { (f : ℕ) (k : Kind) → least ≤ going (C.price costs.now) node rise f k }
    ensures from { result.from ≡ from }
    ensures fits { IsReach result.reach }
    ensures reach { (f : ℕ) (k : Kind) → reaches result.reach f ≡ false
        → going (C.price costs.now) node rise f Jump ≤ going (C.price costs.now) node rise f k }
    ensures least { (f : ℕ) (k : Kind) → result.least
        ≤ going (C.price costs.now) node rise f k }
{
    let reach = costs.reach_from(node.claim(Kind::Next), rise);
    Open { from, reach, least }
}
