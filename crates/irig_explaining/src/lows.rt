//! The least costs of all claims of a rise.

ghost use Rattle.std.specs.Prelude.{ℕ, ◌≡◌, ◌^◌, ◌<◌, ◌≤◌, ◌⊎◌, All, IfOk, length, slice_index_or, true};
ghost use Rattle.irig_explaining.specs.Lows.{AreStepped, IsLower, IsUnder};
ghost use Rattle.irig_explaining.specs.Near.{IsNear};
ghost use Rattle.irig_explaining.specs.{Nodes.going, Opened.IsOpen, Opened.no_way, Rows.IsRow};
ghost use Rattle.irig_explaining.specs.Reached.{IsReach, reaches};
ghost use Rattle.irig_explaining.specs.declared.claim.Kind.{Kind};
ghost use Rattle.irig_explaining.specs.declared.claim.Kind.TheVariants.{Step};

use crate::claim::{Claim, Kind};
use crate::costs::Costs;
use crate::near::Near;
use crate::nodes::Node;
use crate::opened::Open;
use crate::opening::{open_nodes, top_of};
use crate::rises::Rises;
use crate::steps::jump_ways;
use crate::ways::{Way, come};
use std::alloc::{AllocError, Global};

/// The least costs of the claims of a rise, when the nodes of the rises before are known.
pub(crate) fn lows<C: Costs>(
    alloc: Global,
    costs: &C,
    rises: Rises,
    nodes: &[Node],
    near: Near,
    rise: usize,
) -> Result<Vec<u64>, AllocError>
    requires few { rise < 2 ^ 31 }
    requires small { All (λ n. n.cost < 2 ^ 63) nodes.now }
    requires near { IsNear rises.window nodes.now rise near }
    ensures { IfOk result (λ lows. IsRow (C.price costs.now) rises nodes.now rise lows.items) }
{
    let top = top_of(costs, rises, nodes, near, rise);
    let found = open_nodes(alloc, costs, rises, nodes, near, rise, top)?;
    let opens = found.as_slice();
    let ways = jump_ways(alloc, costs, rises, nodes, opens, rise)?;
    let jumps = ways.as_slice();
    let mut lows = jump_lows(alloc, costs, rises.states, jumps)?;
    step_lows(costs, rises, nodes, opens, rise, &mut lows);
    Ok(lows)
}

/// What the claims cost by a jump.
fn jump_lows<C: Costs>(
    alloc: Global,
    costs: &C,
    states: u32,
    jumps: &[Way],
) -> Result<Vec<u64>, AllocError>
    requires { (f : ℕ) → f < states → C.to_class costs.now f < length jumps.now }
    ensures all { IfOk result (λ lows. length lows.items ≡ states) }
    ensures each { IfOk result (λ lows. (f : ℕ) → f < states → slice_index_or lows.items f 0
        ≡ (slice_index_or jumps.now (C.to_class costs.now f) no_way).cost) }
{
    let mut lows = Vec::with_capacity(alloc, states as usize)?;
    for element in 0..states {
        lows.push(jumps[costs.to_class(element as usize)].cost)?;
    }
    Ok(lows)
}

/// Lowers them to what steps from open nodes cost. Steps from late nodes are the cheapest, mostly.
fn step_lows<C: Costs>(
    costs: &C,
    rises: Rises,
    nodes: &[Node],
    opens: &[Open],
    rise: usize,
    lows: &mut Vec<u64>,
)
    requires small { All (λ n. n.cost < 2 ^ 63) nodes.now }
    requires opens { All (IsOpen (C.price costs.now) rises nodes.now rise) opens.now }
    requires rise { rise < 2 ^ 32 }
    requires few { length lows.old.items ≤ 2 ^ 32 }
    ensures { AreStepped (C.price costs.now) nodes.now opens.now rise lows.old.items
        lows.new.items }
{
    for done in 0..opens.len() {
        let one = opens[opens.len() - 1 - done];
        let from = one.from;
        step_from(costs, nodes[from], one, rise, lows);
    }
}

/// The same for the steps from one node.
fn step_from<C: Costs>(costs: &C, node: Node, one: Open, rise: usize, lows: &mut Vec<u64>)
    requires small { node.cost < 2 ^ 63 }
    requires rise { rise < 2 ^ 32 }
    requires fits { IsReach one.reach }
    requires least { (f : ℕ) (k : Kind) → one.least ≤ going (C.price costs.now) node rise f k }
    requires few { length lows.old.items ≤ 2 ^ 32 }
    ensures lower { IsLower (C.price costs.now) node rise lows.old.items lows.new.items }
    ensures under { (e : ℕ) → e < length lows.old.items → reaches one.reach e ≡ true
        → IsUnder (C.price costs.now) node rise e (slice_index_or lows.new.items e 0) }
{
    for number in 0..one.reach.count(lows.len()) {
        let element = one.reach.element(number);
        step_to(costs, node, one.least, rise, element, lows);
    }
}

/// The same for the steps to one element, if there is one.
fn step_to<C: Costs>(
    costs: &C,
    node: Node,
    least: u64,
    rise: usize,
    element: usize,
    lows: &mut Vec<u64>,
)
    requires small { node.cost < 2 ^ 63 }
    requires rise { rise < 2 ^ 32 }
    requires few { length lows.old.items ≤ 2 ^ 32 }
    requires least { (f : ℕ) (k : Kind) → least ≤ going (C.price costs.now) node rise f k }
    ensures lower { IsLower (C.price costs.now) node rise lows.old.items lows.new.items }
    ensures under { element < length lows.old.items
        → IsUnder (C.price costs.now) node rise element (slice_index_or lows.new.items element 0) }
{
    if lows.len() <= element {
        return;
    }
    lows[element] = lower(costs, node, least, rise, element, lows[element]);
}

/// The least of a cost, and those of steps from a node to a claim.
fn lower<C: Costs>(costs: &C, node: Node, least: u64, rise: usize, element: usize, low: u64) -> u64
    requires small { node.cost < 2 ^ 63 }
    requires rise { rise < 2 ^ 32 }
    requires element { element < 2 ^ 32 }
    requires least { (f : ℕ) (k : Kind) → least ≤ going (C.price costs.now) node rise f k }
    ensures kept { result ≤ low }
    ensures under { IsUnder (C.price costs.now) node rise element result }
    ensures origin { (result ≡ low)
        ⊎ ((k : Kind) × (result ≡ going (C.price costs.now) node rise element k)) }
{
    if low <= least {
        return low;
    }
    let to = Claim {
        rise: rise as u32,
        element: element as u32,
        kind: Kind::Next,
    };
    let next = low.min(come(costs, node, 0, to, Kind::Next).cost);
    lower_by_step(costs, node, to, next)
}

/// The same for steps in time. None is priced if none can be cheaper.
fn lower_by_step<C: Costs>(costs: &C, node: Node, to: Claim, low: u64) -> u64
    requires { node.cost < 2 ^ 63 }
    ensures kept { result ≤ low }
    ensures least { result ≤ going (C.price costs.now) node to.rise to.element Step }
    ensures origin { (result ≡ low)
        ⊎ (result ≡ going (C.price costs.now) node to.rise to.element Step) }
{
    let least = costs.least_by(node.rise as usize, to.rise as usize, Kind::Step);
    if low <= node.cost + u64::from(least) {
        return low;
    }
    low.min(come(costs, node, 0, to, Kind::Step).cost)
}
