//! The table of nodes: the claims that a cheapest explanation may need, each with the least cost of
//! all ways to it.

ghost use Rattle.std.specs.Prelude.{ℕ, ◌≡◌, ◌^◌, ◌<◌, ◌≤◌, ◌⊎◌, All, IfOk, length, slice_index_or, true};
ghost use Rattle.irig_explaining.specs.Nodes.{AreNodes};
ghost use Rattle.irig_explaining.specs.Rows.{AreKept, IsLeastOf, IsMost, IsRow};

use crate::claim::{Claim, Kind};
use crate::costs::Costs;
use crate::lows::lows;
use crate::near::nodes_near;
use crate::rises::Rises;
use std::alloc::{AllocError, Global};

/// A claim, with the least cost of all ways to it.
#[derive(Clone, Copy)]
pub struct Node {
    /// What this claim and all before it cost, with the rises before the first.
    pub cost: u64,
    /// The number of its rise.
    pub rise: u32,
    /// The number of its element.
    pub element: u32,
}

impl Node {
    /// The claim of a node.
    pub(crate) fn claim(&self, kind: Kind) -> Claim
        ensures { result
            ≡ record { rise = self.now.rise; element = self.now.element; kind = kind } }
    {
        Claim {
            rise: self.rise,
            element: self.element,
            kind,
        }
    }
}

/// The nodes of all rises. Left out are claims from which no step is cheaper than a jump from
/// another one of their rise.
pub fn nodes<C: Costs>(alloc: Global, costs: &C, rises: Rises) -> Result<Vec<Node>, AllocError>
    requires { rises.count ≤ 2 ^ 31 }
    ensures { IfOk result (λ nodes. AreNodes (C.price costs.now) rises rises.count nodes.items) }
{
    let mut nodes = Vec::new(alloc);
    for rise in 0..rises.count {
        let found = row(alloc, costs, rises, nodes.as_slice(), rise)?;
        let row = found.as_slice();
        let kept = kept(alloc, costs, rise, row, least_of(row))?;
        nodes.extend_from_slice(kept.as_slice())?;
    }
    Ok(nodes)
}

/// The least costs of all claims of a rise, when the nodes of the rises before are known.
fn row<C: Costs>(
    alloc: Global,
    costs: &C,
    rises: Rises,
    nodes: &[Node],
    rise: usize,
) -> Result<Vec<u64>, AllocError>
    requires nodes { AreNodes (C.price costs.now) rises rise nodes.now }
    requires few { rise < 2 ^ 31 }
    ensures { IfOk result (λ row. IsRow (C.price costs.now) rises nodes.now rise row.items) }
{
    let near = nodes_near(rises.window, nodes, rise);
    lows(alloc, costs, rises, nodes, near, rise)
}

/// The element that costs the least; 0 if there are none.
fn least_of(row: &[u64]) -> usize
    ensures { IsLeastOf row.now result }
{
    let mut best = 0;
    for index in 0..row.len() {
        if row[index] < row[best] {
            best = index;
        }
    }
    best
}

/// Those nodes of a row that are not beaten by its cheapest one.
fn kept<C: Costs>(
    alloc: Global,
    costs: &C,
    rise: usize,
    row: &[u64],
    best: usize,
) -> Result<Vec<Node>, AllocError>
    requires rise { rise < 2 ^ 32 }
    requires states { length row.now < 2 ^ 32 }
    requires best { IsLeastOf row.now best }
    ensures { IfOk result (λ kept. AreKept (C.price costs.now) rise row.now best kept.items) }
{
    let mut kept = Vec::new(alloc);
    if row.is_empty() {
        return Ok(kept);
    }
    let found = mosts(alloc, costs, row.len() as u32, rise, best)?;
    let mosts = found.as_slice();
    let most = largest(mosts) as u64;
    for element in 0..row.len() {
        let more = row[element] - row[best];
        if is_needed(costs, mosts, most, best, element, more) {
            kept.push(Node {
                cost: row[element],
                rise: rise as u32,
                element: element as u32,
            })?;
        }
    }
    Ok(kept)
}

/// The largest of some numbers.
fn largest(mosts: &[u32]) -> u32
    ensures { All (λ m. m ≤ result) mosts.now }
{
    let mut most = 0;
    for index in 0..mosts.len() {
        most = mosts[index].max(most);
    }
    most
}

/// For each class how much more a jump from a claim costs at most than a step from its elements.
fn mosts<C: Costs>(
    alloc: Global,
    costs: &C,
    states: u32,
    rise: usize,
    this: usize,
) -> Result<Vec<u32>, AllocError>
    ensures { IfOk result (λ mosts. (e : ℕ) → e < states
        → (C.from_class costs.now e < length mosts.items)
        × IsMost (C.price costs.now) rise this e
        (slice_index_or mosts.items (C.from_class costs.now e) 0)) }
{
    let mut mosts = Vec::new(alloc);
    for class in 0..costs.from_classes(states) {
        mosts.push(costs.most_from(rise, this, class))?;
    }
    Ok(mosts)
}

/// Whether it is the best element, or a step from it can be cheaper than a jump from the best: it
/// costs more by that. No most is larger than `most`.
fn is_needed<C: Costs>(
    costs: &C,
    mosts: &[u32],
    most: u64,
    best: usize,
    element: usize,
    more: u64,
) -> bool
    requires there { C.from_class costs.now element < length mosts.now }
    requires most { All (λ m. m ≤ most) mosts.now }
    ensures beaten { (result ≡ true)
        ⊎ (slice_index_or mosts.now (C.from_class costs.now element) 0 ≤ more) }
    ensures itself { element ≡ best → result ≡ true }
{
    if element == best {
        return true;
    }
    if most <= more {
        return false;
    }
    more < u64::from(mosts[costs.from_class(element)])
}
