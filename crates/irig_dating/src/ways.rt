//! The cheapest candidate of a bit, if what comes after it is known.

ghost use Rattle.std.specs.Prelude.{◌≡◌, ◌+◌, ◌-◌, ◌*◌, ◌^◌, ◌<◌, ◌≤◌, ◌⊎◌, slice_index_or};
ghost use Rattle.irig_dating.specs.{Choices.step, Rows.IsRow, Rows.IsWay};

use crate::costs::Costs;

/// A candidate of a bit, and what that and all bits after it cost.
#[derive(Clone, Copy)]
pub struct Way {
    pub cost: u64,
    pub to: usize,
}

/// The cheapest way on from the candidate of the bit before, if there is one.
pub fn cheapest_way<C: Costs>(
    costs: &C,
    bits: usize,
    bit: usize,
    before: Option<usize>,
    row: &[u64],
) -> Way
    requires few { bits ≤ 2 ^ 30 }
    requires there { bit < bits }
    requires row { IsRow (C.prices costs.now) bits bit row.now }
    ensures { IsWay (C.prices costs.now) bits bit before row.now result }
{
    let mut best = way_to(costs, bit, before, 0, row[0]);
    for to in 1..row.len() {
        best = cheaper(best, way_to(costs, bit, before, to, row[to]));
    }
    best
}

/// The way to a candidate after which the rest costs that.
fn way_to<C: Costs>(costs: &C, bit: usize, before: Option<usize>, to: usize, rest: u64) -> Way
    requires { rest ≤ 2 ^ 63 }
    ensures exact { result.cost ≡ step (C.prices costs.now) bit before to + rest }
    ensures to { result.to ≡ to }
    ensures small { result.cost ≤ rest + 2 ^ 33 }
{
    let pay = u64::from(costs.pay(bit, to));
    let cost = match before {
        None => pay,
        Some(from) => u64::from(costs.join(bit, from, to)) + pay,
    };
    Way {
        cost: cost + rest,
        to,
    }
}

/// The cheaper of two ways; the first if both cost the same.
fn cheaper(first: Way, second: Way) -> Way
    ensures either { (result ≡ first) ⊎ (result ≡ second) }
    ensures first { result.cost ≤ first.cost }
    ensures second { result.cost ≤ second.cost }
{
    if second.cost < first.cost {
        second
    } else {
        first
    }
}
