//! The cheapest choice of candidates.

ghost use Rattle.std.specs.Prelude.{ℕ, ◌≡◌, ◌^◌, ◌≤◌, IfOk, List, length};
ghost use Rattle.irig_dating.specs.{Choices.IsChoice, Choices.cost, Rows.AreRows};

use crate::costs::Costs;
use crate::rows::rest;
use crate::ways::cheapest_way;
use std::alloc::{AllocError, Global};

/// A candidate for each bit, and what they cost.
#[derive(Drop)]
pub struct Choice {
    pub candidates: Vec<usize>,
    pub cost: u64,
}

pub fn cheapest<C: Costs>(
    alloc: Global,
    costs: &C,
    bits: usize,
    rows: &[Vec<u64>],
) -> Result<Choice, AllocError>
    requires few { bits ≤ 2 ^ 30 }
    requires all { length rows.now ≡ bits }
    requires rows { AreRows (C.prices costs.now) bits rows.now }
    ensures possible { IfOk result (λ x. IsChoice (C.prices costs.now) bits x.candidates.items) }
    ensures exact { IfOk result (λ x. cost (C.prices costs.now) x.candidates.items ≡ x.cost) }
    ensures least { IfOk result (λ x. (others : List ℕ)
        → IsChoice (C.prices costs.now) bits others
        → x.cost ≤ cost (C.prices costs.now) others) }
{
    let cost = rest(costs, bits, 0, None, rows);
    let mut candidates = Vec::new(alloc);
    let mut before = None;
    for bit in 0..bits {
        let row = rows[bits - 1 - bit].as_slice();
        let way = cheapest_way(costs, bits, bit, before, row);
        candidates.push(way.to)?;
        before = Some(way.to);
    }
    Ok(Choice { candidates, cost })
}
