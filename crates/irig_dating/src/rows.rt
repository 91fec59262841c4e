//! The table of what comes after each candidate.

ghost use Rattle.std.specs.Prelude.{◌≡◌, ◌+◌, ◌-◌, ◌^◌, ◌<◌, ◌≤◌, IfOk, length, slice_index_or};
ghost use Rattle.irig_dating.specs.Rows.{AreRows, IsLeast, IsRow};

use crate::costs::Costs;
use crate::ways::cheapest_way;
use std::alloc::{AllocError, Global};

/// The rows of all bits, the last bit first.
pub fn rows<C: Costs>(alloc: Global, costs: &C, bits: usize) -> Result<Vec<Vec<u64>>, AllocError>
    requires { bits ≤ 2 ^ 30 }
    ensures all { IfOk result (λ rows. length rows.items ≡ bits) }
    ensures rows { IfOk result (λ rows. AreRows (C.prices costs.now) bits rows.items) }
{
    let mut rows: Vec<Vec<u64>> = Vec::new(alloc);
    for done in 0..bits {
        let row = row(alloc, costs, bits, bits - 1 - done, rows.as_slice())?;
        rows.push(row)?;
    }
    Ok(rows)
}

/// The row of a bit, if those of all bits after it are known.
fn row<C: Costs>(
    alloc: Global,
    costs: &C,
    bits: usize,
    bit: usize,
    rows: &[Vec<u64>],
) -> Result<Vec<u64>, AllocError>
    requires few { bits ≤ 2 ^ 30 }
    requires all { bit + 1 + length rows.now ≡ bits }
    requires rows { AreRows (C.prices costs.now) bits rows.now }
    ensures { IfOk result (λ row. IsRow (C.prices costs.now) bits bit row.items) }
{
    let mut row = Vec::new(alloc);
    for candidate in 0..costs.last(bit) as usize + 1 {
        row.push(rest(costs, bits, bit + 1, Some(candidate), rows))?;
    }
    Ok(row)
}

/// What the bits from one on cost at least, after a candidate of the bit before.
pub fn rest<C: Costs>(
    costs: &C,
    bits: usize,
    bit: usize,
    before: Option<usize>,
    rows: &[Vec<u64>],
) -> u64
    requires few { bits ≤ 2 ^ 30 }
    requires all { bit + length rows.now ≡ bits }
    requires rows { AreRows (C.prices costs.now) bits rows.now }
    ensures { IsLeast (C.prices costs.now) bits bit before result }
{
    if bit == bits {
        return 0;
    }
    let row = rows[rows.len() - 1].as_slice();
    cheapest_way(costs, bits, bit, before, row).cost
}

/// What comes after a candidate, by the row of its bit.
pub fn least_at(row: &[u64], candidate: usize) -> u64
    requires { candidate < length row.now }
    ensures { result ≡ slice_index_or row.now candidate 0 }
{
    row[candidate]
}
