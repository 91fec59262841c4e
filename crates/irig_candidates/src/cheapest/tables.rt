//! What each value of a field costs in frames.

ghost use Rattle.std.specs.Prelude.{◌≡◌, ◌+◌, ◌^◌, ◌<◌, ◌≤◌, IfOk, length, map, vec_len};
ghost use Rattle.std.specs.List.{range_with_len};
ghost use Rattle.irig_candidates.specs.{Bits.value_cost, Rows.field_of};

use crate::bit::Bit;
use crate::code::Code;
use crate::frames::bits_of;
use crate::row::Field;
use std::alloc::{AllocError, Global};

/// The values of a field: the first one, how many there are, and how many hundredths of a second
/// each lasts.
pub struct Values {
    pub field: Field,
    pub first: u32,
    pub count: u32,
    pub unit: u64,
    ghost low: { first ≤ 1 },
    ghost some: { 1 ≤ count },
    ghost few: { count ≤ 366 },
    ghost long: { 1 ≤ unit },
}

/// What each value costs in a frame.
#[derive(Drop)]
pub struct Table {
    frame: u64,
    unit: u64,
    costs: Vec<u64>,
    ghost long: { 1 ≤ unit },
    ghost some: { 1 ≤ vec_len costs },
}

/// Puts a table for each frame.
pub fn put_tables(
    alloc: Global,
    tables: &mut Vec<Table>,
    code: &Code,
    values: &Values,
    bits: &[Bit],
) -> Result<(), AllocError>
    requires { length bits.now ≤ 2 ^ 30 }
{
    let mut rest = bits;
    while !rest.is_empty() {
        let count = bits_of(rest, 1);
        tables.push(frame_table(alloc, code, values, &rest[..count])?)?;
        rest = &rest[count..];
    }
    Ok(())
}

fn frame_table(
    alloc: Global,
    code: &Code,
    values: &Values,
    bits: &[Bit],
) -> Result<Table, AllocError>
    requires some { 1 ≤ length bits.now }
    requires few { length bits.now ≤ 2 ^ 30 }
{
    let costs = costs(alloc, code, values, bits)?;
    Ok(Table {
        frame: bits[0].frame,
        unit: values.unit,
        costs,
    })
}

/// What each value costs, by the bits of a frame.
fn costs(alloc: Global, code: &Code, values: &Values, bits: &[Bit]) -> Result<Vec<u64>, AllocError>
    requires { length bits.now ≤ 2 ^ 30 }
    ensures value { IfOk result (λ costs. costs.items ≡ map (λ v. value_cost code.now
        (field_of values.now.field) (values.now.first + v) bits.now)
        (range_with_len 0 values.now.count)) }
    ensures some { IfOk result (λ costs. 1 ≤ vec_len costs) }
{
    let mut costs = Vec::new(alloc);
    for value in 0..values.count {
        costs.push(code.value_cost(values.field, values.first + value, bits))?;
    }
    Ok(costs)
}

impl Table {
    /// What a base costs in the frame of the table.
    fn cost(&self, code: &Code, base: u64) -> u64 {
        let value = code.since(base, self.frame) / self.unit;
        self.costs[value as usize % self.costs.len()]
    }
}

/// What a base costs in all frames.
pub fn cost_at(tables: &[Table], code: &Code, base: u64) -> u64 {
    let mut total: u64 = 0;
    for table in tables {
        total = total.saturating_add(table.cost(code, base));
    }
    total
}
