//! The cheapest bases by some bits: field by field, from the finest one on.

ghost use Rattle.std.specs.Prelude.{◌^◌, ◌≤◌, IfOk, IfSome, OnOk, length, vec_len};
ghost use Rattle.irig_candidates.specs.Found.{AreFound, IsFound};

mod beam;
mod tables;

use crate::bit::Bit;
use crate::cheapest::beam::put;
use crate::cheapest::tables::{Table, Values, cost_at, put_tables};
use crate::code::Code;
use crate::found::Found;
use crate::pair::Pair;
use crate::row::Field;
use std::alloc::{AllocError, Global};

const HUNDREDTHS: Values = Values {
    field: Field::Hundredths,
    first: 0,
    count: 100,
    unit: 1,
};

const SECONDS: Values = Values {
    field: Field::Seconds,
    first: 0,
    count: 60,
    unit: 100,
};

const MINUTES: Values = Values {
    field: Field::Minutes,
    first: 0,
    count: 60,
    unit: 6_000,
};

const HOURS: Values = Values {
    field: Field::Hours,
    first: 0,
    count: 24,
    unit: 360_000,
};

const DAYS: Values = Values {
    field: Field::Days,
    first: 1,
    count: 366,
    unit: 8_640_000,
};

/// Two bases that cost little by bits of some frames, with what they cost. Nothing promises that
/// none is cheaper: of each field only the best values are kept, with those of the finer fields.
pub fn cheapest_bases(alloc: Global, code: &Code, bits: &[Bit]) -> Result<Option<Pair>, AllocError>
    requires { length bits.now ≤ 2 ^ 30 }
    ensures { IfOk result (λ o. IfSome o (AreFound code.now bits.now)) }
{
    let minute = code.minute();
    let mut beam = in_minute(alloc, code, bits)?;
    beam = next(alloc, code, beam.as_slice(), &MINUTES, minute, bits)?;
    beam = next(alloc, code, beam.as_slice(), &HOURS, 60 * minute, bits)?;
    beam = next(alloc, code, beam.as_slice(), &DAYS, 1_440 * minute, bits)?;
    Ok(exact(code, beam.as_slice(), bits))
}

/// The times of a minute that cost least.
fn in_minute(alloc: Global, code: &Code, bits: &[Bit]) -> Result<Vec<Found>, AllocError>
    requires { length bits.now ≤ 2 ^ 30 }
    ensures { IfOk result (λ beam. vec_len beam ≤ 12) }
{
    let mut tables = Vec::new(alloc);
    put_tables(alloc, &mut tables, code, &HUNDREDTHS, bits)?;
    put_tables(alloc, &mut tables, code, &SECONDS, bits)?;
    let begin = [Found { cost: 0, base: 0 }];
    wider(alloc, code, &begin, tables.as_slice(), 1, code.minute())
}

/// Those of the next field. A value of it lasts `size` frames.
fn next(
    alloc: Global,
    code: &Code,
    beam: &[Found],
    values: &Values,
    size: u64,
    bits: &[Bit],
) -> Result<Vec<Found>, AllocError>
    requires few { length bits.now ≤ 2 ^ 30 }
    requires short { size ≤ 2 ^ 32 }
    ensures { IfOk result (λ beam. vec_len beam ≤ 12) }
{
    let mut tables = Vec::new(alloc);
    put_tables(alloc, &mut tables, code, values, bits)?;
    let count = u64::from(values.count);
    wider(alloc, code, beam, tables.as_slice(), size, count)
}

/// The cheapest of all that are some times `size` frames later than one of the beam.
fn wider(
    alloc: Global,
    code: &Code,
    beam: &[Found],
    tables: &[Table],
    size: u64,
    count: u64,
) -> Result<Vec<Found>, AllocError>
    requires short { size ≤ 2 ^ 32 }
    requires few { count ≤ 6000 }
    ensures { IfOk result (λ beam. vec_len beam ≤ 12) }
{
    let mut wider = Vec::new(alloc);
    for found in beam {
        put_values(&mut wider, code, *found, tables, size, count)?;
    }
    Ok(wider)
}

fn put_values(
    beam: &mut Vec<Found>,
    code: &Code,
    found: Found,
    tables: &[Table],
    size: u64,
    count: u64,
) -> Result<(), AllocError>
    requires beam { vec_len beam.old ≤ 12 }
    requires short { size ≤ 2 ^ 32 }
    requires few { count ≤ 6000 }
    ensures { OnOk result (vec_len beam.new ≤ 12) }
{
    for value in 0..count {
        let base = code.time(found.base, value * size);
        let cost = found.cost.saturating_add(cost_at(tables, code, base));
        put(beam, Found { cost, base })?;
    }
    Ok(())
}

/// A base of the year, with what it costs.
pub fn found(code: &Code, base: u64, bits: &[Bit]) -> Found
    requires { length bits.now ≤ 2 ^ 30 }
    ensures { IsFound code.now bits.now result }
{
    let base = base % code.year();
    Found {
        cost: code.cost(base, bits),
        base,
    }
}

/// The two of a beam that cost least.
fn exact(code: &Code, beam: &[Found], bits: &[Bit]) -> Option<Pair>
    requires { length bits.now ≤ 2 ^ 30 }
    ensures { IfSome result (AreFound code.now bits.now) }
{
    let mut pair = None;
    for each in beam {
        pair = Some(and(pair, code, each.base, bits));
    }
    pair
}

fn and(pair: Option<Pair>, code: &Code, base: u64, bits: &[Bit]) -> Pair
    requires few { length bits.now ≤ 2 ^ 30 }
    requires known { IfSome pair (AreFound code.now bits.now) }
    ensures { AreFound code.now bits.now result }
{
    let found = found(code, base, bits);
    match pair {
        None => Pair::of(found),
        Some(pair) => pair.with(found),
    }
}
