//! The bases that each bit of a recording can have.

ghost use Rattle.std.specs.Prelude.{◌^◌, ◌<◌, ◌≤◌, IfOk, OnOk, length};
ghost use Rattle.irig_candidates.specs.{Bases.IsSet, Sets.AreSets};

use crate::bit::Bit;
use crate::blocks::{Block, carried_back, found_blocks, united};
use crate::code::Code;
use crate::finding::put_few;
use crate::frames::begins;
use crate::jumps::{Jumps, Shifts};
use std::alloc::{AllocError, Global};

/// How many bases a set has at most: of each base of a block also those of a second 60, before or
/// after it, and of the turn of the year.
const MOST: usize = 80;

/// Sets of bases, and for each bit the number of its set.
#[derive(Drop)]
pub struct Sets {
    pub sets: Vec<Vec<u64>>,
    pub which: Vec<u32>,
}

impl Sets {
    pub fn find<J: Jumps + Shifts>(
        alloc: Global,
        code: &Code,
        jumps: &J,
        bits: &[Bit],
    ) -> Result<Sets, AllocError>
        requires { length bits.now ≤ 2 ^ 30 }
        ensures { IfOk result (AreSets bits.now) }
    {
        let blocks = found_blocks(alloc, code, jumps, bits)?;
        let bases = with_next(alloc, code, jumps, bits, blocks.as_slice())?;
        by_frames(alloc, code, bits, blocks.as_slice(), bases.as_slice())
    }
}

/// A set for each frame with a bit.
fn by_frames(
    alloc: Global,
    code: &Code,
    bits: &[Bit],
    blocks: &[Block],
    bases: &[Vec<u64>],
) -> Result<Sets, AllocError>
    requires { length bits.now ≤ 2 ^ 30 }
    ensures { IfOk result (AreSets bits.now) }
{
    let mut sets: Vec<Vec<u64>> = Vec::new(alloc);
    let mut which: Vec<u32> = Vec::new(alloc);
    let mut block = 0;
    for number in 0..bits.len() {
        block = block_at(blocks, block, number);
        if begins(bits, number) {
            let set = frame_set(alloc, code, bases_of(bases, block), bits[number].frame)?;
            sets.push(set)?;
        }
        which.push((sets.len() - 1) as u32)?;
    }
    Ok(Sets { sets, which })
}

/// The block of a bit: the same as of the bit before it, or the next one.
fn block_at(blocks: &[Block], block: usize, number: usize) -> usize {
    match blocks.get(block) {
        Some(this) if this.end <= number => block.saturating_add(1),
        _ => block,
    }
}

/// The last block is the first list.
fn bases_of(bases: &[Vec<u64>], block: usize) -> &[u64] {
    match bases.get(bases.len().saturating_sub(1).saturating_sub(block)) {
        Some(bases) => bases.as_slice(),
        None => &[],
    }
}

/// The bases that a frame can have, by those of its block.
fn frame_set(alloc: Global, code: &Code, bases: &[u64], frame: u64) -> Result<Vec<u64>, AllocError>
    ensures { IfOk result (λ set. IsSet set.items) }
{
    let mut set = Vec::new(alloc);
    for base in bases {
        put_base(code, &mut set, *base, frame)?;
    }
    Ok(set)
}

/// Puts a base, and those with which the time can continue in a second 60 or another year.
fn put_base(code: &Code, set: &mut Vec<u64>, base: u64, frame: u64) -> Result<(), AllocError>
    requires { IsSet set.old.items }
    ensures { OnOk result (IsSet set.new.items) }
{
    let year = code.year();
    let base = base % year;
    put_few(set, MOST, base)?;
    if 365 * code.day() <= code.time(base, frame) {
        put_few(set, MOST, (base + code.day()) % year)?;
        put_few(set, MOST, (base + year - code.day()) % year)?;
    }
    put_inserted(code, set, base, frame)?;
    put_inserted(code, set, (base + year - code.second()) % year, frame)
}

/// Puts the base of a second 60, if the frame can be in that.
fn put_inserted(code: &Code, set: &mut Vec<u64>, base: u64, frame: u64) -> Result<(), AllocError>
    requires known { IsSet set.old.items }
    requires of_year { base < 3162240000 }
    ensures { OnOk result (IsSet set.new.items) }
{
    let base = code.inserted() + base;
    if code.is_time(code.time(base, frame)) {
        put_few(set, MOST, base)
    } else {
        Ok(())
    }
}

/// The bases of each block, with those that are carried back from the next one. The last block is
/// the first one.
fn with_next<J: Shifts>(
    alloc: Global,
    code: &Code,
    jumps: &J,
    bits: &[Bit],
    blocks: &[Block],
) -> Result<Vec<Vec<u64>>, AllocError>
    requires { length bits.now ≤ 2 ^ 30 }
{
    let mut sets: Vec<Vec<u64>> = Vec::new(alloc);
    let mut next: Option<&Block> = None;
    for block in blocks.iter().rev() {
        let carried = match (next, sets.last()) {
            (Some(next), Some(bases)) => carried_back(
                alloc,
                code,
                jumps,
                bits,
                block,
                next,
                bases.as_slice(),
            )?,
            _ => Vec::new(alloc),
        };
        sets.push(united(alloc, code, carried.as_slice(), block.bases.as_slice())?)?;
        next = Some(block);
    }
    Ok(sets)
}
