//! The bases that are found in each block of a recording.

ghost use Rattle.std.specs.Prelude.{◌^◌, ◌≤◌, IfOk, OnOk, length};
ghost use Rattle.irig_candidates.specs.{Bases.AreBases};

use crate::bit::Bit;
use crate::code::Code;
use crate::finding::{best_base, find_bases, put_base};
use crate::jumps::{Jumps, Shifts};
use std::alloc::{AllocError, Global};

/// How many frames of a stretch have the same bases.
const FRAMES: u64 = 32;

/// The bits of a block, from the first one to the one after it, and the bases that were found.
#[derive(Drop)]
pub struct Block {
    pub first: usize,
    pub end: usize,
    pub bases: Vec<u64>,
}

impl Block {
    /// Its bits among all.
    fn bits<'a>(&self, bits: &'a [Bit]) -> &'a [Bit]
        ensures { length result.now ≤ length bits.now }
    {
        if self.first <= self.end && self.end <= bits.len() {
            &bits[self.first..self.end]
        } else {
            &[]
        }
    }
}

/// How many bits the first block has.
fn block_of(bits: &[Bit]) -> usize
    requires { 1 ≤ length bits.now }
    ensures within { result ≤ length bits.now }
    ensures some { 1 ≤ result }
{
    let (stretch, number) = (bits[0].stretch, bits[0].frame / FRAMES);
    for place in 1..bits.len() {
        if bits[place].stretch != stretch || bits[place].frame / FRAMES != number {
            return place;
        }
    }
    bits.len()
}

/// The blocks of all bits, each with the bases that are found in it, or carried from the one
/// before.
pub fn found_blocks<J: Jumps + Shifts>(
    alloc: Global,
    code: &Code,
    jumps: &J,
    bits: &[Bit],
) -> Result<Vec<Block>, AllocError>
    requires { length bits.now ≤ 2 ^ 30 }
{
    let mut blocks: Vec<Block> = Vec::new(alloc);
    let mut first = 0;
    while first < bits.len() {
        let end = first + block_of(&bits[first..]);
        let carried = carried_on(alloc, code, jumps, bits, blocks.as_slice(), first)?;
        let bases = find_bases(alloc, code, jumps, &bits[first..end], carried.as_slice())?;
        blocks.push(Block { first, end, bases })?;
        first = end;
    }
    Ok(blocks)
}

/// The best base of the last block, as one of the block that begins with a bit.
fn carried_on<J: Shifts>(
    alloc: Global,
    code: &Code,
    jumps: &J,
    bits: &[Bit],
    blocks: &[Block],
    first: usize,
) -> Result<Vec<u64>, AllocError>
    requires { length bits.now ≤ 2 ^ 30 }
{
    let Some(block) = blocks.last() else {
        return Ok(Vec::new(alloc));
    };
    let own = block.bits(bits);
    match (
        best_base(code, own, block.bases.as_slice()),
        own.last(),
        bits.get(first),
    ) {
        (Some(base), Some(one), Some(bit)) => {
            let (least, most) = jumps.shifts(one, bit);
            both(alloc, code.time(base, least), code.time(base, most))
        }
        _ => Ok(Vec::new(alloc)),
    }
}

/// The best base of a block, by its bases, as one of the block before it.
pub fn carried_back<J: Shifts>(
    alloc: Global,
    code: &Code,
    jumps: &J,
    bits: &[Bit],
    before: &Block,
    block: &Block,
    bases: &[u64],
) -> Result<Vec<u64>, AllocError>
    requires { length bits.now ≤ 2 ^ 30 }
{
    let own = block.bits(bits);
    match (
        best_base(code, own, bases),
        before.bits(bits).last(),
        own.first(),
    ) {
        (Some(base), Some(one), Some(bit)) => {
            let (least, most) = jumps.shifts(one, bit);
            let year = code.year();
            let back = code.time(base, year - least % year);
            both(alloc, back, code.time(base, year - most % year))
        }
        _ => Ok(Vec::new(alloc)),
    }
}

fn both(alloc: Global, first: u64, second: u64) -> Result<Vec<u64>, AllocError> {
    let mut both = Vec::new(alloc);
    both.push(first)?;
    both.push(second)?;
    Ok(both)
}

/// The bases of two lists, those of the first one first if they are too many.
pub fn united(
    alloc: Global,
    code: &Code,
    first: &[u64],
    second: &[u64],
) -> Result<Vec<u64>, AllocError>
    ensures { IfOk result (λ bases. AreBases code.now.kind bases.items) }
{
    let mut bases = Vec::new(alloc);
    put_all(code, &mut bases, first)?;
    put_all(code, &mut bases, second)?;
    Ok(bases)
}

fn put_all(code: &Code, bases: &mut Vec<u64>, more: &[u64]) -> Result<(), AllocError>
    requires { AreBases code.now.kind bases.old.items }
    ensures { OnOk result (AreBases code.now.kind bases.new.items) }
{
    for base in more {
        put_base(code, bases, *base)?;
    }
    Ok(())
}
