//! The bases that the frames of a block can have, in their order.

ghost use Rattle.std.specs.Prelude.{ℕ, ◌≡◌, ◌<◌, ◌≤◌, IsFalse, OnOk, length, slice_index};
ghost use Rattle.irig_candidates.specs.{Bases.AreBases, Bases.AreFew};

use crate::code::Code;
use crate::found::Found;
use crate::pair::Pair;
use std::alloc::AllocError;

/// How many bases a block has at most: 28 were found in one of format E with much damage, else 7.
const MOST: usize = 16;

/// Puts a base of the year, if it is a new one, and there is room.
pub fn put_base(code: &Code, bases: &mut Vec<u64>, base: u64) -> Result<(), AllocError>
    requires { AreBases code.now.kind bases.old.items }
    ensures { OnOk result (AreBases code.now.kind bases.new.items) }
{
    put_few(bases, MOST, base % code.year())
}

/// Puts a base, if it is a new one, and there are fewer than `most`.
pub fn put_few(bases: &mut Vec<u64>, most: usize, base: u64) -> Result<(), AllocError>
    ensures { OnOk result ((below : ℕ) → base < below → AreFew below most bases.old.items
        → AreFew below most bases.new.items) }
{
    let known = bases.as_slice();
    let place = place(known, base);
    if is_full(known, most) || is_at(known, place, base) {
        return Ok(());
    }
    bases.insert(place, base)?;
    Ok(())
}

fn is_full(bases: &[u64], most: usize) -> bool
    ensures { IsFalse result → length bases.now < most }
{
    most <= bases.len()
}

/// Puts those of a pair that cost less than that.
pub fn put_below(
    code: &Code,
    pair: Option<Pair>,
    most: u64,
    bases: &mut Vec<u64>,
) -> Result<(), AllocError>
    requires { AreBases code.now.kind bases.old.items }
    ensures { OnOk result (AreBases code.now.kind bases.new.items) }
{
    let Some(pair) = pair else {
        return Ok(());
    };
    put_if_below(code, pair.first, most, bases)?;
    match pair.second {
        None => Ok(()),
        Some(second) => put_if_below(code, second, most, bases),
    }
}

fn put_if_below(
    code: &Code,
    found: Found,
    most: u64,
    bases: &mut Vec<u64>,
) -> Result<(), AllocError>
    requires { AreBases code.now.kind bases.old.items }
    ensures { OnOk result (AreBases code.now.kind bases.new.items) }
{
    if found.cost < most {
        put_base(code, bases, found.base)
    } else {
        Ok(())
    }
}

/// How many are less than it.
fn place(bases: &[u64], base: u64) -> usize
    ensures within { result ≤ length bases.now }
    ensures below { (i : ℕ) → i < result → slice_index bases.now i < base }
    ensures above { result < length bases.now → base ≤ slice_index bases.now result }
{
    for place in 0..bases.len() {
        if base <= bases[place] {
            return place;
        }
    }
    bases.len()
}

fn is_at(bases: &[u64], place: usize, base: u64) -> bool
    requires { place ≤ length bases.now }
    ensures { IsFalse result → place < length bases.now → slice_index bases.now place ≡ base → ⊥ }
{
    place < bases.len() && bases[place] == base
}
