//! The bases that what a block looks like does not exclude: they cost less in some of its frames
//! than a base that is known, and than a jump from that.

ghost use Rattle.std.specs.Prelude.{◌^◌, ◌<◌, ◌≤◌, IfOk, IfSome, OnOk, length};
ghost use Rattle.irig_candidates.specs.{Bases.AreBases, Found.IsPair};

mod bases;
mod best;
mod near;

use crate::bit::Bit;
use crate::cheapest::cheapest_bases;
use crate::code::Code;
use crate::found::Found;
use crate::frames::bits_of;
use crate::jumps::Jumps;
use crate::pair::Pair;
use bases::put_below;
pub use bases::{put_base, put_few};
pub use best::best_base;
use near::{jumped_pair, near_pair};
use std::alloc::{AllocError, Global};

/// The frames of the longest window; each further one has half as many.
const BLOCK: usize = 32;

/// How many frames from a known base are looked at, on each side.
pub const NEAR: u64 = 99;

/// The bases of a block, by its bits. `carried` are those that the block before it gives it.
pub fn find_bases<J: Jumps>(
    alloc: Global,
    code: &Code,
    jumps: &J,
    bits: &[Bit],
    carried: &[u64],
) -> Result<Vec<u64>, AllocError>
    requires { length bits.now ≤ 2 ^ 30 }
    ensures { IfOk result (λ bases. AreBases code.now.kind bases.items) }
{
    let mut bases = first_bases(alloc, code, bits, carried)?;
    let mut frames = BLOCK;
    while 1 <= frames {
        look_in(alloc, code, jumps, bits, frames, &mut bases)?;
        frames /= 2;
    }
    Ok(bases)
}

fn first_bases(
    alloc: Global,
    code: &Code,
    bits: &[Bit],
    carried: &[u64],
) -> Result<Vec<u64>, AllocError>
    requires { length bits.now ≤ 2 ^ 30 }
    ensures { IfOk result (λ bases. AreBases code.now.kind bases.items) }
{
    let mut bases = Vec::new(alloc);
    if carried.is_empty() {
        let pair = cheapest_bases(alloc, code, bits)?;
        put_below(code, pair, u64::MAX, &mut bases)?;
    }
    for base in carried {
        put_base(code, &mut bases, *base)?;
    }
    Ok(bases)
}

/// Looks in windows of some frames, each one half a window after the one before it.
fn look_in<J: Jumps>(
    alloc: Global,
    code: &Code,
    jumps: &J,
    bits: &[Bit],
    frames: usize,
    bases: &mut Vec<u64>,
) -> Result<(), AllocError>
    requires few { length bits.now ≤ 2 ^ 30 }
    requires window { 1 ≤ frames }
    requires known { AreBases code.now.kind bases.old.items }
    ensures { OnOk result (AreBases code.now.kind bases.new.items) }
{
    let step = (frames / 2).max(1);
    let mut rest = bits;
    while !rest.is_empty() {
        let window = &rest[..bits_of(rest, frames)];
        look_for(alloc, code, jumps, window, bits, bases)?;
        rest = &rest[bits_of(rest, step)..];
    }
    Ok(())
}

/// What a jump costs within a block: nothing says that one of the whole block is none.
fn set_in<J: Jumps>(jumps: &J, window: &[Bit], block: &[Bit]) -> u64
    ensures { result < 2 ^ 32 }
{
    if window.len() == block.len() {
        u64::from(jumps.set())
    } else {
        0
    }
}

/// Puts the bases that cost less in a window than the two best known ones, with the jump to them.
fn look_for<J: Jumps>(
    alloc: Global,
    code: &Code,
    jumps: &J,
    window: &[Bit],
    block: &[Bit],
    bases: &mut Vec<u64>,
) -> Result<(), AllocError>
    requires window { length window.now ≤ 2 ^ 30 }
    requires block { length block.now ≤ 2 ^ 30 }
    requires known { AreBases code.now.kind bases.old.items }
    ensures { OnOk result (AreBases code.now.kind bases.new.items) }
{
    let set = set_in(jumps, window, block);
    if is_explained(code, jumps, window, set, bases.as_slice()) {
        return Ok(());
    }
    match best_two(code, window, block, bases.as_slice()) {
        None => Ok(()),
        Some(pair) => look_from_both(alloc, code, jumps, window, pair, set, bases),
    }
}

/// Whether a known base costs no more in a window than a jump by a frame.
fn is_explained<J: Jumps>(code: &Code, jumps: &J, window: &[Bit], set: u64, bases: &[u64]) -> bool
    requires few { length window.now ≤ 2 ^ 30 }
    requires small { set < 2 ^ 32 }
{
    let enough = (u64::from(jumps.by(1)) + 1).saturating_sub(set);
    for base in bases {
        if code.cost_below(*base, window, enough).is_some() {
            return true;
        }
    }
    false
}

/// The two bases that cost least in a window, and of the same cost in the block.
fn best_two(code: &Code, window: &[Bit], block: &[Bit], bases: &[u64]) -> Option<Pair>
    requires window { length window.now ≤ 2 ^ 30 }
    requires block { length block.now ≤ 2 ^ 30 }
    ensures { IfSome result IsPair }
{
    let mut pair = None;
    for base in bases {
        let in_window = code.cost(*base, window).saturating_mul(1 << 30);
        let found = Found {
            cost: in_window.saturating_add(code.cost(*base, block)),
            base: *base,
        };
        pair = Some(with(pair, found));
    }
    pair
}

/// A pair with one more.
pub fn with(pair: Option<Pair>, found: Found) -> Pair
    requires { IfSome pair IsPair }
    ensures { IsPair result }
{
    match pair {
        None => Pair::of(found),
        Some(pair) => pair.with(found),
    }
}

fn look_from_both<J: Jumps>(
    alloc: Global,
    code: &Code,
    jumps: &J,
    window: &[Bit],
    pair: Pair,
    set: u64,
    bases: &mut Vec<u64>,
) -> Result<(), AllocError>
    requires few { length window.now ≤ 2 ^ 30 }
    requires known { AreBases code.now.kind bases.old.items }
    ensures { OnOk result (AreBases code.now.kind bases.new.items) }
{
    let anywhere = cheapest_bases(alloc, code, window)?;
    look_from(code, jumps, window, pair.first.base, set, anywhere, bases)?;
    match pair.second {
        None => Ok(()),
        Some(second) => look_from(code, jumps, window, second.base, set, anywhere, bases),
    }
}

/// Puts the bases that cost less in a window than a known one, with the jump to them: of the near
/// ones, and of those that cost least of all.
fn look_from<J: Jumps>(
    code: &Code,
    jumps: &J,
    window: &[Bit],
    base: u64,
    set: u64,
    anywhere: Option<Pair>,
    bases: &mut Vec<u64>,
) -> Result<(), AllocError>
    requires few { length window.now ≤ 2 ^ 30 }
    requires known { AreBases code.now.kind bases.old.items }
    ensures { OnOk result (AreBases code.now.kind bases.new.items) }
{
    let most = code.cost(base, window).saturating_add(set);
    put_below(
        code,
        near_pair(code, jumps, window, base, most),
        most,
        bases,
    )?;
    match anywhere {
        None => Ok(()),
        Some(pair) => {
            let pair = jumped_pair(code, jumps, window, base, pair, most);
            put_below(code, pair, most, bases)
        }
    }
}
