//! Bases with what they cost by bits, and by the jump from a known one.

ghost use Rattle.std.specs.Prelude.{◌^◌, ◌<◌, ◌≤◌, IfSome, length};
ghost use Rattle.irig_candidates.specs.Found.{IsPair};

use crate::bit::Bit;
use crate::code::Code;
use crate::finding::{NEAR, with};
use crate::found::Found;
use crate::jumps::Jumps;
use crate::pair::Pair;

/// The two near ones that cost least, of those that cost less than that.
pub fn near_pair<J: Jumps>(
    code: &Code,
    jumps: &J,
    bits: &[Bit],
    base: u64,
    most: u64,
) -> Option<Pair>
    requires { length bits.now ≤ 2 ^ 30 }
    ensures { IfSome result IsPair }
{
    let year = code.year();
    let base = base % year;
    let mut pair = None;
    for by in 0..2 * NEAR + 1 {
        if by != NEAR {
            let other = (base + year + by - NEAR) % year;
            pair = and(pair, jumped(code, jumps, bits, base, other, most));
        }
    }
    pair
}

/// Those of a pair, with the jump.
pub fn jumped_pair<J: Jumps>(
    code: &Code,
    jumps: &J,
    bits: &[Bit],
    base: u64,
    pair: Pair,
    most: u64,
) -> Option<Pair>
    requires { length bits.now ≤ 2 ^ 30 }
    ensures { IfSome result IsPair }
{
    let first = and(None, jumped(code, jumps, bits, base, pair.first.base, most));
    match pair.second {
        None => first,
        Some(second) => and(first, jumped(code, jumps, bits, base, second.base, most)),
    }
}

/// A base by what it costs with the jump to it, if that is less.
fn jumped<J: Jumps>(
    code: &Code,
    jumps: &J,
    bits: &[Bit],
    base: u64,
    other: u64,
    most: u64,
) -> Option<Found>
    requires { length bits.now ≤ 2 ^ 30 }
    ensures { IfSome result (λ x. x.cost < most) }
{
    let jump = u64::from(jumps.by(code.far(base, 1, other)));
    let cost = code.cost_below(other, bits, most.saturating_sub(jump))?;
    Some(Found {
        cost: cost + jump,
        base: other,
    })
}

/// A pair with one more, if there is one.
fn and(pair: Option<Pair>, found: Option<Found>) -> Option<Pair>
    requires { IfSome pair IsPair }
    ensures { IfSome result IsPair }
{
    match found {
        None => pair,
        Some(found) => Some(with(pair, found)),
    }
}
