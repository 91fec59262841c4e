//! The base that costs least.

ghost use Rattle.std.specs.Prelude.{◌≡◌, ◌⊎◌, ◌^◌, ◌≤◌, IfSome, length};
ghost use Rattle.std.specs.List.{All};
ghost use Rattle.irig_candidates.specs.Bits.{cost_of};

use crate::bit::Bit;
use crate::code::Code;
use crate::found::Found;

/// The base that costs least by some bits; the first one of these.
pub fn best_base(code: &Code, bits: &[Bit], bases: &[u64]) -> Option<u64>
    requires { length bits.now ≤ 2 ^ 30 }
    ensures { IfSome result (λ best. All (λ other. cost_of code.now best bits.now
        ≤ cost_of code.now other bits.now) bases.now) }
{
    let mut best: Option<Found> = None;
    for base in bases {
        best = Some(better(code, bits, best, *base));
    }
    match best {
        None => None,
        Some(found) => Some(found.base),
    }
}

/// The better one of a base and another one, if there is one.
fn better(code: &Code, bits: &[Bit], best: Option<Found>, base: u64) -> Found
    requires few { length bits.now ≤ 2 ^ 30 }
    requires known { IfSome best (λ x. cost_of code.now x.base bits.now ≡ x.cost) }
    ensures exact { cost_of code.now result.base bits.now ≡ result.cost }
    ensures own { result.cost ≤ cost_of code.now base bits.now }
    ensures known { IfSome best (λ x. result.cost ≤ x.cost) }
{
    let cost = code.cost(base, bits);
    match best {
        None => Found { cost, base },
        Some(found) => less(found, Found { cost, base }),
    }
}

fn less(first: Found, second: Found) -> Found
    ensures either { (result ≡ first) ⊎ (result ≡ second) }
    ensures first { result.cost ≤ first.cost }
    ensures second { result.cost ≤ second.cost }
{
    if second.cost < first.cost {
        second
    } else {
        first
    }
}
