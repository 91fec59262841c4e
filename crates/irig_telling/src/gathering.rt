//! The bits of an explanation.

ghost use Rattle.std.specs.Prelude.{◌≡◌, ◌++◌, ◌^◌, ◌<◌, ◌≤◌, ◌∷◌, All, IfOk, List, length};
ghost use Rattle.irig_candidates.specs.declared.bit.Bit.{Bit};
ghost use Rattle.irig_explaining.specs.{Explanation.AreClaims, Explanation.IsExplanation};
ghost use Rattle.irig_explaining.specs.{Recorded.rises_of};
ghost use Rattle.irig_telling.specs.{Bits.bit_of, Bits.bits_from, Bits.bits_of, Bits.own_bit};
ghost use Rattle.irig_telling.specs.{Counting.begun, Fitting.Fits, Tallies.most};

use crate::counted::Counted;
use crate::counting::{begun, next};
use crate::look::Look;
use crate::looking::{has_look, look};
use crate::tallying::most;
use irig_candidates::{Bit, Code};
use irig_explaining::{Claim, Prices};
use std::alloc::{AllocError, Global};

/// The bits of the claims of an explanation, in order.
pub fn bits_of(
    alloc: Global,
    code: &Code,
    prices: &Prices<'_>,
    claims: &[Claim],
) -> Result<Vec<Bit>, AllocError>
    requires few { length claims.now ≤ 2 ^ 31 }
    requires possible { IsExplanation (rises_of prices.now) claims.now }
    requires frames { length prices.now.roles.now ≡ 100 }
    ensures exact { IfOk result (λ x. x.items ≡ bits_of code.now prices.now claims.now) }
    ensures fits { IfOk result (λ x. All (Fits prices.now) x.items) }
{
    let most = most(prices, claims);
    match claims {
        [first, rest @ ..] => bits_from(alloc, code, prices, most as u32, *first, rest),
        [] => Ok(Vec::new(alloc)),
    }
}

/// Those of a claim that begins the first stretch, and of the claims after it.
fn bits_from(
    alloc: Global,
    code: &Code,
    prices: &Prices<'_>,
    most: u32,
    first: Claim,
    rest: &[Claim],
) -> Result<Vec<Bit>, AllocError>
    requires few { length rest.now < 2 ^ 31 }
    requires possible { AreClaims (rises_of prices.now) first rest.now }
    requires frames { length prices.now.roles.now ≡ 100 }
    requires most { most ≤ 80 }
    ensures exact { IfOk result (λ x. x.items
        ≡ bits_from code.now prices.now most first (begun 0 first) rest.now) }
    ensures fits { IfOk result (λ x. All (Fits prices.now) x.items) }
{
    let mut bits = Vec::new(alloc);
    let mut before = first;
    let mut at = begun(0, first);
    for claim in rest {
        push_bit(&mut bits, code, prices, most, before, at, *claim)?;
        at = next(prices, before, at, *claim);
        before = *claim;
    }
    Ok(bits)
}

/// Adds the bit of a claim, if it has one, by the next claim.
fn push_bit(
    bits: &mut Vec<Bit>,
    code: &Code,
    prices: &Prices<'_>,
    most: u32,
    from: Claim,
    at: Counted,
    to: Claim,
) -> Result<(), AllocError>
    requires there { from.rise < length prices.now.pulses.now }
    requires element { from.element < 100 }
    requires frames { length prices.now.roles.now ≡ 100 }
    requires most { most ≤ 80 }
    requires few { at.element < 2 ^ 49 }
    requires fits { All (Fits prices.now) bits.old.items }
    ensures exact { IfOk result (λ _. bits.new.items
        ≡ bits.old.items ++ own_bit code.now prices.now most from at to) }
    ensures fits { IfOk result (λ _. All (Fits prices.now) bits.new.items) }
{
    if !has_look(from) || !code.is_bit(from.element as usize) {
        return Ok(());
    }
    bits.push(bit_of(prices, most, from, at, look(prices, from, to)))?;
    Ok(())
}

/// The bit of a claim with a look.
fn bit_of(prices: &Prices<'_>, most: u32, claim: Claim, at: Counted, look: Look) -> Bit
    requires there { claim.rise < length prices.now.pulses.now }
    requires element { claim.element < 100 }
    requires most { most ≤ 80 }
    requires few { at.element < 2 ^ 49 }
    requires zero { look.zero ≤ 112 }
    requires one { look.one ≤ 112 }
    ensures exact { result ≡ bit_of prices.now most claim at look }
    ensures fits { Fits prices.now result }
{
    let (zero, one) = (look.zero as u32, look.one as u32);
    Bit {
        stretch: at.stretch,
        rise: claim.rise,
        frame: at.element / prices.roles.len() as u64,
        element: claim.element as u8,
        zero: most.min(zero.saturating_sub(one)),
        one: most.min(one.saturating_sub(zero)),
    }
}
