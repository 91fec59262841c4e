//! Elements counted on from one jump to the next.

ghost use Rattle.std.specs.Prelude.{◌≡◌, ◌+◌, ◌*◌, ◌^◌, ◌<◌, ◌≤◌, ◌∷◌, All, IfOk, length, max};
ghost use Rattle.irig_explaining.specs.{Distances.apart, Explanation.IsExplanation};
ghost use Rattle.irig_explaining.specs.{Explanation.AreClaims, Distances.rise_at, Recorded.rises_of};
ghost use Rattle.irig_telling.specs.Counting.{IsFew, begun, counted, next};

use crate::counted::Counted;
use irig_explaining::{Claim, Kind, Prices};
use std::alloc::{AllocError, Global};

/// The place of each claim's element.
pub fn count_elements(
    alloc: Global,
    prices: &Prices<'_>,
    claims: &[Claim],
) -> Result<Vec<Counted>, AllocError>
    requires few { length claims.now ≤ 2 ^ 31 }
    requires possible { IsExplanation (rises_of prices.now) claims.now }
    ensures exact { IfOk result (λ x. x.items ≡ counted prices.now claims.now) }
    ensures few { IfOk result (λ x. All IsFew x.items) }
{
    match claims {
        [first, rest @ ..] => count_from(alloc, prices, *first, rest),
        [] => Ok(Vec::new(alloc)),
    }
}

/// The same of a claim that begins the first stretch, and those after it.
fn count_from(
    alloc: Global,
    prices: &Prices<'_>,
    first: Claim,
    rest: &[Claim],
) -> Result<Vec<Counted>, AllocError>
    requires few { length rest.now < 2 ^ 31 }
    requires possible { AreClaims (rises_of prices.now) first rest.now }
    ensures exact { IfOk result (λ x. x.items
        ≡ counted prices.now (first ∷ rest.now)) }
    ensures few { IfOk result (λ x. All IsFew x.items) }
{
    let mut places = Vec::new(alloc);
    let mut before = first;
    let mut at = begun(0, first);
    places.push(at)?;
    for claim in rest {
        at = next(prices, before, at, *claim);
        places.push(at)?;
        before = *claim;
    }
    Ok(places)
}

/// The first element of a stretch.
pub(crate) fn begun(stretch: u32, claim: Claim) -> Counted
    ensures { result ≡ begun stretch claim }
{
    Counted {
        stretch,
        element: u64::from(claim.element),
    }
}

/// The place of a claim's element, by that of the claim before.
pub(crate) fn next(prices: &Prices<'_>, from: Claim, at: Counted, to: Claim) -> Counted
    requires stretch { at.stretch < 2 ^ 31 }
    requires element { at.element < 2 ^ 62 }
    ensures exact { result ≡ next prices.now from at to }
    ensures stretch { result.stretch ≤ at.stretch + 1 }
    ensures element { result.element
        ≤ max (2 ^ 32) (at.element + apart prices.now from.rise to.rise + 6) }
{
    match to.kind {
        Kind::Next | Kind::Step => Counted {
            stretch: at.stretch,
            element: at.element + prices.over(from, to).unwrap_or(0),
        },
        Kind::Jump => begun(at.stretch + 1, to),
    }
}
