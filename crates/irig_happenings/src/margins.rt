//! How much dearer the next best explanation of each happening is.

ghost use Rattle.std.specs.Prelude.{ℕ, ◌≡◌, ◌++◌, ◌^◌, ◌<◌, ◌≤◌, IfOk, List, length};
ghost use Rattle.irig_happenings.specs.Margins.{AreMargins, AreOwn, IsMargin, MarginsAfter};
ghost use Rattle.irig_explaining.specs.{Explanation.AreClaims, Explanation.IsExplanation};
ghost use Rattle.irig_explaining.specs.{Explanation.cost, Priced.price, Recorded.rises_of};
ghost use Rattle.irig_explaining.specs.Turned.{AreTables};
ghost use Rattle.irig_explaining.specs.declared.claim.Claim.{Claim};

use crate::happened::is_plain;
use irig_explaining::{Asked, Claim, Places, Prices, Tables};
use std::alloc::{AllocError, Global};

/// The margins of an explanation's happenings, in order; all explanations cost at least as much.
pub fn margins(
    alloc: Global,
    prices: &Prices<'_>,
    tables: &Tables<'_, Prices<'_>>,
    least: u64,
    claims: &[Claim],
) -> Result<Vec<u64>, AllocError>
    requires few { length prices.now.pulses.now ≤ 2 ^ 26 }
    requires full { AreTables (price tables.now.costs.now) tables.now.rises
        tables.now.before.items tables.now.after.items }
    requires same { (tables.now.costs.now ≡ prices.now) × (tables.now.rises ≡ rises_of prices.now) }
    requires possible { IsExplanation (rises_of prices.now) claims.now }
    requires cheapest { (others : List Claim) → IsExplanation (rises_of prices.now) others
        → least ≤ cost (price prices.now) (rises_of prices.now) others }
    ensures { IfOk result (λ margins. AreMargins prices.now least claims.now margins.items) }
{
    match claims {
        [first, rest @ ..] => margins_after(alloc, prices, tables, least, *first, rest),
        [] => Ok(Vec::new(alloc)),
    }
}

/// Those of the steps from a claim on.
fn margins_after(
    alloc: Global,
    prices: &Prices<'_>,
    tables: &Tables<'_, Prices<'_>>,
    least: u64,
    first: Claim,
    rest: &[Claim],
) -> Result<Vec<u64>, AllocError>
    requires few { length prices.now.pulses.now ≤ 2 ^ 26 }
    requires full { AreTables (price tables.now.costs.now) tables.now.rises
        tables.now.before.items tables.now.after.items }
    requires same { (tables.now.costs.now ≡ prices.now) × (tables.now.rises ≡ rises_of prices.now) }
    requires possible { AreClaims (rises_of prices.now) first rest.now }
    requires cheapest { (others : List Claim) → IsExplanation (rises_of prices.now) others
        → least ≤ cost (price prices.now) (rises_of prices.now) others }
    ensures { IfOk result (λ margins. MarginsAfter prices.now least first rest.now margins.items) }
{
    let mut margins = Vec::new(alloc);
    let mut before = first;
    for claim in rest {
        push_margin(&mut margins, prices, tables, least, before, *claim)?;
        before = *claim;
    }
    Ok(margins)
}

/// Adds the margin of a step, if something happened there.
fn push_margin(
    margins: &mut Vec<u64>,
    prices: &Prices<'_>,
    tables: &Tables<'_, Prices<'_>>,
    least: u64,
    from: Claim,
    to: Claim,
) -> Result<(), AllocError>
    requires few { length prices.now.pulses.now ≤ 2 ^ 26 }
    requires full { AreTables (price tables.now.costs.now) tables.now.rises
        tables.now.before.items tables.now.after.items }
    requires same { (tables.now.costs.now ≡ prices.now) × (tables.now.rises ≡ rises_of prices.now) }
    requires there { from.rise < length prices.now.pulses.now }
    requires cheapest { (others : List Claim) → IsExplanation (rises_of prices.now) others
        → least ≤ cost (price prices.now) (rises_of prices.now) others }
    ensures { IfOk result (λ _. (own : List ℕ) × (margins.new.items ≡ margins.old.items ++ own)
        × AreOwn prices.now least from to own) }
{
    if is_plain(prices, from, to) {
        return Ok(());
    }
    margins.push(margin(prices, tables, least, from, to))?;
    Ok(())
}

/// How much dearer the cheapest explanation is that says something else of the interval after a
/// claim.
fn margin(
    prices: &Prices<'_>,
    tables: &Tables<'_, Prices<'_>>,
    least: u64,
    from: Claim,
    to: Claim,
) -> u64
    requires few { length prices.now.pulses.now ≤ 2 ^ 26 }
    requires full { AreTables (price tables.now.costs.now) tables.now.rises
        tables.now.before.items tables.now.after.items }
    requires same { (tables.now.costs.now ≡ prices.now) × (tables.now.rises ≡ rises_of prices.now) }
    requires there { from.rise < length prices.now.pulses.now }
    requires cheapest { (others : List Claim) → IsExplanation (rises_of prices.now) others
        → least ≤ cost (price prices.now) (rises_of prices.now) others }
    ensures { IsMargin prices.now least from to result }
{
    let asked = Asked {
        interval: from.rise as usize,
        place: prices.place(from, to),
    };
    tables.sure_below(asked).saturating_sub(least)
}
