//! What happened at a step from one claim to the next.

ghost use Rattle.std.specs.Prelude.{◌≡◌, ◌-◌};
ghost use Rattle.irig_happenings.specs.Happenings.{happening, is_plain, missing_in, missing_of};

use crate::happening::Happening;
use irig_explaining::{Claim, Costs, Kind, Prices};

/// A step that costs as much is not plain. The wire after a rise, or the rise itself, is so far off
/// that it is as unlikely as one in twenty.
const DAMAGED: u32 = 48;

/// Whether a step goes on to the next rise as the next element, and both look like theirs.
pub fn is_plain(prices: &Prices<'_>, from: Claim, to: Claim) -> bool
    ensures { result ≡ is_plain prices.now from to }
{
    matches!(to.kind, Kind::Next)
        && missing_of(prices, from, to) == 0
        && to.rise.saturating_sub(from.rise) == 1
        && prices.price(from, to) < DAMAGED
}

/// How many elements without a rise a step goes over that goes on.
fn missing_of(prices: &Prices<'_>, from: Claim, to: Claim) -> u64
    ensures { result ≡ missing_of prices.now from to }
{
    missing_in(to.kind, prices.count_between(from, to))
}

fn missing_in(kind: Kind, count: Option<u64>) -> u64
    ensures { result ≡ missing_in kind count }
{
    match kind {
        Kind::Next => match count {
            Some(count) => count.saturating_sub(1),
            None => 0,
        },
        Kind::Step | Kind::Jump => 0,
    }
}

/// What happened at a step, with how much dearer the next best explanation is.
pub fn happening(prices: &Prices<'_>, from: Claim, to: Claim, margin: Option<u64>) -> Happening
    ensures { result ≡ happening prices.now from to margin }
{
    Happening {
        begin: prices.moment(from.rise as usize),
        end: prices.moment(to.rise as usize),
        kind: to.kind,
        element: from.element as u64,
        to: to.element as u64,
        missing: missing_of(prices, from, to),
        noise: to.rise.saturating_sub(from.rise).saturating_sub(1) as u64,
        cost: u64::from(prices.price(from, to)),
        margin,
    }
}
