//! What the wire says of the class of an element.

ghost use Rattle.std.specs.Prelude.{◌≡◌, ◌<◌, ◌≤◌, ◌^◌, length};
ghost use Rattle.irig_telling.specs.Looking.{end_of, has_look, is_next, look};

use crate::look::Look;
use irig_explaining::{Claim, Kind, Prices};

/// Whether the wire of a claim's element says something of its class: of the first pulse the
/// recording can have the end alone.
pub(crate) fn has_look(claim: Claim) -> bool
    ensures { result ≡ has_look claim }
{
    0 < claim.rise
}

/// Whether a step goes on to the next element.
fn is_next(prices: &Prices<'_>, from: Claim, to: Claim) -> bool
    ensures { result ≡ is_next prices.now from to }
{
    matches!(to.kind, Kind::Next) && prices.over(from, to).unwrap_or(0) == 1
}

/// Where the wire of a claim's element ends, if that is the next claim.
fn end_of(prices: &Prices<'_>, from: Claim, to: Claim) -> u64
    requires { from.rise < length prices.now.pulses.now }
    ensures exact { result ≡ end_of prices.now from to }
    ensures early { result ≤ 2 ^ 40 }
{
    let later = prices.moment(to.rise as usize);
    if is_next(prices, from, to) {
        return later;
    }
    later.min(prices.wire_end(from.rise as usize))
}

/// What the wire of a claim's element costs as each class, if that is the next claim.
pub(crate) fn look(prices: &Prices<'_>, from: Claim, to: Claim) -> Look
    requires { from.rise < length prices.now.pulses.now }
    ensures exact { result ≡ look prices.now from to }
    ensures zero { result.zero ≤ 112 }
    ensures one { result.one ≤ 112 }
{
    let rise = from.rise as usize;
    let end = end_of(prices, from, to);
    Look {
        zero: prices.as_pulse(2, rise, end),
        one: prices.as_pulse(5, rise, end),
    }
}
