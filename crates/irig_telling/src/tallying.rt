//! What it costs that an element looks like the other class.

ghost use Rattle.std.specs.Prelude.{ℕ, ◌≡◌, ◌+◌, ◌^◌, ◌<◌, ◌≤◌, List, length};
ghost use Rattle.irig_explaining.specs.{Explanation.AreClaims, Explanation.IsExplanation};
ghost use Rattle.irig_explaining.specs.{Priced.role_at, Recorded.rises_of};
ghost use Rattle.irig_telling.specs.Tallies.{contradicts, is_clear, is_unused, most, tally, tally_after};
ghost use Rattle.irig_telling.specs.Tallies.{with_claim, with_look};
ghost use Rattle.irig_telling.specs.{Looking.look};

use crate::look::Look;
use crate::looking::{has_look, look};
use crate::tally::Tally;
use irig_explaining::{Claim, Prices, Role, logarithm};

/// An element of the time that looks like the other class, at most.
const CONTRADICTS: u64 = 80;

/// A look that is less likely of one class by the factor of the natural logarithm's base.
const CLEAR: u64 = 16;

/// Elements of a known class that look like it, before the first one is looked at.
const USUAL: u64 = 20;

/// What an element costs at most that looks like the other class: the more, the more seldom unused
/// elements do, which are zeros.
pub(crate) fn most(prices: &Prices<'_>, claims: &[Claim]) -> u64
    requires few { length claims.now ≤ 2 ^ 31 }
    requires possible { IsExplanation (rises_of prices.now) claims.now }
    ensures exact { result ≡ most prices.now claims.now }
    ensures small { result ≤ 80 }
{
    let tally = match claims {
        [first, rest @ ..] => tally_after(prices, *first, rest),
        [] => Tally { clear: 0, wrong: 0 },
    };
    contradicts(tally)
}

fn contradicts(tally: Tally) -> u64
    requires clear { tally.clear ≤ 2 ^ 32 }
    requires wrong { tally.wrong ≤ 2 ^ 32 }
    ensures exact { result ≡ contradicts tally }
    ensures small { result ≤ 80 }
{
    logarithm(3 * (tally.clear + USUAL) / (3 * tally.wrong + 1)).min(CONTRADICTS)
}

/// The tally of the claims from one on.
fn tally_after(prices: &Prices<'_>, first: Claim, rest: &[Claim]) -> Tally
    requires few { length rest.now < 2 ^ 31 }
    requires possible { AreClaims (rises_of prices.now) first rest.now }
    ensures exact { result ≡ tally_after prices.now first rest.now }
    ensures clear { result.clear ≤ length rest.now }
    ensures wrong { result.wrong ≤ length rest.now }
{
    let mut tally = Tally { clear: 0, wrong: 0 };
    let mut before = first;
    for claim in rest {
        tally = with_claim(prices, tally, before, *claim);
        before = *claim;
    }
    tally
}

/// A tally with one claim more, if that is the next one.
fn with_claim(prices: &Prices<'_>, tally: Tally, from: Claim, to: Claim) -> Tally
    requires there { from.rise < length prices.now.pulses.now }
    requires clear { tally.clear < 2 ^ 32 }
    requires wrong { tally.wrong < 2 ^ 32 }
    ensures exact { result ≡ with_claim prices.now tally from to }
    ensures clear { result.clear ≤ tally.clear + 1 }
    ensures wrong { result.wrong ≤ tally.wrong + 1 }
{
    if !has_look(from) || !is_unused(prices, from) {
        return tally;
    }
    with_look(tally, look(prices, from, to))
}

/// Whether an element has a known class.
fn is_unused(prices: &Prices<'_>, claim: Claim) -> bool
    ensures { result ≡ is_unused prices.now claim }
{
    let element = claim.element as usize;
    element >= prices.roles.len() || matches!(prices.roles[element], Role::Unused)
}

/// A tally with one look more.
fn with_look(tally: Tally, look: Look) -> Tally
    requires clear { tally.clear < 2 ^ 32 }
    requires wrong { tally.wrong < 2 ^ 32 }
    ensures exact { result ≡ with_look tally look }
    ensures clear { result.clear ≤ tally.clear + 1 }
    ensures wrong { result.wrong ≤ tally.wrong + 1 }
{
    if !is_clear(look) {
        return tally;
    }
    Tally {
        clear: tally.clear + 1,
        wrong: tally.wrong + u64::from(look.one < look.zero),
    }
}

fn is_clear(look: Look) -> bool
    ensures { result ≡ is_clear look }
{
    CLEAR < look.zero.abs_diff(look.one)
}
