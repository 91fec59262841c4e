//! The parts of the listing of an explanation.

ghost use Rattle.std.specs.Prelude.{◌≡◌, ◌+◌, ◌++◌, ◌<◌, ◌≤◌, ◌^◌, ◌∷◌, [], IfOk, List, slice_get};
ghost use Rattle.irig_happenings.specs.Parts.{start, stretch};
ghost use Rattle.irig_happenings.specs.Parts.{begun, is_quiet, noise, parts_of, rest_of};
ghost use Rattle.irig_explaining.specs.declared.claim.Claim.{Claim};

use crate::happened::{happening, is_plain};
use crate::noise::Noise;
use crate::part::Part;
use crate::run::Run;
use crate::stretch::Stretch;
use irig_explaining::{Claim, Prices};
use std::alloc::{AllocError, Global};

/// The parts of an explanation's listing; the margins are those of its happenings, in order.
pub fn parts_of(
    alloc: Global,
    prices: &Prices<'_>,
    margins: &[u64],
    claims: &[Claim],
) -> Result<Vec<Part>, AllocError>
    ensures { IfOk result (λ parts. parts.items ≡ parts_of prices.now margins.now claims.now) }
{
    match claims {
        [first, rest @ ..] => parts_from(alloc, prices, margins, *first, rest),
        [] => all_noise(alloc, prices),
    }
}

fn all_noise(alloc: Global, prices: &Prices<'_>) -> Result<Vec<Part>, AllocError>
    ensures { IfOk result (λ parts. parts.items ≡ parts_of prices.now [] []) }
{
    let mut parts = Vec::new(alloc);
    let count = prices.pulses.len();
    push_noise(&mut parts, prices, 0, count.saturating_sub(1), count)?;
    Ok(parts)
}

fn parts_from(
    alloc: Global,
    prices: &Prices<'_>,
    margins: &[u64],
    first: Claim,
    rest: &[Claim],
) -> Result<Vec<Part>, AllocError>
    ensures { IfOk result (λ parts. parts.items ≡ noise prices.now 0 first.rise first.rise
        ++ rest_of prices.now margins.now (start first) rest.now) }
{
    let mut parts = Vec::new(alloc);
    let before = first.rise as usize;
    push_noise(&mut parts, prices, 0, before, before)?;
    let mut run = start(first);
    for claim in rest {
        run = add(&mut parts, prices, margins, run, *claim)?;
    }
    push_end(&mut parts, prices, run)?;
    Ok(parts)
}

/// A stretch of one element.
fn start(first: Claim) -> Run
    ensures { result ≡ start first }
{
    begun(first, 0)
}

fn begun(first: Claim, happened: usize) -> Run
    ensures { result ≡ begun first happened }
{
    Run {
        first,
        last: first,
        count: 1,
        happened,
    }
}

/// The stretch with one claim more, or a new one. What ended before it is added to the parts.
fn add(
    parts: &mut Vec<Part>,
    prices: &Prices<'_>,
    margins: &[u64],
    run: Run,
    to: Claim,
) -> Result<Run, AllocError>
    requires count { run.count < 2 ^ 63 }
    requires happened { run.happened < 2 ^ 63 }
    ensures exact { IfOk result (λ next. (later : List Claim)
        → parts.new.items ++ rest_of prices.now margins.now next later
        ≡ parts.old.items ++ rest_of prices.now margins.now run (to ∷ later)) }
    ensures count { IfOk result (λ next. next.count ≤ run.count + 1) }
    ensures happened { IfOk result (λ next. next.happened ≤ run.happened + 1) }
{
    if is_plain(prices, run.last, to) {
        return Ok(Run {
            last: to,
            count: run.count + 1,
            ..run
        });
    }
    let margin = margin_at(margins, run.happened);
    parts.push(Part::Stretch(stretch(prices, run)))?;
    parts.push(Part::Happening(happening(prices, run.last, to, margin)))?;
    Ok(begun(to, run.happened + 1))
}

/// The margin of a number, from 0, if margins were asked for.
fn margin_at(margins: &[u64], number: usize) -> Option<u64>
    ensures { result ≡ slice_get margins.now number }
{
    margins.get(number).copied()
}

fn stretch(prices: &Prices<'_>, run: Run) -> Stretch
    ensures { result ≡ stretch prices.now run }
{
    Stretch {
        begin: prices.moment(run.first.rise as usize),
        end: prices.moment(run.last.rise as usize),
        count: run.count as u64,
        element: run.first.element as u64,
    }
}

/// The last stretch, and the rises after it.
fn push_end(parts: &mut Vec<Part>, prices: &Prices<'_>, run: Run) -> Result<(), AllocError>
    ensures { IfOk result (λ _. parts.new.items
        ≡ parts.old.items ++ rest_of prices.now [] run []) }
{
    parts.push(Part::Stretch(stretch(prices, run)))?;
    let count = prices.pulses.len();
    let last = run.last.rise as usize;
    let after = count.saturating_sub(last).saturating_sub(1);
    push_noise(parts, prices, last, count.saturating_sub(1), after)
}

/// Some rises that are no element, if there are any.
fn push_noise(
    parts: &mut Vec<Part>,
    prices: &Prices<'_>,
    from: usize,
    to: usize,
    count: usize,
) -> Result<(), AllocError>
    ensures { IfOk result (λ _. parts.new.items
        ≡ parts.old.items ++ noise prices.now from to count) }
{
    if count == 0 {
        return Ok(());
    }
    parts.push(Part::Noise(Noise {
        begin: prices.moment(from),
        end: prices.moment(to),
        count: count as u64,
    }))?;
    Ok(())
}

/// Whether all is one stretch, or there is nothing.
pub fn is_quiet(parts: &[Part]) -> bool
    ensures { result ≡ is_quiet parts.now }
{
    matches!(parts, [] | [Part::Stretch(_)])
}
