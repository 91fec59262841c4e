//! The cheapest explanation of a recording, as the parts of a listing.

ghost use Rattle.std.specs.Prelude.{◌^◌, ◌≤◌, IfOk, false, length, true};
ghost use Rattle.irig_happenings.specs.Listings.{IsExplained, IsListing};

use crate::margins::margins;
use crate::part::Part;
use crate::parts::parts_of;
use crate::pulses::pulses_of;
use crate::roles::roles_of;
use irig_codes::Format;
use irig_explaining::{Clock, Prices, Tables, explain};
use irig_recording::LongRecording;
use std::alloc::{AllocError, Global};

/// What happened in a recording of a format, without margins if they are not asked for.
pub fn happenings(
    alloc: Global,
    format: Format,
    quick: bool,
    recording: LongRecording,
) -> Result<Vec<Part>, AllocError>
    ensures { IfOk result (λ parts. IsListing format recording.edges quick parts.items) }
{
    let pulses = pulses_of(alloc, recording)?;
    let roles = roles_of(alloc, format)?;
    let clock = Clock::measure(alloc, format.interval(), pulses.as_slice())?;
    let prices = Prices::new(pulses.as_slice(), roles.as_slice(), &clock);
    if quick {
        explained(alloc, &prices)
    } else {
        explained_surely(alloc, &prices)
    }
}

/// What happened by some prices.
fn explained(alloc: Global, prices: &Prices<'_>) -> Result<Vec<Part>, AllocError>
    requires { length prices.now.pulses.now ≤ 2 ^ 26 }
    ensures { IfOk result (λ parts. IsExplained prices.now true parts.items) }
{
    let explanation = explain(alloc, prices, prices.rises())?;
    parts_of(alloc, prices, &[], explanation.claims.as_slice())
}

/// The same with margins.
fn explained_surely(alloc: Global, prices: &Prices<'_>) -> Result<Vec<Part>, AllocError>
    requires { length prices.now.pulses.now ≤ 2 ^ 26 }
    ensures { IfOk result (λ parts. IsExplained prices.now false parts.items) }
{
    let tables = Tables::build(alloc, prices, prices.rises())?;
    let explanation = tables.explain(alloc)?;
    let claims = explanation.claims.as_slice();
    let margins = margins(alloc, prices, &tables, explanation.cost, claims)?;
    parts_of(alloc, prices, margins.as_slice(), claims)
}
