//! What all cheap choices say of each bit.

ghost use Rattle.std.specs.Prelude.{ℕ, ◌≡◌, ◌+◌, ◌^◌, ◌<◌, ◌≤◌, IfOk, List, length};
ghost use Rattle.irig_dating.specs.{Sure.AreTables};
ghost use Rattle.irig_telling.specs.{Dating.prices_of, Told.AreTold, Told.IsChoiceOf, Told.IsTold};
ghost use Rattle.irig_telling.specs.{Told.cost_of, Told.is_sure};

use crate::dated::Dated;
use irig_dating::{Choice, Tables};
use std::alloc::{AllocError, Global};

/// The base of each bit that all choices say that cost less than the margin more than the
/// cheapest.
pub fn tell(alloc: Global, dated: &Dated<'_>, margin: u64) -> Result<Vec<Option<u64>>, AllocError>
    requires few { length dated.now.bits.now ≤ 2 ^ 30 }
    requires some { 0 < margin }
    ensures { IfOk result (λ told. AreTold dated.now margin told.items) }
{
    let count = dated.bits.len();
    let tables = Tables::build(alloc, dated, count)?;
    let choice = tables.cheapest(alloc)?;
    told_by(alloc, dated, margin, &tables, &choice)
}

/// The same by the cheapest choice.
fn told_by(
    alloc: Global,
    dated: &Dated<'_>,
    margin: u64,
    tables: &Tables<'_, Dated<'_>>,
    choice: &Choice,
) -> Result<Vec<Option<u64>>, AllocError>
    requires few { length dated.now.bits.now ≤ 2 ^ 30 }
    requires some { 0 < margin }
    requires full { AreTables (prices_of tables.now.costs.now) tables.now.bits
        tables.now.before.items tables.now.after.items }
    requires same { (tables.now.costs.now ≡ dated.now)
        × (tables.now.bits ≡ length dated.now.bits.now) }
    requires possible { IsChoiceOf dated.now choice.now.candidates.items }
    requires exact { cost_of dated.now choice.now.candidates.items ≡ choice.now.cost }
    requires least { (x : List ℕ) → IsChoiceOf dated.now x → choice.now.cost ≤ cost_of dated.now x }
    ensures { IfOk result (λ told. AreTold dated.now margin told.items) }
{
    let mut told = Vec::new(alloc);
    for bit in 0..dated.bits.len() {
        told.push(told_at(dated, margin, tables, choice, bit))?;
    }
    Ok(told)
}

/// The base of a bit, if it is sure.
fn told_at(
    dated: &Dated<'_>,
    margin: u64,
    tables: &Tables<'_, Dated<'_>>,
    choice: &Choice,
    bit: usize,
) -> Option<u64>
    requires few { length dated.now.bits.now ≤ 2 ^ 30 }
    requires some { 0 < margin }
    requires there { bit < length dated.now.bits.now }
    requires full { AreTables (prices_of tables.now.costs.now) tables.now.bits
        tables.now.before.items tables.now.after.items }
    requires same { (tables.now.costs.now ≡ dated.now)
        × (tables.now.bits ≡ length dated.now.bits.now) }
    requires possible { IsChoiceOf dated.now choice.now.candidates.items }
    requires exact { cost_of dated.now choice.now.candidates.items ≡ choice.now.cost }
    requires least { (x : List ℕ) → IsChoiceOf dated.now x → choice.now.cost ≤ cost_of dated.now x }
    ensures { IsTold dated.now (choice.now.cost + margin) bit result }
{
    let candidate = choice.candidates[bit];
    if !is_sure(margin, choice.cost, tables.sure_below(bit, candidate)) {
        return None;
    }
    dated.said_at(bit, candidate)
}

/// Whether the least cost of another candidate exceeds a cost by a margin.
fn is_sure(margin: u64, cost: u64, other: Option<u64>) -> bool
    ensures { result ≡ is_sure margin cost other }
{
    match other {
        None => true,
        Some(other) => margin <= other.saturating_sub(cost),
    }
}
