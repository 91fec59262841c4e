//! The cheapest explanation of a recording.

ghost use Rattle.std.specs.Prelude.{◌≡◌, ◌*◌, ◌^◌, ◌<◌, ◌≤◌, All, IfOk, length};
ghost use Rattle.std.specs.List.Sorted.{IsNonDecreasingBy};
ghost use Rattle.irig_explaining.specs.Looks.{IsTimely};
ghost use Rattle.irig_explaining.specs.Recorded.{IsCheapest, rises_of};

use crate::clock::Clock;
use crate::explanation::{Explanation, explain};
use crate::prices::Prices;
use crate::pulse::Pulse;
use crate::rises::Rises;
use crate::role::Role;
use crate::table::{SKIP, WINDOW};
use std::alloc::{AllocError, Global};

impl<'a> Prices<'a> {
    /// The costs of some pulses with their clock, for frames of elements with these roles.
    pub fn new(pulses: &'a [Pulse], roles: &'a [Role], clock: &'a Clock) -> Prices<'a>
        requires few { length pulses.now ≤ 2 ^ 31 }
        requires order { IsNonDecreasingBy (λ p. p.rise) pulses.now }
        requires timely { All IsTimely pulses.now }
        requires clocked { length clock.now.intervals.items ≡ length pulses.now }
        requires sized { (0 < length roles.now) × (length roles.now ≤ 2 ^ 31) }
        ensures pulses { result.pulses.now ≡ pulses.now }
        ensures roles { result.roles.now ≡ roles.now }
        ensures clock { result.clock.now ≡ clock.now }
    {
        Prices {
            pulses,
            roles,
            clock,
        }
    }

    /// What is explained: all rises, as elements of a frame.
    pub fn rises(&self) -> Rises
        ensures { result ≡ rises_of self.now }
    {
        Rises {
            count: self.pulses.len(),
            states: self.roles.len() as u32,
            window: WINDOW,
            skip: SKIP,
        }
    }
}

/// The cheapest explanation of the pulses of a recording, whose format has an interval of that many
/// microseconds, and frames of elements with these roles.
pub fn explain_recording(
    alloc: Global,
    interval: u64,
    pulses: &[Pulse],
    roles: &[Role],
) -> Result<Explanation, AllocError>
    requires some { 0 < interval }
    requires short { interval ≤ 2 ^ 17 }
    requires few { length pulses.now ≤ 2 ^ 31 }
    requires order { IsNonDecreasingBy (λ p. p.rise) pulses.now }
    requires timely { All IsTimely pulses.now }
    requires sized { (0 < length roles.now) × (length roles.now ≤ 2 ^ 31) }
    // It is one, costs what it says by the clock of these pulses, and none is cheaper.
    ensures { IfOk result (λ x. IsCheapest (256 * interval) pulses.now roles.now x) }
{
    let clock = Clock::measure(alloc, interval, pulses)?;
    let prices = Prices::new(pulses, roles, &clock);
    explain(alloc, &prices, prices.rises())
}
