//! What steps cost in a recording.

ghost use Rattle.std.specs.Prelude.{◌≡◌, ◌^◌, ◌<◌, ◌≤◌, All, length};
ghost use Rattle.std.specs.List.Sorted.{IsNonDecreasingBy};
ghost use Rattle.irig_explaining.specs.Looks.{IsTimely};

use crate::clock::Clock;
use crate::pulse::Pulse;
use crate::role::Role;

/// The costs of a recording, by its pulses and its clock, for frames of some elements.
#[derive(Clone, Copy)]
pub struct Prices<'a> {
    /// The pulses, in the order of their rises.
    pub pulses: &'a [Pulse],
    /// What each element of a frame can be.
    pub roles: &'a [Role],
    pub clock: &'a Clock,
    ghost few: { length pulses.now ≤ 2 ^ 31 },
    ghost order: { IsNonDecreasingBy (λ p. p.rise) pulses.now },
    ghost timely: { All IsTimely pulses.now },
    ghost clocked: { length clock.now.intervals.items ≡ length pulses.now },
    ghost sized: { (0 < length roles.now) × (length roles.now ≤ 2 ^ 31) },
}
