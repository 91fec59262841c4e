//! The clock of a recording, measured.

ghost use Rattle.std.specs.Prelude.{◌≡◌, ◌*◌, ◌^◌, ◌<◌, ◌≤◌, All, IfOk, length};
ghost use Rattle.irig_explaining.specs.Clocks.{IsClock};
ghost use Rattle.irig_explaining.specs.Looks.{IsTimely};

use crate::clock::Clock;
use crate::folds::{folded, places, singles};
use crate::intervals::intervals;
use crate::median::middles;
use crate::pulse::Pulse;
use crate::spreads::{spread, width_spread};
use crate::table::{HALF, PART};
use std::alloc::{AllocError, Global};

impl Clock {
    /// The clock of some pulses, whose format has that interval, in microseconds.
    pub fn measure(alloc: Global, interval: u64, pulses: &[Pulse]) -> Result<Clock, AllocError>
        requires some { 0 < interval }
        requires short { interval ≤ 2 ^ 17 }
        requires timely { All IsTimely pulses.now }
        ensures exact { IfOk result (λ clock. IsClock (256 * interval) pulses.now clock) }
        ensures all { IfOk result (λ clock. length clock.intervals.items ≡ length pulses.now) }
    {
        let nominal = PART * interval;
        let wide = width_spread(alloc, nominal, pulses)?;
        let distances = folded(alloc, nominal, pulses)?;
        let singles = singles(alloc, distances.as_slice())?;
        let middles = middles(alloc, singles.as_slice(), HALF)?;
        let spread = spread(alloc, nominal, singles.as_slice(), middles.as_slice())?;
        let places = places(alloc, nominal, pulses)?;
        let (far, near) = (distances.as_slice(), middles.as_slice());
        let intervals = intervals(alloc, nominal, spread, far, near, places.as_slice())?;
        Ok(Clock {
            intervals,
            longest: 2 * nominal,
            spread,
            width_spread: wide,
        })
    }
}
