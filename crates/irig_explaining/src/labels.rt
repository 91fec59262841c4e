//! The places that steps give in a recording.

ghost use Rattle.std.specs.Prelude.{◌≡◌, ◌^◌, ◌<◌, ◌≤◌, length};
ghost use Rattle.irig_explaining.specs.{Labels.label, Labels.place, Distances.rise_at};

use crate::claim::{Claim, Kind};
use crate::costs::Places;
use crate::prices::Prices;
use crate::pricing::ahead;
use crate::table::PART;

impl<'a> Prices<'a> {
    /// A rise, in microseconds; 0 if there is none of that number.
    pub fn moment(&self, rise: usize) -> u64
        ensures exact { result ≡ rise_at self.now rise }
        ensures early { result ≤ 2 ^ 40 }
    {
        if rise < self.pulses.len() {
            self.pulses[rise].rise
        } else {
            0
        }
    }

    /// How far an element is ahead of the number that a steady clock gives a rise.
    fn label(&self, rise: usize, element: usize) -> u64
        ensures exact { result ≡ label self.now rise element }
        ensures within { result < length self.now.roles.now }
    {
        let steady = 2 * PART * self.moment(rise) / self.clock.longest.max(1);
        ahead(self.roles.len() as u64, steady, element as u64)
    }
}

impl<'a> Places for Prices<'a> {
    ghost place = { place };

    fn place(&self, from: Claim, to: Claim) -> u64 {
        let size = self.roles.len() as u64;
        if matches!(to.kind, Kind::Jump) {
            return size * size;
        }
        let before = self.label(from.rise as usize, from.element as usize);
        before * size + self.label(to.rise as usize, to.element as usize)
    }

    fn no_jump_gives(&self, asked: u64) -> bool {
        let size = self.roles.len() as u64;
        asked != size * size
    }
}
