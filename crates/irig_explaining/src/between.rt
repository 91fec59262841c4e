//! How many elements a step goes over.

ghost use Rattle.std.specs.Prelude.{◌≡◌, ◌+◌, ◌^◌, ◌<◌, ◌≤◌, IfSome};
ghost use Rattle.irig_explaining.specs.Between.{count_between, over, over_by};
ghost use Rattle.irig_explaining.specs.Distances.{apart};

use crate::claim::{Claim, Kind};
use crate::division::rest;
use crate::prices::Prices;
use crate::pricing::{ahead, counted};

impl<'a> Prices<'a> {
    /// How many elements a step that goes on goes over; `None` if the clock allows no such step.
    pub fn count_between(&self, from: Claim, to: Claim) -> Option<u64>
        ensures { result ≡ count_between self.now from to }
    {
        let (rise, later) = (from.rise as usize, to.rise as usize);
        if later <= rise || self.pulses.len() <= later {
            return None;
        }
        let size = self.roles.len() as u64;
        let ahead = ahead(size, from.element as u64, to.element as u64);
        counted(size, ahead, self.gone(rise, later))
    }

    /// How many elements a step goes over; `None` if it does not say that, as a jump.
    pub fn over(&self, from: Claim, to: Claim) -> Option<u64>
        ensures exact { result ≡ over self.now from to }
        ensures near { IfSome result (λ n. n ≤ apart self.now from.rise to.rise + 6) }
    {
        let (rise, later) = (from.rise as usize, to.rise as usize);
        if later <= rise || self.pulses.len() <= later {
            return None;
        }
        let size = self.roles.len() as u64;
        let ahead = ahead(size, from.element as u64, to.element as u64);
        over_by(to.kind, size, ahead, self.gone(rise, later))
    }
}

/// The same by how far ahead the element is, and by how many elements the clock says.
fn over_by(kind: Kind, size: u64, ahead: u64, gone: u64) -> Option<u64>
    requires some { 0 < size }
    requires few { size ≤ 2 ^ 31 }
    requires within { ahead < size }
    requires short { gone ≤ 2 ^ 49 }
    ensures exact { result ≡ over_by kind size ahead gone }
    ensures near { IfSome result (λ n. n ≤ gone + 5) }
{
    match kind {
        Kind::Next => counted(size, ahead, gone),
        Kind::Step if ahead == rest(gone, size) => Some(gone),
        Kind::Step => Some(1),
        Kind::Jump => None,
    }
}
