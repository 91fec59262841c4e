//! A recording that is read from its end.

ghost use Rattle.std.specs.Prelude.{◌≡◌, ◌-◌, ◌^◌, ◌≤◌};

use crate::claim::{Claim, Kind};
use crate::costs::Costs;
use crate::reach::Reach;
use crate::remote::Remote;

/// The costs of steps between rises that are numbered from the end.
#[derive(Drop)]
pub struct Turned<'a, C> {
    /// Those between rises that are numbered from the beginning.
    pub costs: &'a C,
    /// How many rises there are.
    pub count: usize,
    ghost few: { count ≤ 2 ^ 31 },
}

impl<'a, C: Costs> Turned<'a, C> {
    /// The number of a rise from the other end.
    fn turned(&self, rise: usize) -> usize
        ensures { result ≡ self.now.count - 1 - rise }
    {
        self.count.saturating_sub(1).saturating_sub(rise)
    }

    /// A claim, its rise numbered from the other end.
    fn claim(&self, claim: Claim, kind: Kind) -> Claim
        ensures { result ≡ record {
          rise = self.now.count - 1 - claim.rise;
          element = claim.element;
          kind = kind;
        } }
    {
        Claim {
            rise: self.turned(claim.rise as usize) as u32,
            element: claim.element,
            kind,
        }
    }
}

impl<'a, C: Costs> Costs for Turned<'a, C> {
    ghost price = { λ t r e q f k. C.price t.costs.now (t.count - 1 - q) f (t.count - 1 - r) e k };

    ghost from_class = { λ t e. C.to_class t.costs.now e };

    ghost to_class = { λ t f. C.from_class t.costs.now f };

    fn price(&self, from: Claim, to: Claim) -> u32 {
        self.costs
            .price(self.claim(to, to.kind), self.claim(from, to.kind))
    }

    fn least(&self, rise: usize, later: usize, enough: u64) -> u32 {
        self.costs
            .least(self.turned(later), self.turned(rise), enough)
    }

    fn remote_from(&self, later: usize) -> Remote {
        let remote = self.costs.remote_to(self.turned(later), self.count);
        Remote {
            rise: self.count.saturating_sub(remote.rise),
            least: remote.least,
        }
    }

    // No costs are turned twice.
    fn remote_to(&self, _rise: usize, _count: usize) -> Remote {
        Remote { rise: 0, least: 0 }
    }

    fn least_by(&self, rise: usize, later: usize, kind: Kind) -> u32 {
        self.costs
            .least_by(self.turned(later), self.turned(rise), kind)
    }

    fn from_class(&self, element: usize) -> usize {
        self.costs.to_class(element)
    }

    fn to_class(&self, element: usize) -> usize {
        self.costs.from_class(element)
    }

    fn from_classes(&self, states: u32) -> usize {
        self.costs.to_classes(states)
    }

    fn to_classes(&self, states: u32) -> usize {
        self.costs.from_classes(states)
    }

    fn jump_to(&self, from: Claim, later: usize, class: usize) -> u32 {
        self.costs
            .jump_from(self.turned(later), class, self.claim(from, from.kind))
    }

    fn jump_from(&self, rise: usize, class: usize, to: Claim) -> u32 {
        self.costs
            .jump_to(self.claim(to, to.kind), self.turned(rise), class)
    }

    fn reach_from(&self, from: Claim, later: usize) -> Reach {
        self.costs
            .reach_to(self.turned(later), self.claim(from, from.kind))
    }

    fn reach_to(&self, rise: usize, to: Claim) -> Reach {
        self.costs
            .reach_from(self.claim(to, to.kind), self.turned(rise))
    }

    fn most_from(&self, rise: usize, this: usize, class: usize) -> u32 {
        self.costs.most_to(self.turned(rise), this, class)
    }

    fn most_to(&self, rise: usize, this: usize, class: usize) -> u32 {
        self.costs.most_from(self.turned(rise), this, class)
    }
}
