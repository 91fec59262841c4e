//! The two cheapest of some bases.

ghost use Rattle.std.specs.Prelude.{◌≡◌, ◌⊎◌, None};

use crate::found::Found;

/// The cheaper one first.
#[derive(Clone, Copy)]
pub struct Pair {
    pub first: Found,
    pub second: Option<Found>,
}

impl Pair {
    ghost use Rattle.irig_candidates.specs.Found.{IsFrom, IsPair};

    pub fn of(found: Found) -> Pair
        ensures value { result ≡ record { first = found; second = None } }
        ensures pair { IsPair result }
    {
        Pair {
            first: found,
            second: None,
        }
    }

    /// The two cheapest of these and another one. A base that is there is not put again.
    pub fn with(self, found: Found) -> Pair
        requires { IsPair self }
        ensures pair { IsPair result }
        ensures origin { IsFrom self found result }
    {
        if found.base == self.first.base {
            return self;
        }
        if found.is_before(self.first) {
            return Pair {
                first: found,
                second: Some(self.first),
            };
        }
        Pair {
            first: self.first,
            second: Some(cheaper(found, self.second)),
        }
    }
}

/// The cheaper one of a base and another one, if there is one.
fn cheaper(found: Found, other: Option<Found>) -> Found
    ensures { (result ≡ found) ⊎ (other ≡ Some result) }
{
    match other {
        None => found,
        Some(other) => earlier(found, other),
    }
}

fn earlier(found: Found, other: Found) -> Found
    ensures { (result ≡ found) ⊎ (result ≡ other) }
{
    if found.is_before(other) { found } else { other }
}
