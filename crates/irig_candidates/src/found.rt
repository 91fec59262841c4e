//! Bases with what they cost.

ghost use Rattle.std.specs.Prelude.{◌≡◌, ◌≤◌, IsFalse, IsTrue};

/// A base, and what it costs.
#[derive(Clone, Copy)]
pub struct Found {
    pub cost: u64,
    pub base: u64,
}

impl Found {
    ghost use Rattle.irig_candidates.specs.Found.{is_before};

    /// Whether it costs less than another one, or as much and is earlier.
    pub fn is_before(self, other: Found) -> bool
        ensures value { result ≡ is_before self other }
        ensures yes { IsTrue result → self.cost ≤ other.cost }
        ensures no { IsFalse result → other.cost ≤ self.cost }
    {
        self.cost < other.cost || self.cost == other.cost && self.base < other.base
    }
}
