//! A distance of whole intervals.

ghost use Rattle.std.specs.Prelude.{◌≡◌};
ghost use Rattle.irig_explaining.specs.Folds.{IsFar, single};

/// A distance of neighbouring rises that is one to three intervals, give or take an eighth.
#[derive(Clone, Copy)]
pub(crate) struct Distance {
    /// The distance, in parts of a microsecond.
    pub far: u64,
    /// How many intervals.
    pub count: u64,
}

impl Distance {
    /// The interval that it gives. A number that is known is divided by without a division.
    pub fn single(self) -> u64
        requires { IsFar self }
        ensures { result ≡ single self }
    {
        match self.count {
            1 => self.far / 1,
            2 => self.far / 2,
            _ => self.far / 3,
        }
    }
}
