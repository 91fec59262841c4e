//! What is explained.

ghost use Rattle.std.specs.Prelude.{◌≡◌, ◌*◌, ◌^◌, ◌<◌, ◌≤◌};

/// The rises that are to be explained.
#[derive(Clone, Copy)]
pub struct Rises {
    /// How many there are.
    pub count: usize,
    /// How many elements a claim can name: those of a frame, or what else the caller wants to part.
    pub states: u32,
    /// From a claim the next one is at most this many rises away.
    pub window: usize,
    /// What a rise costs before the first claim, or after the last.
    pub skip: u32,
}

impl Rises {
    /// What `count` rises cost before the first claim, or after the last.
    pub(crate) fn skipped(&self, count: usize) -> u64
        requires { count ≤ 2 ^ 31 }
        ensures exact { result ≡ self.now.skip * count }
        ensures few { result < 2 ^ 63 }
    {
        u64::from(self.skip) * count as u64
    }
}
