//! The clock of a recording.

ghost use Rattle.std.specs.Prelude.{◌^◌, ◌<◌, ◌≤◌, All};

/// The interval at each rise, and how far rises and widths usually are off, in parts of a
/// microsecond.
#[derive(Drop)]
pub struct Clock {
    pub intervals: Vec<u32>,
    /// No interval is longer.
    pub longest: u64,
    pub spread: u64,
    pub width_spread: u64,
    ghost steady: { All (λ i. (0 < i) × (i ≤ longest)) intervals.items },
    ghost short: { longest < 2 ^ 27 },
    ghost some_spread: { (0 < spread) × (spread < 2 ^ 32) },
    ghost some_width: { (0 < width_spread) × (width_spread < 2 ^ 32) },
}
