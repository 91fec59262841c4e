//! What was found of a track without a look at lines.

use crate::outcome::Standing;

/// How much of a track has no time.
#[derive(Clone, Copy)]
pub struct Holes {
    /// The microseconds of the stretches without a time; 2^64 - 1 means that or more.
    pub untimed: u64,
    /// How many stretches these are.
    pub count: u64,
    pub standing: Standing,
}
