//! How lines were aligned.

use crate::tally::Tally;

/// Which frames of a track are believed by the law of time; with `alone` of the settings all that
/// have a time.
#[derive(Clone, Copy)]
pub struct Standing {
    /// Whether at least one is believed.
    pub timed: bool,
    /// How many have a time, and are not believed.
    pub doubted: usize,
}

/// How lines were aligned.
#[derive(Clone, Copy)]
pub struct Outcome {
    /// What is counted of the lines, but for the header.
    pub tally: Tally,
    /// Which frames of the track are believed.
    pub standing: Standing,
}
