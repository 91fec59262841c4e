//! The wire from a rise to where its element ends.

/// What the looks of an element share: begin and end in microseconds, interval and spread in parts
/// of one.
#[derive(Clone, Copy)]
pub(crate) struct Stretch {
    pub begin: u64,
    pub end: u64,
    pub interval: u64,
    pub width_spread: u64,
    /// What the pulses cost that are too many.
    pub extra: u64,
    /// How long the wire is high.
    pub high: u64,
}
