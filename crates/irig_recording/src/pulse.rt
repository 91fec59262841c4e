//! A rise and a fall.

/// A time high: from `rise` on, up to and without `fall`, both in microseconds.
#[derive(Clone, Copy, PartialEq, Eq)]
pub struct Pulse {
    pub rise: u64,
    pub fall: u64,
}
