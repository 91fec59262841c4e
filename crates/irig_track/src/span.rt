//! Where an edit took place.

/// From pulse `at`, `old` pulses became `new`, and all others stay. Pulses count from 0.
#[derive(Clone, Copy, PartialEq, Eq)]
pub struct Span {
    /// From 0.
    pub at: usize,
    pub old: usize,
    pub new: usize,
}
