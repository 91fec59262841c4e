//! A stretch of elements in step.

/// From one rise to another, both in microseconds, each rise is the next element.
#[derive(Clone, Copy)]
pub struct Stretch {
    pub begin: u64,
    pub end: u64,
    /// How many elements it has.
    pub count: u64,
    /// The first one in its frame, from 0.
    pub element: u64,
}
