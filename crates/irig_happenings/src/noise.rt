//! Rises that are no element, before all elements or after them.

/// From one moment to another, both in microseconds.
#[derive(Clone, Copy)]
pub struct Noise {
    pub begin: u64,
    pub end: u64,
    /// How many rises there are.
    pub count: u64,
}
