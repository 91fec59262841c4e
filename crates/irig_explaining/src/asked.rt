//! A question to all cheap explanations.

/// An interval between two rises, and a place for it. Is that the place?
#[derive(Clone, Copy)]
pub struct Asked {
    /// The number of the rise before the interval, from 0.
    pub interval: usize,
    /// The place.
    pub place: u64,
}
