//! An element that is counted on.

/// The place of a claim's element.
#[derive(Clone, Copy)]
pub struct Counted {
    /// The number of the stretch, from 0. Each jump begins one.
    pub stretch: u32,
    /// The number of the element, from 0. The stretch begins in frame 0.
    pub element: u64,
}
