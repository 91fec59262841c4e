//! A node from which a step to a rise can be the cheapest way.

use crate::reach::Reach;

/// A node, by its number, and to which elements a step from it goes on.
#[derive(Clone, Copy)]
pub struct Open {
    pub from: usize,
    pub reach: Reach,
    /// What it and a step from it cost at least.
    pub least: u64,
}
