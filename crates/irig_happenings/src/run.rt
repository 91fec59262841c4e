//! The elements in step that are not listed yet.

use irig_explaining::Claim;

/// The stretch that goes on.
#[derive(Clone, Copy)]
pub struct Run {
    pub first: Claim,
    pub last: Claim,
    pub count: usize,
    /// How much happened before it.
    pub happened: usize,
}
