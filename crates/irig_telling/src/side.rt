//! What is sure next to an element.

use irig_candidates::Bit;

/// A bit, and its base, if that is sure.
#[derive(Clone, Copy)]
pub struct Side {
    pub bit: Bit,
    pub base: Option<u64>,
}
