//! How little the wire looks like each class.

/// What the wire of an element costs as a zero, and as a one.
#[derive(Clone, Copy)]
pub struct Look {
    pub zero: u64,
    pub one: u64,
}
