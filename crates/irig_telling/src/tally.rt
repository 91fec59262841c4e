//! How often elements look like another class.

/// How many elements of a known class look clearly like a zero or a one, and how many of these look
/// like the other one.
#[derive(Clone, Copy)]
pub struct Tally {
    pub clear: u64,
    pub wrong: u64,
}
