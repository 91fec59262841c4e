//! What is seen of a line, by which lines are counted.

/// What is seen of a line.
#[derive(Clone, Copy)]
pub struct Look {
    /// Its number, from 1; 2^64 - 1 means that or more.
    pub number: u64,
    /// How many columns it has, if a byte parts them.
    pub width: Option<usize>,
    /// Whether it is one of the header.
    pub header: bool,
    /// Whether it is the last one of the header, and names another unit of the recorder's time.
    pub other_unit: bool,
    /// Whether its column has a number; a line of the header needs none.
    pub numbered: bool,
    /// Whether it has a time.
    pub timed: bool,
    /// When it is, if that is in the track: in picoseconds after its start.
    pub moment: Option<u128>,
}
