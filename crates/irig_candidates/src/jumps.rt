//! What a jump of the time costs, and how stretches follow each other.

use crate::bit::Bit;

pub trait Jumps {
    /// That it jumps at all.
    fn set(&self) -> u32;

    /// That it jumps by some frames, from 1 on.
    fn by(&self, frames: u64) -> u32;
}

/// How stretches follow each other, by the recorder's clock.
pub trait Shifts {
    /// How many frames frame 0 of a bit's stretch is after that of a bit before it, at least and at
    /// most, round the year; 0 in the same stretch.
    fn shifts(&self, one: &Bit, bit: &Bit) -> (u64, u64);
}
