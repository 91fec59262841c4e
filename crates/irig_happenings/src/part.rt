//! The parts of a listing.

use crate::happening::Happening;
use crate::noise::Noise;
use crate::stretch::Stretch;

/// Each part is a line.
#[derive(Clone, Copy)]
pub enum Part {
    Stretch(Stretch),
    Happening(Happening),
    Noise(Noise),
}
