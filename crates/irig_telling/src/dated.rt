//! The bits of a recording.

ghost use Rattle.std.specs.Prelude.{All};
ghost use Rattle.irig_telling.specs.Fitting.{Fits, IsShort};

use irig_candidates::{Bit, Code};
use irig_explaining::Prices;

/// The bits of a recording, and the bases that each can have.
#[derive(Clone, Copy)]
pub struct Dated<'a> {
    pub code: &'a Code,
    /// They have the recorder's clock.
    pub prices: &'a Prices<'a>,
    /// In the order of their rises.
    pub bits: &'a [Bit],
    pub sets: &'a [Vec<u64>],
    /// The number of the set of each bit.
    pub which: &'a [u32],
    ghost fits: { All (Fits prices.now) bits.now },
    ghost short: { All IsShort sets.now },
}
