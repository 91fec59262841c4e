//! Bits frame by frame.

ghost use Rattle.std.specs.Prelude.{◌≡◌, ◌<◌, ◌≤◌, IsTrue, length};

use crate::bit::Bit;

/// How many bits the first frames have.
pub fn bits_of(bits: &[Bit], frames: usize) -> usize
    requires { 1 ≤ frames }
    ensures within { result ≤ length bits.now }
    ensures some { 1 ≤ length bits.now → 1 ≤ result }
{
    let mut begun = 0;
    for place in 0..bits.len() {
        if begins(bits, place) {
            if begun == frames {
                return place;
            }
            begun += 1;
        }
    }
    bits.len()
}

/// Whether a bit is the first one of its frame.
pub fn begins(bits: &[Bit], place: usize) -> bool
    requires { place < length bits.now }
    ensures { place ≡ 0 → IsTrue result }
{
    if place == 0 {
        return true;
    }
    let (before, bit) = (bits[place - 1], bits[place]);
    before.frame != bit.frame || before.stretch != bit.stretch
}
