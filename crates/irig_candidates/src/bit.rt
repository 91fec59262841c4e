//! What an element looks like that is a bit of the time.

ghost use Rattle.std.specs.Prelude.{◌≡◌, ◌^◌, ◌<◌};

/// What it costs that the element of a rise is a zero, and that it is a one. Frames count from the
/// begin of their stretch, elements from 0 in their frame.
#[derive(Clone, Copy)]
pub struct Bit {
    pub stretch: u32,
    pub rise: u32,
    pub frame: u64,
    pub element: u8,
    pub zero: u32,
    pub one: u32,
}

impl Bit {
    ghost use Rattle.irig_candidates.specs.Bits.{price};

    /// What it costs as a one, or as a zero.
    pub fn price(&self, is_one: bool) -> u64
        ensures value { result ≡ price self.now is_one }
        ensures small { result < 2 ^ 32 }
    {
        if is_one {
            u64::from(self.one)
        } else {
            u64::from(self.zero)
        }
    }
}
