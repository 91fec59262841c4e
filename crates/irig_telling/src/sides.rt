//! The time of an element, by the bits next to it.

ghost use Rattle.std.specs.Prelude.{◌≡◌, ◌<◌, ◌^◌, IfSome};
ghost use Rattle.irig_telling.specs.Sides.{base_both, base_by, base_of, bits_up_to, goes_on_to, side};
ghost use Rattle.irig_telling.specs.Sides.{side_before, time_told};

use crate::counted::Counted;
use crate::dated::Dated;
use crate::dating::ELEMENTS;
use crate::side::Side;
use irig_candidates::Bit;

impl<'a> Dated<'a> {
    /// The time of the frame of an element, if it is sure: the element of a claimed rise, or one
    /// that follows before the next claim.
    pub fn time_told(&self, told: &[Option<u64>], rise: u32, at: Counted) -> Option<u64>
        ensures { result ≡ time_told self.now told.now rise at }
    {
        let base = self.base_of(told, rise, at)?;
        Some(self.code.time(base, at.element / ELEMENTS))
    }

    /// Its base.
    fn base_of(&self, told: &[Option<u64>], rise: u32, at: Counted) -> Option<u64>
        ensures { result ≡ base_of self.now told.now rise at }
    {
        let count = self.bits_up_to(rise);
        let before = self.side_before(told, at.stretch, count);
        let after = self.side(told, at.stretch, count);
        self.base_by(at.element / ELEMENTS, before, after)
    }

    /// How many bits come no later than a rise.
    fn bits_up_to(&self, rise: u32) -> usize
        ensures { result ≡ bits_up_to self.now rise }
    {
        self.bits.iter().filter(|bit| bit.rise <= rise).count()
    }

    fn side_before(&self, told: &[Option<u64>], stretch: u32, count: usize) -> Option<Side>
        ensures { result ≡ side_before self.now told.now stretch count }
    {
        if count == 0 {
            return None;
        }
        self.side(told, stretch, count - 1)
    }

    /// A bit of a stretch, and its base.
    fn side(&self, told: &[Option<u64>], stretch: u32, bit: usize) -> Option<Side>
        ensures exact { result ≡ side self.now told.now stretch bit }
        ensures early { IfSome result (λ s. s.bit.frame < 2 ^ 49) }
    {
        match (self.bit_at(bit), told.get(bit)) {
            (Some(bit), Some(base)) if bit.stretch == stretch => Some(Side { bit, base: *base }),
            _ => None,
        }
    }

    /// The base of an element of a frame, by the bits on both sides.
    fn base_by(&self, frame: u64, before: Option<Side>, after: Option<Side>) -> Option<u64>
        requires { IfSome after (λ s. s.bit.frame < 2 ^ 49) }
        ensures { result ≡ base_by self.now.code.now frame before after }
    {
        match (before, after) {
            (None, None) => None,
            (Some(side), None) | (None, Some(side)) => side.base,
            (Some(one), Some(other)) => {
                self.base_both(frame, one.bit, other.bit, one.base, other.base)
            }
        }
    }

    fn base_both(
        &self,
        frame: u64,
        before: Bit,
        after: Bit,
        one: Option<u64>,
        other: Option<u64>,
    ) -> Option<u64>
        requires { after.frame < 2 ^ 49 }
        ensures { result ≡ base_both self.now.code.now frame before after one other }
    {
        let (one, other) = (one?, other?);
        if one == other {
            return Some(one);
        }
        if !self.goes_on_to(before, after, one, other) {
            return None;
        }
        if frame == before.frame {
            Some(one)
        } else {
            Some(other)
        }
    }

    /// Whether the time that follows has another base.
    fn goes_on_to(&self, before: Bit, after: Bit, one: u64, other: u64) -> bool
        requires { after.frame < 2 ^ 49 }
        ensures { result ≡ goes_on_to self.now.code.now before after one other }
    {
        let next = after.frame > 0 && after.frame - 1 == before.frame;
        next && self.far_within(before, after, one, other) == 0
    }
}
