//! The elements of a frame that are One, as the bits of a number.

ghost use Rattle.std.specs.Prelude.{◌≡◌, ◌<◌, ◌≤◌};
ghost use Rattle.irig_codes.specs.Ones.{ones_of, bits_in, IsLowestOutside};
ghost use Rattle.irig_codes.specs.Reading.{counts};

use crate::width::Element;
use std::marker::Model;

/// Which elements of a frame are One: element k, from 0, is bit k.
#[derive(Clone, Copy)]
pub struct Ones {
    pub(crate) bits: u128,
}

impl Model for Ones {
    ghost use Rattle.std.specs.Prelude.{ℕ};

    ghost Value = { ℕ };

    ghost view = { λ o. o.bits };

    ghost inverse = { λ n. record { bits = n } };
}

#[inline(always)]
fn is_one(element: Element) -> bool
    ensures { result ≡ counts element }
{
    element == Element::One
}

impl Ones {
    pub fn of(frame: &[Element; 100]) -> Ones
        ensures { result ≡ ones_of frame.now }
    {
        let mut bits = 0;
        // Each doubling moves the elements in `bits` up by one, so element 0 ends as bit 0.
        for place in 0..100 {
            bits = 2 * bits + is_one(frame[99 - place]) as u128;
        }
        Ones { bits }
    }

    /// The number of `count` elements from element `from` on, the first as the lowest bit. Nothing
    /// is after element 99, and no number in a frame has more than 45 bits.
    #[inline(always)]
    pub fn bits(self, from: u8, count: u8) -> u64
        requires within { from < 100 }
        requires few { count ≤ 45 }
        ensures { result ≡ bits_in self from count }
    {
        ((self.bits >> from) % (1 << count)) as u64
    }

    /// The lowest element, from 0, that is One and whose bit in `mask` is not set.
    #[inline(always)]
    pub fn lowest_outside(self, mask: u128) -> Option<u8>
        ensures { IsLowestOutside self mask result }
    {
        let rest = self.bits & !mask;
        if rest == 0 {
            None
        } else {
            Some(rest.trailing_zeros() as u8)
        }
    }
}
