//! The elements of a frame that are One, gathered one by one.

ghost use Rattle.std.specs.Prelude.{◌≡◌, ◌<◌, ◌++◌, ◌∷◌, [], List, length};
ghost use Rattle.irig_codes.specs.declared.width.Element.{Element};
ghost use Rattle.irig_codes.specs.{Ones.ones_of, Ones.raised, Reading.counts};

use crate::ones::Ones;
use std::marker::Model;

/// Each new element is bit 99, and moves the others one place down: so no weight has to be kept.
#[derive(Clone, Copy)]
pub struct Gathering {
    bits: u128,
}

impl Model for Gathering {
    ghost use Rattle.std.specs.Prelude.{ℕ};

    ghost Value = { ℕ };

    ghost view = { λ g. g.bits };

    ghost inverse = { λ n. record { bits = n } };
}

impl Gathering {
    #[inline(always)]
    pub fn none() -> Gathering
        ensures { result ≡ 0 }
    {
        Gathering { bits: 0 }
    }

    /// These elements, and the next one of the frame, which is One or not.
    #[inline(always)]
    pub fn and(self, is_one: bool) -> Gathering
        ensures { (frame : List Element) (e : Element) → length frame < 100 → raised frame ≡ self
            → counts e ≡ is_one → raised (frame ++ (e ∷ [])) ≡ result }
    {
        Gathering {
            bits: self.bits / 2 + if is_one { 1 << 99 } else { 0 },
        }
    }

    /// Which elements of a whole frame are One. Only after 100 elements the first one is bit 0.
    #[inline(always)]
    pub fn ones(self) -> Ones
        ensures { (frame : List Element) → length frame ≡ 100 → raised frame ≡ self
            → ones_of frame ≡ result }
    {
        Ones { bits: self.bits }
    }
}
