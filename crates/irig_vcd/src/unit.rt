//! The unit of time of a dump.

ghost use Rattle.std.specs.Prelude.{◌≡◌, ◌≤◌, ◌-◌, ◌==◌, nat_le};
ghost use Rattle.irig_vcd.specs.Code.Time.{factor_of, limit_of};

use irig_recording::LENGTH_LIMIT;
use std::marker::Model;

/// A unit of time: a power of ten of femtoseconds, from 0 (1 fs) to 17 (100 s). A microsecond is 9,
/// a nanosecond 6.
#[derive(Clone, Copy)]
pub struct Unit {
    exponent: u8,
}

impl Model for Unit {
    ghost use Rattle.std.specs.Prelude.{ℕ, ◌≤◌};

    ghost Value = { ℕ };

    ghost view = { λ u. u.exponent };

    ghost invariant = { λ u. u.exponent ≤ 17 };

    ghost inverse = { λ v. record { exponent = v } };
}

impl Unit {
    pub fn new(exponent: u8) -> Unit
        requires { exponent ≤ 17 }
        ensures { result ≡ exponent }
    {
        Unit { exponent }
    }

    #[inline(always)]
    pub fn is_microsecond(self) -> bool
        ensures { result ≡ (self == 9) }
    {
        self.exponent == 9
    }

    #[inline(always)]
    pub fn is_nanosecond(self) -> bool
        ensures { result ≡ (self == 6) }
    {
        self.exponent == 6
    }

    /// Whether a microsecond is a whole number of units.
    pub fn divides_microsecond(self) -> bool
        ensures { result ≡ nat_le self 9 }
    {
        self.exponent <= 9
    }

    /// How many of the last decimal digits of a number of units are below one microsecond.
    #[inline(always)]
    pub fn digits_below(self) -> u8
        ensures value { result ≡ 9 - self }
        ensures within { result ≤ 9 }
    {
        9u8.saturating_sub(self.exponent)
    }

    /// The largest whole part of a time that is at most 2^40 microseconds.
    #[tactic(auto, unfolding(crate::specs::Code::Time::limit_of))]
    pub fn limit(self) -> u64
        ensures { result ≡ limit_of self }
    {
        match self.exponent {
            10 => 109951162777,
            11 => 10995116277,
            12 => 1099511627,
            13 => 109951162,
            14 => 10995116,
            15 => 1099511,
            16 => 109951,
            17 => 10995,
            _ => LENGTH_LIMIT,
        }
    }

    /// How many microseconds 1 of the whole part of a time is.
    #[tactic(auto, unfolding(crate::specs::Code::Time::factor_of))]
    pub fn factor(self) -> u64
        ensures { result ≡ factor_of self }
    {
        match self.exponent {
            10 => 10,
            11 => 100,
            12 => 1000,
            13 => 10000,
            14 => 100000,
            15 => 1000000,
            16 => 10000000,
            17 => 100000000,
            _ => 1,
        }
    }
}
