//! What a choice of a base for each bit costs.

ghost use Rattle.std.specs.Prelude.{◌≡◌, ◌-◌, ◌^◌, ◌<◌, IfSome, length, slice_get};
ghost use Rattle.irig_telling.specs.Dating.{base_at, bases_at, enter, is_said, items_of, join_at};
ghost use Rattle.irig_telling.specs.Dating.{join_bases, join_of, pay_of, prices_of, said_at};
ghost use Rattle.irig_telling.specs.Jumps.{begins, far_between, far_over, far_within, lapse, leap};
ghost use Rattle.irig_telling.specs.{Fitting.Fits, Jumps.leap_within};

use crate::dated::Dated;
use irig_candidates::Bit;
use irig_dating::Costs;
use irig_explaining::logarithm;

/// The time of the code jumps in a stretch: whole frames are lost, or a clock is set.
const SET: u64 = 176;

/// A minute has a second 60.
const SIXTY: u64 = 80;

/// A bit of a time that nobody knows: sixteen times the natural logarithm of 2.
const UNKNOWN: u32 = 11;

/// The elements of a frame.
pub(crate) const ELEMENTS: u64 = 100;

impl<'a> Costs for Dated<'a> {
    ghost prices = { prices_of };

    fn last(&self, bit: usize) -> u32 {
        (2 * self.bases_at(bit).len() as u32).saturating_sub(1)
    }

    fn pay(&self, bit: usize, candidate: usize) -> u32 {
        match self.bit_at(bit) {
            Some(this) => self.pay_of(this, self.said_at(bit, candidate)),
            None => 0,
        }
    }

    fn join(&self, bit: usize, before: usize, candidate: usize) -> u32 {
        enter(is_said(before), is_said(candidate)).max(self.join_at(bit, before, candidate))
    }
}

impl<'a> Dated<'a> {
    pub(crate) fn bit_at(&self, bit: usize) -> Option<Bit>
        ensures exact { result ≡ slice_get self.now.bits.now bit }
        ensures fits { IfSome result (Fits self.now.prices.now) }
    {
        self.bits.get(bit).copied()
    }

    /// The bases that a bit can have.
    pub fn bases_at(&self, bit: usize) -> &[u64]
        ensures exact { result.now ≡ bases_at self.now bit }
        ensures short { length result.now < 2 ^ 31 }
    {
        match self.which.get(bit) {
            Some(number) => self.set(*number as usize),
            None => &[],
        }
    }

    fn set(&self, number: usize) -> &[u64]
        ensures exact { result.now ≡ items_of (slice_get self.now.sets.now number) }
        ensures short { length result.now < 2 ^ 31 }
    {
        match self.sets.get(number) {
            Some(set) => set.as_slice(),
            None => &[],
        }
    }

    /// The base of a candidate.
    fn base_at(&self, bit: usize, candidate: usize) -> Option<u64>
        ensures { result ≡ base_at self.now bit candidate }
    {
        self.bases_at(bit).get(candidate / 2).copied()
    }

    /// The same; none, if the candidate is that the bit has any other time.
    pub(crate) fn said_at(&self, bit: usize, candidate: usize) -> Option<u64>
        ensures { result ≡ said_at self.now bit candidate }
    {
        if is_said(candidate) {
            self.base_at(bit, candidate)
        } else {
            None
        }
    }

    /// What it costs that two bits next to each other have the bases of candidates.
    fn join_at(&self, bit: usize, before: usize, candidate: usize) -> u32
        ensures { result ≡ join_at self.now (slice_get self.now.bits.now (bit - 1))
            (slice_get self.now.bits.now bit) (base_at self.now (bit - 1) before)
            (base_at self.now bit candidate) }
    {
        let last = bit.saturating_sub(1);
        let (one, other) = (self.base_at(last, before), self.base_at(bit, candidate));
        match (self.bit_at(last), self.bit_at(bit)) {
            (Some(before), Some(this)) => self.join_of(before, this, one, other),
            _ => 0,
        }
    }

    /// What a bit costs at a base, or at any other time.
    fn pay_of(&self, bit: Bit, base: Option<u64>) -> u32
        requires { Fits self.now.prices.now bit }
        ensures { result ≡ pay_of self.now.code.now bit base }
    {
        let Some(base) = base else {
            return UNKNOWN.min(bit.zero + bit.one);
        };
        let time = self.code.time(base, bit.frame);
        if self.code.is_one(time, usize::from(bit.element)) {
            bit.one
        } else {
            bit.zero
        }
    }

    /// What it costs that a bit has a base, and the next one another.
    fn join_of(&self, before: Bit, bit: Bit, one: Option<u64>, other: Option<u64>) -> u32
        requires before { Fits self.now.prices.now before }
        requires bit { Fits self.now.prices.now bit }
        ensures { result ≡ join_of self.now before bit one other }
    {
        match (one, other) {
            (Some(one), Some(other)) => self.join_bases(before, bit, one, other) as u32,
            _ => 0,
        }
    }

    fn join_bases(&self, before: Bit, bit: Bit, one: u64, other: u64) -> u64
        requires before { Fits self.now.prices.now before }
        requires bit { Fits self.now.prices.now bit }
        ensures exact { result ≡ join_bases self.now before bit one other }
        ensures small { result < 2 ^ 12 }
    {
        let sixty = self.begins(one, other);
        if before.stretch != bit.stretch {
            return leap(sixty, self.far_between(before, bit, one, other));
        }
        if one == other {
            return 0;
        }
        leap_within(sixty, self.far_within(before, bit, one, other))
    }

    /// Whether a second 60 begins.
    fn begins(&self, one: u64, other: u64) -> bool
        ensures { result ≡ begins self.now.code.now one other }
    {
        let inserted = self.code.inserted();
        one < inserted && inserted <= other
    }

    /// How far a bit's time is from those that can follow the time of another of its stretch.
    #[tactic(auto, unfolding(crate::specs::Jumps::far_within))]
    pub(crate) fn far_within(&self, before: Bit, bit: Bit, one: u64, other: u64) -> u64
        requires { bit.frame < 2 ^ 49 }
        ensures exact { result ≡ far_within self.now.code.now before bit one other }
        ensures small { result < 2 ^ 32 }
    {
        let count = bit.frame.saturating_sub(before.frame) + 1;
        let time = self.code.time(one, before.frame);
        self.code.far(time, count, self.code.time(other, bit.frame))
    }

    /// The same of a bit of another stretch.
    #[tactic(auto, unfolding(crate::specs::Jumps::far_between))]
    fn far_between(&self, before: Bit, bit: Bit, one: u64, other: u64) -> u64
        requires before { Fits self.now.prices.now before }
        requires bit { Fits self.now.prices.now bit }
        ensures exact { result
            ≡ far_between self.now.code.now self.now.prices.now before bit one other }
        ensures small { result < 2 ^ 32 }
    {
        let time = self.code.time(one, before.frame);
        self.far_over(
            self.lapse(before, bit),
            time,
            self.code.time(other, bit.frame),
        )
    }

    /// How far a time is from those that can come some elements after another.
    fn far_over(&self, elements: u64, time: u64, next: u64) -> u64
        requires { elements < 2 ^ 50 }
        ensures exact { result ≡ far_over self.now.code.now elements time next }
        ensures small { result < 2 ^ 32 }
    {
        let low = self.code.far(time, elements / ELEMENTS, next);
        let high = self
            .code
            .far(time, (elements + (ELEMENTS - 1)) / ELEMENTS, next);
        low.min(high)
    }

    /// How many elements there are from the begin of the frame before that of a bit to that of
    /// another one.
    fn lapse(&self, before: Bit, bit: Bit) -> u64
        requires before { Fits self.now.prices.now before }
        requires bit { Fits self.now.prices.now bit }
        ensures exact { result ≡ lapse self.now.prices.now before bit }
        ensures small { result < 2 ^ 50 }
    {
        let gone = self.prices.gone(before.rise as usize, bit.rise as usize);
        let all = ELEMENTS + u64::from(before.element) + gone;
        all.saturating_sub(u64::from(bit.element))
    }
}

/// Whether a candidate is that a bit has the time of its base.
fn is_said(candidate: usize) -> bool
    ensures { result ≡ is_said candidate }
{
    candidate % 2 == 0
}

/// What it costs to come from the time of a base to any other one, or back.
fn enter(one: bool, other: bool) -> u32
    ensures { result ≡ enter one other }
{
    match (one, other) {
        (true, true) | (false, false) => 0,
        (true, false) | (false, true) => SET as u32,
    }
}

/// What it costs that the time goes on, into a second 60 or not, or jumps by some frames.
fn leap(sixty: bool, by: u64) -> u64
    requires { by < 2 ^ 32 }
    ensures exact { result ≡ leap sixty by }
    ensures small { result < 2 ^ 10 }
{
    if by != 0 {
        return logarithm(1 + by);
    }
    if sixty { SIXTY } else { 0 }
}

/// The same in a stretch.
fn leap_within(sixty: bool, by: u64) -> u64
    requires { by < 2 ^ 32 }
    ensures exact { result ≡ leap_within sixty by }
    ensures small { result < 2 ^ 12 }
{
    leap(sixty, by) + if by == 0 { 0 } else { SET }
}
