//! Bits that are counted from the last one.

ghost use Rattle.std.specs.Prelude.{◌≡◌, ◌-◌};
ghost use Rattle.irig_dating.specs.Sure.{turned};

use crate::costs::Costs;

#[derive(Drop)]
pub struct Turned<'a, C> {
    pub costs: &'a C,
    pub bits: usize,
}

impl<'a, C: Costs> Turned<'a, C> {
    /// The number of a bit from the other end.
    fn turned(&self, bit: usize) -> usize
        ensures { result ≡ self.now.bits - 1 - bit }
    {
        self.bits.saturating_sub(1).saturating_sub(bit)
    }
}

impl<'a, C: Costs> Costs for Turned<'a, C> {
    ghost prices = { λ t. turned t.bits (C.prices t.costs.now) };

    fn last(&self, bit: usize) -> u32 {
        self.costs.last(self.turned(bit))
    }

    fn pay(&self, bit: usize, candidate: usize) -> u32 {
        self.costs.pay(self.turned(bit), candidate)
    }

    fn join(&self, bit: usize, before: usize, candidate: usize) -> u32 {
        let after = self.bits.saturating_sub(bit);
        self.costs.join(after, candidate, before)
    }
}
