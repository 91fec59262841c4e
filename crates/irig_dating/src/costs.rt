//! What candidates of bits cost.

ghost use Rattle.std.specs.Prelude.{◌≡◌};
ghost use Rattle.irig_dating.specs.Choices.{Prices};

/// The costs of candidates. Bits and candidates count from 0, and each bit has one at least.
pub trait Costs {
    ghost prices: { Self → Prices };

    /// The last candidate of a bit.
    fn last(&self, bit: usize) -> u32
        ensures { result ≡ (prices self.now).last bit };

    /// What a candidate of a bit costs.
    fn pay(&self, bit: usize, candidate: usize) -> u32
        ensures { result ≡ (prices self.now).pay bit candidate };

    /// What it costs that a bit has a candidate, and the bit before it one of its own.
    fn join(&self, bit: usize, before: usize, candidate: usize) -> u32
        ensures { result ≡ (prices self.now).join bit before candidate };
}
