//! What steps cost, and the places that they give.

ghost use Rattle.std.specs.Prelude.{ℕ, ◌≡◌, ◌+◌, ◌<◌, ◌≤◌, false, true};
ghost use Rattle.irig_explaining.specs.Reached.{IsReach, reaches};
ghost use Rattle.irig_explaining.specs.declared.claim.Kind.{Kind};
ghost use Rattle.irig_explaining.specs.declared.claim.Kind.TheVariants.{Jump};

use crate::claim::{Claim, Kind};
use crate::reach::Reach;
use crate::remote::Remote;

/// The costs of steps. `price` takes the rise and the element of a claim, those of the next one,
/// and the kind of the step between them. A jump depends on its elements only by their classes.
pub trait Costs {
    ghost price: { Self → ℕ → ℕ → ℕ → ℕ → Kind → ℕ };

    ghost from_class: { Self → ℕ → ℕ };

    ghost to_class: { Self → ℕ → ℕ };

    /// What a step from one claim to another costs.
    fn price(&self, from: Claim, to: Claim) -> u32
        ensures { result ≡ price self.now from.rise from.element to.rise to.element to.kind };

    /// What each step between claims of two rises costs at least. The more, the fewer are priced;
    /// no more than `enough` is asked for.
    fn least(&self, rise: usize, later: usize, enough: u64) -> u32
        ensures { (e f : ℕ) (k : Kind) → result ≤ price self.now rise e later f k };

    /// What steps to a rise cost at least from the rises before one. None of these is looked at if
    /// that is too much.
    fn remote_from(&self, later: usize) -> Remote
        ensures { (r e f : ℕ) (k : Kind) → r < result.rise
            → result.least ≤ price self.now r e later f k };

    /// The same of steps from a rise to those from one on, of some rises.
    fn remote_to(&self, rise: usize, count: usize) -> Remote
        ensures { (e q f : ℕ) (k : Kind) → result.rise ≤ q → q < count
            → result.least ≤ price self.now rise e q f k };

    /// What each step of a kind between claims of two rises costs at least.
    fn least_by(&self, rise: usize, later: usize, kind: Kind) -> u32
        ensures { (e f : ℕ) → result ≤ price self.now rise e later f kind };

    /// The class of an element from which a jump leads.
    fn from_class(&self, element: usize) -> usize
        ensures { result ≡ from_class self.now element };

    /// The class of an element to which a jump leads.
    fn to_class(&self, element: usize) -> usize
        ensures { result ≡ to_class self.now element };

    /// How many classes the first elements have from which a jump leads.
    fn from_classes(&self, states: u32) -> usize
        ensures { (e : ℕ) → e < states → from_class self.now e < result };

    /// How many classes the first elements have to which a jump leads.
    fn to_classes(&self, states: u32) -> usize
        ensures { (f : ℕ) → f < states → to_class self.now f < result };

    /// What a jump costs from a claim to a rise and an element of a class.
    fn jump_to(&self, from: Claim, later: usize, class: usize) -> u32
        ensures { (f : ℕ) → to_class self.now f ≡ class
            → price self.now from.rise from.element later f Jump ≡ result };

    /// What a jump costs from a rise and an element of a class to a claim.
    fn jump_from(&self, rise: usize, class: usize, to: Claim) -> u32
        ensures { (e : ℕ) → from_class self.now e ≡ class
            → price self.now rise e to.rise to.element Jump ≡ result };

    /// The elements of a rise to which a step from a claim can be cheaper than a jump.
    fn reach_from(&self, from: Claim, later: usize) -> Reach
        ensures fits { IsReach result }
        ensures others { (f : ℕ) (k : Kind) → reaches result f ≡ false
            → price self.now from.rise from.element later f Jump
            ≤ price self.now from.rise from.element later f k };

    /// The elements of a rise from which a step to a claim can be cheaper than a jump.
    fn reach_to(&self, rise: usize, to: Claim) -> Reach
        ensures fits { IsReach result }
        ensures others { (e : ℕ) (k : Kind) → reaches result e ≡ false
            → price self.now rise e to.rise to.element Jump
            ≤ price self.now rise e to.rise to.element k };

    /// How much more a jump from the claim that a rise is one element costs, at most, than any step
    /// to the same claim from the claim that it is one of a class. The less, the fewer nodes.
    fn most_from(&self, rise: usize, this: usize, class: usize) -> u32
        ensures { (e q f : ℕ) (k : Kind) → from_class self.now e ≡ class
            → price self.now rise this q f Jump ≤ price self.now rise e q f k + result };

    /// The same of a jump to a claim, and any step to the others from the same claim.
    fn most_to(&self, rise: usize, this: usize, class: usize) -> u32
        ensures { (f r e : ℕ) (k : Kind) → to_class self.now f ≡ class
            → price self.now r e rise this Jump ≤ price self.now r e rise f k + result };
}

/// The place that a step gives to each interval between rises that it goes over. `place` takes what
/// `price` takes.
pub trait Places {
    ghost place: { Self → ℕ → ℕ → ℕ → ℕ → Kind → ℕ };

    /// The place that a step from one claim to another gives.
    fn place(&self, from: Claim, to: Claim) -> u64
        ensures { result ≡ place self.now from.rise from.element to.rise to.element to.kind };

    /// Whether no jump is known to give a place. Then steps from nodes and to nodes alone answer
    /// what is sure of it.
    fn no_jump_gives(&self, asked: u64) -> bool
        ensures { result ≡ true → (r e q f : ℕ) → place self.now r e q f Jump ≡ asked → ⊥ };
}
