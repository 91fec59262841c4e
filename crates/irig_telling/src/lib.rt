//! Which time each element of a recording has, by all cheap choices of times.
#![tactic(auto)]

mod counted;
mod counting;
mod dated;
mod dating;
mod gathering;
mod look;
mod looking;
mod side;
mod sides;
mod tally;
mod tallying;
mod told;

pub use counted::Counted;
pub use counting::count_elements;
pub use dated::Dated;
pub use gathering::bits_of;
pub use told::tell;
