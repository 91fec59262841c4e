//! The times that frames can have, by what their elements look like.
#![tactic(auto)]

mod bit;
mod blocks;
mod calendar;
mod cheapest;
mod code;
mod finding;
mod found;
mod frames;
mod jumps;
mod pair;
mod row;
mod sets;

pub use bit::Bit;
pub use cheapest::cheapest_bases;
pub use code::Code;
pub use finding::{best_base, find_bases, put_base};
pub use found::Found;
pub use jumps::{Jumps, Shifts};
pub use pair::Pair;
pub use row::Field;
pub use sets::Sets;
