//! A gap buffer: a list with a place where items come and go, and a capacity.
#![tactic(auto)]

mod block;
mod cells;
mod gap;
mod growth;
mod moves;

pub use gap::Gap;
