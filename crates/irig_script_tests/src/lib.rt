//! Scripts, tested by their public calls, and runs with a witness that keeps what it sees.
#![tactic(auto)]

#[cfg(test)]
mod in_memory;
#[cfg(test)]
mod scripts;
mod sights;
mod watching;

pub use sights::Sights;
pub use watching::{new_files, watch, watch_anew};
