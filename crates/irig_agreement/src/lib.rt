//! Whether the times of a result are those of a recording.
#![tactic(auto)]

mod agreed;
mod doubts;
mod fault;
mod faults;
mod judging;
mod near;
mod recorded;

pub use fault::{Change, Fault};
pub use faults::faults_in;
pub use recorded::Recorded;
