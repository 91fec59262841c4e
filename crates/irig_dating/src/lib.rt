//! The time of each bit by the cheapest choice among candidates, and what all cheap choices say.
#![tactic(auto)]

mod choice;
mod costs;
mod rows;
mod tables;
mod turned;
mod ways;

pub use choice::Choice;
pub use costs::Costs;
pub use tables::Tables;
