//! Moments in time, and the fields of the frames that carry them.
#![tactic(auto)]

mod calendar;
mod generated;
mod moment;
mod written;

pub use moment::Moment;
