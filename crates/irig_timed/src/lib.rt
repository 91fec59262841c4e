//! The time of each moment of a track by the law of time, and how far it can be off.
#![tactic(auto)]

mod apart;
mod around;
mod gap;
mod held;
mod known;
mod law;
mod line;
mod moment;
mod off;
mod run;
mod stray;
mod stretch;

pub use gap::Gap;
pub use held::held_frames;
pub use known::Known;
pub use law::{moments_are_true, reasons_are_exact, times_are_near};
pub use moment::{Moment, time_at, why_at};
pub use off::off_of;
pub use run::{Place, Run};
