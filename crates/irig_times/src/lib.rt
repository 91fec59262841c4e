//! The times of frames, and what pulses say of them.
#![tactic(auto)]

mod elements;
mod follows;
mod frame_lens;
mod start;
mod steps;
mod time;
mod why;

pub use elements::{contradicts, fields_at, time_elements};
pub use frame_lens::FrameLens;
pub use start::{FrameStart, start_of};
pub use steps::{is_in_step_at, pulse_at};
pub use time::{Time, timed};
pub use why::Why;
