//! The state: a track with its format, marks and frames.

pub mod marks;
pub mod present;
