//! Recordings of a digital wire: how long one is, its pulses, and the text of its dump.
#![tactic(auto)]

mod edges;
mod kept_pulse;
mod long_recording;
mod pulse;
mod recording;
mod writer;

pub use edges::Edges;
pub use long_recording::{LONG_PULSES_LIMIT, LongRecording};
pub use pulse::Pulse;
pub use recording::{LENGTH_LIMIT, PULSES_LIMIT, Recording};
pub use writer::{TextWriter, text};
