//! A track of pulses: a length and times of rise and fall, and its edits.
#![tactic(auto)]

mod edits;
mod lens;
mod shift;
mod sides;
mod span;
mod splice;
mod stands;
mod toggle;
mod track;
mod track_text;

pub use irig_recording::Pulse;
pub use lens::Lens;
pub use span::Span;
pub use track::Track;
pub use track_text::TrackText;
