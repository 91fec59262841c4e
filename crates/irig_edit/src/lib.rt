//! A session: a track under edit, in which every edit can be undone.
#![tactic(auto)]

mod changes;
mod edits;
mod law;
mod opened;
mod saved;
mod session;
mod state;

pub use irig_index::{Cause, Verdict};
pub use irig_track::Pulse;
pub use law::{
    calls_give_back, generated_frames_read_back, groups_give_back, saved_goes_on, steps_hold_pulses,
};
pub use saved::SavedText;
pub use session::frame::Frame;
pub use session::refusal::Refusal;
pub use session::session::Session;
