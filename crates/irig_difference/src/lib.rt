//! The stretches in which two recordings differ.
#![tactic(auto)]

mod differences;
mod edges_left;
mod patch_text;

pub use differences::Differences;
pub use irig_recording::{Pulse, Recording};
pub use patch_text::{PatchText, put_line, put_note, put_number};
